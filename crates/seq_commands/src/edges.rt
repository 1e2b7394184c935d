//! Subscriptions that are made and ended.

ghost use Rattle.std.specs.Prelude.{◌≡◌, [], None, OnOk};
ghost use Rattle.seq_state.specs.declared.input.Command.{Command};
ghost use Rattle.seq_state.specs.declared.log.Reply.{Reply};
ghost use Rattle.seq_commands.specs.Whole.{refusal_in, step_in, IsStepTakenUnkeyed};

use crate::sequencer::{Sequencer, Turn};
use memory::OutOfMemory;
use node_table::Addr;

impl Sequencer<'_, '_> {
    /// Subscribes the target to the source.
    pub(crate) fn connect(
        &mut self,
        turn: Turn,
        source: Addr,
        target: Addr,
    ) -> Result<(), OutOfMemory>
        requires accepted { refusal_in self.old turn (Command.Connect source target) ≡ None }
        ensures { let step = step_in self.old turn (Command.Connect source target) in
            OnOk result (IsStepTakenUnkeyed self.old self.new step Reply.Done []) }
    {
        self.patchbay.connect(source, target)
    }

    /// Ends a subscription. It takes no memory.
    pub(crate) fn disconnect(&mut self, turn: Turn, source: &Addr, target: &Addr)
        requires accepted { let command = Command.Disconnect source.now target.now in
            refusal_in self.old turn command ≡ None }
        ensures { let step = step_in self.old turn (Command.Disconnect source.now target.now) in
            IsStepTakenUnkeyed self.old self.new step Reply.Done [] }
    {
        self.patchbay.disconnect(source, target);
    }
}
