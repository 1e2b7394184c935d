//! What accepted commands on clients, ports and filters do. After an `Err`, which is out of memory, the sequencer is
//! of no more use.

ghost use Rattle.std.specs.Prelude.{◌≡◌, [], None, OnOk};
ghost use Rattle.seq_state.specs.declared.input.Command.TheVariants as Command;
ghost use Rattle.seq_state.specs.declared.log.Reply.TheVariants as Reply;
ghost use Rattle.seq_commands.specs.Whole.{IsStepTakenUnkeyed, refusal_in, step_in};

use crate::sequencer::{Sequencer, Turn};
use memory::OutOfMemory;
use node_table::{Caps, FilterNo, PortNo};
use route_filter::{Rule, RuleArgs};

impl Sequencer<'_, '_> {
    /// Opens the actor.
    pub(crate) fn open(
        &mut self,
        turn: Turn,
        name: &[u8],
        in_size: u32,
        out_size: u32,
    ) -> Result<(), OutOfMemory>
        requires accepted { refusal_in self.old turn (Command.Open name.now in_size out_size)
            ≡ None }
        ensures { OnOk result (IsStepTakenUnkeyed self.old self.new
            (step_in self.old turn (Command.Open name.now in_size out_size)) Reply.Done []) }
    {
        self.patchbay.open(turn.actor, name, in_size, out_size)
    }

    /// Makes a port.
    pub(crate) fn create_port(
        &mut self,
        turn: Turn,
        port: PortNo,
        name: &[u8],
        caps: Caps,
    ) -> Result<(), OutOfMemory>
        requires accepted { refusal_in self.old turn (Command.CreatePort port name.now caps)
            ≡ None }
        ensures { OnOk result (IsStepTakenUnkeyed self.old self.new
            (step_in self.old turn (Command.CreatePort port name.now caps)) Reply.Done []) }
    {
        self.patchbay.create_port(turn.actor, port, name, caps)
    }

    /// Makes a filter.
    pub(crate) fn create_filter(
        &mut self,
        turn: Turn,
        filter: FilterNo,
        caps: Caps,
        rule: &RuleArgs,
    ) -> Result<(), OutOfMemory>
        requires accepted { refusal_in self.old turn (Command.CreateFilter filter caps rule.now)
            ≡ None }
        ensures { OnOk result (IsStepTakenUnkeyed self.old self.new
            (step_in self.old turn (Command.CreateFilter filter caps rule.now)) Reply.Done []) }
    {
        let Some(rule) = Rule::new(*rule) else {
            unreachable!()
        };
        self.patchbay.create_filter(turn.actor, filter, caps, rule)
    }

    /// Gives a filter another rule.
    pub(crate) fn set_filter(&mut self, turn: Turn, filter: FilterNo, rule: &RuleArgs)
        requires accepted { refusal_in self.old turn (Command.SetFilter filter rule.now) ≡ None }
        ensures { IsStepTakenUnkeyed self.old self.new
            (step_in self.old turn (Command.SetFilter filter rule.now)) Reply.Done [] }
    {
        let Some(rule) = Rule::new(*rule) else {
            unreachable!()
        };
        self.patchbay.set_filter(turn.actor, filter, rule);
    }

    /// Drops a filter with its subscriptions.
    pub(crate) fn delete_filter(&mut self, turn: Turn, filter: FilterNo)
        requires accepted { refusal_in self.old turn (Command.DeleteFilter filter) ≡ None }
        ensures { IsStepTakenUnkeyed self.old self.new
            (step_in self.old turn (Command.DeleteFilter filter)) Reply.Done [] }
    {
        self.patchbay.delete_filter(turn.actor, filter);
    }
}
