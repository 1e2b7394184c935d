//! What clients ask of their pools.

ghost use Rattle.std.specs.Prelude.{◌≡◌, [], None, IfOk};
ghost use Rattle.seq_state.specs.declared.input.Command.{Command};
ghost use Rattle.seq_state.specs.declared.log.Reply.{Reply};
ghost use Rattle.seq_settle.specs.Cells.{AreCells};
ghost use Rattle.seq_commands.specs.Whole.{refusal_in, step_in, IsStepTakenUnkeyed};

use crate::sequencer::{Sequencer, Turn};
use memory::{Items, OutOfMemory};
use seq_state::{Arrival, Reply};

impl Sequencer<'_, '_> {
    /// Takes the oldest of what waits in the actor's input pool. Memory is for the answer alone.
    // Inline, since the place for its answer would else be cleared at the start of each command.
    #[inline(always)]
    pub(crate) fn receive(&mut self, turn: Turn, max: u32) -> Result<Items<Arrival>, OutOfMemory>
        requires accepted { refusal_in self.old turn (Command.Receive max) ≡ None }
        ensures { let step = step_in self.old turn (Command.Receive max) in
            IfOk result (λ items.
            IsStepTakenUnkeyed self.old self.new step (Reply.Received items) []) }
    {
        let items = self.patchbay.receive(turn.actor, max)?;
        Ok(Items::new(items))
    }

    /// Lets the actor listen: what comes to it waits for nobody.
    pub(crate) fn listen(&mut self, turn: Turn)
        requires accepted { refusal_in self.old turn Command.Listen ≡ None }
        ensures { IsStepTakenUnkeyed self.old self.new
            (step_in self.old turn Command.Listen) Reply.Done [] }
    {
        self.patchbay.listen(turn.actor);
    }

    /// Lets what comes to the actor wait again.
    pub(crate) fn unlisten(&mut self, turn: Turn)
        requires accepted { refusal_in self.old turn Command.Unlisten ≡ None }
        ensures { IsStepTakenUnkeyed self.old self.new
            (step_in self.old turn Command.Unlisten) Reply.Done [] }
    {
        self.patchbay.unlisten(turn.actor);
    }

    /// How full the actor's pools are.
    pub(crate) fn pool_status(&self, turn: Turn) -> Reply
        requires cells { AreCells self.now.cells.cells self.now.steps }
        requires accepted { refusal_in self.now turn Command.PoolStatus ≡ None }
        ensures { let step = step_in self.now turn Command.PoolStatus in
            IsStepTakenUnkeyed self.now self.now step result [] }
    {
        Reply::Pools {
            waiting: self.patchbay.clients().waiting(turn.actor),
            lost: self.patchbay.clients().lost(turn.actor),
            used: self.cells.used(turn.actor),
        }
    }
}
