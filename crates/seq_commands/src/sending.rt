//! The commands that send at once.

ghost use Rattle.std.specs.Prelude.{◌≡◌, None, ◌++◌, IfOk, OnOk};
ghost use Rattle.seq_state.specs.declared.input.Command.TheVariants as Command;
ghost use Rattle.seq_state.specs.declared.log.Reply.TheVariants as Reply;
ghost use Rattle.seq_commands.specs.Whole.{refusal_in, step_in, IsStepTakenUnkeyed};

use crate::sequencer::{Sequencer, Turn};
use memory::OutOfMemory;
use midi_wire::Message;
use node_table::PortNo;
use seq_settle::Desk;
use seq_state::{Delivery, Reply};

impl Sequencer<'_, '_> {
    /// Feeds the stream of a port, and sends what messages are whole now.
    // Inline, since the place for its answer would else be cleared at the start of each command.
    #[inline(always)]
    pub(crate) fn bytes(
        &mut self,
        turn: Turn,
        port: PortNo,
        bytes: &[u8],
        out: &mut Vec<Delivery>,
    ) -> Result<Reply, OutOfMemory>
        requires accepted { refusal_in self.old turn (Command.Bytes port bytes.now) ≡ None }
        ensures gives { let step = step_in self.old turn (Command.Bytes port bytes.now) in
            IfOk result (λ r. IsStepTakenUnkeyed self.old self.new step r step.delivered) }
        ensures sent { let step = step_in self.old turn (Command.Bytes port bytes.now) in
            OnOk result (out.new.items ≡ out.old.items ++ step.delivered) }
    {
        let mut messages = Vec::new(self.alloc);
        let count = self.patchbay.feed(turn.actor, port, bytes, &mut messages)?;
        self.patchbay
            .send_all(turn.moment, turn.actor, port, messages.as_slice(), out)?;
        Ok(Reply::Messages(count as u64))
    }

    /// Sends one message from a port, and leaves its stream as it is.
    pub(crate) fn send(
        &mut self,
        turn: Turn,
        port: PortNo,
        message: &Message,
        out: &mut Vec<Delivery>,
    ) -> Result<(), OutOfMemory>
        requires accepted { refusal_in self.old turn (Command.Send port message.now) ≡ None }
        ensures gives { let step = step_in self.old turn (Command.Send port message.now) in
            OnOk result (IsStepTakenUnkeyed self.old self.new step Reply.Done step.delivered) }
        ensures sent { let step = step_in self.old turn (Command.Send port message.now) in
            OnOk result (out.new.items ≡ out.old.items ++ step.delivered) }
    {
        let message = message.duplicate()?;
        self.patchbay
            .send(turn.moment, turn.actor, port, message, out)
    }
}
