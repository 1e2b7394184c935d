//! Carrying commands out.

ghost use Rattle.std.specs.Prelude.{◌≡◌, ◌+◌, ◌++◌, List, true, None, IsOk, IfOk};
ghost use Rattle.seq_state.specs.declared.log.Delivery.{Delivery};
ghost use Rattle.seq_settle.specs.Cells.{AreCells};
ghost use Rattle.seq_commands.specs.Turns.{takes_none};
ghost use Rattle.seq_commands.specs.Whole.{step_in, refusal_in, IsWhole, IsStepTaken};

use crate::sequencer::{Sequencer, Turn};
use agenda_heap::Agenda;
use memory::OutOfMemory;
use seq_state::{Command, Delivery, Reply};

impl Sequencer<'_, '_> {
    /// Carries out a command that is accepted. `rank` is its number among all inputs, and `steps` counts it already.
    // Inline, since its answer would go through memory twice.
    #[inline(always)]
    pub(crate) fn carry_out<A: Agenda>(
        &mut self,
        agenda: &mut A,
        turn: Turn,
        rank: u64,
        command: &Command,
        out: &mut Vec<Delivery>,
    ) -> Result<Reply, OutOfMemory>
        requires whole { IsWhole self.old (A.content agenda.old) turn.moment }
        requires accepted { refusal_in self.old turn command.now ≡ None }
        requires fresh { AreCells self.old.cells.cells rank }
        requires counted { self.old.steps ≡ rank + 1 }
        ensures gives { let step = step_in self.old turn command.now in
            IfOk result (λ r. (ds : List Delivery) × (out.new.items ≡ out.old.items ++ ds)
            × IsStepTaken self.old self.new (A.content agenda.new) step r ds) }
        ensures freely { takes_none command.now ≡ true → IsOk result }
    {
        match command {
            Command::Open {
                name,
                in_size,
                out_size,
            } => {
                self.open(turn, name.as_slice(), *in_size, *out_size)?;
                Ok(Reply::Done)
            }
            Command::Close => {
                self.close(agenda, turn);
                Ok(Reply::Done)
            }
            Command::CreatePort { port, name, caps } => {
                self.create_port(turn, *port, name.as_slice(), *caps)?;
                Ok(Reply::Done)
            }
            Command::DeletePort { port } => {
                self.delete_port(agenda, turn, *port);
                Ok(Reply::Done)
            }
            Command::CreateFilter { filter, caps, rule } => {
                self.create_filter(turn, *filter, *caps, rule)?;
                Ok(Reply::Done)
            }
            Command::SetFilter { filter, rule } => {
                self.set_filter(turn, *filter, rule);
                Ok(Reply::Done)
            }
            Command::DeleteFilter { filter } => {
                self.delete_filter(turn, *filter);
                Ok(Reply::Done)
            }
            Command::Connect { source, target } => {
                self.connect(turn, *source, *target)?;
                Ok(Reply::Done)
            }
            Command::Disconnect { source, target } => {
                self.disconnect(turn, source, target);
                Ok(Reply::Done)
            }
            Command::Bytes { port, bytes } => self.bytes(turn, *port, bytes.as_slice(), out),
            Command::Send { port, message } => {
                self.send(turn, *port, message, out)?;
                Ok(Reply::Done)
            }
            Command::CreateQueue { queue, ppq, tempo } => {
                self.create_queue(turn, *queue, *ppq, *tempo)?;
                Ok(Reply::Done)
            }
            Command::CreateQueueFrom { queue, file } => {
                self.create_queue_from(turn, *queue, *file)?;
                Ok(Reply::Done)
            }
            Command::DeleteQueue { queue } => {
                self.delete_queue(agenda, turn, queue);
                Ok(Reply::Done)
            }
            Command::Start { queue } => {
                self.start(agenda, turn, queue)?;
                Ok(Reply::Done)
            }
            Command::Stop { queue } => {
                self.stop(agenda, turn, queue)?;
                Ok(Reply::Done)
            }
            Command::Continue { queue } => {
                self.resume(agenda, turn, queue)?;
                Ok(Reply::Done)
            }
            Command::Tempo { queue, tempo } => {
                self.set_tempo(agenda, turn, queue, *tempo)?;
                Ok(Reply::Done)
            }
            Command::QueueStatus { queue } => Ok(self.queue_status(turn, queue)),
            Command::Share { queue } => {
                self.share(turn, queue);
                Ok(Reply::Done)
            }
            Command::Schedule {
                queue,
                port,
                due_at,
                message,
            } => {
                self.schedule(agenda, turn, rank, queue, *port, *due_at, message)?;
                Ok(Reply::Done)
            }
            Command::Play { queue, port, file } => {
                self.play(agenda, turn, rank, queue, *port, *file)?;
                Ok(Reply::Done)
            }
            Command::DropOutput => {
                self.drop_output(agenda, turn);
                Ok(Reply::Done)
            }
            Command::Receive { max } => Ok(Reply::Received(self.receive(turn, *max)?)),
            Command::Listen => {
                self.listen(turn);
                Ok(Reply::Done)
            }
            Command::Unlisten => {
                self.unlisten(turn);
                Ok(Reply::Done)
            }
            Command::PoolStatus => Ok(self.pool_status(turn)),
        }
    }
}
