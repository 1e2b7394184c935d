//! Which command does what.

ghost use Rattle.std.specs.Prelude.{◌≡◌, ℕ, ◌≤◌, ◌<◌, ◌+◌, ◌-◌, ◌^◌, ◌++◌, true, IsOk, IfOk, OnOk, OnErr};
ghost use Rattle.seq_state.specs.Step.{IsRefusal};
ghost use Rattle.seq_settle.specs.Cells.{AreCells};
ghost use Rattle.seq_settle.specs.Order.{NoneComes};
ghost use Rattle.seq_commands.specs.Turns.{takes_none};
ghost use Rattle.seq_commands.specs.Whole.{clients_of, state_of, turn_of, settled_step, input_step, refusal_in, IsWhole};

use crate::sequencer::{Sequencer, Turn};
use agenda_heap::Agenda;
use memory::OutOfMemory;
use seq_state::{Command, Delivery, Input, Refusal, Reply};

impl Sequencer<'_, '_> {
    /// Takes one input: sends all that is due by its moment, and then carries its command out or refuses it. What came
    /// to ports is added to `out`.
    ///
    /// Running out of memory leaves the sequencer in parts as it was and in parts not, and so of no use.
    pub fn step<A: Agenda>(
        &mut self,
        agenda: &mut A,
        input: &Input,
        out: &mut Vec<Delivery>,
    ) -> Result<Reply, OutOfMemory>
        requires whole { (now : ℕ) × (now ≤ input.now.moment)
            × IsWhole self.old (A.content agenda.old) now }
        requires counted { self.old.steps < 2 ^ 64 - 1 }
        ensures state { OnOk result (state_of self.new ≡ (input_step self.old input.now).state) }
        ensures reply { IfOk result (λ r. r ≡ (input_step self.old input.now).reply) }
        ensures sent { OnOk result (out.new.items
            ≡ out.old.items ++ (input_step self.old input.now).delivered) }
        ensures whole { OnOk result (IsWhole self.new (A.content agenda.new) input.now.moment) }
        ensures files { OnOk result (self.new.files ≡ self.old.files) }
        ensures steps { OnOk result (self.new.steps ≡ self.old.steps + 1) }
        ensures same_steps { OnErr result (self.new.steps ≡ self.old.steps) }

        // Where nothing is due, a refused command asks for no memory, nor do these.
        ensures quiet { NoneComes (clients_of self.old) self.old.cells.cells input.now.moment →
            IsRefusal (input_step self.old input.now).reply → IsOk result }
        ensures freely { NoneComes (clients_of self.old) self.old.cells.cells input.now.moment →
            takes_none input.now.command ≡ true → IsOk result }
    {
        self.settle(agenda, input.moment, out)?;
        self.command(agenda, input, out)
    }

    /// Carries a command out, or refuses it, and adds what came to ports to `out`.
    ///
    /// Running out of memory leaves the sequencer in parts as it was and in parts not, and so of no use.
    fn command<A: Agenda>(
        &mut self,
        agenda: &mut A,
        input: &Input,
        out: &mut Vec<Delivery>,
    ) -> Result<Reply, OutOfMemory>
        requires whole { IsWhole self.old (A.content agenda.old) input.now.moment }
        requires counted { self.old.steps < 2 ^ 64 - 1 }
        ensures state { OnOk result (state_of self.new ≡ (settled_step self.old input.now).state) }
        ensures reply { IfOk result (λ r. r ≡ (settled_step self.old input.now).reply) }
        ensures sent { OnOk result (out.new.items
            ≡ out.old.items ++ (settled_step self.old input.now).delivered) }
        ensures whole { OnOk result (IsWhole self.new (A.content agenda.new) input.now.moment) }
        ensures files { OnOk result (self.new.files ≡ self.old.files) }
        ensures steps { OnOk result (self.new.steps ≡ self.old.steps + 1) }
        ensures same_steps { OnErr result (self.new.steps ≡ self.old.steps) }

        // A refused command asks for no memory, nor do these.
        ensures quiet { IsRefusal (settled_step self.old input.now).reply → IsOk result }
        ensures freely { takes_none input.now.command ≡ true → IsOk result }
    {
        let rank = self.steps;
        self.steps += 1;
        if let Some(refusal) = self.refusal(turn_of(input), &input.command) {
            return Ok(Reply::Refused(refusal.number()));
        }
        match self.carry_out(agenda, turn_of(input), rank, &input.command, out) {
            Ok(reply) => Ok(reply),
            Err(failed) => {
                // An input that found no memory does not count.
                self.steps = rank;
                Err(failed)
            }
        }
    }

    /// The refusal with the lowest number of those that stand.
    fn refusal(&self, turn: Turn, command: &Command) -> Option<Refusal>
        requires cells { AreCells self.now.cells.cells self.now.steps }
        ensures { result ≡ refusal_in self.now turn command.now }
    {
        match command {
            Command::Open {
                name,
                in_size,
                out_size,
            } => self.open_refusal(turn, name.as_slice(), *in_size, *out_size),
            Command::Close
            | Command::DropOutput
            | Command::Listen
            | Command::Unlisten
            | Command::PoolStatus => self.client_refusal(turn),
            Command::CreatePort { port, name, .. } => {
                self.create_port_refusal(turn, *port, name.as_slice())
            }
            Command::DeletePort { port }
            | Command::Bytes { port, .. }
            | Command::Send { port, .. } => self.port_refusal(turn, *port),
            Command::CreateFilter { filter, rule, .. } => {
                self.create_filter_refusal(turn, *filter, rule)
            }
            Command::SetFilter { filter, rule } => self.set_filter_refusal(turn, *filter, rule),
            Command::DeleteFilter { filter } => self.delete_filter_refusal(turn, *filter),
            Command::Connect { source, target } => self.connect_refusal(turn, source, target),
            Command::Disconnect { source, target } => self.disconnect_refusal(turn, source, target),
            Command::CreateQueue { queue, ppq, tempo } => {
                self.create_queue_refusal(turn, *queue, *ppq, *tempo)
            }
            Command::CreateQueueFrom { queue, file } => {
                self.create_queue_from_refusal(turn, *queue, *file)
            }
            Command::DeleteQueue { queue } | Command::Share { queue } => {
                self.own_queue_refusal(turn, queue)
            }
            Command::Start { queue } | Command::Continue { queue } => self.start_refusal(
                turn, queue,
            ),
            Command::Stop { queue } => self.stop_refusal(turn, queue),
            Command::Tempo { queue, tempo } => self.tempo_refusal(turn, queue, *tempo),
            Command::QueueStatus { queue } => self.queue_status_refusal(turn, queue),
            Command::Schedule {
                queue,
                port,
                due_at,
                ..
            } => self.schedule_refusal(turn, queue, *port, *due_at),
            Command::Play { queue, port, file } => self.play_refusal(turn, queue, *port, *file),
            Command::Receive { max } => self.receive_refusal(turn, *max),
        }
    }
}

/// Who says an input, and when.
fn turn_of(input: &Input) -> Turn
    ensures { result ≡ turn_of input.now }
{
    Turn {
        moment: input.moment,
        actor: input.actor,
    }
}
