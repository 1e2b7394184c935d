//! What is still to be sent: what commands drop of it, and what they add.

ghost use Rattle.std.specs.Prelude.{◌≡◌, ◌≢◌, ◌+◌, true, false, [], None, Some, IsSome, OnOk};
ghost use Rattle.std.specs.FinMap.{get};
ghost use Rattle.seq_state.specs.Effect.{due_of, out_size, passes_end};
ghost use Rattle.seq_state.specs.State as state;
ghost use Rattle.seq_state.specs.Step.{playback_count};
ghost use Rattle.seq_state.specs.declared.input.Command.{Command};
ghost use Rattle.seq_state.specs.declared.log.Reply.{Reply};
ghost use Rattle.seq_settle.specs.Cells.{AreCells, are_in_order};
ghost use Rattle.seq_settle.specs.Moments.{queue_in};
ghost use Rattle.seq_commands.specs.Added.{adding_step};
ghost use Rattle.seq_commands.specs.Whole.{clients_of, state_of, refusal_in, step_in, IsWhole, IsStepTaken};

use crate::sequencer::{Sequencer, Turn};
use agenda_heap::Agenda;
use memory::OutOfMemory;
use midi_wire::Message;
use node_table::{PortNo, QueueAddr};
use seq_clients::Queue;
use seq_settle::{Accepted, Events, Which, add_playback, drop_playbacks};
use seq_state::DueAt;
use tempo_clock::Due;

impl<'f, 'b> Sequencer<'f, 'b> {
    /// Drops all that the actor has still to send. It takes no memory.
    pub(crate) fn drop_output<A: Agenda>(&mut self, agenda: &mut A, turn: Turn)
        requires whole { IsWhole self.old (A.content agenda.old) turn.moment }
        requires accepted { refusal_in self.old turn Command.DropOutput ≡ None }
        ensures { let step = step_in self.old turn Command.DropOutput in
            IsStepTaken self.old self.new (A.content agenda.new) step Reply.Done [] }
    {
        let all = Which::All;
        let cells = &mut self.cells;
        let order = &mut self.order;
        drop_playbacks(cells, order, agenda, self.steps, turn.actor, &all, false);
    }

    /// Drops a port, with its subscriptions and what is still to be sent from it. It takes no memory.
    pub(crate) fn delete_port<A: Agenda>(&mut self, agenda: &mut A, turn: Turn, port: PortNo)
        requires whole { IsWhole self.old (A.content agenda.old) turn.moment }
        requires accepted { refusal_in self.old turn (Command.DeletePort port) ≡ None }
        ensures { let step = step_in self.old turn (Command.DeletePort port) in
            IsStepTaken self.old self.new (A.content agenda.new) step Reply.Done [] }
    {
        let of_port = Which::OfPort(port);
        let cells = &mut self.cells;
        let order = &mut self.order;
        drop_playbacks(
            cells, order, agenda, self.steps, turn.actor, &of_port, false,
        );
        self.patchbay.delete_port(turn.actor, port);
    }

    /// Drops a queue of the actor's, with what is still to be sent by it, whoever's it is. It takes no memory.
    pub(crate) fn delete_queue<A: Agenda>(&mut self, agenda: &mut A, turn: Turn, queue: &QueueAddr)
        requires whole { IsWhole self.old (A.content agenda.old) turn.moment }
        requires accepted { refusal_in self.old turn (Command.DeleteQueue queue.now) ≡ None }
        ensures { let step = step_in self.old turn (Command.DeleteQueue queue.now) in
            IsStepTaken self.old self.new (A.content agenda.new) step Reply.Done [] }
    {
        let shared = self.is_shared(queue);
        let on_queue = Which::OnQueue(queue.queue);
        let cells = &mut self.cells;
        let order = &mut self.order;
        drop_playbacks(
            cells, order, agenda, self.steps, turn.actor, &on_queue, shared,
        );
        self.patchbay.delete_queue(turn.actor, queue.queue);
    }

    /// Closes the actor: all that it has goes, with what others have still to send by its queues. It takes no memory.
    pub(crate) fn close<A: Agenda>(&mut self, agenda: &mut A, turn: Turn)
        requires whole { IsWhole self.old (A.content agenda.old) turn.moment }
        requires accepted { refusal_in self.old turn Command.Close ≡ None }
        ensures { let step = step_in self.old turn Command.Close in
            IsStepTaken self.old self.new (A.content agenda.new) step Reply.Done [] }
    {
        let shares = self.patchbay.clients().shares_queue(turn.actor);
        let its_own = Which::AllAndOnQueues;
        let cells = &mut self.cells;
        let order = &mut self.order;
        drop_playbacks(
            cells, order, agenda, self.steps, turn.actor, &its_own, shares,
        );
        self.patchbay.close(turn.actor);
    }

    /// Sends a message from a port when a queue comes to its time. `rank` is the number of the command among all
    /// inputs.
    // Not inline: the most frequent command has its own frame.
    #[inline(never)]
    pub(crate) fn schedule<A: Agenda>(
        &mut self,
        agenda: &mut A,
        turn: Turn,
        rank: u64,
        queue: &QueueAddr,
        port: PortNo,
        due_at: DueAt,
        message: &Message,
    ) -> Result<(), OutOfMemory>
        requires whole { IsWhole self.old (A.content agenda.old) turn.moment }
        requires accepted { let command = Command.Schedule queue.now port due_at message.now in
            refusal_in self.old turn command ≡ None }
        requires fresh { AreCells self.old.cells.cells rank }
        requires counted { self.old.steps ≡ rank + 1 }
        ensures { let command = Command.Schedule queue.now port due_at message.now in
            let step = step_in self.old turn command in
            OnOk result (IsStepTaken self.old self.new (A.content agenda.new) step Reply.Done []) }
    {
        let due = self.due_of(turn.moment, queue, due_at);
        let event = Events::scheduled(due, message.duplicate()?);
        self.add_events(agenda, turn, rank, queue, port, event)
    }

    /// Sends the messages of a file from a port, each when a queue comes to its tick. `rank` is the number of the
    /// command among all inputs.
    pub(crate) fn play<A: Agenda>(
        &mut self,
        agenda: &mut A,
        turn: Turn,
        rank: u64,
        queue: &QueueAddr,
        port: PortNo,
        file: u32,
    ) -> Result<(), OutOfMemory>
        requires whole { IsWhole self.old (A.content agenda.old) turn.moment }
        requires accepted { refusal_in self.old turn (Command.Play queue.now port file) ≡ None }
        requires fresh { AreCells self.old.cells.cells rank }
        requires counted { self.old.steps ≡ rank + 1 }
        ensures { let step = step_in self.old turn (Command.Play queue.now port file) in
            OnOk result (IsStepTaken self.old self.new (A.content agenda.new) step Reply.Done []) }
    {
        let Some(file) = self.files.get(file) else {
            unreachable!()
        };
        file.plays_in_order();
        let events = Events::played(file.cursor()?);
        self.add_events(agenda, turn, rank, queue, port, events)
    }

    /// Adds what the actor has to send from a port by a queue.
    #[inline(always)]
    fn add_events<A: Agenda>(
        &mut self,
        agenda: &mut A,
        turn: Turn,
        rank: u64,
        queue: &QueueAddr,
        port: PortNo,
        events: Events<'b>,
    ) -> Result<(), OutOfMemory>
        requires whole { IsWhole self.old (A.content agenda.old) turn.moment }
        requires fresh { AreCells self.old.cells.cells rank }
        requires counted { self.old.steps ≡ rank + 1 }
        requires ordered { are_in_order events ≡ true }
        requires room { let size = out_size (get (clients_of self.old) turn.actor) in
            playback_count (state_of self.old) turn.actor ≢ size }
        ensures { let step = adding_step self.old turn queue.now port events.entry in
            OnOk result (IsStepTaken self.old self.new (A.content agenda.new) step Reply.Done []) }
    {
        // Set here, the sizes of the store need not be kept in step with those of the clients.
        let size = self.patchbay.clients().out_size(turn.actor);
        self.cells.set_size(turn.actor, size);
        let accepted = Accepted {
            client: turn.actor,
            port,
            queue: *queue,
            moment: turn.moment,
            events,
        };
        add_playback(
            &self.patchbay,
            &mut self.cells,
            &mut self.order,
            agenda,
            rank,
            accepted,
        )
    }

    /// When something is due by a queue that is there.
    fn due_of(&self, moment: u64, queue: &QueueAddr, due_at: DueAt) -> Due
        requires there { IsSome (queue_in (clients_of self.now) queue.now) }
        requires early { (q : state.Queue) → queue_in (clients_of self.now) queue.now ≡ Some q
            → passes_end moment due_at q ≡ false }
        ensures { (q : state.Queue) → queue_in (clients_of self.now) queue.now ≡ Some q
            → result ≡ due_of moment q due_at }
    {
        let Some(queue) = self.patchbay.clients().queue(queue) else {
            unreachable!()
        };
        due_by(queue, moment, due_at)
    }
}

/// When something is due, by what a queue shows at a moment.
fn due_by(queue: &Queue, moment: u64, due_at: DueAt) -> Due
    requires { passes_end moment due_at queue.now ≡ false }
    ensures { result ≡ due_of moment queue.now due_at }
{
    let clock = queue.clock();
    match due_at {
        DueAt::Tick(tick) => Due::Tick(tick),
        DueAt::TickAfter(ticks) => Due::Tick(clock.tick(moment) + ticks),
        DueAt::Nanos(nanos) => Due::Nanos(nanos),
        DueAt::NanosAfter(nanos) => Due::Nanos(clock.elapsed(moment) + nanos),
    }
}
