//! What accepted commands on queues do. After an `Err`, which is out of memory, the sequencer is of no more use.

ghost use Rattle.std.specs.Prelude.{◌≡◌, ℕ, [], true, false, Some, None, IfOk, OnOk};
ghost use Rattle.tempo_clock.specs.Entries.{is_ppq, is_tempo};
ghost use Rattle.seq_state.specs.declared.input.Command.TheVariants as Command;
ghost use Rattle.seq_state.specs.declared.log.Reply.TheVariants as Reply;
ghost use Rattle.seq_state.specs.Effect.{queue_is, one_tempo};
ghost use Rattle.seq_settle.specs.Moments.{queue_in};
ghost use Rattle.seq_commands.specs.Whole.{clients_of, state_of, refusal_in, step_in};
ghost use Rattle.seq_commands.specs.Whole.{IsSound, IsWhole, IsStepTaken, IsStepTakenUnkeyed};

use crate::sequencer::{Sequencer, Turn};
use agenda_heap::Agenda;
use memory::OutOfMemory;
use node_table::{QueueAddr, QueueNo};
use seq_settle::rekey_all;
use seq_state::Reply;
use std::alloc::Global;
use tempo_clock::{MapFault, TempoEntry, TempoMap};

/// One tempo from the first tick on.
fn one_tempo(alloc: Global, ppq: u32, tempo: u32) -> Result<TempoMap, OutOfMemory>
    requires ppq { is_ppq ppq ≡ true }
    requires tempo { is_tempo tempo ≡ true }
    ensures { IfOk result (λ m. m ≡ one_tempo ppq tempo) }
{
    match TempoMap::new(alloc, ppq, &[TempoEntry { tick: 0, tempo }]) {
        Ok(map) => Ok(map),
        Err(MapFault::OutOfMemory) => Err(OutOfMemory),
        Err(MapFault::BadMap) => unreachable!(),
    }
}

impl Sequencer<'_, '_> {
    /// Makes a private queue that is held at 0.
    pub(crate) fn create_queue(
        &mut self,
        turn: Turn,
        queue: QueueNo,
        ppq: u32,
        tempo: u32,
    ) -> Result<(), OutOfMemory>
        requires accepted { refusal_in self.old turn (Command.CreateQueue queue ppq tempo)
            ≡ None }
        ensures { OnOk result (IsStepTakenUnkeyed self.old self.new
            (step_in self.old turn (Command.CreateQueue queue ppq tempo)) Reply.Done []) }
    {
        let map = one_tempo(self.alloc, ppq, tempo)?;
        self.patchbay.create_queue(turn.actor, queue, map);
        Ok(())
    }

    /// Makes a private queue that is held at 0, with the division and the tempo map of a file.
    pub(crate) fn create_queue_from(
        &mut self,
        turn: Turn,
        queue: QueueNo,
        file: u32,
    ) -> Result<(), OutOfMemory>
        requires accepted { refusal_in self.old turn (Command.CreateQueueFrom queue file) ≡ None }
        ensures { OnOk result (IsStepTakenUnkeyed self.old self.new
            (step_in self.old turn (Command.CreateQueueFrom queue file)) Reply.Done []) }
    {
        let Some(file) = self.files.get(file) else {
            unreachable!()
        };
        let map = file.tempo_map()?;
        self.patchbay.create_queue(turn.actor, queue, map);
        Ok(())
    }

    /// Runs a queue from 0.
    pub(crate) fn start<A: Agenda>(
        &mut self,
        agenda: &mut A,
        turn: Turn,
        queue: &QueueAddr,
    ) -> Result<(), OutOfMemory>
        requires whole { IsWhole self.old (A.content agenda.old) turn.moment }
        requires accepted { refusal_in self.old turn (Command.Start queue.now) ≡ None }
        ensures { OnOk result (IsStepTaken self.old self.new (A.content agenda.new)
            (step_in self.old turn (Command.Start queue.now)) Reply.Done []) }
    {
        self.patchbay.start(turn.actor, queue.queue, turn.moment);
        rekey_all(
            &self.patchbay,
            &self.cells,
            &mut self.order,
            agenda,
            self.steps,
            queue,
        )
    }

    /// Holds a queue.
    pub(crate) fn stop<A: Agenda>(
        &mut self,
        agenda: &mut A,
        turn: Turn,
        queue: &QueueAddr,
    ) -> Result<(), OutOfMemory>
        requires whole { IsWhole self.old (A.content agenda.old) turn.moment }
        requires accepted { refusal_in self.old turn (Command.Stop queue.now) ≡ None }
        ensures { OnOk result (IsStepTaken self.old self.new (A.content agenda.new)
            (step_in self.old turn (Command.Stop queue.now)) Reply.Done []) }
    {
        self.patchbay.stop(turn.actor, queue.queue, turn.moment);
        rekey_all(
            &self.patchbay,
            &self.cells,
            &mut self.order,
            agenda,
            self.steps,
            queue,
        )
    }

    /// Runs a queue on from where it was held.
    pub(crate) fn resume<A: Agenda>(
        &mut self,
        agenda: &mut A,
        turn: Turn,
        queue: &QueueAddr,
    ) -> Result<(), OutOfMemory>
        requires whole { IsWhole self.old (A.content agenda.old) turn.moment }
        requires accepted { refusal_in self.old turn (Command.Continue queue.now) ≡ None }
        ensures { OnOk result (IsStepTaken self.old self.new (A.content agenda.new)
            (step_in self.old turn (Command.Continue queue.now)) Reply.Done []) }
    {
        self.patchbay.resume(turn.actor, queue.queue, turn.moment);
        rekey_all(
            &self.patchbay,
            &self.cells,
            &mut self.order,
            agenda,
            self.steps,
            queue,
        )
    }

    /// Sets one tempo, in microseconds per quarter note, from a queue's present on.
    pub(crate) fn set_tempo<A: Agenda>(
        &mut self,
        agenda: &mut A,
        turn: Turn,
        queue: &QueueAddr,
        tempo: u32,
    ) -> Result<(), OutOfMemory>
        requires whole { IsWhole self.old (A.content agenda.old) turn.moment }
        requires accepted { refusal_in self.old turn (Command.Tempo queue.now tempo) ≡ None }
        ensures { OnOk result (IsStepTaken self.old self.new (A.content agenda.new)
            (step_in self.old turn (Command.Tempo queue.now tempo)) Reply.Done []) }
    {
        self.patchbay
            .set_tempo(turn.actor, queue.queue, turn.moment, tempo)?;
        rekey_all(
            &self.patchbay,
            &self.cells,
            &mut self.order,
            agenda,
            self.steps,
            queue,
        )
    }

    /// Lets other clients use a queue.
    pub(crate) fn share(&mut self, turn: Turn, queue: &QueueAddr)
        requires accepted { refusal_in self.old turn (Command.Share queue.now) ≡ None }
        ensures { IsStepTakenUnkeyed self.old self.new
            (step_in self.old turn (Command.Share queue.now)) Reply.Done [] }
    {
        self.patchbay.share(turn.actor, queue.queue);
    }

    /// What a queue shows.
    pub(crate) fn queue_status(&self, turn: Turn, queue: &QueueAddr) -> Reply
        requires sound { IsSound (state_of self.now) turn.moment }
        requires accepted { refusal_in self.now turn (Command.QueueStatus queue.now) ≡ None }
        ensures { IsStepTakenUnkeyed self.now self.now
            (step_in self.now turn (Command.QueueStatus queue.now)) result [] }
    {
        let Some(queue) = self.patchbay.clients().queue(queue) else {
            unreachable!()
        };
        let clock = queue.clock();
        Reply::Queue {
            running: clock.running(),
            tick: clock.tick(turn.moment),
            nanos: clock.elapsed(turn.moment),
        }
    }

    /// Whether clients other than its own may use a queue.
    pub(crate) fn is_shared(&self, queue: &QueueAddr) -> bool
        ensures { result ≡ queue_is (λ q. q.shared) (queue_in (clients_of self.now) queue.now) }
    {
        match self.patchbay.clients().queue(queue) {
            Some(queue) => queue.is_shared(),
            None => false,
        }
    }
}
