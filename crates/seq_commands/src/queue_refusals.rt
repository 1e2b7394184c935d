//! Which refusal stands, for the commands of queues and of what is sent by them.
//!
//! Each function here tests in the order of the refusals' numbers, takes no memory and changes nothing.

ghost use Rattle.std.specs.Prelude.{◌≡◌, ℕ, List, Some};
ghost use Rattle.seq_state.specs.declared.input.Command.TheVariants as Command;
ghost use Rattle.std.specs.FinMap.{get};
ghost use Rattle.std.specs.Option.{option_copied};
ghost use Rattle.seq_state.specs.Effect.{queue_is, queue_of, runs, counts_frames, passes_end, has_division, file_at};
ghost use Rattle.seq_state.specs.Step.{playback_count, named_queue};
ghost use Rattle.seq_settle.specs.Cells.{AreCells};
ghost use Rattle.seq_commands.specs.Turns.{unusable};
ghost use Rattle.seq_commands.specs.Whole.{clients_of, state_of, refusal_in};

use crate::sequencer::{Sequencer, Turn};
use node_table::{ClientId, PortNo, QueueAddr, QueueNo};
use seq_clients::Queue;
use seq_state::{DueAt, Refusal};
use tempo_clock::{is_ppq, is_tempo};

impl Sequencer<'_, '_> {
    #[tactic(auto, unfolding(seq_state::specs::Table::command_row))]
    pub(crate) fn create_queue_refusal(
        &self,
        turn: Turn,
        queue: QueueNo,
        ppq: u32,
        tempo: u32,
    ) -> Option<Refusal>
        ensures { result ≡ refusal_in self.now turn (Command.CreateQueue queue ppq tempo) }
    {
        if !self.patchbay.clients().is_open(turn.actor) {
            return Some(Refusal::NotOpen);
        }
        if !is_ppq(ppq) {
            return Some(Refusal::BadSize);
        }
        if self.patchbay.clients().has_queue(turn.actor, queue) {
            return Some(Refusal::QueueExists);
        }
        if !is_tempo(tempo) {
            return Some(Refusal::BadTempo);
        }
        None
    }

    #[tactic(auto, unfolding(seq_state::specs::Table::command_row))]
    pub(crate) fn create_queue_from_refusal(
        &self,
        turn: Turn,
        queue: QueueNo,
        file: u32,
    ) -> Option<Refusal>
        ensures { result ≡ refusal_in self.now turn (Command.CreateQueueFrom queue file) }
    {
        if !self.patchbay.clients().is_open(turn.actor) {
            return Some(Refusal::NotOpen);
        }
        if self.patchbay.clients().has_queue(turn.actor, queue) {
            return Some(Refusal::QueueExists);
        }
        if !self.files.has(file) {
            return Some(Refusal::NoFile);
        }
        None
    }

    /// For DeleteQueue and Share.
    #[tactic(auto, unfolding(seq_state::specs::Table::command_row))]
    pub(crate) fn own_queue_refusal(&self, turn: Turn, queue: &QueueAddr) -> Option<Refusal>
        ensures delete_queue { result ≡ refusal_in self.now turn (Command.DeleteQueue queue.now) }
        ensures share { result ≡ refusal_in self.now turn (Command.Share queue.now) }
    {
        if !self.patchbay.clients().is_open(turn.actor) {
            return Some(Refusal::NotOpen);
        }
        if queue.client != turn.actor {
            return Some(Refusal::NotYours);
        }
        if !self.patchbay.clients().has_queue(turn.actor, queue.queue) {
            return Some(Refusal::NoQueue);
        }
        None
    }

    /// For Start and Continue.
    #[tactic(auto, unfolding(seq_state::specs::Table::command_row))]
    pub(crate) fn start_refusal(&self, turn: Turn, queue: &QueueAddr) -> Option<Refusal>
        ensures start { result ≡ refusal_in self.now turn (Command.Start queue.now) }
        ensures resume { result ≡ refusal_in self.now turn (Command.Continue queue.now) }
    {
        if !self.patchbay.clients().is_open(turn.actor) {
            return Some(Refusal::NotOpen);
        }
        if queue.client != turn.actor {
            return Some(Refusal::NotYours);
        }
        if !self.patchbay.clients().has_queue(turn.actor, queue.queue) {
            return Some(Refusal::NoQueue);
        }
        if self.runs(turn.actor, queue.queue) {
            return Some(Refusal::QueueRunning);
        }
        None
    }

    #[tactic(auto, unfolding(seq_state::specs::Table::command_row))]
    pub(crate) fn stop_refusal(&self, turn: Turn, queue: &QueueAddr) -> Option<Refusal>
        ensures { result ≡ refusal_in self.now turn (Command.Stop queue.now) }
    {
        if !self.patchbay.clients().is_open(turn.actor) {
            return Some(Refusal::NotOpen);
        }
        if queue.client != turn.actor {
            return Some(Refusal::NotYours);
        }
        if !self.patchbay.clients().has_queue(turn.actor, queue.queue) {
            return Some(Refusal::NoQueue);
        }
        if !self.runs(turn.actor, queue.queue) {
            return Some(Refusal::QueueStopped);
        }
        None
    }

    #[tactic(auto, unfolding(seq_state::specs::Table::command_row))]
    pub(crate) fn tempo_refusal(&self, turn: Turn, queue: &QueueAddr, tempo: u32) -> Option<Refusal>
        ensures { result ≡ refusal_in self.now turn (Command.Tempo queue.now tempo) }
    {
        if !self.patchbay.clients().is_open(turn.actor) {
            return Some(Refusal::NotOpen);
        }
        if queue.client != turn.actor {
            return Some(Refusal::NotYours);
        }
        if !self.patchbay.clients().has_queue(turn.actor, queue.queue) {
            return Some(Refusal::NoQueue);
        }
        if !is_tempo(tempo) || self.counts_frames(turn.actor, queue.queue) {
            return Some(Refusal::BadTempo);
        }
        None
    }

    #[tactic(auto, unfolding(seq_state::specs::Table::command_row))]
    pub(crate) fn queue_status_refusal(&self, turn: Turn, queue: &QueueAddr) -> Option<Refusal>
        ensures { result ≡ refusal_in self.now turn (Command.QueueStatus queue.now) }
    {
        if !self.patchbay.clients().is_open(turn.actor) {
            return Some(Refusal::NotOpen);
        }
        if self.usable_queue(turn.actor, queue).is_none() {
            return Some(unusable(turn.actor, queue));
        }
        None
    }

    #[tactic(auto, unfolding(seq_state::specs::Table::command_row))]
    pub(crate) fn schedule_refusal(
        &self,
        turn: Turn,
        queue: &QueueAddr,
        port: PortNo,
        due_at: DueAt,
    ) -> Option<Refusal>
        requires cells { AreCells self.now.cells.cells self.now.steps }
        ensures { (message : List ℕ) →
            result ≡ refusal_in self.now turn (Command.Schedule queue.now port due_at message) }
    {
        if !self.patchbay.clients().is_open(turn.actor) {
            return Some(Refusal::NotOpen);
        }
        if !self.patchbay.clients().has_port(turn.actor, port) {
            return Some(Refusal::NoNode);
        }
        let Some(usable) = self.usable_queue(turn.actor, queue) else {
            return Some(unusable(turn.actor, queue));
        };
        if passes_end(usable, turn.moment, due_at) {
            return Some(Refusal::BadTime);
        }
        if self.used(turn.actor) == self.patchbay.clients().out_size(turn.actor) {
            return Some(Refusal::OutFull);
        }
        None
    }

    #[tactic(auto, unfolding(seq_state::specs::Table::command_row))]
    pub(crate) fn play_refusal(
        &self,
        turn: Turn,
        queue: &QueueAddr,
        port: PortNo,
        file: u32,
    ) -> Option<Refusal>
        requires cells { AreCells self.now.cells.cells self.now.steps }
        ensures { result ≡ refusal_in self.now turn (Command.Play queue.now port file) }
    {
        if !self.patchbay.clients().is_open(turn.actor) {
            return Some(Refusal::NotOpen);
        }
        if !self.patchbay.clients().has_port(turn.actor, port) {
            return Some(Refusal::NoNode);
        }
        let Some(usable) = self.usable_queue(turn.actor, queue) else {
            return Some(unusable(turn.actor, queue));
        };
        if !self.files.has(file) {
            return Some(Refusal::NoFile);
        }
        if !self.files.has_division_of(usable, file) {
            return Some(Refusal::DivisionDiffers);
        }
        if self.used(turn.actor) == self.patchbay.clients().out_size(turn.actor) {
            return Some(Refusal::OutFull);
        }
        None
    }

    /// The queue, where the actor may use it: its own, or one that is shared.
    pub(crate) fn usable_queue(&self, actor: ClientId, queue: &QueueAddr) -> Option<&Queue>
        ensures { option_copied result ≡ named_queue (clients_of self.now) actor (Some queue.now) }
    {
        match self.patchbay.clients().queue(queue) {
            Some(found) if queue.client == actor || found.is_shared() => Some(found),
            _ => None,
        }
    }

    /// Whether a queue of the client runs.
    fn runs(&self, client: ClientId, queue: QueueNo) -> bool
        ensures { result ≡ queue_is runs (queue_of (get (clients_of self.now) client) queue) }
    {
        match self.patchbay.clients().queue(&QueueAddr { client, queue }) {
            Some(found) => found.clock().running(),
            None => false,
        }
    }

    /// Whether a queue of the client counts frames.
    fn counts_frames(&self, client: ClientId, queue: QueueNo) -> bool
        ensures { result
            ≡ queue_is counts_frames (queue_of (get (clients_of self.now) client) queue) }
    {
        match self.patchbay.clients().queue(&QueueAddr { client, queue }) {
            Some(found) => found.clock().counts_frames(),
            None => false,
        }
    }

    /// How many scheduled messages and files the client has still to send.
    pub(crate) fn used(&self, client: ClientId) -> u32
        requires cells { AreCells self.now.cells.cells self.now.steps }
        ensures { result ≡ playback_count (state_of self.now) client }
    {
        self.cells.used(client)
    }
}

/// Why a queue cannot be used: it is another's, or it is not there.
fn unusable(actor: ClientId, queue: &QueueAddr) -> Refusal
    ensures { result ≡ unusable actor queue.now }
{
    if queue.client == actor {
        Refusal::NoQueue
    } else {
        Refusal::NotYours
    }
}

/// Whether a relative due time lies past the greatest tick or time.
fn passes_end(queue: &Queue, moment: u64, due_at: DueAt) -> bool
    ensures { result ≡ passes_end moment due_at queue.now }
{
    match due_at {
        DueAt::Tick(_) | DueAt::Nanos(_) => false,
        DueAt::TickAfter(ticks) => queue.clock().tick(moment).checked_add(ticks).is_none(),
        DueAt::NanosAfter(nanos) => queue.clock().elapsed(moment).checked_add(nanos).is_none(),
    }
}
