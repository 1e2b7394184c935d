//! A playback in its cell.

ghost use Rattle.std.specs.Prelude.{◌≡◌, List, [], ◌∷◌, Some, IsTrue, IfOk, OnOk};
ghost use Rattle.seq_state.specs.State.{DueMessage};
ghost use Rattle.seq_settle.specs.Cells.{with_rest};
ghost use Rattle.seq_settle.specs.Sends.{head_of, first_popped};

use crate::events::Events;
use crate::head::{PlaybackHead, PoppedMessage};
use memory::OutOfMemory;
use node_table::{ClientId, PortNo, QueueAddr};
use std::marker::Model;

/// What one Schedule or Play has still to send.
#[derive(Drop)]
pub struct Playback<'b> {
    rank: u64,
    port: PortNo,
    queue: QueueAddr,
    accepted: u64,
    events: Events<'b>,
}

impl<'b> Model for Playback<'b> {
    ghost use Rattle.seq_settle.specs.Cells.{RankedPlayback, coded_ranked_playback};

    ghost Value = { RankedPlayback };

    ghost coded = { coded_ranked_playback };

    ghost view = { λ p.
        record {
          rank = p.rank;
          port = p.port;
          queue = p.queue;
          accepted = p.accepted;
          events = p.events;
        } };
}

impl<'b> Playback<'b> {
    pub(crate) fn new(
        rank: u64,
        port: PortNo,
        queue: QueueAddr,
        accepted: u64,
        events: Events<'b>,
    ) -> Playback<'b>
        ensures { result ≡ record {
          rank = rank;
          port = port;
          queue = queue;
          accepted = accepted;
          events = events.entry;
        } }
    {
        Playback {
            rank,
            port,
            queue,
            accepted,
            events,
        }
    }

    /// The number of its command among all inputs.
    pub(crate) fn rank(&self) -> u64
        ensures { result ≡ self.now.rank }
    {
        self.rank
    }

    /// What it says of itself in a cell of this client.
    pub(crate) fn head(&self, client: ClientId) -> PlaybackHead
        ensures { result ≡ head_of (client, self.now) }
    {
        PlaybackHead {
            client,
            port: self.port,
            queue: self.queue,
            accepted: self.accepted,
            rank: self.rank,
            due: self.events.first_due(),
        }
    }

    /// Takes its first event, if there is one, with what a cell of this client says of itself without it.
    pub(crate) fn pop_first(
        &mut self,
        client: ClientId,
    ) -> Result<Option<PoppedMessage>, OutOfMemory>
        ensures first { IfOk result (λ r. (e : DueMessage) (es : List DueMessage) →
            self.old.events ≡ e ∷ es → r ≡ Some (first_popped (client, self.old) e es)) }
        ensures rest { OnOk result ((e : DueMessage) (es : List DueMessage) → self.old.events ≡ e ∷ es →
            self.new ≡ with_rest self.old es) }
    {
        let Some(message) = self.events.next()? else {
            return Ok(None);
        };
        let head = self.head(client);
        Ok(Some(PoppedMessage { message, head }))
    }

    /// Whether what is left is one message, which was scheduled.
    #[inline(always)]
    pub(crate) fn is_scheduled(&self) -> bool
        ensures { IsTrue result → (e : DueMessage) × (self.now.events ≡ e ∷ []) }
    {
        self.events.is_scheduled()
    }

    /// The only event that is left in a cell of this client, and what the cell says of itself without it.
    #[inline(always)]
    pub(crate) fn into_popped(self, client: ClientId) -> Result<PoppedMessage, OutOfMemory>
        requires { (e : DueMessage) × (self.events ≡ e ∷ []) }
        ensures { IfOk result (λ r. (e : DueMessage) → self.entry.events ≡ e ∷ [] →
            r ≡ first_popped (client, self.entry) e []) }
    {
        let Playback {
            rank,
            port,
            queue,
            accepted,
            events,
        } = self;
        let Some(message) = events.into_first()? else {
            unreachable!()
        };
        let head = PlaybackHead {
            client,
            port,
            queue,
            accepted,
            rank,
            due: None,
        };
        Ok(PoppedMessage { message, head })
    }
}
