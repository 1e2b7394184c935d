//! Changes of the clients that change no way of a message.

ghost use Rattle.std.specs.Prelude.{◌≡◌, ◌≤◌, ◌<◌, true, false, is_some, Some, None, IsSome, OnOk, OnErr};
ghost use Rattle.std.specs.FinMap.{get};
ghost use Rattle.cell_pools.specs.Pools.{is_size, empty_pool};
ghost use Rattle.node_table.specs.Names.{is_name};
ghost use Rattle.tempo_clock.specs.Clocks.{running_from_zero, at_rest, running_on, with_tempo};
ghost use Rattle.tempo_clock.specs.Entries.{is_tempo};
ghost use Rattle.seq_state.specs.Effect.{has_port, queue_of, with_change, put_port, put_queue, new_client, new_port, held_queue, with_clock, public, queue_changed};
ghost use Rattle.seq_state.specs.State as state;
ghost use Rattle.seq_clients.specs.Roster.{with_client, with_pool};

use crate::patchbay::Patchbay;
use memory::OutOfMemory;
use node_table::{Caps, ClientId, PortNo, QueueNo};
use tempo_clock::TempoMap;

impl Patchbay {
    /// Opens a client, as `Clients::open` does. `Err` leaves all as it was.
    pub fn open(
        &mut self,
        client: ClientId,
        name: &[u8],
        in_size: u32,
        out_size: u32,
    ) -> Result<(), OutOfMemory>
        requires fresh { get self.old.clients.clients client ≡ None }
        requires named { is_name name.now ≡ true }
        requires sized { is_size in_size ≡ true }
        ensures ok { let made = Some (new_client name.now in_size out_size) in
            let opened = with_client self.old.clients client made in
            OnOk result (self.new.clients ≡ with_pool opened client (Some (empty_pool in_size))) }
        ensures graph { self.new.graph ≡ self.old.graph }
        ensures err { OnErr result (self.new ≡ self.old) }
    {
        self.clients.open(client, name, in_size, out_size)
    }

    /// Makes a port with a new stream. `Err` leaves all as it was.
    pub fn create_port(
        &mut self,
        client: ClientId,
        port: PortNo,
        name: &[u8],
        caps: Caps,
    ) -> Result<(), OutOfMemory>
        requires open { is_some (get self.old.clients.clients client) ≡ true }
        requires named { is_name name.now ≡ true }
        requires free { has_port (get self.old.clients.clients client) port ≡ false }
        ensures ok { let made = put_port port (Some (new_port name.now caps)) in
            let c = with_change (get self.old.clients.clients client) made in
            OnOk result (self.new.clients ≡ with_client self.old.clients client c) }
        ensures graph { self.new.graph ≡ self.old.graph }
        ensures err { OnErr result (self.new ≡ self.old) }
    {
        self.clients.create_port(client, port, name, caps)
    }

    /// Makes a private queue that is held at 0, in the place of one that may be there. It takes no memory.
    pub fn create_queue(&mut self, client: ClientId, queue: QueueNo, map: TempoMap)
        ensures clients { let made = put_queue queue (Some (held_queue map)) in
            let c = with_change (get self.old.clients.clients client) made in
            self.new.clients ≡ with_client self.old.clients client c }
        ensures graph { self.new.graph ≡ self.old.graph }
    {
        self.clients.create_queue(client, queue, map);
    }

    /// Drops a queue that may be there. It takes no memory.
    pub fn delete_queue(&mut self, client: ClientId, queue: QueueNo)
        ensures clients { let was = self.old.clients in
            let c = with_change (get was.clients client) (put_queue queue None) in
            self.new.clients ≡ with_client was client c }
        ensures graph { self.new.graph ≡ self.old.graph }
    {
        self.clients.delete_queue(client, queue);
    }

    /// Runs a queue from 0, from a moment in nanoseconds on. It takes no memory.
    pub fn start(&mut self, client: ClientId, queue: QueueNo, moment: u64)
        requires held { let c = get self.old.clients.clients client in
            (q : state.Queue) → queue_of c queue ≡ Some q → q.clock.since ≡ None }
        ensures clients { let then = with_clock (λ k. running_from_zero k moment) in
            let c = queue_changed (get self.old.clients.clients client) queue then in
            self.new.clients ≡ with_client self.old.clients client c }
        ensures graph { self.new.graph ≡ self.old.graph }
    {
        self.clients.start(client, queue, moment);
    }

    /// Holds a queue at what it shows at a moment in nanoseconds. It takes no memory.
    pub fn stop(&mut self, client: ClientId, queue: QueueNo, moment: u64)
        requires running { let c = get self.old.clients.clients client in
            (q : state.Queue) → queue_of c queue ≡ Some q → IsSome q.clock.since }
        ensures clients { let then = with_clock (λ k. at_rest k moment) in
            let c = queue_changed (get self.old.clients.clients client) queue then in
            self.new.clients ≡ with_client self.old.clients client c }
        ensures graph { self.new.graph ≡ self.old.graph }
    {
        self.clients.stop(client, queue, moment);
    }

    /// Runs a queue on from where it was held, from a moment in nanoseconds on. It takes no memory.
    pub fn resume(&mut self, client: ClientId, queue: QueueNo, moment: u64)
        requires held { let c = get self.old.clients.clients client in
            (q : state.Queue) → queue_of c queue ≡ Some q → q.clock.since ≡ None }
        requires later { let c = get self.old.clients.clients client in
            (q : state.Queue) → queue_of c queue ≡ Some q → q.clock.time ≤ moment }
        ensures clients { let then = with_clock (λ k. running_on k moment) in
            let c = queue_changed (get self.old.clients.clients client) queue then in
            self.new.clients ≡ with_client self.old.clients client c }
        ensures graph { self.new.graph ≡ self.old.graph }
    {
        self.clients.resume(client, queue, moment);
    }

    /// Sets one tempo, 1 to 16,777,215 microseconds per quarter note, from what a queue shows at a moment in
    /// nanoseconds on. `Err` leaves all as it was.
    pub fn set_tempo(
        &mut self,
        client: ClientId,
        queue: QueueNo,
        moment: u64,
        tempo: u32,
    ) -> Result<(), OutOfMemory>
        requires tempo { is_tempo tempo ≡ true }
        requires metrical { let c = get self.old.clients.clients client in
            (q : state.Queue) → queue_of c queue ≡ Some q → q.clock.map.division < 32768 }
        ensures ok { let then = with_clock (λ k. with_tempo k moment tempo) in
            let c = queue_changed (get self.old.clients.clients client) queue then in
            OnOk result (self.new.clients ≡ with_client self.old.clients client c) }
        ensures graph { self.new.graph ≡ self.old.graph }
        ensures err { OnErr result (self.new ≡ self.old) }
    {
        self.clients.set_tempo(client, queue, moment, tempo)
    }

    /// Lets other clients use a queue. It takes no memory.
    pub fn share(&mut self, client: ClientId, queue: QueueNo)
        ensures clients { let was = self.old.clients in
            let c = queue_changed (get was.clients client) queue public in
            self.new.clients ≡ with_client was client c }
        ensures graph { self.new.graph ≡ self.old.graph }
    {
        self.clients.share(client, queue);
    }
}
