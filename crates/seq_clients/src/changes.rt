//! The open clients: what changes them.

ghost use Rattle.std.specs.Prelude.{◌≡◌, ◌≤◌, ◌<◌, ◌++◌, [], true, false, length, is_some, Some, None, IsSome, IsOk, IfOk, OnOk, OnErr};
ghost use Rattle.std.specs.FinMap.{get};
ghost use Rattle.std.specs.Option.{option_map};
ghost use Rattle.cell_pools.specs.Pools.{is_size, empty_pool, after_offer, after_losses_of};
ghost use Rattle.midi_wire.specs.Parsing.{GainsPrefix};
ghost use Rattle.midi_wire.specs.Readings.{reading};
ghost use Rattle.node_table.specs.Names.{is_name};
ghost use Rattle.tempo_clock.specs.Clocks.{running_from_zero, at_rest, running_on, with_tempo};
ghost use Rattle.tempo_clock.specs.Entries.{is_tempo};
ghost use Rattle.seq_state.specs.Effect.{has_port, has_filter, port_of, filter_of, queue_of, with_change, put_port, put_filter, put_queue, new_client, new_port, new_filter, filter_ruled, fed_of, port_fed, held_queue, with_clock, public, queue_changed, oldest, without_oldest, with_listening, without_listening};
ghost use Rattle.seq_state.specs.State as state;
ghost use Rattle.seq_state.specs.Step.{pool_has_room};
ghost use Rattle.seq_clients.specs.Roster.{port_begun, with_client, with_pool};

use crate::body::NodeBody;
use crate::clients::{Clients, filter_addr, port_addr};
use crate::port::PortStream;
use crate::queue::Queue;
use crate::row::ClientRow;
use memory::OutOfMemory;
use midi_wire::Message;
use node_table::{Caps, ClientId, FilterNo, PortNo, QueueNo};
use route_filter::Rule;
use seq_state::Arrival;
use tempo_clock::TempoMap;

impl Clients {
    /// Opens a client with a name, 1 to 32 visible characters of ASCII, and pools of these sizes, the input pool for 1
    /// to 2,000 messages. `Err` leaves all as it was.
    pub fn open(
        &mut self,
        client: ClientId,
        name: &[u8],
        in_size: u32,
        out_size: u32,
    ) -> Result<(), OutOfMemory>
        requires fresh { get self.old.clients client ≡ None }
        requires named { is_name name.now ≡ true }
        requires sized { is_size in_size ≡ true }
        ensures ok { let made = Some (new_client name.now in_size out_size) in
            let opened = with_client self.old client made in
            OnOk result (self.new ≡ with_pool opened client (Some (empty_pool in_size))) }
        ensures err { OnErr result (self.new ≡ self.old) }
    {
        let row = ClientRow::new(self.alloc, in_size, out_size)?;
        self.nodes.add_client(client, name)?;
        self.rows.insert(client, row);
        Ok(())
    }

    /// Closes a client: all that it has goes. It takes no memory.
    pub fn close(&mut self, client: ClientId)
        ensures { self.new ≡ with_pool (with_client self.old client None) client None }
    {
        self.nodes.close_client(client);
        self.rows.remove(client);
    }

    /// Makes a port with a new stream. `Err` leaves all as it was.
    pub fn create_port(
        &mut self,
        client: ClientId,
        port: PortNo,
        name: &[u8],
        caps: Caps,
    ) -> Result<(), OutOfMemory>
        requires open { is_some (get self.old.clients client) ≡ true }
        requires named { is_name name.now ≡ true }
        requires free { has_port (get self.old.clients client) port ≡ false }
        ensures ok { let made = put_port port (Some (new_port name.now caps)) in
            let c = with_change (get self.old.clients client) made in
            OnOk result (self.new ≡ with_client self.old client c) }
        ensures err { OnErr result (self.new ≡ self.old) }
    {
        let stream = NodeBody::Stream(PortStream::new(self.alloc));
        self.nodes
            .add_node(port_addr(client, port), name, caps, stream)?;
        Ok(())
    }

    /// Drops a port that may be there. It takes no memory.
    pub fn delete_port(&mut self, client: ClientId, port: PortNo)
        ensures { let c = with_change (get self.old.clients client) (put_port port None) in
            self.new ≡ with_client self.old client c }
    {
        self.nodes.delete(port_addr(client, port));
    }

    /// Makes a filter. `Err` leaves all as it was.
    pub fn create_filter(
        &mut self,
        client: ClientId,
        filter: FilterNo,
        caps: Caps,
        rule: Rule,
    ) -> Result<(), OutOfMemory>
        requires open { is_some (get self.old.clients client) ≡ true }
        requires free { has_filter (get self.old.clients client) filter ≡ false }
        ensures ok { let made = put_filter filter (Some (new_filter caps rule)) in
            let c = with_change (get self.old.clients client) made in
            OnOk result (self.new ≡ with_client self.old client c) }
        ensures err { OnErr result (self.new ≡ self.old) }
    {
        let body = NodeBody::Rule(rule);
        self.nodes
            .add_node(filter_addr(client, filter), &[], caps, body)?;
        Ok(())
    }

    /// Drops a filter that may be there. It takes no memory.
    pub fn delete_filter(&mut self, client: ClientId, filter: FilterNo)
        ensures { let c = with_change (get self.old.clients client) (put_filter filter None) in
            self.new ≡ with_client self.old client c }
    {
        self.nodes.delete(filter_addr(client, filter));
    }

    /// Gives a filter that is there another rule. It takes no memory.
    pub fn set_filter(&mut self, client: ClientId, filter: FilterNo, rule: Rule)
        requires { has_filter (get self.old.clients client) filter ≡ true }
        ensures { let c = get self.old.clients client in
            let ruled = put_filter filter (filter_ruled rule (filter_of c filter)) in
            self.new ≡ with_client self.old client (with_change c ruled) }
    {
        if let Some(body) = self.nodes.body_mut(&filter_addr(client, filter)) {
            *body = NodeBody::Rule(rule);
        }
    }

    /// Feeds the stream of a port that is there: adds each message that is whole now to `out`, and answers their
    /// number.
    ///
    /// Memory is for the messages and for exclusive data. After `Err` the port's stream begins anew, which loses the
    /// message that it was in; `out` has gained the first of the messages, maybe none or all.
    pub fn feed(
        &mut self,
        client: ClientId,
        port: PortNo,
        bytes: &[u8],
        out: &mut Vec<Message>,
    ) -> Result<usize, OutOfMemory>
        requires { has_port (get self.old.clients client) port ≡ true }
        ensures fed { let c = get self.old.clients client in
            let fed = put_port port (port_fed bytes.now (port_of c port)) in
            OnOk result (self.new ≡ with_client self.old client (with_change c fed)) }
        ensures told { let fed = fed_of (port_of (get self.old.clients client) port) in
            OnOk result (out.new.items ≡ out.old.items ++ reading (fed ++ bytes.now)) }
        ensures number { let fed = fed_of (port_of (get self.old.clients client) port) in
            IfOk result (λ n. n ≡ length (reading (fed ++ bytes.now))) }
        ensures empty { bytes.now ≡ [] → IsOk result }
        ensures err { let c = get self.old.clients client in
            let anew = put_port port (port_begun (port_of c port)) in
            OnErr result (self.new ≡ with_client self.old client (with_change c anew)) }
        ensures first { let fed = fed_of (port_of (get self.old.clients client) port) in
            let read = reading (fed ++ bytes.now) in
            OnErr result (GainsPrefix out.old.items out.new.items read) }
    {
        if let Some(body) = self.nodes.body_mut(&port_addr(client, port)) {
            return body.feed(bytes, out);
        }
        unreachable!()
    }

    /// Makes a private queue that is held at 0, in the place of one that may be there. It takes no memory.
    pub fn create_queue(&mut self, client: ClientId, queue: QueueNo, map: TempoMap)
        ensures { let made = put_queue queue (Some (held_queue map)) in
            let c = with_change (get self.old.clients client) made in
            self.new ≡ with_client self.old client c }
    {
        self.put_queue(client, queue, Queue::new(map));
    }

    /// Drops a queue that may be there. It takes no memory.
    pub fn delete_queue(&mut self, client: ClientId, queue: QueueNo)
        ensures { let c = with_change (get self.old.clients client) (put_queue queue None) in
            self.new ≡ with_client self.old client c }
    {
        self.take_queue(client, queue);
    }

    /// Runs a queue from 0, from a moment in nanoseconds on. It takes no memory.
    pub fn start(&mut self, client: ClientId, queue: QueueNo, moment: u64)
        requires held { let c = get self.old.clients client in
            (q : state.Queue) → queue_of c queue ≡ Some q → q.clock.since ≡ None }
        ensures { let then = with_clock (λ k. running_from_zero k moment) in
            let c = queue_changed (get self.old.clients client) queue then in
            self.new ≡ with_client self.old client c }
    {
        if let Some(mut held) = self.take_queue(client, queue) {
            held.start(moment);
            self.put_queue(client, queue, held);
        }
    }

    /// Holds a queue at what it shows at a moment in nanoseconds. It takes no memory.
    pub fn stop(&mut self, client: ClientId, queue: QueueNo, moment: u64)
        requires running { let c = get self.old.clients client in
            (q : state.Queue) → queue_of c queue ≡ Some q → IsSome q.clock.since }
        ensures { let then = with_clock (λ k. at_rest k moment) in
            let c = queue_changed (get self.old.clients client) queue then in
            self.new ≡ with_client self.old client c }
    {
        if let Some(mut held) = self.take_queue(client, queue) {
            held.stop(moment);
            self.put_queue(client, queue, held);
        }
    }

    /// Runs a queue on from where it was held, from a moment in nanoseconds on. It takes no memory.
    pub fn resume(&mut self, client: ClientId, queue: QueueNo, moment: u64)
        requires held { let c = get self.old.clients client in
            (q : state.Queue) → queue_of c queue ≡ Some q → q.clock.since ≡ None }
        requires later { let c = get self.old.clients client in
            (q : state.Queue) → queue_of c queue ≡ Some q → q.clock.time ≤ moment }
        ensures { let then = with_clock (λ k. running_on k moment) in
            let c = queue_changed (get self.old.clients client) queue then in
            self.new ≡ with_client self.old client c }
    {
        if let Some(mut held) = self.take_queue(client, queue) {
            held.resume(moment);
            self.put_queue(client, queue, held);
        }
    }

    /// Sets one tempo, 1 to 16,777,215 microseconds per quarter note, from what a queue shows at a moment in
    /// nanoseconds on. `Err` leaves all as it was.
    pub fn set_tempo(
        &mut self,
        client: ClientId,
        queue: QueueNo,
        moment: u64,
        tempo: u32,
    ) -> Result<(), OutOfMemory>
        requires tempo { is_tempo tempo ≡ true }
        requires metrical { let c = get self.old.clients client in
            (q : state.Queue) → queue_of c queue ≡ Some q → q.clock.map.division < 32768 }
        ensures ok { let then = with_clock (λ k. with_tempo k moment tempo) in
            let c = queue_changed (get self.old.clients client) queue then in
            OnOk result (self.new ≡ with_client self.old client c) }
        ensures err { OnErr result (self.new ≡ self.old) }
    {
        let Some(mut held) = self.take_queue(client, queue) else {
            return Ok(());
        };
        let set = held.set_tempo(moment, tempo);
        self.put_queue(client, queue, held);
        set
    }

    /// Lets other clients use a queue. It takes no memory.
    pub fn share(&mut self, client: ClientId, queue: QueueNo)
        ensures { let c = queue_changed (get self.old.clients client) queue public in
            self.new ≡ with_client self.old client c }
    {
        if let Some(mut held) = self.take_queue(client, queue) {
            held.share();
            self.put_queue(client, queue, held);
        }
    }

    fn put_queue(&mut self, client: ClientId, queue: QueueNo, held: Queue)
        ensures { let c = with_change (get self.old.clients client) (put_queue queue (Some held)) in
            self.new ≡ with_client self.old client c }
    {
        let Some(mut row) = self.rows.remove(client) else {
            return;
        };
        row.queues.insert(queue, held);
        self.rows.insert(client, row);
    }

    fn take_queue(&mut self, client: ClientId, queue: QueueNo) -> Option<Queue>
        ensures value { result ≡ queue_of (get self.old.clients client) queue }
        ensures left { let c = with_change (get self.old.clients client) (put_queue queue None) in
            self.new ≡ with_client self.old client c }
    {
        let mut row = self.rows.remove(client)?;
        let held = row.queues.remove(queue);
        self.rows.insert(client, row);
        held
    }

    /// Whether the client has an input pool with room at a moment.
    #[inline]
    pub fn has_room(&self, client: ClientId, moment: u64) -> bool
        ensures { result ≡ pool_has_room moment (get self.now.pools client) }
    {
        self.rows.has_room(client, moment)
    }

    /// Counts as lost what finds no room in the client's input pool, where so many messages come at a moment, before
    /// any of them is offered.
    #[inline]
    pub fn lose_beyond(&mut self, client: ClientId, moment: u64, copies: u64)
        ensures { let lost = option_map (after_losses_of moment copies) in
            let left = lost (get self.old.pools client) in
            self.new ≡ with_pool self.old client left }
    {
        self.rows.lose_beyond(client, moment, copies);
    }

    /// Adds a message to what waits in the client's input pool where there is room, and else drops and counts it. Where
    /// the client listens, the message waits for nobody. It takes no memory.
    #[inline]
    pub fn offer(&mut self, client: ClientId, arrival: Arrival) -> bool
        ensures kept { result ≡ pool_has_room arrival.moment (get self.old.pools client) }
        ensures after { let offered = option_map (λ p. after_offer arrival.moment p arrival) in
            self.new ≡ with_pool self.old client (offered (get self.old.pools client)) }
    {
        self.rows.offer(client, arrival)
    }

    /// Lets the client listen: what comes to its input pool is taken at once. What waits still waits. It takes no
    /// memory.
    pub fn listen(&mut self, client: ClientId)
        ensures { let pool = with_listening (get self.old.pools client) in
            self.new ≡ with_pool self.old client pool }
    {
        self.rows.listen(client);
    }

    /// Lets what comes to the client's input pool wait again. It takes no memory.
    pub fn unlisten(&mut self, client: ClientId)
        ensures { let pool = without_listening (get self.old.pools client) in
            self.new ≡ with_pool self.old client pool }
    {
        self.rows.unlisten(client);
    }

    /// Takes the oldest messages that wait in the client's input pool, `max` of them or all where there are fewer.
    ///
    /// Memory is for the answer alone. `Err` leaves all as it was.
    pub fn receive(&mut self, client: ClientId, max: u32) -> Result<Vec<Arrival>, OutOfMemory>
        ensures ok { IfOk result (λ items. items.items ≡ oldest max (get self.old.pools client)) }
        ensures left { let pool = without_oldest max (get self.old.pools client) in
            OnOk result (self.new ≡ with_pool self.old client pool) }
        ensures err { OnErr result (self.new ≡ self.old) }
    {
        let Some(mut row) = self.rows.remove(client) else {
            return Ok(Vec::new(self.alloc));
        };
        let taken = row.pool.take(max);
        self.rows.insert(client, row);
        taken
    }
}
