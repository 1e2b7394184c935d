//! An engine takes inputs one at a time.

ghost use Rattle.std.specs.Prelude.{◌≡◌, ◌≤◌, ◌<◌, ◌+◌, ◌-◌, ◌^◌, ◌↔◌, [], map, true, false, IsTrue, IsOk, IsErrOf, IfOk, OnOk, OnErr};
ghost use Rattle.std.specs.List.{list_all};
ghost use Rattle.std.specs.FinMap as finmap;
ghost use Rattle.std.specs.FinMap.{get};
ghost use Rattle.smf_grammar.specs.Played.{as_played};
ghost use Rattle.seq_engine.specs.Ending.{listing_of};
ghost use Rattle.seq_clients.specs.Roster.{lost_count};
ghost use Rattle.seq_commands.specs.Turns.{takes_none};
ghost use Rattle.seq_settle.specs.Next.{next_moment};
ghost use Rattle.seq_state.specs.State.{start};
ghost use Rattle.seq_state.specs.Step.{due, step, settle, IsRefusal};
ghost use Rattle.seq_state.specs.Laws.{has_ticks, Bounded};

use crate::fault::EngineFault;
use agenda_heap::Agenda;
use memory::Items;
use node_table::ClientId;
use seq_commands::{Files, Sequencer};
use seq_patchbay::Patchbay;
use seq_state::{Delivery, Input, Reply};
use smf_files::SmfFile;
use std::alloc::Global;
use std::marker::Model;

/// What one input gives.
#[derive(Drop)]
pub struct StepOut {
    pub reply: Reply,
    /// What came to ports on the way to the moment of the input, and then what the command sent.
    pub delivered: Items<Delivery>,
}

/// A sequencer. Moments are nanoseconds, and never fall from one call to the next.
pub struct Engine<'f, 'b, A: Agenda> {
    alloc: Global,
    sequencer: Sequencer<'f, 'b>,
    agenda: A,
    moment: u64,
    failed: bool,
}

// Not derived: so what it has is taken apart here alone, and not in each crate that drops an engine.
impl<'f, 'b, A: Agenda + Drop> Drop for Engine<'f, 'b, A> {
    fn drop(self) {
        let Engine {
            alloc: _,
            sequencer: _,
            agenda: _,
            moment: _,
            failed: _,
        } = self;
    }
}

impl<'f, 'b, A: Agenda> Model for Engine<'f, 'b, A> {
    ghost use Rattle.std.specs.Prelude.{◌≡◌, false};
    ghost use Rattle.seq_commands.specs.Whole.{state_of, IsWhole};
    ghost use Rattle.seq_engine.specs.Seen.{Seen, coded_seen};

    ghost Value = { Seen };

    ghost coded = { coded_seen };

    ghost view = { λ e.
        record {
          files = e.sequencer.files;
          state = state_of e.sequencer;
          moment = e.moment;
          steps = e.sequencer.steps;
          failed = e.failed;
        } };

    ghost invariant = { λ e. e.failed ≡ false → IsWhole e.sequencer (A.content e.agenda) e.moment };
}

impl<'f, 'b, A: Agenda> Engine<'f, 'b, A> {
    /// An engine with no clients, at moment 0, whose clients may play these files. It takes no memory yet.
    pub fn new(alloc: Global, files: &'f [SmfFile<'b>], agenda: A) -> Engine<'f, 'b, A>
        requires empty { A.content agenda ≡ finmap.empty }
        ensures first { result
            ≡ record {
              files = map as_played files.now;
              state = start;
              moment = 0;
              steps = 0;
              failed = false;
            } }
        ensures ticks { list_all has_ticks result.files ≡ true }
    {
        Engine {
            alloc,
            sequencer: Sequencer::new(alloc, Files::new(files)),
            agenda,
            moment: 0,
            failed: false,
        }
    }

    /// The moment of the last call that gave an answer; 0 at first.
    pub fn now(&self) -> u64
        ensures { result ≡ self.now.moment }
    {
        self.moment
    }

    /// How many inputs it has taken.
    pub fn steps(&self) -> u64
        ensures { result ≡ self.now.steps }
    {
        self.sequencer.steps()
    }

    /// The open clients and the subscriptions between their nodes, as the last call left them.
    pub fn patchbay(&self) -> &Patchbay
        ensures clients { result.now.clients.clients ≡ self.now.state.clients }
        ensures pools { result.now.clients.pools ≡ self.now.state.pools }
        ensures edges { result.now.graph ≡ self.now.state.edges }
    {
        self.sequencer.patchbay()
    }

    /// How many messages found no room in the client's input pool since it opened; 0 where it is not open. The count
    /// stays at 2^64 - 1.
    pub fn lost(&self, client: ClientId) -> u64
        ensures { result ≡ lost_count (get self.now.state.pools client) }
    {
        self.sequencer.lost(client)
    }

    /// Takes one input: sends all that is due by its moment, and then carries its command out or refuses it.
    ///
    /// Where nothing is due, a refused command takes no memory, nor does one that only takes away or asks. Once it
    /// ran out of memory, the engine answers `Failed` to every further input; its moment and its number of steps stay
    /// what they were.
    pub fn step(&mut self, input: &Input) -> Result<StepOut, EngineFault>
        requires in_time { self.old.moment ≤ input.now.moment }
        requires counted { self.old.steps < 2 ^ 64 - 1 }

        ensures state { OnOk result (self.new ≡ record self.old {
          state = (step self.old.files self.old.state input.now).state;
          moment = input.now.moment;
          steps = self.old.steps + 1;
        }) }
        ensures reply { IfOk result
            (λ out. out.reply ≡ (step self.old.files self.old.state input.now).reply) }
        ensures delivered { IfOk result (λ out.
            out.delivered ≡ (step self.old.files self.old.state input.now).delivered) }

        ensures quiet { self.old.failed ≡ false → due self.old.state input.now.moment ≡ [] →
            IsRefusal (step self.old.files self.old.state input.now).reply → IsOk result }
        ensures freely { self.old.failed ≡ false → due self.old.state input.now.moment ≡ [] →
            takes_none input.now.command ≡ true → IsOk result }

        // Each pool keeps to its size, and each node to its number of sources.
        ensures bounded { OnOk result (Bounded self.new.state) }
        ensures failed { IsErrOf result EngineFault.Failed ↔ IsTrue self.old.failed }
        ensures fails { OnErr result (self.new.failed ≡ true) }
        ensures same_now { OnErr result (self.new.moment ≡ self.old.moment) }
        ensures same_steps { OnErr result (self.new.steps ≡ self.old.steps) }
    {
        if self.failed {
            return Err(EngineFault::Failed);
        }
        self.failed = true;
        let mut delivered = Vec::new(self.alloc);
        let reply = self
            .sequencer
            .step(&mut self.agenda, input, &mut delivered)?;
        self.failed = false;
        self.moment = input.moment;
        Ok(StepOut {
            reply,
            delivered: Items::new(delivered),
        })
    }

    /// Sends what is due by a moment, and answers what came to ports.
    pub fn settle(&mut self, moment: u64) -> Result<Vec<Delivery>, EngineFault>
        requires { self.old.moment ≤ moment }

        ensures state { OnOk result (self.new ≡ record self.old {
          state = (settle self.old.state moment).state;
          moment = moment;
        }) }
        ensures delivered { IfOk result
            (λ ds. ds.items ≡ (settle self.old.state moment).delivered) }
        ensures idle { self.old.failed ≡ false → due self.old.state moment ≡ [] → IsOk result }
        ensures failed { IsErrOf result EngineFault.Failed ↔ IsTrue self.old.failed }
        ensures fails { OnErr result (self.new.failed ≡ true) }
        ensures same_now { OnErr result (self.new.moment ≡ self.old.moment) }
        ensures same_steps { OnErr result (self.new.steps ≡ self.old.steps) }
    {
        if self.failed {
            return Err(EngineFault::Failed);
        }
        self.failed = true;
        let mut delivered = Vec::new(self.alloc);
        self.sequencer
            .settle(&mut self.agenda, moment, &mut delivered)?;
        self.failed = false;
        self.moment = moment;
        Ok(delivered)
    }

    /// When the next event is due, in nanoseconds, by the queues as they run now; `None` where no event has a moment.
    /// It takes no memory.
    ///
    /// To settle up to an earlier moment sends nothing.
    pub fn next_due(&mut self) -> Result<Option<u64>, EngineFault>
        ensures moment { IfOk result (λ m. m ≡ next_moment self.old.state) }
        ensures same { self.new ≡ self.old }
        ensures failed { IsErrOf result EngineFault.Failed ↔ IsTrue self.old.failed }
        ensures sound { self.old.failed ≡ false → IsOk result }
    {
        if self.failed {
            return Err(EngineFault::Failed);
        }
        Ok(self.sequencer.next_due(&mut self.agenda))
    }

    /// The listing: a line for each open client by number, each with its ports, filters and queues by number,
    /// and then one for each subscription, the oldest first. Running out of memory here changes nothing.
    pub fn listing(&self) -> Result<Vec<u8>, EngineFault>
        ensures text { IfOk result (λ text.
            text.items ≡ listing_of self.now.state) }
        ensures failed { IsErrOf result EngineFault.Failed ↔ IsTrue self.now.failed }
    {
        if self.failed {
            return Err(EngineFault::Failed);
        }
        Ok(self.sequencer.listing()?)
    }
}
