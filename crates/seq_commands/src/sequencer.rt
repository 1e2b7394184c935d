//! What a sequencer has.

ghost use Rattle.std.specs.Prelude.{◌≡◌, ◌++◌, None, IsOk, IfOk, OnOk};
ghost use Rattle.std.specs.FinMap.{get};
ghost use Rattle.seq_clients.specs.Roster.{lost_count};
ghost use Rattle.seq_state.specs.State.{start};
ghost use Rattle.seq_state.specs.Step.{settle};
ghost use Rattle.seq_settle.specs.Cells.{AreCells};
ghost use Rattle.seq_settle.specs.Next.{next_moment};
ghost use Rattle.seq_settle.specs.Order.{AreTimed, NoneComes};
ghost use Rattle.seq_settle.specs.Waiting.{cell_at};
ghost use Rattle.seq_settle.specs.declared.waiting.QueueKey.{QueueKey};
ghost use Rattle.seq_patchbay.specs.Listing.{listing};
ghost use Rattle.seq_commands.specs.Whole.{state_of, clients_of};

use crate::files::Files;
use agenda_heap::Agenda;
use memory::OutOfMemory;
use node_table::ClientId;
use seq_patchbay::Patchbay;
use seq_settle::{Cells, QueueOrder, settle_all, soonest};
use seq_state::Delivery;
use std::alloc::Global;

/// Who says a command, and when.
#[derive(Clone, Copy, Debug, Drop)]
pub struct Turn {
    /// In nanoseconds from the beginning of the run.
    pub moment: u64,
    pub actor: ClientId,
}

/// The clients with their subscriptions, what is still to be sent, and the files that may be played.
///
/// When what is to be sent is due stands in an agenda beside it, which each call that needs it is given.
#[derive(Drop)]
pub struct Sequencer<'f, 'b> {
    pub(crate) alloc: Global,
    pub(crate) patchbay: Patchbay,
    pub(crate) cells: Cells<'b>,
    /// The cells that are not in the agenda.
    pub(crate) order: QueueOrder,
    pub(crate) files: Files<'f, 'b>,
    /// How many inputs it has taken.
    pub(crate) steps: u64,
}

impl<'f, 'b> Sequencer<'f, 'b> {
    /// Nobody is open. It takes no memory yet.
    pub fn new(alloc: Global, files: Files<'f, 'b>) -> Sequencer<'f, 'b>
        ensures state { state_of result ≡ start }
        ensures files { result.files ≡ files.entry }
        ensures steps { result.steps ≡ 0 }
        ensures cells { AreCells result.cells.cells 0 }
        ensures none_waits { (k : QueueKey) → cell_at result.order.waiting k ≡ None }
    {
        Sequencer {
            alloc,
            patchbay: Patchbay::new(alloc),
            cells: Cells::new(alloc),
            order: QueueOrder::new(alloc),
            files,
            steps: 0,
        }
    }

    /// How many inputs it has taken.
    pub fn steps(&self) -> u64
        ensures { result ≡ self.now.steps }
    {
        self.steps
    }

    /// The open clients and the subscriptions between their nodes.
    pub fn patchbay(&self) -> &Patchbay
        ensures clients { result.now.clients.clients ≡ (state_of self.now).clients }
        ensures pools { result.now.clients.pools ≡ (state_of self.now).pools }
        ensures edges { result.now.graph ≡ (state_of self.now).edges }
    {
        &self.patchbay
    }

    /// How many messages found no room in the client's input pool since it opened; 0 where it is not open.
    pub fn lost(&self, client: ClientId) -> u64
        ensures { result ≡ lost_count (get (state_of self.now).pools client) }
    {
        self.patchbay.clients().lost(client)
    }

    /// Sends all that is due by a moment, in nanoseconds, and adds what came to ports to `out`.
    ///
    /// Running out of memory may leave the agenda without some of what is still to be sent.
    pub fn settle<A: Agenda>(
        &mut self,
        agenda: &mut A,
        moment: u64,
        out: &mut Vec<Delivery>,
    ) -> Result<(), OutOfMemory>
        requires cells { AreCells self.old.cells.cells self.old.steps }
        requires timed { AreTimed (clients_of self.old) self.old.cells.cells self.old.order
            (A.content agenda.old) }
        ensures state { OnOk result
            (state_of self.new ≡ (settle (state_of self.old) moment).state) }
        ensures sent { OnOk result (out.new.items
            ≡ out.old.items ++ (settle (state_of self.old) moment).delivered) }
        ensures cells { OnOk result (AreCells self.new.cells.cells self.new.steps) }
        ensures timed { OnOk result (AreTimed (clients_of self.new) self.new.cells.cells
            self.new.order (A.content agenda.new)) }
        ensures files { self.new.files ≡ self.old.files }
        ensures steps { self.new.steps ≡ self.old.steps }

        // Where nothing is due no memory is asked for.
        ensures idle { NoneComes (clients_of self.old) self.old.cells.cells moment → IsOk result }
    {
        settle_all(
            &mut self.patchbay,
            &mut self.cells,
            &mut self.order,
            agenda,
            self.steps,
            moment,
            out,
        )
    }

    /// When the next event is due, in nanoseconds, by the queues as they run now; `None` where no event has a moment.
    /// It takes no memory.
    pub fn next_due<A: Agenda>(&mut self, agenda: &mut A) -> Option<u64>
        requires cells { AreCells self.old.cells.cells self.old.steps }
        requires timed { AreTimed (clients_of self.old) self.old.cells.cells self.old.order
            (A.content agenda.old) }
        ensures moment { result ≡ next_moment (state_of self.old) }
        ensures state { state_of self.new ≡ state_of self.old }
        ensures cells { AreCells self.new.cells.cells self.new.steps }
        ensures timed { AreTimed (clients_of self.new) self.new.cells.cells self.new.order
            (A.content agenda.new) }
        ensures files { self.new.files ≡ self.old.files }
        ensures steps { self.new.steps ≡ self.old.steps }
    {
        soonest(
            &self.patchbay,
            &self.cells,
            &mut self.order,
            agenda,
            self.steps,
        )
    }

    /// The listing: a line for each open client by number, each with its ports, filters and queues by number,
    /// and then one for each subscription, the oldest first.
    pub fn listing(&self) -> Result<Vec<u8>, OutOfMemory>
        ensures { IfOk result (λ text. text.items
            ≡ listing self.now.patchbay.clients self.now.patchbay.graph) }
    {
        self.patchbay.listing(self.alloc)
    }
}
