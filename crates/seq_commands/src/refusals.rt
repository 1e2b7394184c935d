//! Which refusal stands, for the commands of clients, nodes, subscriptions and pools.
//!
//! Each function here tests in the order of the refusals' numbers, takes no memory and changes nothing.

ghost use Rattle.std.specs.Prelude.{◌≡◌, ℕ, nat_le, List};
ghost use Rattle.node_table.specs.declared.caps.Caps.{Caps};
ghost use Rattle.patch_graph.specs.Edges.{sources_of, most_sources};
ghost use Rattle.seq_state.specs.declared.input.Command.TheVariants as Command;
ghost use Rattle.seq_commands.specs.Whole.{refusal_in};

use crate::sequencer::{Sequencer, Turn};
use cell_pools::is_size;
use node_table::{Addr, FilterNo, PortNo, is_name, permitted};
use patch_graph::{MOST_SOURCES, PatchGraph};
use route_filter::RuleArgs;
use seq_state::Refusal;

impl Sequencer<'_, '_> {
    #[tactic(auto, unfolding(seq_state::specs::Table::command_row))]
    pub(crate) fn open_refusal(
        &self,
        turn: Turn,
        name: &[u8],
        in_size: u32,
        out_size: u32,
    ) -> Option<Refusal>
        ensures { result ≡ refusal_in self.now turn (Command.Open name.now in_size out_size) }
    {
        if self.patchbay.clients().is_open(turn.actor) {
            return Some(Refusal::AlreadyOpen);
        }
        if !is_name(name) {
            return Some(Refusal::BadName);
        }
        if !(is_size(in_size) && is_size(out_size)) {
            return Some(Refusal::BadSize);
        }
        None
    }

    /// For Close, DropOutput, Listen, Unlisten and PoolStatus.
    #[tactic(auto, unfolding(seq_state::specs::Table::command_row))]
    pub(crate) fn client_refusal(&self, turn: Turn) -> Option<Refusal>
        ensures close { result ≡ refusal_in self.now turn Command.Close }
        ensures drop_output { result ≡ refusal_in self.now turn Command.DropOutput }
        ensures listen { result ≡ refusal_in self.now turn Command.Listen }
        ensures unlisten { result ≡ refusal_in self.now turn Command.Unlisten }
        ensures pool_status { result ≡ refusal_in self.now turn Command.PoolStatus }
    {
        if !self.patchbay.clients().is_open(turn.actor) {
            return Some(Refusal::NotOpen);
        }
        None
    }

    #[tactic(auto, unfolding(seq_state::specs::Table::command_row))]
    pub(crate) fn create_port_refusal(
        &self,
        turn: Turn,
        port: PortNo,
        name: &[u8],
    ) -> Option<Refusal>
        ensures { (caps : Caps) →
            result ≡ refusal_in self.now turn (Command.CreatePort port name.now caps) }
    {
        if !self.patchbay.clients().is_open(turn.actor) {
            return Some(Refusal::NotOpen);
        }
        if !is_name(name) {
            return Some(Refusal::BadName);
        }
        if self.patchbay.clients().has_port(turn.actor, port) {
            return Some(Refusal::NodeExists);
        }
        None
    }

    /// For DeletePort, Bytes and Send.
    #[tactic(auto, unfolding(seq_state::specs::Table::command_row))]
    pub(crate) fn port_refusal(&self, turn: Turn, port: PortNo) -> Option<Refusal>
        ensures delete_port { result ≡ refusal_in self.now turn (Command.DeletePort port) }
        ensures bytes { (bytes : List ℕ) →
            result ≡ refusal_in self.now turn (Command.Bytes port bytes) }
        ensures send { (message : List ℕ) →
            result ≡ refusal_in self.now turn (Command.Send port message) }
    {
        if !self.patchbay.clients().is_open(turn.actor) {
            return Some(Refusal::NotOpen);
        }
        if !self.patchbay.clients().has_port(turn.actor, port) {
            return Some(Refusal::NoNode);
        }
        None
    }

    #[tactic(auto, unfolding(seq_state::specs::Table::command_row))]
    pub(crate) fn create_filter_refusal(
        &self,
        turn: Turn,
        filter: FilterNo,
        rule: &RuleArgs,
    ) -> Option<Refusal>
        ensures { (caps : Caps) →
            result ≡ refusal_in self.now turn (Command.CreateFilter filter caps rule.now) }
    {
        if !self.patchbay.clients().is_open(turn.actor) {
            return Some(Refusal::NotOpen);
        }
        if !rule.is_rule() {
            return Some(Refusal::BadRule);
        }
        if self.patchbay.clients().has_filter(turn.actor, filter) {
            return Some(Refusal::NodeExists);
        }
        None
    }

    #[tactic(auto, unfolding(seq_state::specs::Table::command_row))]
    pub(crate) fn set_filter_refusal(
        &self,
        turn: Turn,
        filter: FilterNo,
        rule: &RuleArgs,
    ) -> Option<Refusal>
        ensures { result ≡ refusal_in self.now turn (Command.SetFilter filter rule.now) }
    {
        if !self.patchbay.clients().is_open(turn.actor) {
            return Some(Refusal::NotOpen);
        }
        if !rule.is_rule() {
            return Some(Refusal::BadRule);
        }
        if !self.patchbay.clients().has_filter(turn.actor, filter) {
            return Some(Refusal::NoNode);
        }
        None
    }

    #[tactic(auto, unfolding(seq_state::specs::Table::command_row))]
    pub(crate) fn delete_filter_refusal(&self, turn: Turn, filter: FilterNo) -> Option<Refusal>
        ensures { result ≡ refusal_in self.now turn (Command.DeleteFilter filter) }
    {
        if !self.patchbay.clients().is_open(turn.actor) {
            return Some(Refusal::NotOpen);
        }
        if !self.patchbay.clients().has_filter(turn.actor, filter) {
            return Some(Refusal::NoNode);
        }
        None
    }

    #[tactic(auto, unfolding(seq_state::specs::Table::command_row))]
    pub(crate) fn connect_refusal(
        &self,
        turn: Turn,
        source: &Addr,
        target: &Addr,
    ) -> Option<Refusal>
        ensures { result ≡ refusal_in self.now turn (Command.Connect source.now target.now) }
    {
        if !self.patchbay.clients().is_open(turn.actor) {
            return Some(Refusal::NotOpen);
        }
        let Some(read) = self.patchbay.clients().caps(source) else {
            return Some(Refusal::NoSender);
        };
        let Some(write) = self.patchbay.clients().caps(target) else {
            return Some(Refusal::NoDest);
        };
        if !permitted(turn.actor, source, read, target, write) {
            return Some(Refusal::NotPermitted);
        }
        if self.patchbay.graph().has_edge(source, target) {
            return Some(Refusal::AlreadyConnected);
        }
        if is_full(self.patchbay.graph(), target) {
            return Some(Refusal::SourcesFull);
        }
        if self.patchbay.graph().makes_cycle(source, target) {
            return Some(Refusal::Cycle);
        }
        None
    }

    #[tactic(auto, unfolding(seq_state::specs::Table::command_row))]
    pub(crate) fn disconnect_refusal(
        &self,
        turn: Turn,
        source: &Addr,
        target: &Addr,
    ) -> Option<Refusal>
        ensures { result ≡ refusal_in self.now turn (Command.Disconnect source.now target.now) }
    {
        if !self.patchbay.clients().is_open(turn.actor) {
            return Some(Refusal::NotOpen);
        }
        let Some(read) = self.patchbay.clients().caps(source) else {
            return Some(Refusal::NoSender);
        };
        let Some(write) = self.patchbay.clients().caps(target) else {
            return Some(Refusal::NoDest);
        };
        if !permitted(turn.actor, source, read, target, write) {
            return Some(Refusal::NotPermitted);
        }
        if !self.patchbay.graph().has_edge(source, target) {
            return Some(Refusal::NotConnected);
        }
        None
    }

    #[tactic(auto, unfolding(seq_state::specs::Table::command_row))]
    pub(crate) fn receive_refusal(&self, turn: Turn, max: u32) -> Option<Refusal>
        ensures { result ≡ refusal_in self.now turn (Command.Receive max) }
    {
        if !self.patchbay.clients().is_open(turn.actor) {
            return Some(Refusal::NotOpen);
        }
        if !is_size(max) {
            return Some(Refusal::BadSize);
        }
        None
    }
}

/// Whether as many subscriptions end at a node as may.
#[tactic(auto, unfolding(patch_graph::specs::Edges::most_sources))]
fn is_full(graph: &PatchGraph, target: &Addr) -> bool
    ensures { result ≡ nat_le most_sources (sources_of graph.now target.now) }
{
    graph.sources(target) >= MOST_SOURCES
}
