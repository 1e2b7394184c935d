//! A message on its way through filters.

ghost use Rattle.std.specs.Prelude.{◌≡◌, Some, None, IfOk, IfErr};
ghost use Rattle.std.specs.Option.{option_copied, option_map};
ghost use Rattle.seq_state.specs.Copies.{filter_at, passed_by};
ghost use Rattle.way_fates.specs.Fates.{stop_at, stopped_at};

use crate::fate::Fate;
use crate::stop::{Stop, stop_by};
use memory::OutOfMemory;
use midi_wire::Message;
use node_table::{Addr, Node};
use route_filter::Rule;
use seq_clients::Clients;

/// The rule of a node, if it is a filter that is there.
fn rule_at<'c>(clients: &'c Clients, node: &Addr) -> Option<&'c Rule>
    ensures { let f = filter_at clients.now.clients node.now.client node.now.node in
        option_copied result ≡ option_map (λ f. f.rule) f }
{
    match node.node {
        Node::Port(_) => None,
        Node::Filter(filter) => clients.rule(node.client, filter),
    }
}

/// A message past a node; where a filter stops it there, why.
fn pass(clients: &Clients, node: &Addr, message: Message) -> Result<Message, Stop>
    ensures passed { let f = filter_at clients.now.clients node.now.client node.now.node in
        IfOk result (λ m. (stop_at f message ≡ None) × (passed_by f message ≡ Some m)) }
    ensures stopped { let f = filter_at clients.now.clients node.now.client node.now.node in
        IfErr result (λ why. stop_at f message ≡ Some why) }
{
    let Some(rule) = rule_at(clients, node) else {
        return Ok(message);
    };
    if let Some(why) = stop_by(&rule.args(), &message) {
        return Err(why);
    }
    match rule.pass(message) {
        Some(passed) => Ok(passed),
        None => unreachable!(),
    }
}

/// Where the filters among these nodes stop a message that goes through them in order, and why.
pub(crate) fn stopped_at(
    clients: &Clients,
    nodes: &[Addr],
    message: &Message,
) -> Result<Option<Fate>, OutOfMemory>
    ensures { IfOk result (λ fate. fate ≡ stopped_at clients.now.clients nodes.now message.now) }
{
    let mut carried = message.duplicate()?;
    for node in nodes {
        match pass(clients, node, carried) {
            Ok(passed) => carried = passed,
            Err(why) => {
                let filter = *node;
                return Ok(Some(Fate::Stopped { filter, why }));
            }
        }
    }
    Ok(None)
}
