//! What to do about a refusal.

ghost use Rattle.std.specs.Prelude.{◌≡◌, ◌++◌};
ghost use Rattle.std.specs.Fmt.{WritesOnOk};
ghost use Rattle.node_table.specs.Text.{addr_text, queue_text};
ghost use Rattle.program_tasks.specs.Explained.{remedy, said_of_node, said_of_edge, said_of_queue, owner_said, said_of_lack, edge_text, edge_remedy, queue_remedy, lack_text, no_export_text, remedy_named};

use node_table::{Addr, QueueAddr};
use seq_session::{About, Capability};
use seq_state::Refusal;
use std::fmt;

/// What to do about a refusal that names nothing.
fn remedy(refusal: Refusal) -> &'static str
    ensures { result.now ≡ remedy refusal }
{
    match refusal {
        Refusal::NotOpen => "open first",
        Refusal::AlreadyOpen => "close first",
        Refusal::BadName => "a name has 1 to 32 visible ASCII characters",
        Refusal::BadSize => "IN, OUT and MAX are 1 to 2000, and PPQ is 1 to 32767",
        Refusal::BadRule => {
            "KINDS is at most 1023, LOW at most HIGH, HIGH at most 127, SHIFT -127 to 127, CHANNEL at most 15"
        }
        Refusal::NodeExists => "use another number, or drop the old one",
        Refusal::NoNode => "make the port or the filter first",
        Refusal::NoSender => {
            "the first address names nothing: its client has to make the node first"
        }
        Refusal::NoDest => {
            "the second address names nothing: its client has to make the node first"
        }
        Refusal::NotPermitted => {
            "the capabilities of the two nodes do not allow it: their owners choose them"
        }
        Refusal::AlreadyConnected => "the subscription is there already",
        Refusal::NotConnected => "there is no such subscription",
        Refusal::SourcesFull => "a node has at most 32 sources: end another subscription first",
        Refusal::Cycle => "the filters would make a ring: leave out one subscription of it",
        Refusal::QueueExists => "use another number, or drop the old queue",
        Refusal::NotYours => "the queue is another client's",
        Refusal::NoQueue => "make the queue first",
        Refusal::QueueRunning => "stop the queue first",
        Refusal::QueueStopped => "the queue is held already",
        Refusal::NoFile => "no file of this name was taken from the folder of --dir",
        Refusal::DivisionDiffers => {
            "make the queue with queuefrom, or with the file's ticks per quarter note"
        }
        Refusal::BadTempo => "a tempo is 1 to 16777215, and a queue that counts frames has none",
        Refusal::BadTime => "now and DUE together are past 18446744073709551615",
        Refusal::OutFull => {
            "the output pool is full: wait until something was sent, drop, or open with a greater OUT"
        }
    }
}

/// What is said of a node that a refusal is about.
fn said_of_node(refusal: Refusal) -> &'static str
    ensures { result.now ≡ said_of_node refusal }
{
    match refusal {
        Refusal::NodeExists => " is there already: use another number, or drop it",
        Refusal::NoNode => " is not there: make it first",
        Refusal::NoSender | Refusal::NoDest => " is not there: its client has to make it first",
        Refusal::SourcesFull => " has 32 sources already: end another subscription first",
        _ => " is at fault",
    }
}

/// What is said of a subscription that a refusal is about.
fn said_of_edge(refusal: Refusal) -> &'static str
    ensures { result.now ≡ said_of_edge refusal }
{
    match refusal {
        Refusal::AlreadyConnected => " is there already",
        Refusal::Cycle => " would close a ring of filters: leave out one subscription of it",
        _ => " is at fault",
    }
}

/// What is said of a queue that a refusal is about.
fn said_of_queue(refusal: Refusal) -> &'static str
    ensures { result.now ≡ said_of_queue refusal }
{
    match refusal {
        Refusal::QueueExists => " is there already: use another number, or drop it",
        Refusal::NoQueue => " is not there: make it first",
        Refusal::QueueRunning => " runs already: stop it first",
        Refusal::QueueStopped => " is held already",
        _ => " is at fault",
    }
}

/// What is said of a node that lacks a capability.
fn said_of_lack(capability: Capability) -> &'static str
    ensures { result.now ≡ said_of_lack capability }
{
    match capability {
        Capability::Read => " lacks READ: its owner chooses that",
        Capability::SubsRead => " lacks SUBS_READ: its owner chooses that",
        Capability::Write => " lacks WRITE: its owner chooses that",
        Capability::SubsWrite => " lacks SUBS_WRITE: its owner chooses that",
    }
}

/// Writes the address of a node.
fn write_node<W: fmt::Write>(node: &Addr, f: &mut fmt::Formatter<W>) -> fmt::Result
    ensures { WritesOnOk W.write_str_gives f.old result
        (addr_text node.now.client node.now.node) f.new }
{
    let node = *node;
    write!(f, "{node}")
}

/// Writes a subscription.
fn write_edge<W: fmt::Write>(source: &Addr, target: &Addr, f: &mut fmt::Formatter<W>) -> fmt::Result
    ensures { WritesOnOk W.write_str_gives f.old result (edge_text source.now target.now) f.new }
{
    write_node(source, f)?;
    f.write_str(" to ")?;
    write_node(target, f)
}

fn write_edge_remedy<W: fmt::Write>(
    refusal: Refusal,
    source: &Addr,
    target: &Addr,
    f: &mut fmt::Formatter<W>,
) -> fmt::Result
    ensures { WritesOnOk W.write_str_gives f.old result
        (edge_remedy refusal source.now target.now) f.new }
{
    match refusal {
        Refusal::NotConnected => {
            f.write_str("there is no subscription ")?;
            write_edge(source, target, f)
        }
        _ => {
            write_edge(source, target, f)?;
            f.write_str(said_of_edge(refusal))
        }
    }
}

/// Writes the address of a queue.
fn write_queue<W: fmt::Write>(queue: &QueueAddr, f: &mut fmt::Formatter<W>) -> fmt::Result
    ensures { WritesOnOk W.write_str_gives f.old result
        (queue_text queue.now.client queue.now.queue) f.new }
{
    let queue = *queue;
    write!(f, "{queue}")
}

/// Writes whose queue it is.
fn write_owner<W: fmt::Write>(queue: &QueueAddr, f: &mut fmt::Formatter<W>) -> fmt::Result
    ensures { WritesOnOk W.write_str_gives f.old result (owner_said queue.now.client) f.new }
{
    let client = queue.client;
    f.write_str(" is client ")?;
    write!(f, "{client}")?;
    f.write_str("'s: only status, schedule and play may use it, once it is shared")
}

fn write_queue_remedy<W: fmt::Write>(
    refusal: Refusal,
    queue: &QueueAddr,
    f: &mut fmt::Formatter<W>,
) -> fmt::Result
    ensures { WritesOnOk W.write_str_gives f.old result (queue_remedy refusal queue.now) f.new }
{
    match refusal {
        Refusal::NotYours => {
            write_queue(queue, f)?;
            write_owner(queue, f)
        }
        _ => {
            write_queue(queue, f)?;
            f.write_str(said_of_queue(refusal))
        }
    }
}

/// Writes what a node lacks.
fn write_lack<W: fmt::Write>(
    node: &Addr,
    capability: Capability,
    f: &mut fmt::Formatter<W>,
) -> fmt::Result
    ensures { WritesOnOk W.write_str_gives f.old result (lack_text node.now capability) f.new }
{
    write_node(node, f)?;
    f.write_str(said_of_lack(capability))
}

fn write_no_export<W: fmt::Write>(node: &Addr, f: &mut fmt::Formatter<W>) -> fmt::Result
    ensures { WritesOnOk W.write_str_gives f.old result (no_export_text node.now) f.new }
{
    let node = *node;
    write!(f, "{node} has NO_EXPORT: its owner chooses that")
}

/// Writes what to do about a refusal, with the names of what it is about.
pub(crate) fn write_remedy<W: fmt::Write>(
    refusal: Refusal,
    about: &About,
    f: &mut fmt::Formatter<W>,
) -> fmt::Result
    ensures { WritesOnOk W.write_str_gives f.old result (remedy_named refusal about.now) f.new }
{
    match about {
        About::Nothing => f.write_str(remedy(refusal)),
        About::Node(node) => {
            write_node(node, f)?;
            f.write_str(said_of_node(refusal))
        }
        About::Edge { source, target } => write_edge_remedy(refusal, source, target, f),
        About::Queue(queue) => write_queue_remedy(refusal, queue, f),
        About::Lacks(node, capability) => write_lack(node, *capability, f),
        About::NotExported(node) => write_no_export(node, f),
    }
}
