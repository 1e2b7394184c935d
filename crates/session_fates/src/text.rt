//! What becomes of a message, as text, with a line for each way.

ghost use Rattle.std.specs.Prelude.{◌≡◌, ◌++◌, IfOk, OnOk};
ghost use Rattle.seq_state.specs.Step.{port_addr};
ghost use Rattle.session_fates.specs.Told.{step_text, steps_text, up_to, reached, way_line, ways_text, more_text, no_way_text, fates_text};

use crate::asking::SessionFates;
use crate::phrases::{push_fate, push_node, push_words};
use memory::OutOfMemory;
use node_table::{Addr, PortAddr};
use std::alloc::Global;
use way_fates::{Fate, WayFate};

/// Of how many ways lines are told at most.
pub const MOST_TOLD: usize = 1000;

/// Adds the nodes of a way up to one, and with it.
// A way has at most nine nodes, so this goes no deeper.
fn push_up_to(
    text: &mut Vec<u8>,
    alloc: Global,
    nodes: &[Addr],
    last: &Addr,
) -> Result<(), OutOfMemory>
    ensures { OnOk result
        (text.new.items ≡ text.old.items ++ steps_text (up_to last.now nodes.now)) }
{
    let Some((node, more)) = nodes.split_first() else {
        return Ok(());
    };
    push_step(text, alloc, node)?;
    if node == last {
        return Ok(());
    }
    push_up_to(text, alloc, more, last)
}

fn push_steps(text: &mut Vec<u8>, alloc: Global, nodes: &[Addr]) -> Result<(), OutOfMemory>
    ensures { OnOk result (text.new.items ≡ text.old.items ++ steps_text nodes.now) }
{
    for node in nodes {
        push_step(text, alloc, node)?;
    }
    Ok(())
}

fn push_step(text: &mut Vec<u8>, alloc: Global, node: &Addr) -> Result<(), OutOfMemory>
    ensures { OnOk result (text.new.items ≡ text.old.items ++ step_text node.now) }
{
    push_words(text, " > ")?;
    push_node(text, alloc, node)
}

/// Adds the nodes of a way that a message comes to.
fn push_reached(
    text: &mut Vec<u8>,
    alloc: Global,
    nodes: &[Addr],
    fate: Fate,
) -> Result<(), OutOfMemory>
    ensures { OnOk result
        (text.new.items ≡ text.old.items ++ steps_text (reached fate nodes.now)) }
{
    match fate {
        Fate::Stopped { filter, .. } => push_up_to(text, alloc, nodes, &filter),
        Fate::Arrives | Fate::Lost { .. } => push_steps(text, alloc, nodes),
    }
}

/// Adds the line of a way.
fn push_way(
    text: &mut Vec<u8>,
    alloc: Global,
    source: &Addr,
    way: &WayFate,
) -> Result<(), OutOfMemory>
    ensures { OnOk result (text.new.items ≡ text.old.items ++ way_line source.now way.now) }
{
    push_node(text, alloc, source)?;
    push_reached(text, alloc, way.route.nodes(), way.fate)?;
    push_fate(text, alloc, way.fate)?;
    push_words(text, "\n")
}

fn push_ways(
    text: &mut Vec<u8>,
    alloc: Global,
    source: &Addr,
    ways: &[WayFate],
) -> Result<(), OutOfMemory>
    ensures { OnOk result (text.new.items ≡ text.old.items ++ ways_text source.now ways.now) }
{
    for way in ways {
        push_way(text, alloc, source, way)?;
    }
    Ok(())
}

/// Adds of how many ways more no line is told.
fn push_more(text: &mut Vec<u8>, alloc: Global, more: u64) -> Result<(), OutOfMemory>
    ensures { OnOk result (text.new.items ≡ text.old.items ++ more_text more) }
{
    if more == 0 {
        return Ok(());
    }
    push_words(text, format!(in alloc; "and {more} ways more\n")?.as_str())
}

/// Adds what is said of a port from which no way leads.
fn push_no_way(
    text: &mut Vec<u8>,
    alloc: Global,
    source: &Addr,
    is_there: bool,
) -> Result<(), OutOfMemory>
    ensures { OnOk result (text.new.items ≡ text.old.items ++ no_way_text is_there source.now) }
{
    push_node(text, alloc, source)?;
    if is_there {
        push_words(text, " leads to no port\n")
    } else {
        push_words(text, " is not there\n")
    }
}

/// What becomes of a message from a port, with a line for each way, and behind them how many ways more there are. Where
/// no way leads from the port, it says so.
pub fn fates_text(
    alloc: Global,
    port: PortAddr,
    told: &SessionFates,
) -> Result<Vec<u8>, OutOfMemory>
    ensures { IfOk result (λ t. t.items ≡ fates_text told.now.is_there
        (port_addr port.client port.port) told.now.fates.ways told.now.fates.more) }
{
    let source = Addr::from(port);
    let mut text = Vec::new(alloc);
    let ways = told.fates.ways.as_slice();
    if ways.is_empty() {
        push_no_way(&mut text, alloc, &source, told.is_there)?;
    } else {
        push_ways(&mut text, alloc, &source, ways)?;
    }
    push_more(&mut text, alloc, told.fates.more)?;
    Ok(text)
}
