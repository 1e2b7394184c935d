//! A circle as text.

ghost use Rattle.std.specs.Prelude.{◌≡◌, ◌==◌, ◌++◌, OnOk, IfOk};
ghost use Rattle.std.specs.List.{flat_map, list_any};
ghost use Rattle.session_circle.specs.Printed.{owner_line, silent_text, member_line, apart_line, opening_line, mending_line, opening_lines, verdict_line, circle_text};
ghost use Rattle.session_circle.specs.Closing.{reach_text};

use crate::circle::SessionCircle;
use crate::phrases::{Deed, push_at};
use memory::OutOfMemory;
use node_table::ClientId;
use seq_circle::Joined;
use seq_session::Script;
use seq_state::Input;
use std::alloc::Global;

fn push_owner(text: &mut Vec<u8>, alloc: Global, owner: ClientId) -> Result<(), OutOfMemory>
    ensures { OnOk result (text.new.items ≡ text.old.items ++ owner_line owner) }
{
    text.extend_from_slice(format!(in alloc; "circle {owner}\n")?.as_bytes())?;
    Ok(())
}

fn has_script(scripts: &[Script], client: ClientId) -> bool
    ensures { result ≡ list_any (λ s. s.client == client) scripts.now }
{
    scripts.iter().any(|s| s.client == client)
}

/// Adds that a client has no script, where it has none.
fn push_silent(text: &mut Vec<u8>, scripts: &[Script], client: ClientId) -> Result<(), OutOfMemory>
    ensures { OnOk result (text.new.items ≡ text.old.items ++ silent_text scripts.now client) }
{
    if has_script(scripts, client) {
        return Ok(());
    }
    text.extend_from_slice(b", and has no script")?;
    Ok(())
}

/// Adds the line of a member: the line that asks for it, and whether it has no script.
fn push_member(
    text: &mut Vec<u8>,
    alloc: Global,
    scripts: &[Script],
    lines: &[u64],
    inputs: &[Input],
    joined: &Joined,
) -> Result<(), OutOfMemory>
    ensures { OnOk result (text.new.items
        ≡ text.old.items ++ member_line scripts.now lines.now inputs.now joined.now) }
{
    let client = joined.client;
    text.extend_from_slice(format!(in alloc; "member {client} because")?.as_bytes())?;
    push_at(text, alloc, Deed::Asks, lines, inputs, joined.place)?;
    push_silent(text, scripts, client)?;
    text.push(b'\n')?;
    Ok(())
}

fn push_members(
    text: &mut Vec<u8>,
    alloc: Global,
    scripts: &[Script],
    lines: &[u64],
    inputs: &[Input],
    all: &[Joined],
) -> Result<(), OutOfMemory>
    ensures { OnOk result (text.new.items
        ≡ text.old.items ++ flat_map (member_line scripts.now lines.now inputs.now) all.now) }
{
    for joined in all {
        push_member(text, alloc, scripts, lines, inputs, joined)?;
    }
    Ok(())
}

/// Adds the line of an outcome that strangers may change.
fn push_apart(
    text: &mut Vec<u8>,
    alloc: Global,
    lines: &[u64],
    inputs: &[Input],
    place: usize,
) -> Result<(), OutOfMemory>
    ensures { OnOk result (text.new.items
        ≡ text.old.items ++ apart_line lines.now inputs.now place) }
{
    text.extend_from_slice(b"apart")?;
    push_at(text, alloc, Deed::Asks, lines, inputs, place)?;
    text.push(b'\n')?;
    Ok(())
}

fn push_all_apart(
    text: &mut Vec<u8>,
    alloc: Global,
    lines: &[u64],
    inputs: &[Input],
    places: &[usize],
) -> Result<(), OutOfMemory>
    ensures { OnOk result (text.new.items
        ≡ text.old.items ++ flat_map (apart_line lines.now inputs.now) places.now) }
{
    for place in places {
        push_apart(text, alloc, lines, inputs, *place)?;
    }
    Ok(())
}

/// Adds the line of an input that leaves the circle open.
pub(crate) fn push_opening(
    text: &mut Vec<u8>,
    alloc: Global,
    lines: &[u64],
    inputs: &[Input],
    place: usize,
) -> Result<(), OutOfMemory>
    ensures { OnOk result (text.new.items
        ≡ text.old.items ++ opening_line lines.now inputs.now place) }
{
    text.extend_from_slice(b"open")?;
    push_at(text, alloc, Deed::Makes, lines, inputs, place)?;
    text.extend_from_slice(b": anyone may join it\n")?;
    Ok(())
}

/// Adds how an input that leaves the circle open is mended.
fn push_mending(
    text: &mut Vec<u8>,
    alloc: Global,
    lines: &[u64],
    inputs: &[Input],
    place: usize,
) -> Result<(), OutOfMemory>
    ensures { OnOk result (text.new.items
        ≡ text.old.items ++ mending_line lines.now inputs.now place) }
{
    text.extend_from_slice(b"mend")?;
    push_at(text, alloc, Deed::Closes, lines, inputs, place)?;
    text.extend_from_slice(b": nobody else may join it\n")?;
    Ok(())
}

fn push_openings(
    text: &mut Vec<u8>,
    alloc: Global,
    lines: &[u64],
    inputs: &[Input],
    places: &[usize],
) -> Result<(), OutOfMemory>
    ensures { OnOk result (text.new.items
        ≡ text.old.items ++ flat_map (opening_lines lines.now inputs.now) places.now) }
{
    for place in places {
        push_opening(text, alloc, lines, inputs, *place)?;
        push_mending(text, alloc, lines, inputs, *place)?;
    }
    Ok(())
}

fn push_verdict(text: &mut Vec<u8>, openings: &[usize]) -> Result<(), OutOfMemory>
    ensures { OnOk result (text.new.items ≡ text.old.items ++ verdict_line openings.now) }
{
    match openings {
        [] => text.extend_from_slice(b"shut\n")?,
        [_, ..] => text.extend_from_slice(b"open\n")?,
    }
    Ok(())
}

/// The circle as text: a line for its owner; one for each other member, with the line that asks for it, and that it has
/// no script where these have none of it; one for each outcome that strangers may change; two for each input that
/// leaves it open, of which the second mends it; and at last `shut`, or `open` where there is such an input. Each line
/// ends with a line feed.
pub fn circle_text(
    alloc: Global,
    owner: ClientId,
    scripts: &[Script],
    found: &SessionCircle,
) -> Result<Vec<u8>, OutOfMemory>
    ensures { IfOk result (λ t. t.items ≡ circle_text owner scripts.now
        found.now.merged.lines found.now.merged.inputs found.now.circle.joined.items
        found.now.circle.apart.items found.now.circle.openings.items) }
{
    let lines = found.merged.lines.as_slice();
    let inputs = found.merged.inputs.as_slice();
    let circle = &found.circle;
    let mut text = Vec::new(alloc);
    push_owner(&mut text, alloc, owner)?;
    push_members(
        &mut text,
        alloc,
        scripts,
        lines,
        inputs,
        circle.joined.as_slice(),
    )?;
    push_all_apart(&mut text, alloc, lines, inputs, circle.apart.as_slice())?;
    push_openings(&mut text, alloc, lines, inputs, circle.openings.as_slice())?;
    push_verdict(&mut text, circle.openings.as_slice())?;
    Ok(text)
}

/// Whether the circle is closed in its session, as text, where this is its `first_reach`: a line, with its line feed.
pub fn reach_text(
    alloc: Global,
    found: &SessionCircle,
    first: Option<usize>,
) -> Result<Vec<u8>, OutOfMemory>
    ensures { IfOk result (λ t. t.items
        ≡ reach_text found.now.merged.lines found.now.merged.inputs first) }
{
    let Some(place) = first else {
        return Ok(Vec::from_slice(alloc, b"closed in this session\n")?);
    };
    let lines = found.merged.lines.as_slice();
    let inputs = found.merged.inputs.as_slice();
    let mut text = Vec::from_slice(alloc, b"reached by")?;
    push_at(&mut text, alloc, Deed::Asks, lines, inputs, place)?;
    text.push(b'\n')?;
    Ok(text)
}
