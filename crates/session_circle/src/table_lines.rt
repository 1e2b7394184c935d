//! A table of circles as text.

ghost use Rattle.std.specs.Prelude.{◌≡◌, ◌++◌, OnOk, IfOk};
ghost use Rattle.std.specs.List.{flat_map};
ghost use Rattle.session_circle.specs.Printed.{client_text, company_text, members_text, first_apart_text, shut_line, answer_line, table_line, table_text};

use crate::phrases::{Deed, push_at};
use crate::table::{OwnedCircle, SessionCircles};
use crate::text::push_opening;
use memory::OutOfMemory;
use node_table::ClientId;
use seq_circle::{Circle, Joined};
use seq_state::Input;
use std::alloc::Global;

fn push_client(text: &mut Vec<u8>, alloc: Global, client: ClientId) -> Result<(), OutOfMemory>
    ensures { OnOk result (text.new.items ≡ text.old.items ++ client_text client) }
{
    text.extend_from_slice(format!(in alloc; " {client}")?.as_bytes())?;
    Ok(())
}

fn push_members(text: &mut Vec<u8>, alloc: Global, all: &[Joined]) -> Result<(), OutOfMemory>
    ensures { OnOk result (text.new.items ≡ text.old.items ++ members_text all.now) }
{
    for joined in all {
        push_client(text, alloc, joined.client)?;
    }
    Ok(())
}

/// Adds the members beside the owner, where there are any.
fn push_company(text: &mut Vec<u8>, alloc: Global, all: &[Joined]) -> Result<(), OutOfMemory>
    ensures { OnOk result (text.new.items ≡ text.old.items ++ company_text all.now) }
{
    if all.is_empty() {
        return Ok(());
    }
    text.extend_from_slice(b" with")?;
    push_members(text, alloc, all)
}

/// Adds the first outcome that strangers may change, where there is one.
fn push_first_apart(
    text: &mut Vec<u8>,
    alloc: Global,
    lines: &[u64],
    inputs: &[Input],
    places: &[usize],
) -> Result<(), OutOfMemory>
    ensures { OnOk result (text.new.items
        ≡ text.old.items ++ first_apart_text lines.now inputs.now places.now) }
{
    let Some(place) = places.first() else {
        return Ok(());
    };
    text.extend_from_slice(b", apart")?;
    push_at(text, alloc, Deed::Asks, lines, inputs, *place)
}

/// Adds what is told of a circle that is shut.
fn push_shut(
    text: &mut Vec<u8>,
    alloc: Global,
    lines: &[u64],
    inputs: &[Input],
    circle: &Circle,
) -> Result<(), OutOfMemory>
    ensures { OnOk result (text.new.items ≡ text.old.items
        ++ shut_line lines.now inputs.now circle.now.joined.items circle.now.apart.items) }
{
    text.extend_from_slice(b"shut")?;
    push_company(text, alloc, circle.joined.as_slice())?;
    push_first_apart(text, alloc, lines, inputs, circle.apart.as_slice())?;
    text.push(b'\n')?;
    Ok(())
}

/// Adds the first opening of a circle, or what is told of it where it is shut.
fn push_answer(
    text: &mut Vec<u8>,
    alloc: Global,
    lines: &[u64],
    inputs: &[Input],
    circle: &Circle,
) -> Result<(), OutOfMemory>
    ensures { OnOk result (text.new.items ≡ text.old.items
        ++ answer_line lines.now inputs.now circle.now.joined.items circle.now.apart.items
        circle.now.openings.items) }
{
    match circle.openings.first() {
        Some(place) => push_opening(text, alloc, lines, inputs, *place),
        None => push_shut(text, alloc, lines, inputs, circle),
    }
}

fn push_line(
    text: &mut Vec<u8>,
    alloc: Global,
    lines: &[u64],
    inputs: &[Input],
    one: &OwnedCircle,
) -> Result<(), OutOfMemory>
    ensures { OnOk result (text.new.items
        ≡ text.old.items ++ table_line lines.now inputs.now one.now) }
{
    let owner = one.owner;
    text.extend_from_slice(format!(in alloc; "{owner} ")?.as_bytes())?;
    push_answer(text, alloc, lines, inputs, &one.circle)
}

/// The circles as text, a line for each. It begins with the owner's number. Where the circle is shut, `shut` follows,
/// then who else is in it, and the first outcome that strangers may change; where it is open, the first line that
/// leaves it open.
pub fn table_text(alloc: Global, found: &SessionCircles) -> Result<Vec<u8>, OutOfMemory>
    ensures { IfOk result (λ t. t.items ≡ table_text found.now.merged.lines
        found.now.merged.inputs found.now.circles.items) }
{
    let lines = found.merged.lines.as_slice();
    let inputs = found.merged.inputs.as_slice();
    let circles = found.circles.as_slice();
    let mut text = Vec::new(alloc);
    for one in circles {
        push_line(&mut text, alloc, lines, inputs, one)?;
    }
    Ok(text)
}
