//! The line of a pair, and places in front of lines.

ghost use Rattle.std.specs.Prelude.{◌≡◌, ◌∷◌, [], ◌++◌, OnOk};
ghost use Rattle.smf_grammar.specs.Seen.{event_seen};
ghost use Rattle.smf_text.specs.AllTexts.{event_text, line_text};
ghost use Rattle.smf_text.specs.PlacedTexts.{place_text};

use crate::meta::push_meta;
use memory::OutOfMemory;
use smf_grammar::EventBytes;
use text_forms::{push_decimal, push_spaced_line};

/// Adds an event, and the end of the line.
fn push_event(event: &EventBytes<'_>, text: &mut Vec<u8>) -> Result<(), OutOfMemory>
    ensures { OnOk result (text.new.items
        ≡ text.old.items ++ event_text (event_seen event.now) ++ 10 ∷ []) }
{
    match event {
        EventBytes::VoiceOfOne { status, first } => push_spaced_line(text, &[*status, *first]),
        EventBytes::VoiceOfTwo {
            status,
            first,
            second,
        } => push_spaced_line(text, &[*status, *first, *second]),
        EventBytes::Exclusive(payload) => {
            text.extend_from_slice(b" F0")?;
            push_spaced_line(text, payload)
        }
        EventBytes::Escape(payload) => {
            text.extend_from_slice(b" F7")?;
            push_spaced_line(text, payload)
        }
        EventBytes::Meta { kind, payload } => {
            text.push(b' ')?;
            push_meta(*kind, payload, text)?;
            text.push(b'\n')?;
            Ok(())
        }
    }
}

/// Adds the line of an event at a tick.
fn push_line(tick: u64, event: &EventBytes<'_>, text: &mut Vec<u8>) -> Result<(), OutOfMemory>
    ensures { OnOk result (text.new.items
        ≡ text.old.items ++ line_text tick (event_seen event.now)) }
{
    push_decimal(text, tick)?;
    push_event(event, text)
}

/// Adds a place and a space where places are wanted.
#[inline]
pub(crate) fn push_place(is_placed: bool, place: u64, text: &mut Vec<u8>) -> Result<(), OutOfMemory>
    ensures { OnOk result (text.new.items ≡ text.old.items ++ place_text is_placed place) }
{
    if is_placed {
        push_decimal(text, place)?;
        text.push(b' ')?;
    }
    Ok(())
}

/// Adds the line of an event at a tick, behind its place where places are wanted.
#[inline]
pub(crate) fn push_placed_line(
    is_placed: bool,
    place: u64,
    tick: u64,
    event: &EventBytes<'_>,
    text: &mut Vec<u8>,
) -> Result<(), OutOfMemory>
    ensures { OnOk result (text.new.items ≡ text.old.items
        ++ (place_text is_placed place ++ line_text tick (event_seen event.now))) }
{
    push_place(is_placed, place, text)?;
    push_line(tick, event, text)
}
