//! The line of an event.

ghost use Rattle.std.specs.Prelude.{◌≡◌, Some, None, IfOk, IsErrOf, IsTrue};
ghost use Rattle.script_text.specs.Numbers.{hex_bytes};
ghost use Rattle.script_text.specs.Words.{words};
ghost use Rattle.smf_grammar.specs.Written.{has_bytes};
ghost use Rattle.smf_make.specs.SaidEvents.{behind_word, event_by, plain_meta_said, timed_event};
ghost use Rattle.smf_make.specs.Events.{said_event, of_bytes};

use crate::meta_types::{shaped, type_named};
use crate::numbers::{byte_said, hex_bytes, number_said};
use crate::said_event::{SaidEvent, has_bytes, voice_said};
use crate::unsaid::Unsaid;
use crate::words::split_word;
use midi_wire::{END_OF_EXCLUSIVE, EXCLUSIVE};
use script_text::hex_byte;
use std::alloc::Global;

/// An event at a tick from the start of its track.
#[derive(Drop)]
pub(crate) struct TimedEvent {
    pub tick: u64,
    pub event: SaidEvent,
}

/// The event with this byte before those that all words say.
fn event_of_bytes(alloc: Global, first: u8, text: &[u8]) -> Result<SaidEvent, Unsaid>
    ensures ok { IfOk result (λ e.
        of_bytes first (hex_bytes (words text.now)) ≡ Some (said_event e)) }
    ensures err { IsErrOf result Unsaid.Nothing →
        of_bytes first (hex_bytes (words text.now)) ≡ None }
{
    match first {
        EXCLUSIVE => {
            let payload = hex_bytes(alloc, text)?;
            Ok(SaidEvent::Exclusive(payload))
        }
        END_OF_EXCLUSIVE => {
            let payload = hex_bytes(alloc, text)?;
            Ok(SaidEvent::Escape(payload))
        }
        _ => {
            let event = voice_said(first, text).ok_or(Unsaid::Nothing)?;
            Ok(event)
        }
    }
}

/// The meta event with this type and those bytes, all in hexadecimal.
fn plain_meta_said(alloc: Global, text: &[u8]) -> Result<SaidEvent, Unsaid>
    ensures ok { IfOk result (λ e. plain_meta_said (words text.now) ≡ Some (said_event e)) }
    ensures err { IsErrOf result Unsaid.Nothing → plain_meta_said (words text.now) ≡ None }
{
    let (word, rest) = split_word(text).ok_or(Unsaid::Nothing)?;
    let kind = hex_byte(word).ok_or(Unsaid::Nothing)?;
    let payload = hex_bytes(alloc, rest)?;
    Ok(SaidEvent::Meta { kind, payload })
}

/// The event that a text says, whatever the number of its bytes.
fn event_by(alloc: Global, text: &[u8]) -> Result<SaidEvent, Unsaid>
    ensures ok { IfOk result
        (λ e. event_by (words text.now) (behind_word text.now) ≡ Some (said_event e)) }
    ensures err { IsErrOf result Unsaid.Nothing →
        event_by (words text.now) (behind_word text.now) ≡ None }
{
    if let Some((first, rest)) = byte_said(text) {
        return event_of_bytes(alloc, first, rest);
    }
    let (word, rest) = split_word(text).ok_or(Unsaid::Nothing)?;
    if word == b"meta".as_slice() {
        return plain_meta_said(alloc, rest);
    }
    let named = type_named(word).ok_or(Unsaid::Nothing)?;
    let payload = shaped(alloc, named.shape, rest)?;
    Ok(SaidEvent::Meta {
        kind: named.kind,
        payload,
    })
}

/// The tick and the event that a line says.
#[tactic(auto, unfolding(crate::specs::SaidEvents::timed_event))]
pub(crate) fn timed_event(alloc: Global, line: &[u8]) -> Result<TimedEvent, Unsaid>
    ensures ok { IfOk result (λ t. timed_event line.now ≡ Some (t.tick, said_event t.event)) }
    ensures sound { IfOk result (λ t. IsTrue (has_bytes (said_event t.event))) }
    ensures err { IsErrOf result Unsaid.Nothing → timed_event line.now ≡ None }
{
    let Some((tick, rest)) = number_said(line) else {
        return Err(Unsaid::Nothing);
    };
    let event = event_by(alloc, rest)?;
    if !has_bytes(&event) {
        return Err(Unsaid::Nothing);
    }
    Ok(TimedEvent { tick, event })
}
