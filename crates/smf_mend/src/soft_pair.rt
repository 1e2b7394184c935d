//! The pairs of a track, as the lenient grammar takes them.

ghost use Rattle.std.specs.Prelude.{◌≡◌, ◌≤◌, ◌<◌, ◌^◌, ℕ, Option, length, IfOk, IsTrue};
ghost use Rattle.smf_grammar.specs.Seen.{Gives, event_seen, pair_seen, is_event_sound, IsRunning};
ghost use Rattle.smf_grammar.specs.Written.{are_bytes, has_bytes, can_stand};
ghost use Rattle.smf_mend.specs.Lenient.{lenient_running, event_left, has_high_data, lenient_pair_at};
ghost use Rattle.smf_mend.specs.Forgiving.{begins_with_data};
ghost use Rattle.smf_mend.specs.Tallies.{payload_size};

use midi_wire::PROGRAM_CHANGE;
use smf_grammar::{EventBytes, PairBytes, PairFault, pair_at, quantity};

/// The first status above those of a program change.
const CHANNEL_PRESSURE: u8 = 0xD0;

/// What stands behind the delta time that stands first.
pub(crate) fn event_left(left: &[u8]) -> &[u8]
    ensures { result.now ≡ event_left left.now }
{
    match quantity(left) {
        Ok((_, size)) => &left[size..],
        Err(_) => &[],
    }
}

/// Whether an event leaves out its status.
pub(crate) fn begins_with_data(event: &[u8]) -> bool
    ensures { result ≡ begins_with_data event.now }
{
    matches!(event, [byte, ..] if *byte < 0x80)
}

/// Whether an event is a program change whose data byte has bit 7 set.
pub(crate) fn has_high_data(event: &[u8]) -> bool
    ensures { result ≡ has_high_data event.now }
{
    match event {
        [status, byte, ..] => {
            *status >= PROGRAM_CHANGE && *status < CHANNEL_PRESSURE && *byte >= 0x80
        }
        _ => false,
    }
}

/// The pair of a program change whose data byte has bit 7 set, with that bit cleared, and what is left.
fn low_program_at(left: &[u8]) -> Result<(PairBytes<'_>, &[u8]), PairFault>
    requires { IsTrue (has_high_data (event_left left.now)) }
    ensures value { (running : Option ℕ) → Gives (λ x. (pair_seen x.0, x.1.now)) result
        (lenient_pair_at running left.now) }
    ensures sound { IfOk result (λ x. IsTrue (is_event_sound (event_seen x.0.event))) }
    ensures can { IfOk result (λ x. IsTrue (can_stand (pair_seen x.0))) }
    ensures shorter { IfOk result (λ x. length x.1.now < length left.now) }
{
    let (delta, size) = match quantity(left) {
        Ok(found) => found,
        Err(_) => return Err(PairFault::BadData),
    };
    let found = &left[size..];
    match found {
        [status, byte, rest @ ..] => {
            let event = EventBytes::VoiceOfOne {
                status: *status,
                first: *byte % 128,
            };
            Ok((PairBytes { delta, event }, rest))
        }
        _ => Err(PairFault::BadData),
    }
}

/// A quantity can count these bytes. It does nothing.
fn are_counted(bytes: &[u8])
    requires { length bytes.now < 2 ^ 28 }
    ensures { IsTrue (are_bytes bytes.now) }
{}

/// A quantity can count the bytes of an event. It does nothing.
fn has_counted_bytes(event: &EventBytes<'_>)
    requires { payload_size (event_seen event.now) < 2 ^ 28 }
    ensures { IsTrue (has_bytes (event_seen event.now)) }
{
    match event {
        EventBytes::VoiceOfOne { .. } => {}
        EventBytes::VoiceOfTwo { .. } => {}
        EventBytes::Exclusive(payload) => are_counted(payload),
        EventBytes::Escape(payload) => are_counted(payload),
        EventBytes::Meta { kind, payload } => {
            // Read here, so that it is known to be a byte.
            let _kind = *kind;
            are_counted(payload)
        }
    }
}

/// The pair that stands first, and what is left.
pub(crate) fn lenient_pair_at(
    running: Option<u8>,
    left: &[u8],
) -> Result<(PairBytes<'_>, &[u8]), PairFault>
    requires status { IsRunning running }
    requires few { length left.now ≤ 2 ^ 24 }
    ensures value { Gives (λ x. (pair_seen x.0, x.1.now)) result
        (lenient_pair_at running left.now) }
    ensures sound { IfOk result (λ x. IsTrue (is_event_sound (event_seen x.0.event))) }
    ensures can { IfOk result (λ x. IsTrue (can_stand (pair_seen x.0))) }
    ensures shorter { IfOk result (λ x. length x.1.now < length left.now) }
{
    if has_high_data(event_left(left)) {
        return low_program_at(left);
    }
    let (pair, rest) = match pair_at(running, left) {
        Ok(found) => found,
        Err(fault) => return Err(fault),
    };
    has_counted_bytes(&pair.event);
    Ok((pair, rest))
}

/// The running status after an event, where this was running before.
pub(crate) fn lenient_running(before: Option<u8>, event: &EventBytes<'_>) -> Option<u8>
    ensures { result ≡ lenient_running before (event_seen event.now) }
{
    match event.status_after() {
        Some(status) => Some(status),
        None => before,
    }
}
