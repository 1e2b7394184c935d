//! The pairs of a track, as they stand in the file.

ghost use Rattle.std.specs.Prelude.{◌≡◌, ◌≤◌, ◌<◌, ◌^◌, ◌∷◌, ℕ, length, IfOk, IsTrue};
ghost use Rattle.smf_grammar.specs.Quantities.{quantity};
ghost use Rattle.smf_grammar.specs.Pairs.{quantity_at, data_byte_at, voice_by, voice_at, sized_at, meta_at, event_at, pair_at};
ghost use Rattle.midi_wire.specs.declared.status.Width.TheVariants.{One, Two};
ghost use Rattle.midi_wire.specs.declared.status.StatusClass.TheVariants.{Channel};
ghost use Rattle.smf_grammar.specs.Septets.{septets_at};
ghost use Rattle.smf_grammar.specs.Seen.{Gives, event_seen, pair_seen, is_voice, is_event_sound, IsRunning};

use crate::fault::{PairFault, QuantityFault};
use midi_wire::{END_OF_EXCLUSIVE, EXCLUSIVE, PITCH_BEND, PROGRAM_CHANGE};

/// An event of a track, as it stands in the file.
#[derive(Clone, Copy)]
pub enum EventBytes<'b> {
    /// A program change or a channel pressure.
    VoiceOfOne { status: u8, first: u8 },
    /// Another message of a channel.
    VoiceOfTwo { status: u8, first: u8, second: u8 },
    /// F0, with the bytes that its length says.
    Exclusive(&'b [u8]),
    /// F7, with the bytes that its length says.
    Escape(&'b [u8]),
    /// FF, with its type and the bytes that its length says.
    Meta { kind: u8, payload: &'b [u8] },
}

/// A delta time and an event, as they stand in the file.
#[derive(Clone, Copy)]
pub struct PairBytes<'b> {
    pub delta: u32,
    pub event: EventBytes<'b>,
}

/// The quantity that goes on here with one byte, after three that stand for `high`, and what is left.
#[tactic(auto, unfolding(crate::specs::Septets::septets_at))]
fn fourth_byte_at(high: u32, left: &[u8]) -> Result<(u32, &[u8]), PairFault>
    requires { high < 2 ^ 21 }
    ensures value { Gives (λ x. (x.0, x.1.now)) result (septets_at 1 high left.now) }
    ensures small { IfOk result (λ x. x.0 < 2 ^ 28) }
    ensures shorter { IfOk result (λ x. length x.1.now < length left.now) }
{
    match left {
        [] => Err(PairFault::Truncated),
        [byte, left @ ..] => {
            let value = high * 128 + (*byte % 128) as u32;
            if *byte < 0x80 {
                Ok((value, left))
            } else {
                Err(PairFault::LongQuantity)
            }
        }
    }
}

/// The same after two bytes.
#[tactic(auto, unfolding(crate::specs::Septets::septets_at))]
fn third_byte_at(high: u32, left: &[u8]) -> Result<(u32, &[u8]), PairFault>
    requires { high < 2 ^ 14 }
    ensures value { Gives (λ x. (x.0, x.1.now)) result (septets_at 2 high left.now) }
    ensures small { IfOk result (λ x. x.0 < 2 ^ 28) }
    ensures shorter { IfOk result (λ x. length x.1.now < length left.now) }
{
    match left {
        [] => Err(PairFault::Truncated),
        [byte, left @ ..] => {
            let value = high * 128 + (*byte % 128) as u32;
            if *byte < 0x80 {
                Ok((value, left))
            } else {
                fourth_byte_at(value, left)
            }
        }
    }
}

/// The same after one byte.
#[inline(always)]
#[tactic(auto, unfolding(crate::specs::Septets::septets_at))]
fn second_byte_at(high: u32, left: &[u8]) -> Result<(u32, &[u8]), PairFault>
    requires { high < 2 ^ 7 }
    ensures value { Gives (λ x. (x.0, x.1.now)) result (septets_at 3 high left.now) }
    ensures small { IfOk result (λ x. x.0 < 2 ^ 28) }
    ensures shorter { IfOk result (λ x. length x.1.now < length left.now) }
{
    match left {
        [] => Err(PairFault::Truncated),
        [byte, left @ ..] => {
            let value = high * 128 + (*byte % 128) as u32;
            if *byte < 0x80 {
                Ok((value, left))
            } else {
                third_byte_at(value, left)
            }
        }
    }
}

/// The quantity that goes on here with four bytes at most, and what is left.
#[inline(always)]
#[tactic(auto, unfolding(crate::specs::Septets::septets_at))]
fn first_byte_at(left: &[u8]) -> Result<(u32, &[u8]), PairFault>
    ensures value { Gives (λ x. (x.0, x.1.now)) result (septets_at 4 0 left.now) }
    ensures small { IfOk result (λ x. x.0 < 2 ^ 28) }
    ensures shorter { IfOk result (λ x. length x.1.now < length left.now) }
{
    match left {
        [] => Err(PairFault::Truncated),
        [byte, left @ ..] => {
            let value = (*byte % 128) as u32;
            if *byte < 0x80 {
                Ok((value, left))
            } else {
                second_byte_at(value, left)
            }
        }
    }
}

/// The quantity that stands first, and what is left.
#[inline(always)]
fn quantity_at(left: &[u8]) -> Result<(u32, &[u8]), PairFault>
    ensures value { Gives (λ x. (x.0, x.1.now)) result (quantity_at left.now) }
    ensures small { IfOk result (λ x. x.0 < 2 ^ 28) }
    ensures shorter { IfOk result (λ x. length x.1.now < length left.now) }
{
    first_byte_at(left)
}

/// The data byte that stands first, and what is left.
#[inline(always)]
fn data_byte_at(left: &[u8]) -> Result<(u8, &[u8]), PairFault>
    ensures { Gives (λ x. (x.0, x.1.now)) result (data_byte_at left.now) }
{
    match left {
        [] => Err(PairFault::Truncated),
        [byte, left @ ..] => {
            if *byte < 0x80 {
                Ok((*byte, left))
            } else {
                Err(PairFault::BadData)
            }
        }
    }
}

/// The bytes that a quantity counts, and what is left.
#[inline(always)]
#[tactic(auto, unfolding(crate::specs::Pairs::sized_at))]
fn sized_at(left: &[u8]) -> Result<(&[u8], &[u8]), PairFault>
    ensures { Gives (λ x. (x.0.now, x.1.now)) result (sized_at left.now) }
{
    let (size, left) = quantity_at(left)?;
    if size as usize > left.len() {
        return Err(PairFault::Truncated);
    }
    Ok(left.split_at(size as usize))
}

/// The message of a channel with this status whose one data byte stands first, and what is left.
#[inline(always)]
#[tactic(auto, unfolding(crate::specs::Pairs::group_at))]
fn voice_of_one_at(status: u8, left: &[u8]) -> Result<(EventBytes<'_>, &[u8]), PairFault>
    ensures { Gives (λ x. (event_seen x.0, x.1.now)) result
        (voice_by (Channel One) status left.now) }
{
    let (first, left) = data_byte_at(left)?;
    Ok((EventBytes::VoiceOfOne { status, first }, left))
}

/// The message of a channel with this status whose two data bytes stand first, and what is left.
#[inline(always)]
#[tactic(auto, unfolding(crate::specs::Pairs::group_at))]
fn voice_of_two_at(status: u8, left: &[u8]) -> Result<(EventBytes<'_>, &[u8]), PairFault>
    ensures { Gives (λ x. (event_seen x.0, x.1.now)) result
        (voice_by (Channel Two) status left.now) }
{
    let (first, left) = data_byte_at(left)?;
    let (second, left) = data_byte_at(left)?;
    Ok((
        EventBytes::VoiceOfTwo {
            status,
            first,
            second,
        },
        left,
    ))
}

/// The message of a channel with this status whose data stands first, and what is left.
#[inline(always)]
fn voice_at(status: u8, left: &[u8]) -> Result<(EventBytes<'_>, &[u8]), PairFault>
    requires { IsTrue (is_voice status) }
    ensures { Gives (λ x. (event_seen x.0, x.1.now)) result (voice_at status left.now) }
{
    if status < PROGRAM_CHANGE {
        return voice_of_two_at(status, left);
    }
    if status < PITCH_BEND {
        return voice_of_one_at(status, left);
    }
    voice_of_two_at(status, left)
}

/// The type and the bytes of a meta event, and what is left.
#[tactic(auto, unfolding(crate::specs::Pairs::meta_at))]
fn meta_at(left: &[u8]) -> Result<(EventBytes<'_>, &[u8]), PairFault>
    ensures { Gives (λ x. (event_seen x.0, x.1.now)) result (meta_at left.now) }
{
    match left {
        [] => Err(PairFault::Truncated),
        [kind, left @ ..] => {
            let (payload, left) = sized_at(left)?;
            Ok((
                EventBytes::Meta {
                    kind: *kind,
                    payload,
                },
                left,
            ))
        }
    }
}

/// An event with a length of its own, by its first byte, and what is left.
#[tactic(auto, unfolding(crate::specs::Pairs::event_at))]
fn sized_event_at(
    running: Option<u8>,
    byte: u8,
    left: &[u8],
) -> Result<(EventBytes<'_>, &[u8]), PairFault>
    requires { 240 ≤ byte }
    ensures { Gives (λ x. (event_seen x.0, x.1.now)) result (event_at running (byte ∷ left.now)) }
{
    if byte == 0xFF {
        return meta_at(left);
    }
    if byte == EXCLUSIVE {
        let (payload, left) = sized_at(left)?;
        return Ok((EventBytes::Exclusive(payload), left));
    }
    if byte == END_OF_EXCLUSIVE {
        let (payload, left) = sized_at(left)?;
        return Ok((EventBytes::Escape(payload), left));
    }
    Err(PairFault::BadStatus)
}

/// The event that stands first, and what is left.
#[inline(always)]
#[tactic(auto, unfolding(crate::specs::Pairs::event_at))]
fn event_at(running: Option<u8>, left: &[u8]) -> Result<(EventBytes<'_>, &[u8]), PairFault>
    requires { IsRunning running }
    ensures { Gives (λ x. (event_seen x.0, x.1.now)) result (event_at running left.now) }
{
    match left {
        [] => Err(PairFault::Truncated),
        [byte, rest @ ..] => {
            if *byte < 0x80 {
                let Some(status) = running else {
                    return Err(PairFault::NoStatus);
                };
                return voice_at(status, left);
            }
            if *byte < EXCLUSIVE {
                return voice_at(*byte, rest);
            }
            sized_event_at(running, *byte, rest)
        }
    }
}

/// The pair that stands first, and what is left.
#[inline(always)]
#[tactic(auto, unfolding(crate::specs::Pairs::pair_at))]
pub fn pair_at(running: Option<u8>, left: &[u8]) -> Result<(PairBytes<'_>, &[u8]), PairFault>
    requires { IsRunning running }
    ensures value { Gives (λ x. (pair_seen x.0, x.1.now)) result (pair_at running left.now) }
    ensures sound { IfOk result (λ x. IsTrue (is_event_sound (event_seen x.0.event))) }
    ensures small { IfOk result (λ x. x.0.delta < 2 ^ 28) }
    ensures shorter { IfOk result (λ x. length x.1.now < length left.now) }
{
    if left.is_empty() {
        return Err(PairFault::NoPair);
    }
    let (delta, left) = quantity_at(left)?;
    let (event, left) = event_at(running, left)?;
    Ok((PairBytes { delta, event }, left))
}

/// The quantity that stands first, and how many bytes it has.
pub fn quantity(bytes: &[u8]) -> Result<(u32, usize), QuantityFault>
    ensures { result ≡ quantity bytes.now }
{
    match quantity_at(bytes) {
        Ok((value, left)) => Ok((value, bytes.len() - left.len())),
        Err(PairFault::LongQuantity) => Err(QuantityFault::Long),
        Err(_) => Err(QuantityFault::Short),
    }
}
