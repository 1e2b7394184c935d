//! The lines of the header and of the tracks.

ghost use Rattle.std.specs.Prelude.{◌≡◌, Some};
ghost use Rattle.std.specs.Option.{option_map};
ghost use Rattle.script_text.specs.Words.{words};
ghost use Rattle.smf_grammar.specs.Seen.{header_seen};
ghost use Rattle.script_text.specs.Numbers.{only_if};
ghost use Rattle.smf_make.specs.SaidEvents.{track_said, can_head, header_said};
ghost use Rattle.smf_make.specs.Words.{numbered};

use crate::words::split_word;
use script_text::up_to;
use smf_grammar::{Header, header_of};

/// The number behind a word, and what stands behind it.
fn numbered<'b>(line: &'b [u8], name: &[u8]) -> Option<(u16, &'b [u8])>
    ensures { option_map (λ n. (n.0, words n.1.now)) result ≡ numbered name.now (words line.now) }
{
    let (word, rest) = split_word(line)?;
    if word != name {
        return None;
    }
    let (word, rest) = split_word(rest)?;
    let number = up_to(word, 0xFFFF)?;
    Some((number as u16, rest))
}

/// The number of a track.
#[tactic(auto, unfolding(crate::specs::SaidEvents::track_said))]
pub(crate) fn track_said(line: &[u8]) -> Option<u16>
    ensures { result ≡ track_said line.now }
{
    let (track, rest) = numbered(line, b"track")?;
    if split_word(rest).is_some() {
        return None;
    }
    Some(track)
}

/// The header that a file can have.
fn can_head(format: u16, tracks: u16, division: u16) -> Option<Header>
    ensures { option_map header_seen result ≡ only_if can_head
        (Some (record { format = format; tracks = tracks; division = division })) }
{
    if format > 1 {
        return None;
    }
    match header_of(format, tracks, division) {
        Ok(header) => Some(header),
        Err(_) => None,
    }
}

/// The header that a line says.
#[tactic(auto, unfolding(crate::specs::SaidEvents::header_said))]
pub(crate) fn header_said(line: &[u8]) -> Option<Header>
    ensures { option_map header_seen result ≡ header_said line.now }
{
    let (format, rest) = numbered(line, b"format")?;
    let (tracks, rest) = numbered(rest, b"tracks")?;
    let (division, rest) = numbered(rest, b"division")?;
    if split_word(rest).is_some() {
        return None;
    }
    can_head(format, tracks, division)
}
