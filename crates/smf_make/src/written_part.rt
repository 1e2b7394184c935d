//! The part of a file that is written so far, and one more line.

ghost use Rattle.std.specs.Prelude.{◌≡◌, ◌≤◌, ◌<◌, ◌+◌, ◌-◌, ◌++◌, ℕ, List, [], length, take, drop, Some, IsTrue, IfOk, IfErr};
ghost use Rattle.smf_grammar.specs.Chunks.{most_bytes, Header};
ghost use Rattle.byteorder.specs.Endian.{big_bytes};
ghost use Rattle.smf_grammar.specs.Pairs.{Pair};
ghost use Rattle.smf_grammar.specs.Seen.{event_seen};
ghost use Rattle.smf_grammar.specs.Written.{has_bytes};
ghost use Rattle.smf_make.specs.declared.written_part.TheConstants.{MOST_DELTA};
ghost use Rattle.smf_make.specs.SaidEvents.{header_said, track_said, timed_event};
ghost use Rattle.smf_make.specs.SaidFiles.{BegunFile, Unheaded, begun_with, with_said_pair, with_track, with_event};
ghost use Rattle.smf_make.specs.WrittenParts.{IsPartOf, is_placed, IsBetweenTracks, IsWithinTrack, IsStoppedLine, IsLineMade, IsAfterLine, IsLineFault, Expects};

use crate::event_line::timed_event;
use crate::fault::Expected;
use crate::file_lines::{header_said, track_said};
use crate::unsaid::Unsaid;
use crate::words::is_passed_over;
use byteorder::{BigEndian, ByteOrder};
use memory::OutOfMemory;
use smf_files::{push_chunk_header, push_event, push_quantity, push_u16};
use smf_grammar::{EventBytes, MOST_BYTES};
use std::alloc::Global;

/// The greatest delta time, 0FFFFFFF.
const MOST_DELTA: u64 = 268_435_455;

/// A track that is written in part.
#[derive(Clone, Copy)]
pub(crate) struct OpenTrack {
    /// How many tracks the header counts.
    pub tracks: u16,
    /// How many tracks have ended.
    pub ended: u16,
    /// Where the content of the chunk begins. The length before it is still to be written.
    pub start: usize,
    /// The running status.
    pub running: Option<u8>,
    /// The tick of the last event.
    pub last: u64,
}

/// What is written so far, and so what a line has to say.
#[derive(Clone, Copy)]
pub(crate) enum WrittenPart {
    /// Nothing.
    Unheaded,
    /// The header, and whole tracks.
    Between { tracks: u16, ended: u16 },
    /// The header, whole tracks and a part of one more.
    Within(OpenTrack),
}

/// Why a line is not taken.
#[derive(Clone, Copy)]
pub(crate) enum LineStop {
    /// It says not what was expected.
    Unexpected,
    /// The file would have too many bytes.
    TooLarge,
    /// A growth was refused.
    OutOfMemory,
}

impl From<OutOfMemory> for LineStop {
    ghost use Rattle.std.specs.Prelude.{◌≡◌};
    ghost use Rattle.smf_make.specs.declared.written_part.LineStop.TheVariants.{OutOfMemory};

    ghost from_gives = { λ _ e. e ≡ OutOfMemory };

    fn from(_error: OutOfMemory) -> LineStop {
        LineStop::OutOfMemory
    }
}

impl WrittenPart {
    /// What the next line has to say.
    pub(crate) fn expected(&self) -> Expected
        ensures { Expects self.now result }
    {
        match self {
            WrittenPart::Unheaded => Expected::Header,
            WrittenPart::Between { tracks, ended } => {
                if *ended < *tracks {
                    Expected::Track(*ended)
                } else {
                    Expected::End
                }
            }
            WrittenPart::Within(track) => Expected::Event { from: track.last },
        }
    }
}

/// Writes the header that a line says.
fn begin_file(line: &[u8], bytes: &mut Vec<u8>) -> Result<WrittenPart, LineStop>
    ensures placed { IfOk result (λ p. IsTrue (is_placed bytes.new.items p)) }
    ensures ok { IfOk result (λ p. bytes.old.items ≡ [] →
        IsLineMade bytes.new.items p (begun_with Unheaded line.now)) }
    ensures err { IfErr result (λ s. IsStoppedLine s (begun_with Unheaded line.now)) }
{
    let header = header_said(line).ok_or(LineStop::Unexpected)?;
    push_chunk_header(b"MThd", 6, bytes)?;
    push_u16(header.format, bytes)?;
    push_u16(header.tracks, bytes)?;
    push_u16(header.division, bytes)?;
    Ok(WrittenPart::Between {
        tracks: header.tracks,
        ended: 0,
    })
}

/// Begins the chunk of the track whose number a line says.
fn begin_track(
    tracks: u16,
    ended: u16,
    line: &[u8],
    bytes: &mut Vec<u8>,
) -> Result<WrittenPart, LineStop>
    ensures placed { IfOk result (λ p. IsTrue (is_placed bytes.new.items p)) }
    ensures ok { IfOk result (λ p. (h : Header) (done : List (List Pair)) →
        IsBetweenTracks bytes.old.items tracks ended h done →
        IsLineMade bytes.new.items p (with_track h done (track_said line.now))) }
    ensures err { IfErr result (λ s. (h : Header) (done : List (List Pair)) →
        IsBetweenTracks bytes.old.items tracks ended h done →
        IsStoppedLine s (with_track h done (track_said line.now))) }
{
    if ended >= tracks || track_said(line) != Some(ended) {
        return Err(LineStop::Unexpected);
    }
    push_chunk_header(b"MTrk", 0, bytes)?;
    if bytes.len() > MOST_BYTES {
        return Err(LineStop::TooLarge);
    }
    Ok(WrittenPart::Within(OpenTrack {
        tracks,
        ended,
        start: bytes.len(),
        running: None,
        last: 0,
    }))
}

/// Writes the length of a chunk before its content, which begins at `start`.
fn close_chunk(start: usize, bytes: &mut Vec<u8>)
    requires after { 4 ≤ start }
    requires within { start ≤ length bytes.old.items }
    requires small { length bytes.old.items ≤ most_bytes }
    ensures { bytes.new.items ≡ take (start - 4) bytes.old.items
        ++ big_bytes 4 (length bytes.old.items - start) ++ drop start bytes.old.items }
{
    let mut length = [0; 4];
    BigEndian::write_u32(&mut length, (bytes.len() - start) as u32);
    bytes[start - 4..start].copy_from_slice(&length);
}

/// Adds a pair to a track, and ends the track with its end.
fn add_pair(
    track: OpenTrack,
    tick: u64,
    event: &EventBytes<'_>,
    bytes: &mut Vec<u8>,
) -> Result<WrittenPart, LineStop>
    requires after { 8 ≤ track.start }
    requires within { track.start ≤ length bytes.old.items }
    requires more { track.ended < track.tracks }
    requires risen { track.last ≤ tick }
    requires near { tick ≤ track.last + MOST_DELTA }
    requires bytes { IsTrue (has_bytes (event_seen event.now)) }
    ensures placed { IfOk result (λ p. IsTrue (is_placed bytes.new.items p)) }
    ensures ok { IfOk result (λ p. (h : Header) (done : List (List Pair)) (ps : List Pair)
        (last : ℕ) → IsWithinTrack bytes.old.items track h done ps last →
        IsLineMade bytes.new.items p (Some (with_said_pair h done ps tick
        (record { delta = tick - last; event = event_seen event.now })))) }
    ensures err { IfErr result (λ s. (h : Header) (done : List (List Pair)) (ps : List Pair)
        (last : ℕ) → IsWithinTrack bytes.old.items track h done ps last →
        IsStoppedLine s (Some (with_said_pair h done ps tick
        (record { delta = tick - last; event = event_seen event.now })))) }
{
    push_quantity((tick - track.last) as u32, bytes)?;
    push_event(track.running, event, bytes)?;
    if bytes.len() > MOST_BYTES {
        return Err(LineStop::TooLarge);
    }
    if event.is_end() {
        close_chunk(track.start, bytes);
        return Ok(WrittenPart::Between {
            tracks: track.tracks,
            ended: track.ended + 1,
        });
    }
    Ok(WrittenPart::Within(OpenTrack {
        running: event.status_after(),
        last: tick,
        ..track
    }))
}

/// Adds the event that a line says to a track.
fn add_event(
    alloc: Global,
    track: OpenTrack,
    line: &[u8],
    bytes: &mut Vec<u8>,
) -> Result<WrittenPart, LineStop>
    requires after { 8 ≤ track.start }
    requires within { track.start ≤ length bytes.old.items }
    requires more { track.ended < track.tracks }
    ensures placed { IfOk result (λ p. IsTrue (is_placed bytes.new.items p)) }
    ensures ok { IfOk result (λ p. (h : Header) (done : List (List Pair)) (ps : List Pair)
        (last : ℕ) → IsWithinTrack bytes.old.items track h done ps last →
        IsLineMade bytes.new.items p (with_event h done ps last (timed_event line.now))) }
    ensures err { IfErr result (λ s. (h : Header) (done : List (List Pair)) (ps : List Pair)
        (last : ℕ) → IsWithinTrack bytes.old.items track h done ps last →
        IsStoppedLine s (with_event h done ps last (timed_event line.now))) }
{
    let timed = match timed_event(alloc, line) {
        Ok(timed) => timed,
        Err(Unsaid::Nothing) => return Err(LineStop::Unexpected),
        Err(Unsaid::OutOfMemory) => return Err(LineStop::OutOfMemory),
    };
    if timed.tick < track.last || timed.tick - track.last > MOST_DELTA {
        return Err(LineStop::Unexpected);
    }
    add_pair(track, timed.tick, &timed.event.as_bytes(), bytes)
}

/// Writes what one more line says.
pub(crate) fn take_line(
    alloc: Global,
    part: WrittenPart,
    line: &[u8],
    bytes: &mut Vec<u8>,
) -> Result<WrittenPart, LineStop>
    requires { IsTrue (is_placed bytes.old.items part) }
    ensures placed { IfOk result (λ p. IsTrue (is_placed bytes.new.items p)) }
    ensures ok { IfOk result (λ p. (begun : BegunFile) → IsPartOf bytes.old.items part begun →
        IsAfterLine begun line.now bytes.new.items p) }
    ensures err { IfErr result (λ s. (begun : BegunFile) → IsPartOf bytes.old.items part begun →
        IsLineFault s begun line.now) }
{
    if is_passed_over(line) {
        return Ok(part);
    }
    match part {
        WrittenPart::Unheaded => begin_file(line, bytes),
        WrittenPart::Between { tracks, ended } => begin_track(tracks, ended, line, bytes),
        WrittenPart::Within(track) => add_event(alloc, track, line, bytes),
    }
}
