//! The header and the chunks, as they stand in the file.

ghost use Rattle.std.specs.Prelude.{◌≡◌, ◌≤◌, ◌<◌, ◌^◌, ℕ, length, drop, codes, nat_le, true, Err, IfOk, IfErr, OnOk, ◌+◌};
ghost use Rattle.byteorder.specs.Endian.{big_number};
ghost use Rattle.smf_grammar.specs.Chunks.{most_bytes, is_frame_division, starts, header_of, size_at, is_long_enough, header_at, chunk_at};
ghost use Rattle.smf_grammar.specs.Seen.{Gives, header_seen, chunk_seen};

use crate::fault::{ChunkFault, SmfFault};
use byteorder::{BigEndian, ByteOrder};

/// The most bytes of a file.
pub const MOST_BYTES: usize = 16_777_216;

/// What the header of a file says.
#[derive(Clone, Copy)]
pub struct Header {
    pub format: u16,
    /// The number of tracks.
    pub tracks: u16,
    pub division: u16,
}

/// A chunk, as it stands in the file: whether it holds a track, and its content.
#[derive(Clone, Copy)]
pub struct ChunkBytes<'b> {
    pub is_track: bool,
    pub content: &'b [u8],
}

/// Whether the division counts frames, and not ticks per quarter note.
#[inline]
pub fn counts_frames(division: u16) -> bool
    ensures { result ≡ is_frame_division division }
{
    division >= 0x8000
}

/// The header of a format, a number of tracks and a division, if a file can have it ("Header Chunks").
#[tactic(auto, unfolding(crate::specs::Chunks::header_of))]
pub fn header_of(format: u16, tracks: u16, division: u16) -> Result<Header, SmfFault>
    ensures { Gives header_seen result (header_of format tracks division) }
{
    if format > 2 {
        return Err(SmfFault::UnknownFormat);
    }
    if format == 2 {
        return Err(SmfFault::Format2);
    }
    let is_track_count = if format == 0 {
        tracks == 1
    } else {
        tracks != 0
    };
    if !is_track_count {
        return Err(SmfFault::BadTrackCount);
    }
    if division == 0 {
        return Err(SmfFault::ZeroDivision);
    }
    if counts_frames(division) {
        let high = division / 256;
        if high == 0xE3 {
            return Err(SmfFault::DropFrame);
        }
        if high != 0xE8 && high != 0xE7 && high != 0xE2 {
            return Err(SmfFault::SmpteDivision);
        }
        if division % 256 == 0 {
            return Err(SmfFault::ZeroDivision);
        }
    }
    Ok(Header {
        format,
        tracks,
        division,
    })
}

/// Whether the type of a header stands first.
fn is_header(bytes: &[u8]) -> bool
    ensures { result ≡ starts (codes "MThd") bytes.now }
{
    matches!(bytes, [b'M', b'T', b'h', b'd', ..])
}

/// Whether the type of a track stands first.
fn is_track(bytes: &[u8]) -> bool
    ensures { result ≡ starts (codes "MTrk") bytes.now }
{
    matches!(bytes, [b'M', b'T', b'r', b'k', ..])
}

/// How long a header says its content is, where it is one that is whole.
// Apart, so that few branches are behind each test.
#[tactic(auto, unfolding(crate::specs::Chunks::header_at))]
fn header_size(bytes: &[u8]) -> Result<usize, SmfFault>
    ensures size { IfOk result (λ size. size ≡ size_at bytes.now) }
    ensures small { OnOk result (nat_le (length bytes.now) most_bytes ≡ true) }
    ensures header { OnOk result (starts (codes "MThd") bytes.now ≡ true) }
    ensures whole { OnOk result (is_long_enough bytes.now ≡ true) }
    ensures fault { IfErr result (λ fault. header_at bytes.now ≡ Err fault) }
{
    if bytes.len() > MOST_BYTES {
        return Err(SmfFault::TooLarge);
    }
    if !is_header(bytes) {
        return Err(SmfFault::NotMidi);
    }
    if bytes.len() < 8 {
        return Err(SmfFault::ShortHeader);
    }
    let size = BigEndian::read_u32(&bytes[4..]) as usize;
    if size < 6 || size > bytes.len() - 8 {
        return Err(SmfFault::ShortHeader);
    }
    Ok(size)
}

/// The header of a file, and what is left.
#[tactic(auto, unfolding(crate::specs::Chunks::header_at))]
pub fn header_at(bytes: &[u8]) -> Result<(Header, &[u8]), SmfFault>
    ensures value { Gives (λ x. (header_seen x.0, x.1.now)) result (header_at bytes.now) }
    ensures small { OnOk result (length bytes.now ≤ 2 ^ 24) }
    ensures shorter { IfOk result (λ x. length x.1.now ≤ length bytes.now) }
{
    let size = header_size(bytes)?;
    let format = BigEndian::read_u16(&bytes[8..]);
    let tracks = BigEndian::read_u16(&bytes[10..]);
    let division = BigEndian::read_u16(&bytes[12..]);
    let header = header_of(format, tracks, division)?;
    Ok((header, &bytes[8..][size..]))
}

/// The chunk that stands first, and what is left.
#[tactic(auto, unfolding(crate::specs::Chunks::chunk_at))]
pub fn chunk_at(left: &[u8]) -> Result<(ChunkBytes<'_>, &[u8]), ChunkFault>
    ensures value { Gives (λ x. (chunk_seen x.0, x.1.now)) result (chunk_at left.now) }
    ensures shorter { IfOk result (λ x. length x.1.now + length x.0.content.now + 8
        ≡ length left.now) }
{
    if left.len() < 8 {
        return Err(ChunkFault::Missing);
    }
    let is_track = is_track(left);
    let size = BigEndian::read_u32(&left[4..]) as usize;
    let left = &left[8..];
    if size > left.len() {
        return Err(ChunkFault::Cut);
    }
    let (content, left) = left.split_at(size);
    Ok((ChunkBytes { is_track, content }, left))
}
