//! Files in RIFF containers.

ghost use Rattle.std.specs.Prelude.{◌≡◌, ◌≤◌, length, true, false, None, Some, IsTrue, IfSome, IfNone, OnSome, MatchOption, codes};
ghost use Rattle.smf_grammar.specs.Chunks.{starts};
ghost use Rattle.smf_mend.specs.Containers.{is_rmid, has_riff_chunk, riff_content, riff_left, data_among, midi_in};

use byteorder::{ByteOrder, LittleEndian};

/// Whether these are a container of Standard MIDI Files.
fn is_rmid(bytes: &[u8]) -> bool
    ensures value { result ≡ is_rmid bytes.now }
    ensures long { IsTrue result → 12 ≤ length bytes.now }
{
    matches!(
        bytes,
        [
            b'R',
            b'I',
            b'F',
            b'F',
            _,
            _,
            _,
            _,
            b'R',
            b'M',
            b'I',
            b'D',
            ..
        ]
    )
}

/// Whether a chunk `data` stands first.
fn is_data_chunk(left: &[u8]) -> bool
    ensures { result ≡ starts (codes "data") left.now }
{
    matches!(left, [b'd', b'a', b't', b'a', ..])
}

/// The content of the chunk that stands first, and what is left.
fn riff_chunk_at(left: &[u8]) -> Option<(&[u8], &[u8])>
    ensures there { OnSome result (has_riff_chunk left.now ≡ true) }
    ensures content { IfSome result (λ x. x.0.now ≡ riff_content left.now) }
    ensures rest { IfSome result (λ x. x.1.now ≡ riff_left left.now) }
    ensures none { IfNone result (has_riff_chunk left.now ≡ false) }
{
    if left.len() < 8 {
        return None;
    }
    let size = LittleEndian::read_u32(&left[4..]) as usize;
    let behind = &left[8..];
    if size > behind.len() {
        return None;
    }
    let padded = (size + size % 2).min(behind.len());
    Some((&behind[..size], &behind[padded..]))
}

/// The content of the first chunk `data` among so many.
fn data_among(most: usize, chunks: &[u8]) -> Option<&[u8]>
    ensures { MatchOption result (data_among most chunks.now ≡ None)
        (λ content. data_among most chunks.now ≡ Some content.now) }
{
    let mut left = chunks;
    for _turn in 0..most {
        let (content, rest) = match riff_chunk_at(left) {
            Some(found) => found,
            None => return None,
        };
        if is_data_chunk(left) {
            return Some(content);
        }
        left = rest;
    }
    None
}

/// The Standard MIDI File in a RIFF container of type RMID: the content of its first chunk `data`. All other bytes are
/// given as they are.
///
/// A chunk has a type of four bytes, a length of four, lowest byte first, so many bytes, and a byte of padding where
/// their number is odd. Where a chunk is cut before a chunk `data` was found, none is there.
pub fn unwrapped(bytes: &[u8]) -> &[u8]
    ensures { result.now ≡ midi_in bytes.now }
{
    if !is_rmid(bytes) {
        return bytes;
    }
    match data_among(bytes.len(), &bytes[12..]) {
        Some(content) => content,
        None => bytes,
    }
}
