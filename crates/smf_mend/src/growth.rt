//! The bytes of a strict file that is written as it is read.

ghost use Rattle.std.specs.Prelude.{◌≡◌, ◌≤◌, ◌+◌, ◌-◌, ◌++◌, ℕ, List, false, length, take, drop, codes, IsTrue, IfOk, OnOk};
ghost use Rattle.byteorder.specs.Endian.{big_bytes};
ghost use Rattle.smf_grammar.specs.Chunks.{most_bytes};
ghost use Rattle.smf_grammar.specs.Seen.{pair_seen};
ghost use Rattle.smf_grammar.specs.Texts.{chunk_text};
ghost use Rattle.smf_grammar.specs.Written.{pair_text, header_text, can_stand};
ghost use Rattle.smf_mend.specs.Growing.{open_chunk, IsGrown, GrewBy, IsLonger};

use byteorder::{BigEndian, ByteOrder};
use memory::OutOfMemory;
use smf_files::{push_chunk_header, push_event, push_quantity, push_u16};
use smf_grammar::{Header, MOST_BYTES, PairBytes};
use std::alloc::Global;

/// The bytes so far. Once they would be more than a file has at most, it is only known that they are.
#[derive(Drop)]
pub(crate) struct Growth {
    pub bytes: Vec<u8>,
    pub is_outgrown: bool,
}

/// Writes the length of a chunk before its content, which begins at `start`.
fn close_chunk(start: usize, bytes: &mut Vec<u8>)
    requires after { 8 ≤ start }
    requires within { start ≤ length bytes.old.items }
    requires small { length bytes.old.items ≤ most_bytes }
    ensures { bytes.new.items ≡ take (start - 4) bytes.old.items
        ++ big_bytes 4 (length bytes.old.items - start) ++ drop start bytes.old.items }
{
    let mut length = [0; 4];
    BigEndian::write_u32(&mut length, (bytes.len() - start) as u32);
    bytes[start - 4..start].copy_from_slice(&length);
}

impl Growth {
    /// With a header; its first `room` bytes need no growth.
    pub(crate) fn headed(alloc: Global, room: usize, header: Header) -> Result<Growth, OutOfMemory>
        ensures grown { IfOk result (λ growth. IsGrown growth
            (header_text header.format header.tracks header.division)) }
        ensures small { IfOk result (λ growth. length growth.bytes.items ≤ most_bytes) }
    {
        let mut bytes = Vec::with_capacity(alloc, room)?;
        push_chunk_header(b"MThd", 6, &mut bytes)?;
        push_u16(header.format, &mut bytes)?;
        push_u16(header.tracks, &mut bytes)?;
        push_u16(header.division, &mut bytes)?;
        Ok(Growth {
            bytes,
            is_outgrown: false,
        })
    }

    /// Forgets the bytes where they are more than a file has at most.
    fn limit(&mut self)
        requires { self.old.is_outgrown ≡ false }
        ensures grown { IsGrown self.new self.old.bytes.items }
        ensures same { self.new.is_outgrown ≡ false → self.new.bytes.items ≡ self.old.bytes.items }
        ensures small { length self.new.bytes.items ≤ most_bytes }
    {
        if self.bytes.len() > MOST_BYTES {
            self.bytes.clear();
            self.is_outgrown = true;
        }
    }

    /// Adds a pair, where this is the running status of the strict grammar.
    pub(crate) fn push_pair(
        &mut self,
        strict: Option<u8>,
        pair: &PairBytes<'_>,
    ) -> Result<(), OutOfMemory>
        requires can { IsTrue (can_stand (pair_seen pair.now)) }
        requires small { length self.old.bytes.items ≤ most_bytes }
        ensures grown { OnOk result (GrewBy self.old self.new
            (pair_text strict (pair_seen pair.now))) }
        ensures longer { OnOk result (IsLonger self.old self.new) }
    {
        if self.is_outgrown {
            return Ok(());
        }
        push_quantity(pair.delta, &mut self.bytes)?;
        push_event(strict, &pair.event, &mut self.bytes)?;
        self.limit();
        Ok(())
    }

    /// Begins the chunk of a track, and says where its content begins.
    pub(crate) fn begin_track(&mut self) -> Result<usize, OutOfMemory>
        requires small { length self.old.bytes.items ≤ most_bytes }
        ensures grown { OnOk result (GrewBy self.old self.new open_chunk) }
        ensures start { IfOk result (λ start. start ≡ length self.old.bytes.items + 8) }
        ensures within { IfOk result (λ start. self.new.is_outgrown ≡ false →
            start ≤ length self.new.bytes.items) }
        ensures longer { OnOk result (IsLonger self.old self.new) }
    {
        let start = self.bytes.len() + 8;
        if self.is_outgrown {
            return Ok(start);
        }
        push_chunk_header(b"MTrk", 0, &mut self.bytes)?;
        self.limit();
        Ok(start)
    }

    /// Ends the chunk of a track whose content begins there.
    pub(crate) fn end_track(&mut self, start: usize)
        requires after { 8 ≤ start }
        requires within { self.old.is_outgrown ≡ false → start ≤ length self.old.bytes.items }
        requires small { length self.old.bytes.items ≤ most_bytes }
        ensures grown { (front content : List ℕ) →
            (self.old.is_outgrown ≡ false → length front + 8 ≡ start) →
            IsGrown self.old (front ++ open_chunk ++ content) →
            IsGrown self.new (front ++ chunk_text (codes "MTrk") content) }
        ensures small { length self.new.bytes.items ≤ most_bytes }
    {
        if self.is_outgrown {
            return;
        }
        close_chunk(start, &mut self.bytes);
    }
}
