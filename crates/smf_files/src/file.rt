//! A file that was read.

ghost use Rattle.std.specs.Prelude.{◌≡◌, ◌<◌, ◌∷◌, [], ◌++◌, length, true, IfOk, IfErr, OnOk};
ghost use Rattle.std.specs.Rc.{rc_value};
ghost use Rattle.tempo_clock.specs.Ticks.{resolution};
ghost use Rattle.smf_grammar.specs.Files.{IsFile, Fault};
ghost use Rattle.smf_grammar.specs.Contents.{events_of, entries_of, skipped_of};
ghost use Rattle.smf_files.specs.Rising.{ticks_rise};
ghost use Rattle.smf_files.specs.Taken.{Faulty};

use crate::cursor::{Cursor, play};
use crate::entries::entries_from;
use crate::playable::shared_table;
use crate::track::read_track;
use memory::OutOfMemory;
use smf_grammar::{ChunkFault, SmfFault, chunk_at, counts_frames, header_at};
use std::alloc::Global;
use std::marker::Model;
use std::rc::Rc;
use tempo_clock::{TempoEntry, TempoMap, TempoTable};

/// Appends a content.
fn keep<'b>(contents: &mut Vec<&'b [u8]>, content: &'b [u8]) -> Result<(), SmfFault>
    ensures ok { OnOk result (contents.new.items ≡ contents.old.items ++ content.entry ∷ []) }
    ensures err { IfErr result (λ x. x ≡ SmfFault.OutOfMemory) }
{
    if contents.push(content).is_err() {
        return Err(SmfFault::OutOfMemory);
    }
    Ok(())
}

/// Contents that the cursors of a file share with it.
fn share<'b>(alloc: Global, contents: Vec<&'b [u8]>) -> Result<Rc<Vec<&'b [u8]>>, SmfFault>
    ensures ok { IfOk result (λ shared. rc_value shared ≡ contents.entry) }
    ensures err { IfErr result (λ x. x ≡ SmfFault.OutOfMemory) }
{
    match Rc::new(alloc, contents) {
        Ok(shared) => Ok(shared),
        Err(_) => Err(SmfFault::OutOfMemory),
    }
}

/// A Standard MIDI File: what its header says, and where the contents of its tracks stand in the lent bytes.
#[derive(Drop)]
pub struct SmfFile<'b> {
    alloc: Global,
    format: u16,
    division: u16,
    contents: Rc<Vec<&'b [u8]>>,
    tempos: Rc<TempoTable>,
    skipped: u64,
}

impl<'b> Model for SmfFile<'b> {
    ghost use Rattle.std.specs.Prelude.{map};
    ghost use Rattle.std.specs.Rc.{rc_value};
    ghost use Rattle.smf_grammar.specs.Files.{MidiFile};
    ghost use Rattle.smf_files.specs.Kept.{file_seen, IsFileKept};

    ghost Value = { MidiFile };

    ghost view = { λ f. file_seen f.format f.division (map (λ c. c.now) (rc_value f.contents).items) };

    ghost invariant = { λ f. IsFileKept
        (file_seen f.format f.division (map (λ c. c.now) (rc_value f.contents).items))
        (map (λ c. c.now) (rc_value f.contents).items) (rc_value f.tempos) f.skipped };
}

impl<'b> SmfFile<'b> {
    /// Reads a file in one pass: it is one, or its first fault is reported.
    pub fn read(alloc: Global, bytes: &'b [u8]) -> Result<SmfFile<'b>, SmfFault>
        ensures file { IfOk result (λ f. IsFile bytes.now f) }
        ensures fault { IfErr result (λ x. Faulty (Fault bytes.now) x) }
    {
        let (header, after) = header_at(bytes)?;
        let metrical = !counts_frames(header.division);
        let mut left = after;
        let mut contents: Vec<&'b [u8]> = Vec::new(alloc);
        let mut tempos = Vec::new(alloc);
        let mut skipped = 0u64;
        'chunks: while contents.len() < header.tracks as usize {
            let place = (bytes.len() - left.len()) as u64;
            let (chunk, rest) = match chunk_at(left) {
                Ok(found) => found,
                Err(ChunkFault::Missing) => return Err(SmfFault::TrackMissing),
                Err(ChunkFault::Cut) => return Err(SmfFault::Truncated { at: place }),
            };
            if chunk.is_track {
                let track = contents.len() as u64;
                skipped += read_track(chunk.content, track, place + 8, metrical, &mut tempos)?;
                keep(&mut contents, chunk.content)?;
            }
            left = rest;
        }
        let entries = entries_from(alloc, metrical, tempos)?;
        let tempos = shared_table(alloc, header.division, entries)?;
        let shared = share(alloc, contents)?;
        Ok(SmfFile {
            alloc,
            format: header.format,
            division: header.division,
            contents: shared,
            tempos,
            skipped,
        })
    }

    /// A cursor at the first event.
    pub fn cursor(&self) -> Result<Cursor<'b>, OutOfMemory>
        ensures { IfOk result (λ c. c ≡ events_of self.now) }
    {
        play(self.alloc, self.contents.clone()?)
    }

    /// 0 for one track, 1 for tracks that play together.
    pub fn format(&self) -> u16
        ensures { result ≡ self.now.format }
    {
        self.format
    }

    /// How many tracks it has.
    pub fn tracks(&self) -> u16
        ensures { result ≡ length self.now.tracks }
    {
        self.contents.len() as u16
    }

    /// The division word: ticks per quarter note, or, with bit 15 set, minus the frames per second in the high byte and
    /// the ticks per frame in the low byte.
    pub fn division(&self) -> u16
        ensures { result ≡ self.now.division }
    {
        self.division
    }

    /// The tempo entries, by tick; none where the division counts frames.
    pub fn tempo_entries(&self) -> &[TempoEntry]
        ensures { result.now ≡ entries_of self.now }
    {
        self.tempos.as_ref().entries()
    }

    /// How many events are skipped: exclusive events that are no whole message, escapes, and tempo events that set
    /// none.
    pub fn skipped(&self) -> u64
        ensures { result ≡ skipped_of self.now }
    {
        self.skipped
    }

    /// The tempo map by which it plays: of its division, with its tempo entries, which it shares. It fails only where
    /// memory is refused, and takes none where the division counts frames.
    pub fn tempo_map(&self) -> Result<TempoMap, OutOfMemory>
        ensures { IfOk result (λ m. m
            ≡ record { division = self.now.division; entries = entries_of self.now }) }
    {
        TempoMap::of(self.alloc, &self.tempos)
    }

    /// Its division has ticks, and the ticks of its events never fall. It does nothing.
    pub fn plays_in_order(&self)
        ensures ticks { 0 < resolution
            (record { division = self.now.division; entries = entries_of self.now }) }
        ensures rising { ticks_rise (events_of self.now) ≡ true }
    {
        // The invariant is known only once a field is read.
        let _alloc = self.alloc;
    }
}
