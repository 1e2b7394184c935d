//! By which ticks a file counts, as words say it.

ghost use Rattle.std.specs.Prelude.{◌≡◌, ◌≢◌, ◌+◌, true, Some, IfOk, IfErr};
ghost use Rattle.std.specs.Option.{option_map};
ghost use Rattle.smf_grammar.specs.Chunks.{most_bytes};
ghost use Rattle.tempo_clock.specs.Entries.{is_ppq, is_tempo};
ghost use Rattle.program_tasks.specs.Grid.{is_bpm, ppq_said, bpm_said, tempo_of, one_tempo, grid_said, IsNoPpq, IsNoBpm, IsNoGrid, IsGridOf, IsNoGridOf, IsGrid, IsOfGrid};
ghost use Rattle.folder_files.specs.Contents.{IsOfFile};

use crate::program_fault::ProgramFault;
use byte_io::{Source, read_to};
use file_store::FileStore;
use folder_files::MOST_READ;
use memory::OutOfMemory;
use script_text::number_of;
use smf_files::{SmfFault, SmfFile};
use std::alloc::Global;
use tempo_clock::{MapFault, TempoEntry, TempoMap};

/// Ticks per quarter note, where no word says how many.
const PPQ: u32 = 480;

/// Quarter notes a minute, where no word says how many.
const BPM: u32 = 120;

/// Microseconds in a minute.
const MINUTE: u32 = 60_000_000;

/// The ticks by which a file counts, and its tempos, as words say them.
#[derive(Clone, Copy, Debug, PartialEq, Eq)]
pub enum GridWords<'a> {
    /// Ticks per quarter note, 1 to 32,767, and quarter notes a minute, 4 to 60,000,000: without words 480 and 120.
    Said {
        ppq: Option<&'a str>,
        bpm: Option<&'a str>,
    },
    /// Those of the Standard MIDI File at a path.
    Like(&'a str),
}

impl<'a> GridWords<'a> {
    /// The ticks and the tempos. A word that says none, or a file that cannot be read or is no Standard MIDI File, is
    /// the fault.
    pub fn grid<S: FileStore>(self, alloc: Global, store: &S) -> Result<TempoMap, ProgramFault<'a>>
        ensures grid { IfOk result (IsGrid S.IsOpened S.Reader.HasLeft self.entry) }
        ensures fault { IfErr result (IsOfGrid S.IsOpened S.Reader.HasLeft S.CannotOpen
            S.Reader.failed self.entry) }
    {
        match self {
            GridWords::Said { ppq, bpm } => grid_said(alloc, ppq, bpm),
            GridWords::Like(path) => grid_of(alloc, store, path),
        }
    }
}

/// The ticks and the tempo that words say.
fn grid_said<'a>(
    alloc: Global,
    ppq: Option<&'a str>,
    bpm: Option<&'a str>,
) -> Result<TempoMap, ProgramFault<'a>>
    ensures grid { IfOk result (λ grid. Some grid ≡ grid_said
        (option_map (λ w. w.now) ppq.entry) (option_map (λ w. w.now) bpm.entry)) }
    ensures fault { IfErr result (IsNoGrid (option_map (λ w. w.now) ppq.entry)
        (option_map (λ w. w.now) bpm.entry)) }
{
    let ppq = ppq_said(ppq)?;
    let bpm = bpm_said(bpm)?;
    Ok(one_tempo(alloc, ppq, tempo_of(bpm))?)
}

/// The ticks per quarter note that a word says.
fn ppq_said<'a>(word: Option<&'a str>) -> Result<u32, ProgramFault<'a>>
    ensures said { IfOk result (λ n. Some n ≡ ppq_said (option_map (λ w. w.now) word.entry)) }
    ensures within { IfOk result (λ n. is_ppq n ≡ true) }
    ensures fault { IfErr result (IsNoPpq (option_map (λ w. w.now) word.entry)) }
{
    let Some(word) = word else {
        return Ok(PPQ);
    };
    match number_of(word.as_bytes()) {
        Some(ppq) if 1 <= ppq && ppq <= 32_767 => Ok(ppq as u32),
        _ => Err(ProgramFault::NotAPpq(word)),
    }
}

/// The quarter notes a minute that a word says.
fn bpm_said<'a>(word: Option<&'a str>) -> Result<u32, ProgramFault<'a>>
    ensures said { IfOk result (λ n. Some n ≡ bpm_said (option_map (λ w. w.now) word.entry)) }
    ensures within { IfOk result (λ n. is_bpm n ≡ true) }
    ensures fault { IfErr result (IsNoBpm (option_map (λ w. w.now) word.entry)) }
{
    let Some(word) = word else {
        return Ok(BPM);
    };
    match number_of(word.as_bytes()) {
        Some(bpm) if 4 <= bpm && bpm <= 60_000_000 => Ok(bpm as u32),
        _ => Err(ProgramFault::NotABpm(word)),
    }
}

/// Microseconds per quarter note, rounded down: 1 to 15,000,000.
fn tempo_of(bpm: u32) -> u32
    requires { is_bpm bpm ≡ true }
    ensures value { result ≡ tempo_of bpm }
    ensures within { is_tempo result ≡ true }
{
    MINUTE / bpm
}

/// One tempo from the beginning on.
pub(crate) fn one_tempo(alloc: Global, ppq: u32, tempo: u32) -> Result<TempoMap, OutOfMemory>
    requires ticks { is_ppq ppq ≡ true }
    requires tempo { is_tempo tempo ≡ true }
    ensures { IfOk result (λ m. m ≡ one_tempo ppq tempo) }
{
    match TempoMap::new(alloc, ppq, &[TempoEntry { tick: 0, tempo }]) {
        Ok(map) => Ok(map),
        Err(MapFault::OutOfMemory) => Err(OutOfMemory),
        Err(MapFault::BadMap) => unreachable!(),
    }
}

/// The ticks and the tempos of the file at a path.
fn grid_of<'a, S: FileStore>(
    alloc: Global,
    store: &S,
    path: &'a str,
) -> Result<TempoMap, ProgramFault<'a>>
    ensures grid { IfOk result (IsGridOf S.IsOpened S.Reader.HasLeft path.now) }
    ensures fault { IfErr result (IsNoGridOf S.IsOpened S.Reader.HasLeft S.CannotOpen
        S.Reader.failed path.now) }
{
    let bytes = bytes_at(alloc, store, path)?;
    match SmfFile::read(alloc, bytes.as_slice()) {
        Ok(file) => Ok(file.tempo_map()?),
        Err(fault) => Err(no_file(fault)),
    }
}

/// What the file at a path holds, up to one byte more than a Standard MIDI File may have.
fn bytes_at<'a, S: FileStore>(
    alloc: Global,
    store: &S,
    path: &'a str,
) -> Result<Vec<u8>, ProgramFault<'a>>
    ensures read { IfOk result (λ bytes. IsOfFile S.IsOpened S.Reader.HasLeft (most_bytes + 1)
        path.now bytes.items) }
    ensures fault { IfErr result (IsNoGridOf S.IsOpened S.Reader.HasLeft S.CannotOpen
        S.Reader.failed path.now) }
{
    let Ok(mut source) = store.open(path) else {
        return Err(ProgramFault::CannotRead(path));
    };
    match read_to(alloc, &mut source, MOST_READ) {
        Ok(bytes) => Ok(bytes),
        Err(_) => {
            if source.has_failed() {
                return Err(ProgramFault::CannotRead(path));
            }
            Err(ProgramFault::OutOfMemory)
        }
    }
}

/// Why bytes are no Standard MIDI File.
fn no_file(fault: SmfFault) -> ProgramFault<'static>
    ensures memory { fault ≡ SmfFault.OutOfMemory → result ≡ ProgramFault.OutOfMemory }
    ensures told { fault ≢ SmfFault.OutOfMemory → result ≡ ProgramFault.Smf fault }
{
    match fault {
        SmfFault::OutOfMemory => ProgramFault::OutOfMemory,
        _ => ProgramFault::Smf(fault),
    }
}
