//! The files of a folder, for a run to play.

ghost use Rattle.std.specs.Prelude.{◌≡◌, ◌≤◌, ◌+◌, ◌++◌, ◌∷◌, true, [], Some, length, take, map, string_bytes, IfOk, IfErr, OnErr};
ghost use Rattle.std.specs.Option.{option_map};
ghost use Rattle.byte_io.specs.Moved.{Took};
ghost use Rattle.script_text.specs.declared.script.TheConstants.{MOST_FILES};
ghost use Rattle.program_tasks.specs.Explained.{are_none};
ghost use Rattle.folder_files.specs.Paths.{path_in};
ghost use Rattle.program_tasks.specs.FolderFiles.{seen_files, seen_lost, AreOpened};
ghost use Rattle.program_tasks.specs.Faults.{IsOfMemory, IsOfListing};
ghost use Rattle.program_tasks.specs.ForgivenFiles.{all_forgiven};
ghost use Rattle.program_tasks.specs.Opened.{IsFolder, IsTakenAs, IsTakenAt};
ghost use Rattle.smf_grammar.specs.Played.{as_played};
ghost use Rattle.program_tasks.specs.LeftOut.{all_lost, lost_for, lost_line, lost_lines, lost_where};

use crate::forgiven::tell_forgiven;
use crate::left_out::{LeftOutFile, LeftOutSince, WhyLeftOut};
use crate::names::taken_files;
use crate::notes::Notes;
use crate::opening::{FolderFiles, open_files};
use crate::program_fault::{LeftOut, ProgramFault};
use byte_io::DeviceFault;
use file_store::FileStore;
use folder_files::{capital_files, content_of, midi_files, path_in};
use memory::OutOfMemory;
use seq_session::NamedFiles;
use smf_files::SmfFault;
use smf_mend::{Mended, mend_unwrapped};
use std::alloc::Global;

/// The files of a folder, as they were read.
#[derive(Drop)]
pub struct Folder {
    /// The names of its files, in byte order.
    pub names: Vec<String>,
    /// What is taken of each of the files that a run takes, or why it cannot be.
    pub contents: Vec<Result<Mended, WhyLeftOut>>,
    /// The names that are none of its files for their capitals alone, in byte order.
    pub capitals: Vec<String>,
    ghost as_many: { length contents.items ≡ length (take MOST_FILES names.items) },
}

impl Folder {
    /// Reads the files of a folder, those whose names end in `.mid`; where none is named there are no files. Where it
    /// is lenient it takes more names, as `midi_files` says, and reads each file by the lenient grammar, as
    /// `mend_unwrapped` does.
    pub fn read<'a, S: FileStore>(
        alloc: Global,
        store: &S,
        dir: Option<&'a str>,
        is_lenient: bool,
    ) -> Result<Folder, ProgramFault<'a>>
        ensures read { IfOk result (λ f. IsFolder S.IsOpened S.Reader.HasLeft S.CannotOpen
            S.Reader.failed S.IsStanding is_lenient S.HasNames (option_map (λ d. d.now) dir.entry)
            (map string_bytes f.names.items) f.contents.items
            (map string_bytes f.capitals.items)) }
        ensures fault { IfErr result (IsOfListing S.CannotList
            (option_map (λ d. d.now) dir.entry)) }
    {
        let mut contents = Vec::new(alloc);
        let Some(dir) = dir else {
            return Ok(Folder {
                names: Vec::new(alloc),
                contents,
                capitals: Vec::new(alloc),
            });
        };
        let entries = names_in(alloc, store, dir)?;
        let capitals = capital_files(alloc, entries.as_slice(), is_lenient)?;
        let names = midi_files(entries, is_lenient)?;
        let (taken, _) = taken_files(names.as_slice());
        for name in taken {
            contents.push(taken_in(alloc, store, dir, name.as_str(), is_lenient)?)?;
        }
        Ok(Folder {
            names,
            contents,
            capitals,
        })
    }

    /// Opens the files. It tells what was forgiven of them, and then of each one that is left out: first of those that
    /// cannot be played, then of those beyond the first 256. Where `explains` says so it tells why, and then of those
    /// whose names have capitals.
    pub fn open<'f, N: Notes>(
        &'f self,
        alloc: Global,
        explains: bool,
        notes: &mut N,
    ) -> Result<FolderFiles<'f>, ProgramFault<'static>>
        ensures opened { IfOk result (λ o. AreOpened
            (map string_bytes (take MOST_FILES self.now.names.items))
            self.now.contents.items (seen_files o)) }
        ensures as_many { IfOk result (λ o. length o.names.items ≡ length o.files.items) }
        ensures few { IfOk result (λ o. length o.names.items ≤ MOST_FILES) }
        ensures told { IfOk result (λ o. Took N.HasTold notes.old
            (all_forgiven (map string_bytes (take MOST_FILES self.now.names.items))
            self.now.contents.items
            ++ lost_lines explains (all_lost explains (seen_files o).left_out
            (map string_bytes self.now.names.items) (map string_bytes self.now.capitals.items)))
            notes.new) }
        ensures untold { OnErr result (notes.new ≡ notes.old) }
        ensures fault { IfErr result IsOfMemory }
    {
        let (taken, rest) = taken_files(self.names.as_slice());
        let opened = open_files(alloc, taken, self.contents.as_slice())?;
        tell_forgiven(notes, taken, self.contents.as_slice());
        tell_unplayable(notes, explains, opened.left_out.as_slice());
        tell_others(notes, explains, rest, WhyLeftOut::Beyond);
        tell_capitals(notes, explains, self.capitals.as_slice());
        Ok(opened)
    }
}

impl Folder {
    /// Whether no file is told to be left out, of which these were opened.
    pub fn takes_all(&self, explains: bool, opened: &FolderFiles<'_>) -> bool
        ensures { result ≡ are_none (all_lost explains (seen_files opened.now).left_out
            (map string_bytes self.now.names.items) (map string_bytes self.now.capitals.items)) }
    {
        let (_, rest) = taken_files(self.names.as_slice());
        if !opened.left_out.is_empty() || !rest.is_empty() {
            return false;
        }
        !explains || self.capitals.is_empty()
    }
}

/// Tells of a file that is left out, where `explains` says so with why it is.
fn tell_one<N: Notes>(notes: &mut N, explains: bool, file: &LeftOutFile<'_>)
    ensures { Took N.HasTold notes.old (lost_line explains (seen_lost file.now) ++ 10 ∷ [])
        notes.new }
{
    if explains {
        notes.tell(LeftOutSince(*file));
    } else {
        notes.tell(LeftOut(file.name));
    }
}

/// Tells of the files that cannot be played.
fn tell_unplayable<N: Notes>(notes: &mut N, explains: bool, files: &[LeftOutFile<'_>])
    ensures { Took N.HasTold notes.old (lost_lines explains (map seen_lost files.now)) notes.new }
{
    if let Some((first, more)) = files.split_first() {
        tell_one(notes, explains, first);
        tell_unplayable(notes, explains, more);
    }
}

/// Tells of the files with these names, which are left out for one reason.
fn tell_others<N: Notes>(notes: &mut N, explains: bool, names: &[String], why: WhyLeftOut)
    ensures { Took N.HasTold notes.old
        (lost_lines explains (lost_for why (map string_bytes names.now))) notes.new }
{
    for name in names {
        let file = LeftOutFile {
            name: name.as_str(),
            why,
        };
        tell_one(notes, explains, &file);
    }
}

/// Tells of the files whose names end in `.mid` but for capitals, where `explains` says so.
fn tell_capitals<N: Notes>(notes: &mut N, explains: bool, names: &[String])
    ensures { Took N.HasTold notes.old
        (lost_lines explains (lost_where explains (map string_bytes names.now))) notes.new }
{
    if explains {
        tell_others(notes, explains, names, WhyLeftOut::Capitals);
    }
}

/// The names in a folder, but for those that are not UTF-8.
fn names_in<'a, S: FileStore>(
    alloc: Global,
    store: &S,
    dir: &'a str,
) -> Result<Vec<String>, ProgramFault<'a>>
    ensures listed { IfOk result (λ names. S.HasNames dir.now (map string_bytes names.items)) }
    ensures fault { IfErr result (IsOfListing S.CannotList (Some dir.now)) }
{
    match store.names(alloc, dir) {
        Ok(names) => Ok(names),
        Err(DeviceFault::OutOfMemory) => Err(ProgramFault::OutOfMemory),
        Err(DeviceFault::Broken) => Err(ProgramFault::CannotRead(dir)),
    }
}

/// What is taken of the regular file with a name in a folder, or why it cannot be read.
fn taken_in<S: FileStore>(
    alloc: Global,
    store: &S,
    dir: &str,
    name: &str,
    is_lenient: bool,
) -> Result<Result<Mended, WhyLeftOut>, OutOfMemory>
    ensures { IfOk result (IsTakenAt S.IsOpened S.Reader.HasLeft S.CannotOpen
        S.Reader.failed S.IsStanding is_lenient (path_in dir.now name.now)) }
{
    let path = path_in(alloc, dir, name)?;
    match content_of(alloc, store, path.as_str())? {
        Ok(bytes) => taken_of(alloc, bytes, is_lenient),
        Err(there) => Ok(Err(WhyLeftOut::Unread(there))),
    }
}

/// What is taken of these bytes: all as they are, or the strict file that is made of them by the lenient grammar.
fn taken_of(
    alloc: Global,
    bytes: Vec<u8>,
    is_lenient: bool,
) -> Result<Result<Mended, WhyLeftOut>, OutOfMemory>
    ensures { IfOk result (IsTakenAs is_lenient bytes.items) }
{
    if is_lenient {
        return mended_of(alloc, bytes.as_slice());
    }
    Ok(Ok(Mended {
        bytes,
        running_status: None,
        high_data: None,
    }))
}

/// The strict file that is made of these bytes by the lenient grammar, or why there is none.
fn mended_of(alloc: Global, bytes: &[u8]) -> Result<Result<Mended, WhyLeftOut>, OutOfMemory>
    ensures { IfOk result (IsTakenAs true bytes.now) }
{
    match mend_unwrapped(alloc, bytes) {
        Ok(mended) => Ok(Ok(mended)),
        Err(SmfFault::OutOfMemory) => Err(OutOfMemory),
        Err(fault) => Ok(Err(WhyLeftOut::Damaged(fault))),
    }
}

/// The files that a run may play, with their names.
pub fn named<'f, 'b>(opened: &'f FolderFiles<'b>) -> NamedFiles<'f, 'b>
    requires as_many { length opened.now.names.items ≡ length opened.now.files.items }
    requires few { length opened.now.names.items ≤ MOST_FILES }
    ensures names { result.names ≡ (seen_files opened.now).names }
    ensures files { result.files ≡ map as_played opened.now.files.items }
{
    match NamedFiles::new(opened.names.as_slice(), opened.files.as_slice()) {
        Some(files) => files,
        None => unreachable!(),
    }
}
