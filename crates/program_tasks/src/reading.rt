//! The scripts of a session, opened and read.

ghost use Rattle.std.specs.Prelude.{◌≡◌, ◌+◌, false, IfOk, IfErr, OnOk};
ghost use Rattle.script_text.specs.declared.script.TheConstants.{MOST_SCRIPT};
ghost use Rattle.seq_session.specs.Devices.{AreSound};
ghost use Rattle.program_tasks.specs.Faults.{IsOfReading, IsOfScripts};
ghost use Rattle.folder_files.specs.Contents.{IsOfFile};
ghost use Rattle.program_tasks.specs.Opened.{AreOfFiles, AreSourcesOf, ReadsScripts};

use crate::program_fault::ProgramFault;
use crate::session::Session;
use crate::words::ScriptWord;
use byte_io::{Source, read_to};
use file_store::FileStore;
use memory::Items;
use script_text::MOST_SCRIPT;
use seq_session::{Script, ScriptSource};
use std::alloc::Global;

/// Opens all scripts of a session, and then reads them, by client. Of a script with more than `MOST_SCRIPT` bytes one
/// byte more is read.
pub fn read_scripts<'a, S: FileStore>(
    alloc: Global,
    store: &S,
    session: &Session<'a>,
) -> Result<Vec<Script>, ProgramFault<'a>>
    ensures read { IfOk result (λ v.
        AreOfFiles S.IsOpened S.Reader.HasLeft session.now.scripts.items v.items) }
    ensures fault { IfErr result (IsOfScripts S.IsOpened S.Reader.HasLeft S.CannotOpen
        S.Reader.failed session.now.scripts.items) }
{
    let mut sources = session.open(alloc, store)?;
    let mut scripts = Vec::new(alloc);
    read_on::<S>(
        alloc,
        session.scripts.as_slice(),
        sources.as_mut_slice(),
        &mut scripts,
    )?;
    Ok(scripts)
}

/// Reads the scripts that words name from their sources, and puts them behind those that were read before.
fn read_on<'a, S: FileStore>(
    alloc: Global,
    words: &[ScriptWord<'a>],
    sources: &mut [ScriptSource<S::Reader>],
    scripts: &mut Vec<Script>,
) -> Result<(), ProgramFault<'a>>
    requires opened { AreSourcesOf S.IsOpened words.now sources.old }
    requires sound { AreSound S.Reader.failed sources.old }
    ensures read { OnOk result (ReadsScripts S.IsOpened S.Reader.HasLeft words.now
        scripts.old.items scripts.new.items) }
    ensures fault { IfErr result (IsOfScripts S.IsOpened S.Reader.HasLeft S.CannotOpen
        S.Reader.failed words.now) }
{
    let Some((word, words)) = words.split_first() else {
        return Ok(());
    };
    let Some((source, sources)) = sources.split_first_mut() else {
        unreachable!();
    };
    scripts.push(read_one::<S>(alloc, word, source)?)?;
    read_on::<S>(alloc, words, sources, scripts)
}

/// Reads the script that a word names from its source.
fn read_one<'a, S: FileStore>(
    alloc: Global,
    word: &ScriptWord<'a>,
    source: &mut ScriptSource<S::Reader>,
) -> Result<Script, ProgramFault<'a>>
    requires opened { S.IsOpened word.now.path.now source.old.reader }
    requires sound { S.Reader.failed source.old.reader ≡ false }
    ensures client { IfOk result (λ s. s.client ≡ word.now.client) }
    ensures text { IfOk result (λ s. IsOfFile S.IsOpened S.Reader.HasLeft (MOST_SCRIPT + 1)
        word.now.path.now s.text) }
    ensures fault { IfErr result (IsOfReading S.IsOpened S.Reader.HasLeft S.CannotOpen
        S.Reader.failed word.now.path.now) }
{
    match read_to(alloc, &mut source.reader, MOST_SCRIPT + 1) {
        Ok(text) => Ok(Script {
            client: word.client,
            text: Items::new(text),
        }),
        Err(_) => {
            if source.reader.has_failed() {
                return Err(ProgramFault::CannotRead(word.path));
            }
            Err(ProgramFault::OutOfMemory)
        }
    }
}
