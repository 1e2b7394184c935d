//! The scripts of a session, their logs and the faults of both.

ghost use Rattle.std.specs.Prelude.{◌≡◌, Some, None, map, IfOk, IfErr, IfSome, IsSome};
ghost use Rattle.seq_session.specs.Rising.{AreRising};
ghost use Rattle.seq_session.specs.Devices.{clients, AreSound, reader_of, IsAmong};
ghost use Rattle.program_tasks.specs.Words.{scripts_named, scripts_seen, IsOfWords};
ghost use Rattle.program_tasks.specs.Explained.{path_for};
ghost use Rattle.program_tasks.specs.Faults.{IsOfOpening};
ghost use Rattle.program_tasks.specs.Opened.{AreSourcesOf};
ghost use Rattle.program_tasks.specs.Sessions.{owners, IsToldAs};
ghost use Rattle.program_tasks.specs.Times.{end_said, IsNoEnd};

use crate::end_word::EndWord;
use crate::program_fault::ProgramFault;
use crate::words::{ScriptWord, scripts_named};
use file_store::FileStore;
use node_table::ClientId;
use seq_session::{ScriptSource, SessionFault};
use std::alloc::Global;

/// A session as the words of the command line say it.
#[derive(Drop)]
pub struct Session<'a> {
    /// The moment at which it ends, in nanoseconds from its beginning.
    pub until: u64,
    /// The folder whose Standard MIDI Files scripts may play, if one is named.
    pub dir: Option<&'a str>,
    /// Whether these are read by the lenient grammar.
    pub is_lenient: bool,
    /// The scripts, by client.
    pub scripts: Vec<ScriptWord<'a>>,
}

impl<'a> Session<'a> {
    /// The session that words name: its end, its folder and how its files are read, and a word `CLIENT=PATH` for each
    /// script.
    pub fn of_words(
        alloc: Global,
        end: EndWord<'a>,
        dir: Option<&'a str>,
        is_lenient: bool,
        scripts: &[&'a str],
    ) -> Result<Session<'a>, ProgramFault<'a>>
        ensures until { IfOk result (λ s. Some s.until ≡ end_said end.entry) }
        ensures dir { IfOk result (λ s. s.dir ≡ dir.entry) }
        ensures lenient { IfOk result (λ s. s.is_lenient ≡ is_lenient) }
        ensures scripts { IfOk result (λ s.
            Some (scripts_seen s.scripts.items) ≡ scripts_named (map (λ w. w.now) scripts.now)) }
        ensures rising { IfOk result (λ s. AreRising (owners s.scripts.items)) }
        ensures no_end { end_said end.entry ≡ None → IfErr result (IsNoEnd end.entry) }
        ensures refused { IsSome (end_said end.entry)
            → IfErr result (IsOfWords (map (λ w. w.now) scripts.now)) }
    {
        let until = end.moment()?;
        let scripts = scripts_named(alloc, scripts)?;
        Ok(Session {
            until,
            dir,
            is_lenient,
            scripts,
        })
    }

    /// Opens the scripts, by client.
    pub fn open<S: FileStore>(
        &self,
        alloc: Global,
        store: &S,
    ) -> Result<Vec<ScriptSource<S::Reader>>, ProgramFault<'a>>
        ensures opened { IfOk result (λ v.
            AreSourcesOf S.IsOpened self.now.scripts.items v.items) }
        ensures clients { IfOk result (λ v. clients v.items ≡ owners self.now.scripts.items) }
        ensures readers { IfOk result (λ v. AreSound S.Reader.failed v.items) }
        ensures fault { IfErr result (IsOfOpening S.CannotOpen self.now.scripts.items) }
    {
        let mut sources = Vec::new(alloc);
        for script in &self.scripts {
            let Ok(reader) = store.open(script.path) else {
                return Err(ProgramFault::CannotRead(script.path));
            };
            let client = script.client;
            sources.push(ScriptSource { client, reader })?;
        }
        Ok(sources)
    }

    /// The path of a client's script.
    pub(crate) fn path_for(&self, client: ClientId) -> &'a str
        ensures { result.now ≡ path_for self.now.scripts.items client }
    {
        for script in &self.scripts {
            if script.client == client {
                return script.path;
            }
        }
        ""
    }

    /// Before anything is written a session stops where a script cannot be read, or for lack of memory.
    pub fn fault_of(&self, fault: SessionFault) -> ProgramFault<'a>
        requires { IfSome (reader_of fault) (λ k. IsAmong k (owners self.now.scripts.items)) }
        ensures { IsToldAs self.now.scripts.items fault result }
    {
        let SessionFault::Read { client } = fault else {
            return ProgramFault::OutOfMemory;
        };
        for script in &self.scripts {
            if script.client == client {
                return ProgramFault::CannotRead(script.path);
            }
        }
        unreachable!()
    }
}
