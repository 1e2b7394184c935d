//! Logs in the files of a folder.

ghost use Rattle.std.specs.Prelude.{◌≡◌, [], string_bytes, IfOk, IfErr, IfSome, OnOk};
ghost use Rattle.seq_session.specs.Devices.{AreOpen, reader_of, IsAmong};
ghost use Rattle.program_tasks.specs.LogFiles.{log_path, AreLogsApart, AreLogsPlaced, IsOfReadLog, IsOfPlacing, IsLogTold};
ghost use Rattle.program_tasks.specs.Sessions.{owners};

use crate::apart::is_no_script;
use crate::program_fault::ProgramFault;
use crate::session::Session;
use crate::words::ScriptWord;
use file_store::FileStore;
use memory::OutOfMemory;
use node_table::ClientId;
use seq_session::SessionFault;
use std::alloc::Global;

/// Where the logs of a session are written: a file for each client in a folder that is there, as `logs/128.log`.
#[derive(Clone, Copy, Debug)]
pub struct LogFolder<'a> {
    pub path: &'a str,
    /// Whether what a file has already stays in front of the log.
    pub append: bool,
}

impl<'a> LogFolder<'a> {
    /// The path of a client's log.
    fn path_of(&self, alloc: Global, client: ClientId) -> Result<String, OutOfMemory>
        ensures { IfOk result (λ path. string_bytes path ≡ log_path self.now.path.now client) }
    {
        let folder = self.path;
        Ok(format!(in alloc; "{folder}/{client}.log")?)
    }

    /// Looks whether no log of the clients of some words is one of these scripts, also by links: it would be emptied
    /// before it is read.
    // There are at most as many as clients, so this goes no deeper.
    pub(crate) fn keep_apart<S: FileStore>(
        &self,
        alloc: Global,
        store: &S,
        words: &[ScriptWord<'_>],
        scripts: &[ScriptWord<'_>],
    ) -> Result<(), ProgramFault<'a>>
        ensures apart { OnOk result
            (AreLogsApart S.AreApart self.now.path.now words.now scripts.now) }
        ensures one { IfErr result (IsOfReadLog S.AreOne self.now.path.now scripts.now) }
    {
        let Some((first, more)) = words.split_first() else {
            return Ok(());
        };
        let path = self.path_of(alloc, first.client)?;
        if !is_no_script(store, path.as_str(), scripts) {
            return Err(ProgramFault::LogIsRead {
                folder: self.path,
                client: first.client.number(),
            });
        }
        self.keep_apart(alloc, store, more, scripts)
    }

    /// Begins the logs of the clients of some words, each where it stands.
    pub(crate) fn begin<S: FileStore>(
        &self,
        alloc: Global,
        store: &S,
        words: &[ScriptWord<'_>],
        begun: &mut Vec<S::Writer>,
    ) -> Result<(), ProgramFault<'a>>
        requires { begun.old.items ≡ [] }
        ensures placed { OnOk result
            (AreLogsPlaced S.IsPlaced self.now words.now begun.new.items) }
        ensures sound { OnOk result (AreOpen S.Writer.failed begun.new.items) }
        ensures fault { IfErr result (IsOfPlacing S.CannotPlace self.now.path.now) }
    {
        for word in words {
            let path = self.path_of(alloc, word.client)?;
            let Ok(log) = store.begin_in_place(path.as_str(), self.append) else {
                return Err(ProgramFault::CannotWriteLog {
                    folder: self.path,
                    client: word.client.number(),
                });
            };
            begun.push(log)?;
        }
        Ok(())
    }

    /// Why a session stopped whose logs are written to this folder.
    pub(crate) fn fault_of(&self, session: &Session<'a>, fault: SessionFault) -> ProgramFault<'a>
        requires { IfSome (reader_of fault) (λ k. IsAmong k (owners session.now.scripts.items)) }
        ensures { IsLogTold self.now.path.now session.now.scripts.items fault result }
    {
        let SessionFault::Write { client } = fault else {
            return session.fault_of(fault);
        };
        ProgramFault::CannotWriteLog {
            folder: self.path,
            client: client.number(),
        }
    }
}
