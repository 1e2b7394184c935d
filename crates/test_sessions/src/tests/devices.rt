//! The devices of a session, in memory.

ghost use Rattle.std.specs.Prelude.{◌≡◌};
ghost use Rattle.std.specs.FinMap as finmap;

use super::session::Part;
use agenda_heap::Agenda;
use byte_io::{MemSink, MemSource, Sink, write_all};
use node_table::ClientId;
use seq_session::*;
use std::alloc::Global;
use std::test::Fail;

/// A script and a log for each client, and the listing.
#[derive(Drop)]
pub struct Devices {
    pub scripts: Vec<ScriptSource<MemSource>>,
    pub logs: Vec<MemSink>,
    pub listing: MemSink,
}

impl Devices {
    pub fn new(alloc: Global) -> Result<Devices, Fail> {
        Ok(Devices {
            scripts: Vec::new(alloc),
            logs: Vec::new(alloc),
            listing: MemSink::new(alloc, 0)?,
        })
    }

    pub fn of(alloc: Global, parts: &[Part]) -> Result<Devices, Fail> {
        let mut devices = Devices::new(alloc)?;
        for part in parts {
            devices.add(alloc, part.client, part.script.as_bytes())?;
        }
        Ok(devices)
    }

    /// Those of some clients alone.
    pub fn of_circle(alloc: Global, parts: &[Part], circle: &[u8]) -> Result<Devices, Fail> {
        let mut devices = Devices::new(alloc)?;
        for part in parts {
            if circle.contains(&part.client) {
                devices.add(alloc, part.client, part.script.as_bytes())?;
            }
        }
        Ok(devices)
    }

    /// Adds a client, whose number is above all others.
    pub fn add(&mut self, alloc: Global, client: u8, script: &[u8]) -> Result<(), Fail> {
        let client = ClientId::new(client).ok_or("a client number")?;
        let reader = MemSource::new(Vec::from_slice(alloc, script)?);
        self.scripts.push(ScriptSource { client, reader })?;
        self.logs.push(MemSink::new(alloc, 0)?)?;
        Ok(())
    }

    /// Runs the session, and tells the fault that stopped it.
    pub fn run<A: Agenda + Drop>(
        &mut self,
        alloc: Global,
        files: &NamedFiles<'_, '_>,
        agenda: A,
        until: u64,
    ) -> Result<Option<SessionFault>, Fail>
        requires { A.content agenda ≡ finmap.empty }
    {
        let scripts = self.scripts.as_mut_slice();
        let logs = self.logs.as_mut_slice();
        if !clients_rise(scripts)
            || !readers_are_sound(scripts)
            || logs.len() != scripts.len()
            || !logs_are_open(logs)
            || self.listing.has_failed()
        {
            return Err("devices that a session can be run with".into());
        }
        match run_sessions(
            alloc,
            scripts,
            files,
            agenda,
            until,
            logs,
            &mut self.listing,
        ) {
            Ok(()) => Ok(None),
            Err(fault) => Ok(Some(fault)),
        }
    }

    /// Runs the session so that the logs are written while it runs, and tells the fault that stopped it.
    pub fn stream<A: Agenda + Drop>(
        &mut self,
        alloc: Global,
        files: &NamedFiles<'_, '_>,
        agenda: A,
        until: u64,
    ) -> Result<Option<SessionFault>, Fail>
        requires { A.content agenda ≡ finmap.empty }
    {
        let scripts = self.scripts.as_mut_slice();
        let logs = self.logs.as_mut_slice();
        if !clients_rise(scripts)
            || !readers_are_sound(scripts)
            || logs.len() != scripts.len()
            || !logs_are_open(logs)
            || self.listing.has_failed()
        {
            return Err("devices that a session can be run with".into());
        }
        match stream_sessions(alloc, scripts, files, agenda, until, logs, &mut Unwatched) {
            Ok(listing) => {
                write_all(&mut self.listing, listing.as_slice())?;
                Ok(None)
            }
            Err(fault) => Ok(Some(fault)),
        }
    }

    /// What a client's log has taken.
    pub fn log_of(&self, client: ClientId) -> Option<&[u8]> {
        for (source, log) in self.scripts.iter().zip(self.logs.iter()) {
            if source.client == client {
                return Some(log.bytes());
            }
        }
        None
    }
}
