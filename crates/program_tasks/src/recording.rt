//! What a session is recorded as.

ghost use Rattle.std.specs.Prelude.{◌≡◌, ◌⊎◌, take, map, string_bytes, IfOk, IfErr, OnOk};
ghost use Rattle.std.specs.Option.{option_map};
ghost use Rattle.script_text.specs.declared.script.TheConstants.{MOST_FILES};
ghost use Rattle.seq_session.specs.Rising.{AreRising};
ghost use Rattle.program_tasks.specs.Apart.{IsApart};
ghost use Rattle.program_tasks.specs.Faults.{IsOfEvents, IsOfScripts, IsOfRefusal, IsOfSharing, IsOfWriting};
ghost use Rattle.program_tasks.specs.Recorded.{recorded_text, ports_of, is_withheld, IsSessionRecorded};
ghost use Rattle.program_tasks.specs.Recording.{recording_text};
ghost use Rattle.port_files.specs.Tracks.{ports_file};
ghost use Rattle.smf_grammar.specs.Written.{written_file};
ghost use Rattle.program_tasks.specs.Sessions.{owners};

use crate::apart::is_apart;
use crate::explanation::Explanation;
use crate::folder::Folder;
use crate::names::taken_files;
use crate::port_file::record_file;
use crate::program_fault::ProgramFault;
use crate::running::run_session;
use crate::session::Session;
use crate::writing::write_file;
use file_store::FileStore;
use node_table::PortAddr;
use port_files::record_ports;
use seq_engine::RunLog;
use seq_session::NamedFiles;
use smf_files::{TracksFault, WriteFault};
use std::alloc::Global;
use std::slice::from_ref;
use tempo_clock::TempoMap;

/// What is recorded of a session.
#[derive(Clone, Copy, Debug)]
pub enum Recorded<'r> {
    /// The messages that came to a port, as one MIDI stream.
    Stream(PortAddr),
    /// A Standard MIDI File of format 0 of what came to a port.
    Port(PortAddr),
    /// A Standard MIDI File of format 1 with a track for each port, by the division and the tempos of a map.
    Ports {
        ports: &'r [PortAddr],
        clock: &'r TempoMap,
    },
}

impl Recorded<'_> {
    /// The ports that are recorded.
    pub fn ports(&self) -> &[PortAddr]
        ensures { result.now ≡ ports_of self.now }
    {
        match self {
            Recorded::Stream(port) | Recorded::Port(port) => from_ref(port),
            Recorded::Ports { ports, .. } => ports,
        }
    }
}

/// What a session is recorded as.
#[derive(Clone, Copy, Debug)]
pub struct Recording<'a, 'r> {
    pub what: Recorded<'r>,
    /// The file that is written.
    pub path: &'a str,
    /// Whether nothing is to be written where a port was never there.
    pub strict: bool,
}

impl Recording<'_, '_> {
    /// Whether nothing is written, since a port was never there.
    fn is_withheld(&self, explanation: &Explanation) -> bool
        ensures { result ≡ is_withheld self.now explanation.now }
    {
        self.strict && !explanation.absent.is_empty()
    }
}

/// Runs the scripts of a session, and writes what is recorded of it to a file. What stands at the path stays until all
/// else is done, and for good where the recording is strict and a port of it was never there; it is no file that the
/// session reads. It gives what the run did not do.
pub fn record_session<'a, S: FileStore>(
    alloc: Global,
    store: &S,
    session: &Session<'a>,
    folder: &Folder,
    files: &NamedFiles<'_, '_>,
    recording: &Recording<'a, '_>,
) -> Result<Explanation, ProgramFault<'a>>
    requires rising { AreRising (owners session.now.scripts.items) }
    ensures recorded { IfOk result (IsSessionRecorded S.IsOpened S.Reader.HasLeft S.IsBegun
        S.Writer.HasTaken S.IsStored files.now session.now.until session.now.scripts.items
        recording.now) }
    ensures apart { OnOk result (IsApart S.AreApart recording.now.path.now
        session.now.scripts.items (option_map (λ d. d.now) session.now.dir)
        (map string_bytes (take MOST_FILES folder.now.names.items))) }
    ensures fault { IfErr result (λ e.
        IsOfSharing S.AreOne recording.now.path.now session.now.scripts.items
        (option_map (λ d. d.now) session.now.dir)
        (map string_bytes (take MOST_FILES folder.now.names.items)) e
        ⊎ (IsOfScripts S.IsOpened S.Reader.HasLeft S.CannotOpen S.Reader.failed
        session.now.scripts.items e
        ⊎ (IsOfRefusal S.IsOpened S.Reader.HasLeft files.now session.now.until
        session.now.scripts.items recording.now e
        ⊎ IsOfWriting S.IsBegun S.Writer.failed S.Writer.takes_some
        S.CannotBegin S.CannotStore recording.now.path.now e))) }
{
    let (taken, _) = taken_files(folder.names.as_slice());
    if !is_apart(alloc, store, recording.path, session, taken)? {
        return Err(ProgramFault::OutIsRead(recording.path));
    }
    let run = run_session(alloc, store, session, files)?;
    let explanation = Explanation::of_run(alloc, &run, recording.what.ports())?;
    if recording.is_withheld(&explanation) {
        return Ok(explanation);
    }
    let bytes = recorded_bytes(alloc, &run.log, &recording.what)?;
    write_file(alloc, store, recording.path, bytes.as_slice())?;
    Ok(explanation)
}

/// What is recorded of a run.
pub fn recorded_bytes(
    alloc: Global,
    log: &RunLog,
    what: &Recorded<'_>,
) -> Result<Vec<u8>, ProgramFault<'static>>
    ensures text { IfOk result (λ bytes. bytes.items ≡ recorded_text what.now log.now.entries) }
    ensures fault { IfErr result (IsOfEvents what.now log.now.entries) }
{
    match what {
        Recorded::Stream(port) => Ok(log.port_bytes(*port)?),
        Recorded::Port(port) => recorded_port(alloc, log, *port),
        Recorded::Ports { ports, clock } => recorded_ports(alloc, log, ports, clock),
    }
}

/// What came to a port, as a Standard MIDI File.
fn recorded_port(
    alloc: Global,
    log: &RunLog,
    port: PortAddr,
) -> Result<Vec<u8>, ProgramFault<'static>>
    ensures text { IfOk result (λ file. file.items ≡ recording_text port log.now.entries) }
    ensures fault { IfErr result (IsOfEvents (Recorded.Port port) log.now.entries) }
{
    match record_file(alloc, log, port) {
        Ok(file) => Ok(file),
        Err(WriteFault::OutOfMemory) => Err(ProgramFault::OutOfMemory),
        Err(_) => Err(ProgramFault::CannotRecord),
    }
}

/// What came to several ports, as a Standard MIDI File with a track for each.
fn recorded_ports(
    alloc: Global,
    log: &RunLog,
    ports: &[PortAddr],
    clock: &TempoMap,
) -> Result<Vec<u8>, ProgramFault<'static>>
    ensures text { IfOk result (λ file.
        file.items ≡ written_file (ports_file clock.now ports.now log.now.entries)) }
    ensures fault { IfErr result
        (IsOfEvents (Recorded.Ports ports.entry clock.entry) log.now.entries) }
{
    match record_ports(alloc, clock, ports, log.entries.as_slice()) {
        Ok(file) => Ok(file),
        Err(TracksFault::OutOfMemory) => Err(ProgramFault::OutOfMemory),
        Err(_) => Err(ProgramFault::CannotRecord),
    }
}
