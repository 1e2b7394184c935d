//! Why the program stops.

ghost use Rattle.std.specs.Prelude.{◌≡◌, ◌≢◌};
ghost use Rattle.std.specs.Fmt.{WritesOnOk};
ghost use Rattle.folder_files.specs.Unread.{unread_text};
ghost use Rattle.program_tasks.specs.Program.{program_fault_text, told_text, told_making, exit_status, is_helped, line_start};

use crate::choice::{STANDARD, Stream};
use file_store::Standing;
use folder_files::{Escaped, unread_text};
use memory::OutOfMemory;
use smf_files::SmfFault;
use smf_make::MakeFault;
use std::alloc::{AllocError, AllocFailed};
use std::fmt;
use std::io::ErrorKind;
use tool_text::ToolFault;

/// Why the program stops. It is printed in one line, with the control characters of a path escaped.
#[derive(Clone, Copy, Debug, PartialEq, Eq)]
pub enum ProgramFault<'a> {
    NotUtf8,
    NoSubcommand,
    /// The word says no moment.
    NotAMoment(&'a str),
    /// The word says no length of time.
    NotATime(&'a str),
    /// The word names no port.
    NotAPort(&'a str),
    /// The word names no ports with commas between.
    NotPorts(&'a str),
    /// The word is no number of ticks per quarter note.
    NotAPpq(&'a str),
    /// The word is no number of quarter notes a minute.
    NotABpm(&'a str),
    /// The word names no form of logs.
    NotAForm(&'a str),
    /// The word names no port as scripts do.
    NotASource(&'a str),
    /// The word is not exactly one message.
    NotAMessage(&'a str),
    /// The word names no line of a script.
    NotALine(&'a str),
    /// The word names no client.
    NotAClient(&'a str),
    /// The word names no client with its script.
    NotAScript(&'a str),
    /// The client has two scripts.
    TwoScripts(u8),
    /// What is to be written is a file that the session reads.
    OutIsRead(&'a str),
    /// Without an end of the session, which lines are taken can't be told: this one goes back in time.
    GoesBack { client: u8, line: u64 },
    CannotRead(&'a str),
    CannotWrite(&'a str),
    OutOfMemory,
    /// What came to the port makes no file.
    CannotRecord,
    /// What is wrong with a Standard MIDI File: its number, its name, and the place or the track.
    Smf(SmfFault),
    /// A path that cannot be read, and what stands there.
    Unreadable { path: &'a str, there: Standing },
    /// The log of a client in a folder is a script that the session reads.
    LogIsRead { folder: &'a str, client: u8 },
    /// The log of a client in a folder could not be begun, or not written to its end.
    CannotWriteLog { folder: &'a str, client: u8 },
    /// The file that is to be made of a text is the text itself.
    OutIsText(&'a str),
    /// Why no file can be made of a text.
    Make(MakeFault),
}

impl<'a> ProgramFault<'a> {
    /// Why the words could not be read: where memory did not run out, some word is not UTF-8.
    pub fn of_words(kind: ErrorKind) -> ProgramFault<'a>
        ensures memory { kind ≡ ErrorKind.OutOfMemory → result ≡ ProgramFault.OutOfMemory }
        ensures text { kind ≢ ErrorKind.OutOfMemory → result ≡ ProgramFault.NotUtf8 }
    {
        match kind {
            ErrorKind::OutOfMemory => ProgramFault::OutOfMemory,
            _ => ProgramFault::NotUtf8,
        }
    }

    /// The fault of a tool that was given a stream. The tools print on standard output.
    pub fn of_tool(stream: Stream<'a>, fault: ToolFault) -> ProgramFault<'a>
        ensures text { program_fault_text result ≡ told_text stream.entry fault }
        ensures status { exit_status result ≡ 1 }
    {
        match fault {
            ToolFault::OutOfMemory => ProgramFault::OutOfMemory,
            ToolFault::Read => ProgramFault::CannotRead(stream.name()),
            ToolFault::Write => ProgramFault::CannotWrite(STANDARD),
            ToolFault::Smf(fault) => ProgramFault::Smf(fault),
        }
    }

    /// The fault of a text of which a file was to be made, from the stream that it was read from.
    pub fn of_making(stream: Stream<'a>, fault: MakeFault) -> ProgramFault<'a>
        ensures text { program_fault_text result ≡ told_making stream.entry fault }
        ensures status { exit_status result ≡ 1 }
    {
        match fault {
            MakeFault::OutOfMemory => ProgramFault::OutOfMemory,
            MakeFault::Read => ProgramFault::CannotRead(stream.name()),
            _ => ProgramFault::Make(fault),
        }
    }

    /// The status that the program ends with: 2 for a fault in the words, 1 for any other.
    pub fn status(&self) -> u8
        ensures { result ≡ exit_status self.now }
    {
        match self {
            ProgramFault::NotUtf8
            | ProgramFault::NoSubcommand
            | ProgramFault::NotAMoment(_)
            | ProgramFault::NotATime(_)
            | ProgramFault::NotAPort(_)
            | ProgramFault::NotPorts(_)
            | ProgramFault::NotAPpq(_)
            | ProgramFault::NotABpm(_)
            | ProgramFault::NotAForm(_)
            | ProgramFault::NotASource(_)
            | ProgramFault::NotAMessage(_)
            | ProgramFault::NotALine(_)
            | ProgramFault::NotAClient(_)
            | ProgramFault::NotAScript(_)
            | ProgramFault::TwoScripts(_)
            | ProgramFault::OutIsRead(_)
            | ProgramFault::OutIsText(_)
            | ProgramFault::LogIsRead { .. }
            | ProgramFault::GoesBack { .. } => 2,
            ProgramFault::CannotRead(_)
            | ProgramFault::CannotWrite(_)
            | ProgramFault::CannotWriteLog { .. }
            | ProgramFault::OutOfMemory
            | ProgramFault::CannotRecord
            | ProgramFault::Smf(_)
            | ProgramFault::Make(_)
            | ProgramFault::Unreadable { .. } => 1,
        }
    }

    /// Whether the help of the program says more of what is wrong.
    fn is_helped(&self) -> bool
        ensures { result ≡ is_helped self.now }
    {
        matches!(
            self,
            ProgramFault::NoSubcommand
                | ProgramFault::NotAMoment(_)
                | ProgramFault::NotATime(_)
                | ProgramFault::NotAPort(_)
                | ProgramFault::NotPorts(_)
                | ProgramFault::NotAPpq(_)
                | ProgramFault::NotABpm(_)
                | ProgramFault::NotAForm(_)
                | ProgramFault::NotASource(_)
                | ProgramFault::NotAMessage(_)
                | ProgramFault::NotALine(_)
                | ProgramFault::NotAClient(_)
                | ProgramFault::NotAScript(_)
                | ProgramFault::TwoScripts(_)
                | ProgramFault::OutIsRead(_)
                | ProgramFault::OutIsText(_)
                | ProgramFault::LogIsRead { .. }
                | ProgramFault::GoesBack { .. }
        )
    }
}

impl fmt::Display for ProgramFault<'_> {
    ghost use Rattle.std.specs.Prelude.{Some};
    ghost use Rattle.program_tasks.specs.Program.{program_fault_text};

    ghost output = { λ e. Some (program_fault_text e) };

    fn fmt<W: fmt::Write>(&self, f: &mut fmt::Formatter<W>) -> fmt::Result {
        match *self {
            ProgramFault::NotUtf8 => f.write_str("an argument is not UTF-8"),
            ProgramFault::NoSubcommand => f.write_str("name a subcommand"),
            ProgramFault::NotAMoment(word) => {
                let word = Escaped(word);
                write!(
                    f,
                    "{word} is no moment in nanoseconds (for a second: --until 1000000000, or --for 1s)"
                )
            }
            ProgramFault::NotATime(word) => {
                let word = Escaped(word);
                write!(f, "{word} is no length of time such as 1m30s")
            }
            ProgramFault::NotAPort(word) => {
                let word = Escaped(word);
                write!(
                    f,
                    "{word} names no port (as 129:0: a client 128 to 191, and a port 0 to 15)"
                )
            }
            ProgramFault::NotPorts(word) => {
                let word = Escaped(word);
                write!(
                    f,
                    "{word} names no ports (as 129:0,130:1: clients 128 to 191, each with a port 0 to 15)"
                )
            }
            ProgramFault::NotAPpq(word) => {
                let word = Escaped(word);
                write!(
                    f,
                    "{word} is no number of ticks per quarter note, 1 to 32767"
                )
            }
            ProgramFault::NotABpm(word) => {
                let word = Escaped(word);
                write!(
                    f,
                    "{word} is no number of quarter notes a minute, 4 to 60000000"
                )
            }
            ProgramFault::NotAForm(word) => {
                let word = Escaped(word);
                write!(f, "{word} is no form of logs (text, json or csv)")
            }
            ProgramFault::NotASource(word) => {
                let word = Escaped(word);
                write!(
                    f,
                    "{word} names no port (as 128:p0: a client 128 to 191, and a port 0 to 15)"
                )
            }
            ProgramFault::NotAMessage(word) => {
                let word = Escaped(word);
                write!(
                    f,
                    "{word} is not exactly one MIDI message in hexadecimal (as \"90 3C 40\")"
                )
            }
            ProgramFault::NotALine(word) => {
                let word = Escaped(word);
                write!(f, "{word} names no line of a script (as synth.txt:4)")
            }
            ProgramFault::NotAClient(word) => {
                let word = Escaped(word);
                write!(f, "{word} is no client 128 to 191")
            }
            ProgramFault::NotAScript(word) => {
                let word = Escaped(word);
                write!(
                    f,
                    "{word} names no script (as 129=synth.txt: a client 128 to 191, and a file)"
                )
            }
            ProgramFault::TwoScripts(client) => { write!(f, "client {client} has two scripts") }
            ProgramFault::OutIsRead(path) => {
                let path = Escaped(path);
                write!(f, "{path} is a file that the session reads")
            }
            ProgramFault::GoesBack { client, line } => {
                write!(f, "line {line} of {client} goes back in time: give --until")
            }
            ProgramFault::CannotRead(path) => {
                let path = Escaped(path);
                write!(f, "cannot read {path}")
            }
            ProgramFault::CannotWrite(path) => {
                let path = Escaped(path);
                write!(f, "cannot write {path}")
            }
            ProgramFault::OutOfMemory => f.write_str("out of memory"),
            ProgramFault::CannotRecord => f.write_str("cannot record"),
            ProgramFault::Smf(fault) => write!(f, "{fault}"),
            ProgramFault::Unreadable { path, there } => {
                let path = Escaped(path);
                write!(f, "cannot read {path}")?;
                f.write_str(unread_text(there))
            }
            ProgramFault::LogIsRead { folder, client } => {
                let folder = Escaped(folder);
                write!(f, "{folder}/{client}.log is a file that the session reads")
            }
            ProgramFault::CannotWriteLog { folder, client } => {
                let folder = Escaped(folder);
                write!(f, "cannot write {folder}/{client}.log")
            }
            ProgramFault::OutIsText(path) => {
                let path = Escaped(path);
                write!(f, "{path} is the text itself")
            }
            ProgramFault::Make(fault) => write!(f, "{fault}"),
        }
    }
}

impl From<OutOfMemory> for ProgramFault<'_> {
    ghost use Rattle.std.specs.Prelude.{◌≡◌};
    ghost use Rattle.program_tasks.specs.declared.program_fault.ProgramFault.TheVariants.{OutOfMemory};

    ghost from_gives = { λ _ e. e ≡ OutOfMemory };

    fn from(_error: OutOfMemory) -> Self {
        ProgramFault::OutOfMemory
    }
}

impl From<AllocError> for ProgramFault<'_> {
    ghost use Rattle.std.specs.Prelude.{◌≡◌};
    ghost use Rattle.program_tasks.specs.declared.program_fault.ProgramFault.TheVariants.{OutOfMemory};

    ghost from_gives = { λ _ e. e ≡ OutOfMemory };

    fn from(_error: AllocError) -> Self {
        ProgramFault::OutOfMemory
    }
}

impl<T: Drop> From<AllocFailed<T>> for ProgramFault<'_> {
    ghost use Rattle.std.specs.Prelude.{◌≡◌};
    ghost use Rattle.program_tasks.specs.declared.program_fault.ProgramFault.TheVariants.{OutOfMemory};

    ghost from_gives = { λ _ e. e ≡ OutOfMemory };

    fn from(_error: AllocFailed<T>) -> Self {
        ProgramFault::OutOfMemory
    }
}

/// What all that the program says on standard error begins with.
pub const LINE_START: &str = "midiseq: ";

/// Writes what each line of the program begins with.
pub(crate) fn write_start<W: fmt::Write>(f: &mut fmt::Formatter<W>) -> fmt::Result
    ensures { WritesOnOk W.write_str_gives f.old result line_start f.new }
{
    f.write_str(LINE_START)
}

/// The line that tells why the program stops.
#[derive(Clone, Copy, Debug, PartialEq, Eq)]
pub struct FaultLine<'a>(pub ProgramFault<'a>);

impl fmt::Display for FaultLine<'_> {
    ghost use Rattle.std.specs.Prelude.{Some};
    ghost use Rattle.program_tasks.specs.Program.{fault_line};

    ghost output = { λ e. Some (fault_line e.0) };

    fn fmt<W: fmt::Write>(&self, f: &mut fmt::Formatter<W>) -> fmt::Result {
        let fault = self.0;
        write_start(f)?;
        write!(f, "{fault}")?;
        if fault.is_helped() {
            f.write_str("; see midiseq --help")?;
        }
        Ok(())
    }
}

/// The line that tells of a file that a run leaves out, by its name, with the control characters of the name escaped.
#[derive(Clone, Copy, Debug, PartialEq, Eq)]
pub struct LeftOut<'a>(pub &'a str);

impl fmt::Display for LeftOut<'_> {
    ghost use Rattle.std.specs.Prelude.{Some};
    ghost use Rattle.program_tasks.specs.Program.{left_out_line};

    ghost output = { λ e. Some (left_out_line e.0.now) };

    fn fmt<W: fmt::Write>(&self, f: &mut fmt::Formatter<W>) -> fmt::Result {
        let name = Escaped(self.0);
        write_start(f)?;
        write!(f, "left out {name}")
    }
}
