//! What the program is asked to do.

ghost use Rattle.std.specs.Prelude.{◌≡◌, ◌≢◌, ◌+◌, ◌⊎◌, true, false, Err, IfSome, IfNone, IfErr, OnOk, OnErr, IsErrOf};
ghost use Rattle.byte_io.specs.Marks.{SinkMarks};
ghost use Rattle.byte_io.specs.Moved.{GaveSome};
ghost use Rattle.smf_grammar.specs.declared.fault.SmfFault.TheVariants as smf;
ghost use Rattle.smf_grammar.specs.Chunks.{most_bytes};
ghost use Rattle.program_tasks.specs.declared.choice.Tool.{Tool};
ghost use Rattle.program_tasks.specs.Program.{dump_tool, tool_name, stream_name, IsNamedBy, IsToolNamed};
ghost use Rattle.tool_text.specs.Faults.{blames_sink};
ghost use Rattle.tool_text.specs.Stream.{GaveTooMany};
ghost use Rattle.program_tasks.specs.Tools.{IsPrinted, IsPrintedInPart, MayTell};

use byte_io::{Sink, Source};
use lenient_text::{dump_all_leniently, dump_leniently};
use smf_text::{dump_all_text, dump_places_text};
use std::alloc::Global;
use tool_text::{ToolFault, dump_text, thru_text, wire_text};

/// The name of a standard stream.
pub const STANDARD: &str = "-";

/// By which grammar a Standard MIDI File is read.
#[derive(Clone, Copy, Debug, PartialEq, Eq)]
pub enum Grammar {
    /// That of the standard.
    Strict,
    /// One that takes more: what it forgives is told behind what is printed.
    Lenient,
}

/// What is done with a stream of bytes.
#[derive(Clone, Copy, Debug, PartialEq, Eq)]
pub enum Tool {
    /// MIDI bytes are passed through a sequencer.
    Thru,
    /// MIDI bytes are read and written back.
    Wire,
    /// The tempos and the messages of a Standard MIDI File are printed.
    Dump(Grammar),
    /// All that a Standard MIDI File says is printed.
    DumpAll(Grammar),
    /// All that a Standard MIDI File says is printed, each line behind its place in the file.
    DumpPlaces,
}

/// The flags of `dump`. They say nothing to other tools.
#[derive(Clone, Copy, Debug, PartialEq, Eq)]
pub struct DumpFlags {
    /// `--all`: every event, track by track.
    pub all: bool,
    /// `--at`: all of it, with places, and strictly.
    pub at: bool,
    /// `--lenient`: by the lenient grammar.
    pub lenient: bool,
}

/// Where the bytes come from.
#[derive(Clone, Copy, Debug, PartialEq, Eq)]
pub enum Stream<'a> {
    /// Standard input.
    Standard,
    /// A file.
    Path(&'a str),
}

/// A tool, and the stream that it is given.
#[derive(Clone, Copy, Debug, PartialEq, Eq)]
pub struct Task<'a> {
    pub tool: Tool,
    pub stream: Stream<'a>,
}

impl Tool {
    /// The tool with this name, and with these flags where it is `dump`.
    pub fn named(command: &str, flags: DumpFlags) -> Option<Tool>
        ensures named { IfSome result (λ t. IsToolNamed t command.now flags) }
        ensures unknown { IfNone result ((t : Tool) → tool_name t ≢ command.now) }
    {
        match command {
            "thru" => Some(Tool::Thru),
            "wire" => Some(Tool::Wire),
            "dump" => Some(dump_tool(flags)),
            _ => None,
        }
    }

    /// Prints what the tool makes of the bytes that `input` gives, as `thru_text`, `wire_text`, `dump_text`,
    /// `dump_all_text`, `dump_places_text`, `dump_leniently` and `dump_all_leniently` do.
    ///
    /// At a fault the sink has taken the first part of the text.
    pub fn print<R: Source, W: Sink>(
        self,
        alloc: Global,
        input: &mut R,
        out: &mut W,
    ) -> Result<(), ToolFault>
        requires input_sound { R.failed input.old ≡ false }
        requires out_sound { W.failed out.old ≡ false }
        ensures text { OnOk result (IsPrinted R.HasLeft W.HasTaken self
            input.old input.new out.old out.new) }
        ensures short { OnErr result (IsPrintedInPart R.HasLeft W.HasTaken self
            input.old input.new out.old out.new) }
        ensures bounded { GaveSome R.HasLeft (most_bytes + 1) input.old input.new }

        // A fault of a file is that of the bytes, and a file that has one is never dumped.
        ensures told { IfErr result (MayTell R.HasLeft self input.old input.new) }
        ensures memory { result ≢ Err (ToolFault.Smf smf.OutOfMemory) }
        ensures read { IsErrOf result ToolFault.Read → (R.failed input.new ≡ true)
            ⊎ GaveTooMany R.HasLeft input.old input.new }
        ensures unread { IsErrOf result ToolFault.OutOfMemory → R.failed input.new ≡ false }
        ensures marks { SinkMarks W.failed W.takes_some out.old out.new (blames_sink result) }
    {
        match self {
            Tool::Thru => thru_text(alloc, input, out),
            Tool::Wire => wire_text(alloc, input, out),
            Tool::Dump(Grammar::Strict) => dump_text(alloc, input, out),
            Tool::Dump(Grammar::Lenient) => dump_leniently(alloc, input, out),
            Tool::DumpAll(Grammar::Strict) => dump_all_text(alloc, input, out),
            Tool::DumpAll(Grammar::Lenient) => dump_all_leniently(alloc, input, out),
            Tool::DumpPlaces => dump_places_text(alloc, input, out),
        }
    }
}

/// What `dump` does with these flags.
fn dump_tool(flags: DumpFlags) -> Tool
    ensures { result ≡ dump_tool flags }
{
    let grammar = if flags.lenient {
        Grammar::Lenient
    } else {
        Grammar::Strict
    };
    if flags.at {
        Tool::DumpPlaces
    } else if flags.all {
        Tool::DumpAll(grammar)
    } else {
        Tool::Dump(grammar)
    }
}

impl<'a> Stream<'a> {
    /// The stream that a word names.
    pub fn named(word: &'a str) -> Stream<'a>
        ensures { IsNamedBy result word.now }
    {
        if word == STANDARD {
            return Stream::Standard;
        }
        Stream::Path(word)
    }

    /// The word that names it.
    pub fn name(self) -> &'a str
        ensures { result.now ≡ stream_name self.entry }
    {
        match self {
            Stream::Standard => STANDARD,
            Stream::Path(path) => path,
        }
    }
}

impl<'a> Task<'a> {
    /// What is done without words.
    pub fn without_words() -> Task<'a>
        ensures tool { result.tool ≡ Tool.Thru }
        ensures stream { result.stream ≡ Stream.Standard }
    {
        Task {
            tool: Tool::Thru,
            stream: Stream::Standard,
        }
    }

    /// What a command says to do with a FILE, if there is such a command, and with these flags where it is `dump`.
    pub fn of_words(command: &str, flags: DumpFlags, file: &'a str) -> Option<Task<'a>>
        ensures tool { IfSome result (λ c. IsToolNamed c.tool command.now flags) }
        ensures stream { IfSome result (λ c. IsNamedBy c.stream file.now) }
        ensures unknown { IfNone result ((t : Tool) → tool_name t ≢ command.now) }
    {
        let tool = Tool::named(command, flags)?;
        Some(Task {
            tool,
            stream: Stream::named(file),
        })
    }
}
