//! The subcommands that take files, or bytes from standard input.

ghost use Rattle.std.specs.Prelude.{◌≡◌, ◌⊎◌, false, IfErr, IfOk, OnOk};
ghost use Rattle.clap.specs.Matches.{found_of};
ghost use Rattle.midiseq.specs.Given.{ChecksAsGiven, FilesDoAsGiven, MakesAsGiven, ToolDoesAsGiven};
ghost use Rattle.midiseq.specs.Refused.{AreFilesStopped, IsMakeStopped, IsOfNoTool, IsToolStopped};
ghost use Rattle.program_tasks.specs.Checked.{IsCheckingStopped};
ghost use Rattle.program_tasks.specs.Faults.{IsStuck};

use byte_io::{Sink, Source};
use clap::ArgMatches;
use file_store::FileStore;
use program_tasks::{DumpFlags, Ended, ProgramFault, STANDARD, Stream, Task};
use std::alloc::Global;

/// Does what a subcommand says that takes files.
pub(crate) fn perform<'a, S: FileStore, I: Source, W: Sink>(
    alloc: Global,
    store: &S,
    name: &str,
    found: &ArgMatches<'a>,
    input: &mut I,
    out: &mut W,
) -> Result<Ended, ProgramFault<'a>>
    requires input_sound { I.failed input.old ≡ false }
    requires out_sound { W.failed out.old ≡ false }
    ensures done { IfOk result (FilesDoAsGiven S.IsOpened S.Reader.HasLeft S.CannotOpen
        S.CannotList S.Reader.failed S.IsStanding S.HasNames S.AreApart S.IsBegun
        S.Writer.HasTaken S.IsStored I.HasLeft W.HasTaken name.now (found_of found.now)
        input.old input.new out.old out.new) }
    ensures fault { IfErr result (AreFilesStopped S.IsOpened S.CannotOpen S.Reader.HasLeft
        S.Reader.failed S.AreOne S.IsBegun S.Writer.failed S.Writer.takes_some S.CannotBegin
        S.CannotStore I.HasLeft I.failed (IsStuck W.failed W.takes_some out.old out.new)
        name.now (found_of found.now) input.old input.new) }
{
    match name {
        "make" => {
            make(alloc, store, found, input)?;
            Ok(Ended::Done)
        }
        "check" => check(alloc, store, found, out),
        _ => {
            perform_tool(alloc, store, name, found, input, out)?;
            Ok(Ended::Done)
        }
    }
}

/// Makes the file that the text says which the word TEXT names, and writes it to the file of --out.
fn make<'a, S: FileStore, I: Source>(
    alloc: Global,
    store: &S,
    found: &ArgMatches<'a>,
    input: &mut I,
) -> Result<(), ProgramFault<'a>>
    requires { I.failed input.old ≡ false }
    ensures made { OnOk result (MakesAsGiven S.IsOpened S.Reader.HasLeft I.HasLeft S.AreApart
        S.IsBegun S.Writer.HasTaken S.IsStored (found_of found.now) input.old input.new) }
    ensures fault { IfErr result (IsMakeStopped S.IsOpened S.CannotOpen S.Reader.HasLeft
        S.Reader.failed S.AreOne S.IsBegun S.Writer.failed S.Writer.takes_some S.CannotBegin
        S.CannotStore I.HasLeft I.failed (found_of found.now) input.old input.new) }
{
    let text = Stream::named(found.get_str("TEXT").unwrap_or(STANDARD));
    let path = found.get_str("out").unwrap_or("");
    program_tasks::make(alloc, store, text, path, input)
}

/// Checks the files that the words FILE name, with --lenient by the lenient grammar, and tells with --quiet of those
/// alone that are not whole.
fn check<'a, S: FileStore, W: Sink>(
    alloc: Global,
    store: &S,
    found: &ArgMatches<'a>,
    out: &mut W,
) -> Result<Ended, ProgramFault<'a>>
    requires { W.failed out.old ≡ false }
    ensures checked { IfOk result (ChecksAsGiven S.IsOpened S.Reader.HasLeft S.CannotOpen
        S.CannotList S.Reader.failed S.IsStanding S.HasNames W.HasTaken (found_of found.now)
        out.old out.new) }
    ensures fault { IfErr result
        (IsCheckingStopped (IsStuck W.failed W.takes_some out.old out.new)) }
{
    let files = found.get_strs("FILE").unwrap_or(&[]);
    let quiet = found.get_flag("quiet");
    let is_lenient = found.get_flag("lenient");
    let answer = program_tasks::check(alloc, store, files, quiet, is_lenient, out)?;
    Ok(Ended::Checked(answer))
}

/// Does what a tool's subcommand says with its flags: on the stream that the word FILE names, and without one on
/// standard input.
fn perform_tool<'a, S: FileStore, I: Source, W: Sink>(
    alloc: Global,
    store: &S,
    name: &str,
    found: &ArgMatches<'a>,
    input: &mut I,
    out: &mut W,
) -> Result<(), ProgramFault<'a>>
    requires input_sound { I.failed input.old ≡ false }
    requires out_sound { W.failed out.old ≡ false }
    ensures done { OnOk result (ToolDoesAsGiven S.IsOpened S.Reader.HasLeft I.HasLeft W.HasTaken
        name.now (found_of found.now) input.old input.new out.old out.new) }
    ensures fault { IfErr result (λ e. IsOfNoTool name.now e
        ⊎ IsToolStopped S.IsOpened S.CannotOpen S.Reader.HasLeft S.Reader.failed I.HasLeft I.failed
        (IsStuck W.failed W.takes_some out.old out.new) name.now (found_of found.now)
        input.old input.new e) }
{
    let file = found.get_str("FILE").unwrap_or(STANDARD);
    let flags = DumpFlags {
        all: found.get_flag("all"),
        at: found.get_flag("at"),
        lenient: found.get_flag("lenient"),
    };
    match Task::of_words(name, flags, file) {
        Some(task) => program_tasks::perform(alloc, store, task, input, out),
        None => Err(ProgramFault::NoSubcommand),
    }
}
