//! What the program does with its words.

ghost use Rattle.std.specs.Prelude.{◌≡◌, ◌⊎◌, false, codes, IfErr, IfOk, OnOk};
ghost use Rattle.clap.specs.Matches.{first_value, found_of};
ghost use Rattle.midiseq.specs.Given.{DoesAsGiven, AnswersLinesAsGiven};
ghost use Rattle.midiseq.specs.Refused.{AreLinesStopped, IsStoppedAsGiven};
ghost use Rattle.program_tasks.specs.Faults.{IsOfListing, IsStuck};

use crate::{files, reasons, sessions};
use byte_io::{Sink, Source};
use clap::ArgMatches;
use file_store::FileStore;
use program_tasks::{Ended, Notes, ProgramFault, ProgressLine};
use std::alloc::Global;

/// Does what a subcommand says, with the words that clap has found for it.
#[inline(never)]
pub(crate) fn perform<'a, S: FileStore, I: Source, W: Sink, N: Notes, R: Eprint>(
    alloc: Global,
    store: &S,
    name: &str,
    found: &ArgMatches<'a>,
    input: &mut I,
    out: &mut W,
    notes: &mut N,
    progress: &mut ProgressLine<'_, R>,
) -> Result<Ended, ProgramFault<'a>>
    requires input_sound { I.failed input.old ≡ false }
    requires out_sound { W.failed out.old ≡ false }
    ensures done { IfOk result (DoesAsGiven S.IsOpened S.Reader.HasLeft S.CannotOpen S.CannotList
        S.Reader.failed S.IsStanding S.HasNames S.IsBegun S.Writer.HasTaken S.IsStored S.IsPlaced
        S.AreApart I.HasLeft W.HasTaken N.HasTold name.now (found_of found.now)
        input.old input.new out.old out.new notes.old notes.new) }
    ensures fault { IfErr result (IsStoppedAsGiven S.IsOpened S.Reader.HasLeft S.CannotOpen
        S.CannotList S.Reader.failed S.IsStanding S.HasNames S.AreOne S.IsBegun S.IsPlaced
        S.Writer.HasTaken S.Writer.failed S.Writer.takes_some S.CannotBegin S.CannotStore
        S.CannotPlace I.HasLeft I.failed W.HasTaken
        (IsStuck W.failed W.takes_some out.old out.new) N.HasTold
        name.now (found_of found.now) input.old input.new out.old out.new notes.old notes.new) }
{
    match name {
        "circle" => {
            let answer = sessions::circle(alloc, store, found, out, notes)?;
            Ok(Ended::Answered(answer))
        }
        "why" => {
            sessions::why(alloc, store, found, out, notes)?;
            Ok(Ended::Done)
        }
        "live" => {
            answer_lines(alloc, store, found, input, out, notes)?;
            Ok(Ended::Done)
        }
        "run" => reasons::run(alloc, store, found, out, notes, progress),
        "record" => reasons::record(alloc, store, found, notes),
        _ => files::perform(alloc, store, name, found, input, out),
    }
}

/// Answers the lines of standard input as they come. Clients may play the files of the folder of --dir, with --lenient
/// read by the lenient grammar.
fn answer_lines<'a, S: FileStore, I: Source, W: Sink, N: Notes>(
    alloc: Global,
    store: &S,
    found: &ArgMatches<'a>,
    input: &mut I,
    out: &mut W,
    notes: &mut N,
) -> Result<(), ProgramFault<'a>>
    requires input_sound { I.failed input.old ≡ false }
    requires out_sound { W.failed out.old ≡ false }
    ensures answered { OnOk result (AnswersLinesAsGiven S.IsOpened S.Reader.HasLeft S.CannotOpen
        S.Reader.failed S.IsStanding S.HasNames I.HasLeft W.HasTaken N.HasTold
        (found_of found.now) input.old input.new out.old out.new notes.old notes.new) }
    ensures fault { IfErr result (λ e.
        IsOfListing S.CannotList (first_value (found_of found.now) (codes "dir")) e
        ⊎ AreLinesStopped S.IsOpened S.Reader.HasLeft S.CannotOpen S.Reader.failed S.IsStanding
        S.HasNames I.HasLeft I.failed W.HasTaken (IsStuck W.failed W.takes_some out.old out.new)
        N.HasTold (found_of found.now) input.old input.new out.old out.new notes.old notes.new e) }
{
    let dir = found.get_str("dir");
    let is_lenient = found.get_flag("lenient");
    program_tasks::live(alloc, store, dir, is_lenient, input, out, notes)
}
