//! Files that words name, checked one after another.

ghost use Rattle.std.specs.Prelude.{◌≡◌, ◌∷◌, [], map, string_bytes, false, IfOk, IfErr, OnOk, OnErr};
ghost use Rattle.byte_io.specs.Marks.{SinkMarks};
ghost use Rattle.tool_text.specs.Faults.{blames_sink, IsOutput};
ghost use Rattle.folder_files.specs.Paths.{path_in};
ghost use Rattle.smf_check.specs.Named.{AreFirst, AreFirstPathsOf, ArePathsAt, ArePathsIn, ArePathsOf, AreThese};
ghost use Rattle.smf_check.specs.Verdicts.{IsJudged};
ghost use Rattle.smf_check.specs.Checks.{IsChecked, IsCheckedInPart};
ghost use Rattle.smf_check.specs.Checking.{HasChecked, StopsChecking};

use crate::answer::CheckAnswer;
use crate::report::Report;
use crate::verdict::verdict_at;
use byte_io::{DeviceFault, Sink};
use file_store::{FileStore, Standing};
use folder_files::{midi_files, path_in};
use std::alloc::Global;
use tool_text::ToolFault;

/// Prints the verdict on each file that words name, and then how many files have which. A word that names a folder is
/// for the files in it that end in `.mid`, in byte order. With `quiet` only those that are not whole have a line, and
/// there is no other. Where it is lenient, each file is judged by the lenient grammar, and may stand in a RIFF
/// container; one of which something is forgiven is whole. A folder then has more files, as `midi_files` says.
///
/// A file that is damaged or can't be read stops nothing. What is held in memory is the names of one folder, the bytes
/// of one file, leniently those of the strict file made of it too, and a piece of the text.
pub fn check_files<S: FileStore, W: Sink>(
    alloc: Global,
    store: &S,
    words: &[&str],
    quiet: bool,
    is_lenient: bool,
    out: &mut W,
) -> Result<CheckAnswer, ToolFault>
    requires { W.failed out.old ≡ false }
    ensures checked { IfOk result (λ answer. IsChecked
        (IsJudged is_lenient S.IsOpened S.Reader.HasLeft S.CannotOpen S.Reader.failed
        S.IsStanding)
        (ArePathsOf is_lenient S.CannotList S.HasNames S.IsStanding (map (λ w. w.now) words.now))
        W.HasTaken quiet answer out.old out.new) }
    ensures short { OnErr result (IsCheckedInPart
        (IsJudged is_lenient S.IsOpened S.Reader.HasLeft S.CannotOpen S.Reader.failed
        S.IsStanding)
        (ArePathsOf is_lenient S.CannotList S.HasNames S.IsStanding (map (λ w. w.now) words.now))
        (AreFirstPathsOf is_lenient S.CannotList S.HasNames S.IsStanding (map (λ w. w.now) words.now))
        W.HasTaken quiet out.old out.new) }
    ensures marks { SinkMarks W.failed W.takes_some out.old out.new (blames_sink result) }
    ensures only { IfErr result IsOutput }
{
    let mut report = Report::new(alloc, quiet);
    check_words(alloc, store, words, is_lenient, &mut report, out)?;
    report.finish(alloc, out)
}

/// Checks the files that words name, one after another.
fn check_words<S: FileStore, W: Sink>(
    alloc: Global,
    store: &S,
    words: &[&str],
    is_lenient: bool,
    report: &mut Report,
    out: &mut W,
) -> Result<(), ToolFault>
    requires { W.failed out.old ≡ false }
    ensures checked { OnOk result (HasChecked
        (IsJudged is_lenient S.IsOpened S.Reader.HasLeft S.CannotOpen S.Reader.failed
        S.IsStanding)
        (ArePathsOf is_lenient S.CannotList S.HasNames S.IsStanding (map (λ w. w.now) words.now))
        W.HasTaken out.old out.new report.old report.new) }
    ensures short { OnErr result (StopsChecking
        (IsJudged is_lenient S.IsOpened S.Reader.HasLeft S.CannotOpen S.Reader.failed
        S.IsStanding)
        (AreFirstPathsOf is_lenient S.CannotList S.HasNames S.IsStanding (map (λ w. w.now) words.now))
        W.HasTaken out.old out.new report.old) }
    ensures marks { SinkMarks W.failed W.takes_some out.old out.new (blames_sink result) }
    ensures only { IfErr result IsOutput }
{
    for word in words {
        check_word(alloc, store, word, is_lenient, report, out)?;
    }
    Ok(())
}

/// Checks the file at a path, or those in the folder that is there.
fn check_word<S: FileStore, W: Sink>(
    alloc: Global,
    store: &S,
    word: &str,
    is_lenient: bool,
    report: &mut Report,
    out: &mut W,
) -> Result<(), ToolFault>
    requires { W.failed out.old ≡ false }
    ensures checked { OnOk result (HasChecked
        (IsJudged is_lenient S.IsOpened S.Reader.HasLeft S.CannotOpen S.Reader.failed
        S.IsStanding)
        (ArePathsAt is_lenient S.CannotList S.HasNames S.IsStanding word.now)
        W.HasTaken out.old out.new report.old report.new) }
    ensures short { OnErr result (StopsChecking
        (IsJudged is_lenient S.IsOpened S.Reader.HasLeft S.CannotOpen S.Reader.failed
        S.IsStanding)
        (AreFirst (ArePathsAt is_lenient S.CannotList S.HasNames S.IsStanding word.now))
        W.HasTaken out.old out.new report.old) }
    ensures marks { SinkMarks W.failed W.takes_some out.old out.new (blames_sink result) }
    ensures only { IfErr result IsOutput }
{
    match store.look(word) {
        Standing::Folder => check_folder(alloc, store, word, is_lenient, report, out),
        _ => check_file(alloc, store, word, is_lenient, report, out),
    }
}

/// Checks the files in a folder; where it can't be listed, it is checked as a file is.
fn check_folder<S: FileStore, W: Sink>(
    alloc: Global,
    store: &S,
    folder: &str,
    is_lenient: bool,
    report: &mut Report,
    out: &mut W,
) -> Result<(), ToolFault>
    requires { W.failed out.old ≡ false }
    ensures checked { OnOk result (HasChecked
        (IsJudged is_lenient S.IsOpened S.Reader.HasLeft S.CannotOpen S.Reader.failed
        S.IsStanding)
        (ArePathsIn is_lenient S.CannotList S.HasNames folder.now)
        W.HasTaken out.old out.new report.old report.new) }
    ensures short { OnErr result (StopsChecking
        (IsJudged is_lenient S.IsOpened S.Reader.HasLeft S.CannotOpen S.Reader.failed
        S.IsStanding)
        (AreFirst (ArePathsIn is_lenient S.CannotList S.HasNames folder.now))
        W.HasTaken out.old out.new report.old) }
    ensures marks { SinkMarks W.failed W.takes_some out.old out.new (blames_sink result) }
    ensures only { IfErr result IsOutput }
{
    match store.names(alloc, folder) {
        Ok(entries) => {
            let names = midi_files(entries, is_lenient)?;
            check_names(
                alloc,
                store,
                folder,
                names.as_slice(),
                is_lenient,
                report,
                out,
            )
        }
        Err(DeviceFault::OutOfMemory) => Err(ToolFault::OutOfMemory),
        Err(DeviceFault::Broken) => check_file(alloc, store, folder, is_lenient, report, out),
    }
}

/// Checks the files with these names in a folder.
fn check_names<S: FileStore, W: Sink>(
    alloc: Global,
    store: &S,
    folder: &str,
    names: &[String],
    is_lenient: bool,
    report: &mut Report,
    out: &mut W,
) -> Result<(), ToolFault>
    requires { W.failed out.old ≡ false }
    ensures checked { OnOk result (HasChecked
        (IsJudged is_lenient S.IsOpened S.Reader.HasLeft S.CannotOpen S.Reader.failed
        S.IsStanding)
        (AreThese (map (λ name. path_in folder.now (string_bytes name)) names.now))
        W.HasTaken out.old out.new report.old report.new) }
    ensures short { OnErr result (StopsChecking
        (IsJudged is_lenient S.IsOpened S.Reader.HasLeft S.CannotOpen S.Reader.failed
        S.IsStanding)
        (AreFirst (AreThese (map (λ name. path_in folder.now (string_bytes name)) names.now)))
        W.HasTaken out.old out.new report.old) }
    ensures marks { SinkMarks W.failed W.takes_some out.old out.new (blames_sink result) }
    ensures only { IfErr result IsOutput }
{
    for name in names {
        check_name(alloc, store, folder, name.as_str(), is_lenient, report, out)?;
    }
    Ok(())
}

/// Checks the file with this name in a folder.
fn check_name<S: FileStore, W: Sink>(
    alloc: Global,
    store: &S,
    folder: &str,
    name: &str,
    is_lenient: bool,
    report: &mut Report,
    out: &mut W,
) -> Result<(), ToolFault>
    requires { W.failed out.old ≡ false }
    ensures checked { OnOk result (HasChecked
        (IsJudged is_lenient S.IsOpened S.Reader.HasLeft S.CannotOpen S.Reader.failed
        S.IsStanding)
        (AreThese (path_in folder.now name.now ∷ []))
        W.HasTaken out.old out.new report.old report.new) }
    ensures short { OnErr result (StopsChecking
        (IsJudged is_lenient S.IsOpened S.Reader.HasLeft S.CannotOpen S.Reader.failed
        S.IsStanding)
        (AreFirst (AreThese (path_in folder.now name.now ∷ [])))
        W.HasTaken out.old out.new report.old) }
    ensures marks { SinkMarks W.failed W.takes_some out.old out.new (blames_sink result) }
    ensures only { IfErr result IsOutput }
{
    let path = path_in(alloc, folder, name)?;
    check_file(alloc, store, path.as_str(), is_lenient, report, out)
}

/// Checks the file at a path.
fn check_file<S: FileStore, W: Sink>(
    alloc: Global,
    store: &S,
    path: &str,
    is_lenient: bool,
    report: &mut Report,
    out: &mut W,
) -> Result<(), ToolFault>
    requires { W.failed out.old ≡ false }
    ensures checked { OnOk result (HasChecked
        (IsJudged is_lenient S.IsOpened S.Reader.HasLeft S.CannotOpen S.Reader.failed
        S.IsStanding)
        (AreThese (path.now ∷ [])) W.HasTaken out.old out.new report.old report.new) }
    ensures short { OnErr result (StopsChecking
        (IsJudged is_lenient S.IsOpened S.Reader.HasLeft S.CannotOpen S.Reader.failed
        S.IsStanding)
        (AreFirst (AreThese (path.now ∷ []))) W.HasTaken out.old out.new report.old) }
    ensures marks { SinkMarks W.failed W.takes_some out.old out.new (blames_sink result) }
    ensures only { IfErr result IsOutput }
{
    let verdict = verdict_at(alloc, store, path, is_lenient)?;
    report.add(alloc, path, verdict, out)
}
