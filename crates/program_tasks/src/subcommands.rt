//! The subcommands over a session: its folder and its scripts read, or its lines as they come, and what is printed or
//! written.

ghost use Rattle.std.specs.Prelude.{◌≡◌, ◌⊎◌, false, IfErr, IfOk, OnOk};
ghost use Rattle.std.specs.Option.{option_map};
ghost use Rattle.seq_session.specs.Rising.{AreRising};
ghost use Rattle.byte_io.specs.Moved.{Took};
ghost use Rattle.program_tasks.specs.Explained.{told_where};
ghost use Rattle.program_tasks.specs.Faults.{IsOfListing, IsOfScripts, IsOfOutput, IsStuck};
ghost use Rattle.program_tasks.specs.Live.{AreLinesAnswered, IsAnsweringStopped};
ghost use Rattle.program_tasks.specs.LogFiles.{IsOfReadLog};
ghost use Rattle.program_tasks.specs.Sessions.{owners};
ghost use Rattle.program_tasks.specs.Subcommands.{IsRunPrinted, IsRunStreamed, IsStreamingStopped, IsRunExplained, IsCircleAnswered, IsTimeless, IsWhyAnswered, IsRunRecorded, IsRecordingStopped};
ghost use Rattle.program_tasks.specs.Why.{IsOfQuestion};

use crate::answer::CircleAnswer;
use crate::answering::print_circle;
use crate::choice::Stream;
use crate::explaining::explain_session;
use crate::explanation::Explanation;
use crate::folder::{Folder, named};
use crate::form_word::Printing;
use crate::log_folder::LogFolder;
use crate::notes::Notes;
use crate::printing::print_session;
use crate::program_fault::ProgramFault;
use crate::question::CircleQuestion;
use crate::recording::{Recording, record_session};
use crate::run_answer::RunAnswer;
use crate::session::Session;
use crate::streaming::stream_session;
use crate::why_answer::print_why;
use crate::why_question::WhyQuestion;
use byte_io::{Sink, Source};
use file_store::FileStore;
use seq_session::Progress;
use session_live::live_text;
use std::alloc::Global;

/// Runs the scripts of a session, and prints each client's log in a form and, where asked for, the listing at the
/// end. `progress` is told how far the run has come.
///
/// Tells what was forgiven of the files of the folder, and which are left out.
pub fn run<'a, S: FileStore, W: Sink, N: Notes, P: Progress>(
    alloc: Global,
    store: &S,
    session: &Session<'a>,
    printing: Printing,
    out: &mut W,
    notes: &mut N,
    progress: &mut P,
) -> Result<(), ProgramFault<'a>>
    requires rising { AreRising (owners session.now.scripts.items) }
    requires sound { W.failed out.old ≡ false }
    ensures printed { OnOk result (IsRunPrinted S.IsOpened S.Reader.HasLeft S.CannotOpen
        S.Reader.failed S.IsStanding S.HasNames W.HasTaken N.HasTold session.now printing
        out.old out.new notes.old notes.new) }
    ensures fault { IfErr result (λ e.
        IsOfListing S.CannotList (option_map (λ d. d.now) session.now.dir) e
        ⊎ (IsOfScripts S.IsOpened S.Reader.HasLeft S.CannotOpen S.Reader.failed
        session.now.scripts.items e
        ⊎ IsOfOutput (IsStuck W.failed W.takes_some out.old out.new) e)) }
{
    let folder = Folder::read(alloc, store, session.dir, session.is_lenient)?;
    let opened = folder.open(alloc, false, notes)?;
    let files = named(&opened);
    print_session(alloc, store, session, &files, printing, out, progress)
}

/// Runs the scripts of a session, and writes each client's log to a file while it runs, as `stream_session` does. Where
/// `listed` says so it prints the listing at the end.
///
/// Tells what was forgiven of the files of the session's folder, and which are left out.
pub fn stream<'a, S: FileStore, W: Sink, N: Notes, P: Progress>(
    alloc: Global,
    store: &S,
    session: &Session<'a>,
    logs: &LogFolder<'a>,
    listed: bool,
    out: &mut W,
    notes: &mut N,
    progress: &mut P,
) -> Result<(), ProgramFault<'a>>
    requires rising { AreRising (owners session.now.scripts.items) }
    requires sound { W.failed out.old ≡ false }
    ensures streamed { OnOk result (IsRunStreamed S.IsOpened S.Reader.HasLeft S.CannotOpen
        S.Reader.failed S.IsStanding S.HasNames S.IsPlaced S.Writer.HasTaken S.AreApart W.HasTaken
        N.HasTold session.now logs.now listed out.old out.new notes.old notes.new) }
    ensures fault { IfErr result (λ e.
        IsOfListing S.CannotList (option_map (λ d. d.now) session.now.dir) e
        ⊎ (IsOfReadLog S.AreOne logs.now.path.now session.now.scripts.items e
        ⊎ (IsOfScripts S.IsOpened S.Reader.HasLeft S.CannotOpen S.Reader.failed
        session.now.scripts.items e
        ⊎ (IsStreamingStopped S.IsOpened S.Reader.HasLeft S.CannotOpen S.Reader.failed S.IsStanding
        S.HasNames S.IsPlaced S.Writer.HasTaken S.Writer.failed S.Writer.takes_some S.CannotPlace
        N.HasTold session.now logs.now notes.old notes.new e
        ⊎ IsOfOutput (IsStuck W.failed W.takes_some out.old out.new) e)))) }
{
    let folder = Folder::read(alloc, store, session.dir, session.is_lenient)?;
    let opened = folder.open(alloc, false, notes)?;
    let files = named(&opened);
    stream_session(alloc, store, session, &files, logs, listed, out, progress)
}

/// Runs the scripts of a session and prints its logs, as `run` does, and tells which lines did nothing, and why, which
/// did most likely not what was meant, and which clients lost messages. It gives whether the run was complete.
///
/// Tells first what was forgiven of the files of the folder, and which are left out, and why.
pub fn explain<'a, S: FileStore, W: Sink, N: Notes>(
    alloc: Global,
    store: &S,
    session: &Session<'a>,
    printing: Printing,
    out: &mut W,
    notes: &mut N,
) -> Result<RunAnswer, ProgramFault<'a>>
    requires rising { AreRising (owners session.now.scripts.items) }
    requires sound { W.failed out.old ≡ false }
    ensures explained { IfOk result (λ answer. IsRunExplained S.IsOpened S.Reader.HasLeft S.CannotOpen
        S.Reader.failed S.IsStanding S.HasNames W.HasTaken N.HasTold session.now printing answer
        out.old out.new notes.old notes.new) }
    ensures fault { IfErr result (λ e.
        IsOfListing S.CannotList (option_map (λ d. d.now) session.now.dir) e
        ⊎ (IsOfScripts S.IsOpened S.Reader.HasLeft S.CannotOpen S.Reader.failed
        session.now.scripts.items e
        ⊎ IsOfOutput (IsStuck W.failed W.takes_some out.old out.new) e)) }
{
    let folder = Folder::read(alloc, store, session.dir, session.is_lenient)?;
    let opened = folder.open(alloc, true, notes)?;
    let explanation = explain_session(alloc, store, session, &named(&opened), printing, out)?;
    explanation.tell(session, notes);
    Ok(explanation.answer(folder.takes_all(true, &opened)))
}

/// Prints the circles that are asked for of a session, and tells whether each is shut. Nothing is run, but where a
/// circle is asked for in its session.
///
/// Tells what was forgiven of the files of the folder, and which are left out.
pub fn circle<'a, S: FileStore, W: Sink, N: Notes>(
    alloc: Global,
    store: &S,
    session: &Session<'a>,
    question: CircleQuestion,
    out: &mut W,
    notes: &mut N,
) -> Result<CircleAnswer, ProgramFault<'a>>
    requires rising { AreRising (owners session.now.scripts.items) }
    requires sound { W.failed out.old ≡ false }
    ensures printed { IfOk result (λ answer. IsCircleAnswered S.IsOpened S.Reader.HasLeft S.CannotOpen
        S.Reader.failed S.IsStanding S.HasNames W.HasTaken N.HasTold session.now question answer
        out.old out.new notes.old notes.new) }
    ensures fault { IfErr result (λ e.
        IsOfListing S.CannotList (option_map (λ d. d.now) session.now.dir) e
        ⊎ (IsOfScripts S.IsOpened S.Reader.HasLeft S.CannotOpen S.Reader.failed
        session.now.scripts.items e
        ⊎ (IsTimeless S.IsOpened S.Reader.HasLeft S.CannotOpen S.Reader.failed S.IsStanding
        S.HasNames N.HasTold session.now notes.old notes.new e
        ⊎ IsOfOutput (IsStuck W.failed W.takes_some out.old out.new) e))) }
{
    let folder = Folder::read(alloc, store, session.dir, session.is_lenient)?;
    let opened = folder.open(alloc, false, notes)?;
    print_circle(alloc, store, session, &named(&opened), question, out)
}

/// Prints what is asked of a message that did not come, or of a line that did nothing.
///
/// Tells what was forgiven of the files of the folder, and which are left out.
pub fn why<'a, S: FileStore, W: Sink, N: Notes>(
    alloc: Global,
    store: &S,
    session: &Session<'a>,
    question: WhyQuestion<'a>,
    out: &mut W,
    notes: &mut N,
) -> Result<(), ProgramFault<'a>>
    requires rising { AreRising (owners session.now.scripts.items) }
    requires sound { W.failed out.old ≡ false }
    ensures printed { OnOk result (IsWhyAnswered S.IsOpened S.Reader.HasLeft S.CannotOpen
        S.Reader.failed S.IsStanding S.HasNames W.HasTaken N.HasTold session.now question.entry
        out.old out.new notes.old notes.new) }
    ensures fault { IfErr result (λ e.
        IsOfListing S.CannotList (option_map (λ d. d.now) session.now.dir) e
        ⊎ (IsOfQuestion session.now.scripts.items question.entry e
        ⊎ (IsOfScripts S.IsOpened S.Reader.HasLeft S.CannotOpen S.Reader.failed
        session.now.scripts.items e
        ⊎ IsOfOutput (IsStuck W.failed W.takes_some out.old out.new) e))) }
{
    let folder = Folder::read(alloc, store, session.dir, session.is_lenient)?;
    let opened = folder.open(alloc, false, notes)?;
    print_why(alloc, store, session, &named(&opened), question, out)
}

/// Answers the lines that `input` gives, each as soon as it was read, as `live_text` does. Clients may play the files
/// of the folder.
///
/// Tells first what was forgiven of these, and which are left out.
pub fn live<'a, S: FileStore, I: Source, W: Sink, N: Notes>(
    alloc: Global,
    store: &S,
    dir: Option<&'a str>,
    is_lenient: bool,
    input: &mut I,
    out: &mut W,
    notes: &mut N,
) -> Result<(), ProgramFault<'a>>
    requires input_sound { I.failed input.old ≡ false }
    requires out_sound { W.failed out.old ≡ false }
    ensures answered { OnOk result (AreLinesAnswered S.IsOpened S.Reader.HasLeft S.CannotOpen
        S.Reader.failed S.IsStanding S.HasNames I.HasLeft W.HasTaken N.HasTold is_lenient
        (option_map (λ d. d.now) dir.entry) input.old input.new out.old out.new
        notes.old notes.new) }
    ensures fault { IfErr result (λ e.
        IsOfListing S.CannotList (option_map (λ d. d.now) dir.entry) e
        ⊎ IsAnsweringStopped S.IsOpened S.Reader.HasLeft S.CannotOpen S.Reader.failed S.IsStanding
        S.HasNames I.HasLeft I.failed W.HasTaken (IsStuck W.failed W.takes_some out.old out.new)
        N.HasTold is_lenient (option_map (λ d. d.now) dir.entry) input.old input.new
        out.old out.new notes.old notes.new e) }
{
    let folder = Folder::read(alloc, store, dir, is_lenient)?;
    let opened = folder.open(alloc, false, notes)?;
    match live_text(alloc, named(&opened), input, out) {
        Ok(()) => Ok(()),
        Err(fault) => Err(ProgramFault::of_tool(Stream::Standard, fault)),
    }
}

/// Runs the scripts of a session, and writes what is recorded of it to a file, once all else is done, as
/// `record_session` does. It gives whether the run was complete, and where `explains` says so it tells, as `explain`
/// does, what it did not do, and which ports were never there.
///
/// Tells first what was forgiven of the files of the folder, and which are left out, and where `explains` says so why.
pub fn record<'a, S: FileStore, N: Notes>(
    alloc: Global,
    store: &S,
    session: &Session<'a>,
    recording: &Recording<'a, '_>,
    explains: bool,
    notes: &mut N,
) -> Result<RunAnswer, ProgramFault<'a>>
    requires { AreRising (owners session.now.scripts.items) }
    ensures recorded { IfOk result (λ answer. IsRunRecorded S.IsOpened S.Reader.HasLeft S.CannotOpen
        S.Reader.failed S.IsStanding S.HasNames S.IsBegun S.Writer.HasTaken S.IsStored N.HasTold
        session.now recording.now explains answer notes.old notes.new) }
    ensures fault { IfErr result (λ e.
        IsOfListing S.CannotList (option_map (λ d. d.now) session.now.dir) e
        ⊎ IsRecordingStopped S.IsOpened S.Reader.HasLeft S.CannotOpen S.Reader.failed S.IsStanding
        S.HasNames S.AreOne S.IsBegun S.Writer.failed S.Writer.takes_some S.CannotBegin S.CannotStore
        N.HasTold session.now recording.now explains notes.old notes.new e) }
{
    let folder = Folder::read(alloc, store, session.dir, session.is_lenient)?;
    let opened = folder.open(alloc, explains, notes)?;
    let files = named(&opened);
    let explanation = record_session(alloc, store, session, &folder, &files, recording)?;
    tell_where(explains, &explanation, session, notes);
    Ok(explanation.answer(folder.takes_all(explains, &opened)))
}

/// Tells what a run did not do, where `explains` says so.
fn tell_where<N: Notes>(
    explains: bool,
    explanation: &Explanation,
    session: &Session<'_>,
    notes: &mut N,
)
    ensures { Took N.HasTold notes.old
        (told_where explains session.now.scripts.items explanation.now) notes.new }
{
    if explains {
        explanation.tell(session, notes);
    }
}
