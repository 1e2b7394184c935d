//! The subcommands that take scripts.

ghost use Rattle.std.specs.Prelude.{◌≡◌, ◌⊎◌, ◌||◌, false, Some, codes, IfOk, IfErr, OnOk};
ghost use Rattle.clap.specs.Matches.{found_of};
ghost use Rattle.midiseq.specs.Given.{text_of, IsAsked, IsEndGiven, IsGiven, IsFlag, IsFormGiven, IsOnePortGiven, AreGridWords, PrintsAsGiven, StreamsAsGiven, RunsAsGiven, CirclesAsGiven, IsQuestionGiven, AnswersAsGiven, EndsRecorded, RecordsAsGiven};
ghost use Rattle.midiseq.specs.Refused.{IsOfSessionWords, IsOfRecordingWords, IsNotAClient, IsNotAForm, IsNotAPort, IsUnprinted, IsUnstreamed, IsRunStopped, IsCircleStopped, IsWhyStopped, IsNotRecorded, IsRecordStopped};
ghost use Rattle.seq_session.specs.Rising.{AreRising};
ghost use Rattle.program_tasks.specs.Faults.{IsStuck};
ghost use Rattle.program_tasks.specs.Sessions.{owners};
ghost use Rattle.program_tasks.specs.Words.{port_named};

use byte_io::Sink;
use clap::ArgMatches;
use file_store::FileStore;
use log_forms::LogForm;
use node_table::PortAddr;
use program_tasks::{
    CircleAnswer, CircleQuestion, EndWord, Ended, GridWords, LogFolder, Notes, Printing,
    ProgramFault, ProgressLine, Recorded, Recording, Session, WhyQuestion, client_named,
    form_named, port_named, ports_named,
};
use std::alloc::Global;

/// When the words say that the session ends.
fn end_of<'a>(found: &ArgMatches<'a>) -> EndWord<'a>
    ensures { IsEndGiven (found_of found.now) result }
{
    if found.get_flag("to-end") {
        return EndWord::ToEnd;
    }
    match found.get_str("for") {
        Some(time) => EndWord::For(time),
        None => EndWord::Until(found.get_str("until").unwrap_or("")),
    }
}

/// The session that the words of `run`, `record` and `circle` say alike.
fn session_of<'a>(alloc: Global, found: &ArgMatches<'a>) -> Result<Session<'a>, ProgramFault<'a>>
    ensures given { IfOk result (IsGiven (found_of found.now)) }
    ensures rising { IfOk result (λ s. AreRising (owners s.scripts.items)) }
    ensures fault { IfErr result (IsOfSessionWords (found_of found.now)) }
{
    let scripts = found.get_strs("CLIENT=PATH").unwrap_or(&[]);
    let dir = found.get_str("dir");
    let is_lenient = found.get_flag("lenient");
    Session::of_words(alloc, end_of(found), dir, is_lenient, scripts)
}

/// Runs the scripts. Without --logs it prints each client's log, and with it writes each to a file of that folder while
/// they run.
pub(crate) fn run<'a, S: FileStore, W: Sink, N: Notes, R: Eprint>(
    alloc: Global,
    store: &S,
    found: &ArgMatches<'a>,
    out: &mut W,
    notes: &mut N,
    progress: &mut ProgressLine<'_, R>,
) -> Result<Ended, ProgramFault<'a>>
    requires { W.failed out.old ≡ false }
    ensures ran { IfOk result (RunsAsGiven S.IsOpened S.Reader.HasLeft S.CannotOpen S.Reader.failed
        S.IsStanding S.HasNames S.IsPlaced S.Writer.HasTaken S.AreApart W.HasTaken N.HasTold
        (found_of found.now) out.old out.new notes.old notes.new) }
    ensures fault { IfErr result (λ e. IsOfSessionWords (found_of found.now) e
        ⊎ IsRunStopped S.IsOpened S.Reader.HasLeft S.CannotOpen S.CannotList S.Reader.failed
        S.IsStanding S.HasNames S.AreOne S.IsPlaced S.Writer.HasTaken S.Writer.failed
        S.Writer.takes_some S.CannotPlace (IsStuck W.failed W.takes_some out.old out.new) N.HasTold
        (found_of found.now) notes.old notes.new e) }
{
    let session = session_of(alloc, found)?;
    follow(found, session.until, progress);
    let Some(path) = found.get_str("logs") else {
        return print_run(alloc, store, found, &session, out, notes, progress);
    };
    stream_run(alloc, store, found, &session, path, out, notes, progress)
}

/// Lets the progress line follow a session, where --quiet does not say otherwise.
fn follow<R: Eprint>(found: &ArgMatches<'_>, until: u64, progress: &mut ProgressLine<'_, R>) {
    if !found.get_flag("quiet") {
        progress.begin(until);
    }
}

/// Runs a session, and prints each client's log and, where asked for, the listing at the end. With --explain and
/// --strict it tells what the run did not do, and with --strict whether that is nothing.
fn print_run<'a, S: FileStore, W: Sink, N: Notes, R: Eprint>(
    alloc: Global,
    store: &S,
    found: &ArgMatches<'a>,
    session: &Session<'a>,
    out: &mut W,
    notes: &mut N,
    progress: &mut ProgressLine<'_, R>,
) -> Result<Ended, ProgramFault<'a>>
    requires rising { AreRising (owners session.now.scripts.items) }
    requires sound { W.failed out.old ≡ false }
    ensures ran { IfOk result (PrintsAsGiven S.IsOpened S.Reader.HasLeft S.CannotOpen
        S.Reader.failed S.IsStanding S.HasNames W.HasTaken N.HasTold (found_of found.now)
        session.now out.old out.new notes.old notes.new) }
    ensures fault { IfErr result (IsUnprinted S.IsOpened S.Reader.HasLeft S.CannotOpen S.CannotList
        S.Reader.failed S.IsStanding S.HasNames S.AreOne S.IsPlaced S.Writer.HasTaken
        S.Writer.failed S.Writer.takes_some S.CannotPlace
        (IsStuck W.failed W.takes_some out.old out.new) N.HasTold
        (found_of found.now) notes.old notes.new session.now) }
{
    let printing = printing_of(found)?;
    let strict = found.get_flag("strict");
    let explains = found.get_flag("explain");
    if strict {
        let answer = program_tasks::explain(alloc, store, session, printing, out, notes)?;
        return Ok(Ended::Judged(answer));
    }
    if explains {
        program_tasks::explain(alloc, store, session, printing, out, notes)?;
        return Ok(Ended::Done);
    }
    program_tasks::run(alloc, store, session, printing, out, notes, progress)?;
    Ok(Ended::Done)
}

/// How the words say that logs are printed.
fn printing_of<'a>(found: &ArgMatches<'a>) -> Result<Printing, ProgramFault<'a>>
    ensures form { IfOk result (λ p. IsFormGiven (found_of found.now) p.form) }
    ensures listed { IfOk result (λ p. IsFlag (found_of found.now) (codes "list") p.listed) }
    ensures fault { IfErr result (IsNotAForm (text_of (found_of found.now) (codes "format"))) }
{
    let listed = found.get_flag("list");
    let Some(word) = found.get_str("format") else {
        let form = LogForm::Text;
        return Ok(Printing { form, listed });
    };
    match form_named(word) {
        Some(form) => Ok(Printing { form, listed }),
        None => Err(ProgramFault::NotAForm(word)),
    }
}

/// Runs a session, writes each client's log to a file of the folder at this path, and prints the listing where asked
/// for.
fn stream_run<'a, S: FileStore, W: Sink, N: Notes, R: Eprint>(
    alloc: Global,
    store: &S,
    found: &ArgMatches<'a>,
    session: &Session<'a>,
    path: &'a str,
    out: &mut W,
    notes: &mut N,
    progress: &mut ProgressLine<'_, R>,
) -> Result<Ended, ProgramFault<'a>>
    requires rising { AreRising (owners session.now.scripts.items) }
    requires sound { W.failed out.old ≡ false }
    ensures ran { IfOk result (λ ended. StreamsAsGiven S.IsOpened S.Reader.HasLeft S.CannotOpen
        S.Reader.failed S.IsStanding S.HasNames S.IsPlaced S.Writer.HasTaken S.AreApart W.HasTaken
        N.HasTold (found_of found.now) session.now out.old out.new notes.old notes.new ended
        path.now) }
    ensures fault { IfErr result (λ e. IsUnstreamed S.IsOpened S.Reader.HasLeft S.CannotOpen
        S.CannotList S.Reader.failed S.IsStanding S.HasNames S.AreOne S.IsPlaced S.Writer.HasTaken
        S.Writer.failed S.Writer.takes_some S.CannotPlace
        (IsStuck W.failed W.takes_some out.old out.new) N.HasTold
        (found_of found.now) notes.old notes.new session.now e path.now) }
{
    let append = found.get_flag("append");
    let logs = LogFolder { path, append };
    let listed = found.get_flag("list");
    program_tasks::stream(alloc, store, session, &logs, listed, out, notes, progress)?;
    Ok(Ended::Done)
}

/// Runs the scripts, and writes what came to a port, or to several, to a file, once all else is done. With --explain
/// and --strict it tells what the run did not do, and with --strict whether that is nothing; with --strict nothing is
/// written where a port was never there.
pub(crate) fn record<'a, S: FileStore, N: Notes>(
    alloc: Global,
    store: &S,
    found: &ArgMatches<'a>,
    notes: &mut N,
) -> Result<Ended, ProgramFault<'a>>
    ensures recorded { IfOk result (RecordsAsGiven S.IsOpened S.Reader.HasLeft S.CannotOpen S.Reader.failed
        S.IsStanding S.HasNames S.IsBegun S.Writer.HasTaken S.IsStored N.HasTold (found_of found.now)
        notes.old notes.new) }
    ensures fault { IfErr result (λ e. IsOfSessionWords (found_of found.now) e
        ⊎ (IsOfRecordingWords S.IsOpened S.Reader.HasLeft S.CannotOpen S.Reader.failed
        (found_of found.now) e
        ⊎ IsRecordStopped S.IsOpened S.Reader.HasLeft S.CannotOpen S.CannotList S.Reader.failed
        S.IsStanding S.HasNames S.AreOne S.IsBegun S.Writer.failed S.Writer.takes_some S.CannotBegin
        S.CannotStore N.HasTold (found_of found.now) notes.old notes.new e)) }
{
    let session = session_of(alloc, found)?;
    let path = found.get_str("out").unwrap_or("");
    let strict = is_strict(found);
    let Some(word) = found.get_str("ports") else {
        let port = port_of(found)?;
        let what = one_port(found, port);
        let recording = Recording { what, path, strict };
        return record_as(alloc, store, found, &session, &recording, notes);
    };
    let ports = ports_named(alloc, word)?;
    let grid = grid_of(found).grid(alloc, store)?;
    let what = Recorded::Ports {
        ports: ports.as_slice(),
        clock: &grid,
    };
    let recording = Recording { what, path, strict };
    record_as(alloc, store, found, &session, &recording, notes)
}

/// Whether the words ask to be strict.
fn is_strict(found: &ArgMatches<'_>) -> bool
    ensures { IsFlag (found_of found.now) (codes "strict") result }
{
    found.get_flag("strict")
}

/// The port of --port.
fn port_of<'a>(found: &ArgMatches<'a>) -> Result<PortAddr, ProgramFault<'a>>
    ensures named { IfOk result (λ port.
        Some port ≡ port_named (text_of (found_of found.now) (codes "port"))) }
    ensures fault { IfErr result (IsNotAPort (text_of (found_of found.now) (codes "port"))) }
{
    let word = found.get_str("port").unwrap_or("");
    match port_named(word) {
        Some(port) => Ok(port),
        None => Err(ProgramFault::NotAPort(word)),
    }
}

/// What is recorded of the port of --port: with --raw one MIDI stream, and else a file.
fn one_port<'r>(found: &ArgMatches<'_>, port: PortAddr) -> Recorded<'r>
    requires { Some port ≡ port_named (text_of (found_of found.now) (codes "port")) }
    ensures { IsOnePortGiven (found_of found.now) result }
{
    if found.get_flag("raw") {
        return Recorded::Stream(port);
    }
    Recorded::Port(port)
}

/// The words for the ticks and the tempos of a file of several ports.
fn grid_of<'a>(found: &ArgMatches<'a>) -> GridWords<'a>
    ensures { AreGridWords (found_of found.now) result }
{
    match found.get_str("like") {
        Some(path) => GridWords::Like(path),
        None => GridWords::Said {
            ppq: found.get_str("ppq"),
            bpm: found.get_str("bpm"),
        },
    }
}

/// Records a session so, and explains it and judges it as --explain and --strict say.
fn record_as<'a, S: FileStore, N: Notes>(
    alloc: Global,
    store: &S,
    found: &ArgMatches<'a>,
    session: &Session<'a>,
    recording: &Recording<'a, '_>,
    notes: &mut N,
) -> Result<Ended, ProgramFault<'a>>
    requires rising { AreRising (owners session.now.scripts.items) }
    requires strict { IsFlag (found_of found.now) (codes "strict") recording.now.strict }
    ensures recorded { IfOk result (EndsRecorded S.IsOpened S.Reader.HasLeft S.CannotOpen
        S.Reader.failed S.IsStanding S.HasNames S.IsBegun S.Writer.HasTaken S.IsStored N.HasTold
        (found_of found.now) session.now recording.now notes.old notes.new) }
    ensures fault { IfErr result (IsNotRecorded S.IsOpened S.Reader.HasLeft S.CannotOpen S.CannotList
        S.Reader.failed S.IsStanding S.HasNames S.AreOne S.IsBegun S.Writer.failed
        S.Writer.takes_some S.CannotBegin S.CannotStore N.HasTold (found_of found.now) session.now
        recording.now notes.old notes.new) }
{
    let strict = recording.strict;
    let asked = found.get_flag("explain");
    let explains = is_explained(strict, asked);
    let answer = program_tasks::record(alloc, store, session, recording, explains, notes)?;
    if strict {
        return Ok(Ended::Judged(answer));
    }
    Ok(Ended::Done)
}

/// Whether a recording is to be explained: one that is strict is, too.
fn is_explained(strict: bool, asked: bool) -> bool
    ensures { result ≡ (strict || asked) }
{
    strict || asked
}

/// Whether a run is to be explained, with --explain or --strict.
pub(crate) fn is_asked(found: &ArgMatches<'_>) -> bool
    ensures { IsAsked (found_of found.now) result }
{
    let strict = found.get_flag("strict");
    let asked = found.get_flag("explain");
    is_explained(strict, asked)
}

/// Prints the circle round the client of --owner, with --session also whether it is closed there, and tells whether it
/// is shut; without --owner those round all clients, and whether all are.
pub(crate) fn circle<'a, S: FileStore, W: Sink, N: Notes>(
    alloc: Global,
    store: &S,
    found: &ArgMatches<'a>,
    out: &mut W,
    notes: &mut N,
) -> Result<CircleAnswer, ProgramFault<'a>>
    requires { W.failed out.old ≡ false }
    ensures printed { IfOk result (CirclesAsGiven S.IsOpened S.Reader.HasLeft S.CannotOpen
        S.Reader.failed S.IsStanding S.HasNames W.HasTaken N.HasTold (found_of found.now)
        out.old out.new notes.old notes.new) }
    ensures fault { IfErr result (λ e. IsOfSessionWords (found_of found.now) e
        ⊎ (IsNotAClient (text_of (found_of found.now) (codes "owner")) e
        ⊎ IsCircleStopped S.IsOpened S.Reader.HasLeft S.CannotOpen S.CannotList S.Reader.failed
        S.IsStanding S.HasNames (IsStuck W.failed W.takes_some out.old out.new) N.HasTold
        (found_of found.now) notes.old notes.new e)) }
{
    let session = session_of(alloc, found)?;
    let Some(word) = found.get_str("owner") else {
        let question = CircleQuestion::OfAll;
        return program_tasks::circle(alloc, store, &session, question, out, notes);
    };
    let Some(owner) = client_named(word) else {
        return Err(ProgramFault::NotAClient(word));
    };
    let in_session = found.get_flag("session");
    let question = CircleQuestion::Of { owner, in_session };
    program_tasks::circle(alloc, store, &session, question, out, notes)
}

/// What the words ask: with --log of a line, and else of a message.
fn question_of<'a>(found: &ArgMatches<'a>) -> WhyQuestion<'a>
    ensures { IsQuestionGiven (found_of found.now) result }
{
    match found.get_str("log") {
        Some(word) => WhyQuestion::Line(word),
        None => WhyQuestion::Message {
            from: found.get_str("from").unwrap_or(""),
            message: found.get_str("message").unwrap_or(""),
        },
    }
}

/// Prints what becomes of the message of --message from the port of --from, or what the line of --log did not do.
pub(crate) fn why<'a, S: FileStore, W: Sink, N: Notes>(
    alloc: Global,
    store: &S,
    found: &ArgMatches<'a>,
    out: &mut W,
    notes: &mut N,
) -> Result<(), ProgramFault<'a>>
    requires { W.failed out.old ≡ false }
    ensures printed { OnOk result (AnswersAsGiven S.IsOpened S.Reader.HasLeft S.CannotOpen
        S.Reader.failed S.IsStanding S.HasNames W.HasTaken N.HasTold (found_of found.now)
        out.old out.new notes.old notes.new) }
    ensures fault { IfErr result (λ e. IsOfSessionWords (found_of found.now) e
        ⊎ IsWhyStopped S.IsOpened S.Reader.HasLeft S.CannotOpen S.CannotList S.Reader.failed
        (IsStuck W.failed W.takes_some out.old out.new) (found_of found.now) e) }
{
    let session = session_of(alloc, found)?;
    let question = question_of(found);
    program_tasks::why(alloc, store, &session, question, out, notes)
}
