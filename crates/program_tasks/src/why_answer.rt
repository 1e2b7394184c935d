//! Why a message did not come, or a line did nothing, printed.

ghost use Rattle.std.specs.Prelude.{◌≡◌, ◌⊎◌, ◌++◌, false, IfErr, IfOk, OnOk};
ghost use Rattle.std.specs.List.{flat_map};
ghost use Rattle.seq_session.specs.Rising.{AreRising};
ghost use Rattle.program_tasks.specs.Faults.{IsOfScripts, IsOfOutput, IsStuck};
ghost use Rattle.program_tasks.specs.Sessions.{owners};
ghost use Rattle.program_tasks.specs.Why.{diagnostic_at, slip_at, nothing_text, told_of_line, IsWhyTold, IsOfQuestion, IsWhyPrinted};

use crate::choice::STANDARD;
use crate::explanation::Explanation;
use crate::program_fault::ProgramFault;
use crate::reading::read_scripts;
use crate::running::run_session;
use crate::session::Session;
use crate::telling::{DiagnosticLine, Place, SlipLine};
use crate::why_question::{ScriptLine, WhyQuestion, line_named, message_said, source_named};
use byte_io::Sink;
use file_store::FileStore;
use folder_files::Escaped;
use memory::OutOfMemory;
use seq_session::{Diagnostic, NamedFiles, SlipOnLine};
use session_fates::{MOST_TOLD, fates_text, session_fates};
use std::alloc::Global;
use tool_text::send;

/// Reads the scripts of a session, and prints what is asked of it, in one piece. Before all is read nothing is printed.
pub fn print_why<'a, S: FileStore, W: Sink>(
    alloc: Global,
    store: &S,
    session: &Session<'a>,
    files: &NamedFiles<'_, '_>,
    question: WhyQuestion<'a>,
    out: &mut W,
) -> Result<(), ProgramFault<'a>>
    requires rising { AreRising (owners session.now.scripts.items) }
    requires sound { W.failed out.old ≡ false }
    ensures printed { OnOk result (IsWhyPrinted S.IsOpened S.Reader.HasLeft W.HasTaken files.now
        session.now.until session.now.scripts.items question.entry out.old out.new) }
    ensures fault { IfErr result (λ e.
        IsOfQuestion session.now.scripts.items question.entry e
        ⊎ (IsOfScripts S.IsOpened S.Reader.HasLeft S.CannotOpen S.Reader.failed
        session.now.scripts.items e
        ⊎ IsOfOutput (IsStuck W.failed W.takes_some out.old out.new) e)) }
{
    let text = answer(alloc, store, session, files, question)?;
    if send(out, text.as_slice()).is_err() {
        return Err(ProgramFault::CannotWrite(STANDARD));
    }
    Ok(())
}

/// What is asked of a session, as text.
fn answer<'a, S: FileStore>(
    alloc: Global,
    store: &S,
    session: &Session<'a>,
    files: &NamedFiles<'_, '_>,
    question: WhyQuestion<'a>,
) -> Result<Vec<u8>, ProgramFault<'a>>
    requires { AreRising (owners session.now.scripts.items) }
    ensures told { IfOk result (λ text. IsWhyTold S.IsOpened S.Reader.HasLeft files.now
        session.now.until session.now.scripts.items question.entry text.items) }
    ensures fault { IfErr result (λ e.
        IsOfQuestion session.now.scripts.items question.entry e
        ⊎ IsOfScripts S.IsOpened S.Reader.HasLeft S.CannotOpen S.Reader.failed
        session.now.scripts.items e) }
{
    match question {
        WhyQuestion::Message { from, message } => {
            message_answer(alloc, store, session, files, from, message)
        }
        WhyQuestion::Line(word) => line_answer(alloc, store, session, files, word),
    }
}

/// What becomes of a message from a port, as text.
fn message_answer<'a, S: FileStore>(
    alloc: Global,
    store: &S,
    session: &Session<'a>,
    files: &NamedFiles<'_, '_>,
    from: &'a str,
    message: &'a str,
) -> Result<Vec<u8>, ProgramFault<'a>>
    ensures told { let asked = WhyQuestion.Message from.entry message.entry in
        IfOk result (λ text. IsWhyTold S.IsOpened S.Reader.HasLeft files.now
        session.now.until session.now.scripts.items asked text.items) }
    ensures fault { let asked = WhyQuestion.Message from.entry message.entry in IfErr result (λ e.
        IsOfQuestion session.now.scripts.items asked e
        ⊎ IsOfScripts S.IsOpened S.Reader.HasLeft S.CannotOpen S.Reader.failed
        session.now.scripts.items e) }
{
    let port = source_named(from)?;
    let message = message_said(alloc, message)?;
    let scripts = read_scripts(alloc, store, session)?;
    let scripts = scripts.as_slice();
    let told = session_fates(
        alloc,
        scripts,
        files,
        session.until,
        port,
        &message,
        MOST_TOLD,
    )?;
    Ok(fates_text(alloc, port, &told)?)
}

/// What a line did not do, as text.
fn line_answer<'a, S: FileStore>(
    alloc: Global,
    store: &S,
    session: &Session<'a>,
    files: &NamedFiles<'_, '_>,
    word: &'a str,
) -> Result<Vec<u8>, ProgramFault<'a>>
    requires { AreRising (owners session.now.scripts.items) }
    ensures told { let asked = WhyQuestion.Line word.entry in
        IfOk result (λ text. IsWhyTold S.IsOpened S.Reader.HasLeft files.now
        session.now.until session.now.scripts.items asked text.items) }
    ensures fault { let asked = WhyQuestion.Line word.entry in IfErr result (λ e.
        IsOfQuestion session.now.scripts.items asked e
        ⊎ IsOfScripts S.IsOpened S.Reader.HasLeft S.CannotOpen S.Reader.failed
        session.now.scripts.items e) }
{
    let at = line_named(session.scripts.as_slice(), word)?;
    let run = run_session(alloc, store, session, files)?;
    let explanation = Explanation::of_run(alloc, &run, &[])?;
    Ok(line_text(alloc, session, &at, &explanation)?)
}

/// What is told of a line.
fn line_text(
    alloc: Global,
    session: &Session<'_>,
    at: &ScriptLine,
    explanation: &Explanation,
) -> Result<Vec<u8>, OutOfMemory>
    ensures { IfOk result (λ text. text.items ≡ told_of_line session.now.scripts.items
        at.now.client at.now.line explanation.now.diagnostics.items explanation.now.slips.items) }
{
    let mut text = Vec::new(alloc);
    let diagnostics = explanation.diagnostics.as_slice();
    push_diagnostics(&mut text, alloc, session, at, diagnostics)?;
    push_slips(&mut text, alloc, session, at, explanation.slips.as_slice())?;
    if text.is_empty() {
        push_nothing(&mut text, alloc, session.path_for(at.client), at.line)?;
    }
    Ok(text)
}

/// Adds the lines of those diagnostics that are of a line.
fn push_diagnostics(
    text: &mut Vec<u8>,
    alloc: Global,
    session: &Session<'_>,
    at: &ScriptLine,
    diagnostics: &[Diagnostic],
) -> Result<(), OutOfMemory>
    ensures { let paths = session.now.scripts.items in
        OnOk result (text.new.items ≡ text.old.items
        ++ flat_map (diagnostic_at paths at.now.client at.now.line) diagnostics.now) }
{
    for diagnostic in diagnostics {
        push_diagnostic(text, alloc, session, at, *diagnostic)?;
    }
    Ok(())
}

fn push_diagnostic(
    text: &mut Vec<u8>,
    alloc: Global,
    session: &Session<'_>,
    at: &ScriptLine,
    diagnostic: Diagnostic,
) -> Result<(), OutOfMemory>
    ensures { OnOk result (text.new.items ≡ text.old.items
        ++ diagnostic_at session.now.scripts.items at.now.client at.now.line diagnostic) }
{
    if !at.is(diagnostic.client, diagnostic.line) {
        return Ok(());
    }
    let path = session.path_for(diagnostic.client);
    let line = DiagnosticLine { path, diagnostic };
    text.extend_from_slice(format!(in alloc; "{line}\n")?.as_bytes())?;
    Ok(())
}

/// Adds the lines of those slips that are of a line.
fn push_slips(
    text: &mut Vec<u8>,
    alloc: Global,
    session: &Session<'_>,
    at: &ScriptLine,
    slips: &[SlipOnLine],
) -> Result<(), OutOfMemory>
    ensures { let paths = session.now.scripts.items in
        OnOk result (text.new.items
        ≡ text.old.items ++ flat_map (slip_at paths at.now.client at.now.line) slips.now) }
{
    for slip in slips {
        push_slip(text, alloc, session, at, *slip)?;
    }
    Ok(())
}

fn push_slip(
    text: &mut Vec<u8>,
    alloc: Global,
    session: &Session<'_>,
    at: &ScriptLine,
    slip: SlipOnLine,
) -> Result<(), OutOfMemory>
    ensures { OnOk result (text.new.items
        ≡ text.old.items ++ slip_at session.now.scripts.items at.now.client at.now.line slip) }
{
    if !at.is(slip.client, slip.line) {
        return Ok(());
    }
    let path = session.path_for(slip.client);
    let line = SlipLine { path, slip };
    text.extend_from_slice(format!(in alloc; "{line}\n")?.as_bytes())?;
    Ok(())
}

/// Adds that there is nothing to tell of a line.
fn push_nothing(text: &mut Vec<u8>, alloc: Global, path: &str, line: u64) -> Result<(), OutOfMemory>
    ensures { OnOk result (text.new.items ≡ text.old.items ++ nothing_text path.now line) }
{
    let path = Escaped(path);
    let place = Place(line);
    let said = format!(in alloc; "{path}{place}: it did what it says, or it says nothing\n")?;
    text.extend_from_slice(said.as_bytes())?;
    Ok(())
}
