//! A text of lines, answered as it comes.

ghost use Rattle.std.specs.Prelude.{◌≡◌, ◌≤◌, ◌<◌, ◌+◌, ◌-◌, ◌^◌, ◌∷◌, ◌++◌, ◌⊎◌, [], List, ℕ, true, false, length, IfErr, OnOk, OnErr, IsErrOf};
ghost use Rattle.std.specs.FinMap as finmap;
ghost use Rattle.byte_io.specs.Marks.{SinkMarks};
ghost use Rattle.byte_io.specs.Moved.{GaveSome};
ghost use Rattle.script_text.specs.Words.{lines};
ghost use Rattle.session_live.specs.Answers.{live_text};
ghost use Rattle.session_live.specs.Talk.{most_text, IsFed};
ghost use Rattle.tool_text.specs.Faults.{blames_sink, IsOfStream};
ghost use Rattle.tool_text.specs.Stream.{IsRenderedUpTo, IsRenderedInPart, IsRenderedSoFar, GaveMoreThan};

use crate::cutting::line_end;
use crate::open_line::OpenLine;
use crate::talk::Talk;
use agenda_heap::{Agenda, HeapAgenda};
use byte_io::{Sink, Source};
use memory::OutOfMemory;
use seq_session::NamedFiles;
use std::alloc::Global;
use tool_text::{Printer, ToolFault, print_stream};

/// Answers the lines that `input` gives, each as soon as its line feed was read: `MOMENT CLIENT COMMAND ..`, a moment
/// alone, or `list`. Clients may play these files. What stands behind the last line feed is no line.
///
/// At a fault the sink has taken the first part of the answers. What it holds in memory is the sequencer, a line,
/// and the answers to a piece.
pub fn live_text<R: Source, W: Sink>(
    alloc: Global,
    files: NamedFiles<'_, '_>,
    input: &mut R,
    out: &mut W,
) -> Result<(), ToolFault>
    requires input_sound { R.failed input.old ≡ false }
    requires out_sound { W.failed out.old ≡ false }

    ensures text { OnOk result (IsRenderedUpTo most_text R.HasLeft W.HasTaken
        (live_text files.entry) input.old input.new out.old out.new) }
    ensures short { OnErr result (IsRenderedInPart R.HasLeft W.HasTaken
        (live_text files.entry) input.old input.new out.old out.new) }
    ensures bounded { GaveSome R.HasLeft (most_text + 1) input.old input.new }

    // Whichever read fails, each line that came before it is answered.
    ensures prompt { IsErrOf result ToolFault.Read → R.failed input.new ≡ true →
        IsRenderedSoFar R.HasLeft W.HasTaken (live_text files.entry)
        input.old input.new out.old out.new }
    ensures read { IsErrOf result ToolFault.Read → (R.failed input.new ≡ true)
        ⊎ GaveMoreThan most_text R.HasLeft input.old input.new }
    ensures unread { IsErrOf result ToolFault.OutOfMemory → R.failed input.new ≡ false }
    ensures marks { SinkMarks W.failed W.takes_some out.old out.new (blames_sink result) }
    ensures only { IfErr result IsOfStream }
{
    let mut live = Live::new(alloc, files, HeapAgenda::new(alloc));
    print_stream(alloc, &mut live, input, out, u64::MAX)
}

/// A sequencer that a text of lines is read to, in pieces.
#[derive(Drop)]
struct Live<'f, 'b, A: Agenda> {
    talk: Talk<'f, 'b, A>,
    kept: OpenLine,
}

impl<'f, 'b, A: Agenda + Drop> Live<'f, 'b, A> {
    /// No byte was read.
    fn new(alloc: Global, files: NamedFiles<'f, 'b>, agenda: A) -> Live<'f, 'b, A>
        requires { A.content agenda ≡ finmap.empty }
        ensures fed { IsFed result.talk.files result.talk.engine result.talk.heard.said
            result.talk.heard.loose result.kept.bytes.items result.kept.is_too_long [] }
        ensures files { result.talk.files ≡ files.entry }
    {
        Live {
            talk: Talk::new(alloc, files, agenda),
            kept: OpenLine::new(alloc),
        }
    }
}

impl<'f, 'b, A: Agenda> Printer for Live<'f, 'b, A> {
    ghost use Rattle.session_live.specs.Answers.{live_text};
    ghost use Rattle.session_live.specs.Talk.{most_text, IsFed};

    ghost WasFed = { λ l read. IsFed l.talk.files l.talk.engine l.talk.heard.said
        l.talk.heard.loose l.kept.bytes.items l.kept.is_too_long read };

    ghost lines = { λ l. live_text l.talk.files };

    ghost most = { most_text };

    fn take(&mut self, piece: &[u8], text: &mut Vec<u8>) -> Result<(), ToolFault> {
        feed(&mut self.talk, &mut self.kept, piece, text)?;
        Ok(())
    }
}

/// Reads a piece: answers each line that it ends, and keeps what it begins.
fn feed<A: Agenda>(
    talk: &mut Talk<'_, '_, A>,
    kept: &mut OpenLine,
    piece: &[u8],
    text: &mut Vec<u8>,
) -> Result<(), OutOfMemory>
    ensures fed { OnOk result ((read : List ℕ) →
        IsFed talk.old.files talk.old.engine talk.old.heard.said talk.old.heard.loose
        kept.old.bytes.items kept.old.is_too_long read →
        IsFed talk.new.files talk.new.engine talk.new.heard.said talk.new.heard.loose
        kept.new.bytes.items kept.new.is_too_long (read ++ piece.now)) }
    ensures text { OnOk result ((read before : List ℕ) →
        IsFed talk.old.files talk.old.engine talk.old.heard.said talk.old.heard.loose
        kept.old.bytes.items kept.old.is_too_long read →
        live_text talk.old.files read ≡ before ++ text.old.items →
        live_text talk.old.files (read ++ piece.now) ≡ before ++ text.new.items) }
    ensures files { talk.new.files ≡ talk.old.files }
{
    let mut rest = piece;
    while let Some(end) = line_end(rest) {
        end_line(talk, kept, &rest[..end], text)?;
        rest = &rest[end + 1..];
    }
    kept.keep(rest)
}

/// Answers the open line, which has ended with this last part.
fn end_line<A: Agenda>(
    talk: &mut Talk<'_, '_, A>,
    kept: &mut OpenLine,
    part: &[u8],
    text: &mut Vec<u8>,
) -> Result<(), OutOfMemory>
    requires { lines part.now ≡ part.now ∷ [] }
    ensures fed { OnOk result ((read : List ℕ) →
        IsFed talk.old.files talk.old.engine talk.old.heard.said talk.old.heard.loose
        kept.old.bytes.items kept.old.is_too_long read →
        IsFed talk.new.files talk.new.engine talk.new.heard.said talk.new.heard.loose
        kept.new.bytes.items kept.new.is_too_long (read ++ part.now ++ 10 ∷ [])) }
    ensures text { OnOk result ((read before : List ℕ) →
        IsFed talk.old.files talk.old.engine talk.old.heard.said talk.old.heard.loose
        kept.old.bytes.items kept.old.is_too_long read →
        live_text talk.old.files read ≡ before ++ text.old.items →
        live_text talk.old.files (read ++ part.now ++ 10 ∷ []) ≡ before ++ text.new.items) }
    ensures files { talk.new.files ≡ talk.old.files }
{
    // A line that stands whole in a piece is answered where it stands.
    if kept.is_empty() {
        return talk.answer(part, text);
    }
    kept.keep(part)?;
    match kept.line() {
        Some(line) => talk.answer(line, text)?,
        None => talk.answer_too_long(text)?,
    }
    kept.clear();
    Ok(())
}
