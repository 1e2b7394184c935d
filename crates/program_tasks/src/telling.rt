//! The lines that tell what a run did not do.

ghost use Rattle.std.specs.Prelude.{◌≡◌, ◌++◌};
ghost use Rattle.std.specs.Fmt.{WritesOnOk, decimal};
ghost use Rattle.node_table.specs.Text.{addr_text};
ghost use Rattle.node_table.specs.declared.number.Node.TheVariants.{Port};
ghost use Rattle.program_tasks.specs.Explained.{skipped_since, said_text, tempo_meant, messages_text, channel_text, note_text};

use crate::program_fault::write_start;
use crate::remedy::write_remedy;
use folder_files::Escaped;
use node_table::PortAddr;
use script_text::SkipReason;
use seq_engine::Loss;
use seq_session::{Cause, Diagnostic, Slip, SlipOnLine};
use sounding_notes::SoundingNote;
use std::fmt;

/// Why a line is skipped.
fn skipped_since(why: SkipReason) -> &'static str
    ensures { result.now ≡ skipped_since why }
{
    match why {
        SkipReason::Unreadable => "it has the form of no command",
        SkipReason::PastEnd => "its moment lies past the end of the run",
        SkipReason::Late => "its moment lies before that of a line above it",
        SkipReason::TooLong => "the script has more than 1048576 bytes",
    }
}

/// Why a line did nothing, in words.
#[derive(Clone, Copy, Debug)]
struct CauseText(Cause);

impl fmt::Display for CauseText {
    ghost use Rattle.std.specs.Prelude.{Some};
    ghost use Rattle.program_tasks.specs.Explained.{cause_text};

    ghost output = { λ c. Some (cause_text c.0) };

    fn fmt<W: fmt::Write>(&self, f: &mut fmt::Formatter<W>) -> fmt::Result {
        match self.0 {
            Cause::Unreadable(fault) => write!(f, "skipped: {fault}"),
            Cause::Skipped(why) => {
                f.write_str("skipped: ")?;
                f.write_str(skipped_since(why))
            }
            Cause::Refused(refusal, about) => {
                write!(f, "refused {refusal}: ")?;
                write_remedy(refusal, &about, f)
            }
        }
    }
}

/// Which line of a script it is; of the whole script nothing.
#[derive(Clone, Copy, Debug)]
pub(crate) struct Place(pub(crate) u64);

impl fmt::Display for Place {
    ghost use Rattle.std.specs.Prelude.{Some};
    ghost use Rattle.program_tasks.specs.Explained.{place_text};

    ghost output = { λ p. Some (place_text p.0) };

    fn fmt<W: fmt::Write>(&self, f: &mut fmt::Formatter<W>) -> fmt::Result {
        let line = self.0;
        if line == 0 {
            return Ok(());
        }
        write!(f, ":{line}")
    }
}

/// The line that tells of a line of a script that did nothing, with the control characters of the path escaped.
#[derive(Clone, Copy, Debug)]
pub struct DiagnosticLine<'a> {
    /// The path of the script.
    pub path: &'a str,
    pub diagnostic: Diagnostic,
}

impl fmt::Display for DiagnosticLine<'_> {
    ghost use Rattle.std.specs.Prelude.{Some};
    ghost use Rattle.program_tasks.specs.Explained.{diagnostic_line};

    ghost output = { λ l. Some (diagnostic_line l.path.now l.diagnostic) };

    fn fmt<W: fmt::Write>(&self, f: &mut fmt::Formatter<W>) -> fmt::Result {
        let path = Escaped(self.path);
        let cause = CauseText(self.diagnostic.cause);
        let place = Place(self.diagnostic.line);
        write!(f, "{path}{place}: {cause}")
    }
}

/// Microseconds in a minute.
const MINUTE: u32 = 60_000_000;

/// Writes what a tempo says that was meant as beats per minute.
fn write_said<W: fmt::Write>(tempo: u32, f: &mut fmt::Formatter<W>) -> fmt::Result
    ensures { WritesOnOk W.write_str_gives f.old result (said_text tempo) f.new }
{
    write!(
        f,
        "TEMPO {tempo} is {tempo} microseconds per quarter note: {tempo} beats per minute are "
    )
}

/// Writes the microseconds per quarter note at so many beats per minute.
fn write_meant<W: fmt::Write>(bpm: u32, f: &mut fmt::Formatter<W>) -> fmt::Result
    ensures { WritesOnOk W.write_str_gives f.old result (decimal (tempo_meant bpm)) f.new }
{
    let tempo = MINUTE / bpm.max(1);
    write!(f, "{tempo}")
}

/// What was most likely meant, in words.
#[derive(Clone, Copy, Debug)]
struct SlipText(Slip);

impl fmt::Display for SlipText {
    ghost use Rattle.std.specs.Prelude.{Some};
    ghost use Rattle.program_tasks.specs.Explained.{slip_text};

    ghost output = { λ s. Some (slip_text s.0) };

    fn fmt<W: fmt::Write>(&self, f: &mut fmt::Formatter<W>) -> fmt::Result {
        match self.0 {
            Slip::TempoAsBpm(tempo) => {
                write_said(tempo, f)?;
                write_meant(tempo, f)
            }
            Slip::ChannelsTen => {
                f.write_str("CHANNELS 10 is channels 2 and 4: channel 10 alone is 512")
            }
        }
    }
}

/// The line that tells of a line of a script that did most likely not what was meant, with the control characters of
/// the path escaped.
#[derive(Clone, Copy, Debug)]
pub struct SlipLine<'a> {
    /// The path of the script.
    pub path: &'a str,
    pub slip: SlipOnLine,
}

impl fmt::Display for SlipLine<'_> {
    ghost use Rattle.std.specs.Prelude.{Some};
    ghost use Rattle.program_tasks.specs.Explained.{slip_line};

    ghost output = { λ l. Some (slip_line l.path.now l.slip) };

    fn fmt<W: fmt::Write>(&self, f: &mut fmt::Formatter<W>) -> fmt::Result {
        let path = Escaped(self.path);
        let slip = SlipText(self.slip.slip);
        let place = Place(self.slip.line);
        write!(f, "{path}{place}: {slip}")
    }
}

/// Writes so many messages.
fn write_messages<W: fmt::Write>(count: u64, f: &mut fmt::Formatter<W>) -> fmt::Result
    ensures { WritesOnOk W.write_str_gives f.old result (messages_text count) f.new }
{
    write!(f, "{count}")?;
    if count == 1 {
        return f.write_str(" message");
    }
    f.write_str(" messages")
}

/// The line that tells of messages that a client lost.
#[derive(Clone, Copy, Debug)]
pub struct LossLine(pub Loss);

impl fmt::Display for LossLine {
    ghost use Rattle.std.specs.Prelude.{Some};
    ghost use Rattle.program_tasks.specs.Explained.{loss_line};

    ghost output = { λ l. Some (loss_line l.0) };

    fn fmt<W: fmt::Write>(&self, f: &mut fmt::Formatter<W>) -> fmt::Result {
        let client = self.0.client;
        write_start(f)?;
        write!(f, "{client} lost ")?;
        write_messages(self.0.messages, f)?;
        f.write_str(": its input pool was full (see receive, listen)")
    }
}

/// The line that tells of a note that still sounds. Channels count from 1, as musicians do.
#[derive(Clone, Copy, Debug)]
pub struct SoundingLine(pub SoundingNote);

impl fmt::Display for SoundingLine {
    ghost use Rattle.std.specs.Prelude.{Some};
    ghost use Rattle.program_tasks.specs.Explained.{sounding_line};

    ghost output = { λ l. Some (sounding_line l.0) };

    fn fmt<W: fmt::Write>(&self, f: &mut fmt::Formatter<W>) -> fmt::Result {
        write_start(f)?;
        write_target(&self.0.target, f)?;
        write_note(&self.0, f)?;
        f.write_str(" still sounds")
    }
}

/// Writes the address of a port.
fn write_target<W: fmt::Write>(target: &PortAddr, f: &mut fmt::Formatter<W>) -> fmt::Result
    ensures { WritesOnOk W.write_str_gives f.old result
        (addr_text target.now.client (Port target.now.port)) f.new }
{
    let target = *target;
    write!(f, "{target}")
}

/// Writes which note of which channel it is.
fn write_note<W: fmt::Write>(note: &SoundingNote, f: &mut fmt::Formatter<W>) -> fmt::Result
    ensures { WritesOnOk W.write_str_gives f.old result (note_text note.now) f.new }
{
    let number = note.note;
    f.write_str(": note ")?;
    write!(f, "{number}")?;
    f.write_str(" of channel ")?;
    write_channel(note.channel, f)
}

/// Writes the number of a channel.
fn write_channel<W: fmt::Write>(channel: u8, f: &mut fmt::Formatter<W>) -> fmt::Result
    ensures { WritesOnOk W.write_str_gives f.old result (channel_text channel) f.new }
{
    let number = u16::from(channel) + 1;
    write!(f, "{number}")
}

/// The line that tells of a port that was never there.
#[derive(Clone, Copy, Debug)]
pub struct AbsentLine(pub PortAddr);

impl fmt::Display for AbsentLine {
    ghost use Rattle.std.specs.Prelude.{Some};
    ghost use Rattle.program_tasks.specs.Explained.{absent_line};

    ghost output = { λ l. Some (absent_line l.0) };

    fn fmt<W: fmt::Write>(&self, f: &mut fmt::Formatter<W>) -> fmt::Result {
        write_start(f)?;
        write_target(&self.0, f)?;
        f.write_str(" was never there")
    }
}
