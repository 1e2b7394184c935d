//! Why a line is unreadable: the first of its words that is wrong.

ghost use Rattle.std.specs.Prelude.{◌≡◌, ◌+◌, ◌<◌, ◌^◌, length};
ghost use Rattle.script_text.specs.LineFaults as faults;

use crate::line::without_return;
use crate::line_form::{LineForm, Rest, form_of};
use crate::message_words::say_message;
use crate::number::number_of;
use crate::word_kind::WordKind;
use crate::words::Words;
use std::fmt;

/// Why a line is unreadable. The places of its words count from 1, its moment's.
#[derive(Clone, Copy, Debug, PartialEq, Eq)]
pub enum LineFault {
    /// The first word begins with a byte order mark.
    ByteOrderMark,
    /// The first word is no moment.
    NoMoment,
    /// No word follows the moment.
    NoCommand,
    /// The second word is no command.
    UnknownCommand,
    /// The line ends where such a word belongs.
    Missing { kind: WordKind },
    /// The word at this place is none of this kind.
    Wrong { place: u64, kind: WordKind },
    /// The bytes are not exactly one message.
    NoMessage,
    /// No word belongs at this place or after it.
    TooMany { place: u64 },
    /// The wrong word at this place begins with `#`, as a remark does.
    Remark { place: u64 },
}

impl fmt::Display for LineFault {
    ghost use Rattle.std.specs.Prelude.{Some};
    ghost use Rattle.script_text.specs.LineFaults.{line_fault_text};

    ghost output = { λ fault. Some (line_fault_text fault) };

    fn fmt<W: fmt::Write>(&self, f: &mut fmt::Formatter<W>) -> fmt::Result {
        match self {
            LineFault::ByteOrderMark => f.write_str(
                "it begins with a byte order mark: save the file as plain UTF-8 or ASCII, without it",
            ),
            LineFault::NoMoment => f.write_str("its first word is no moment in nanoseconds"),
            LineFault::NoCommand => f.write_str("no command follows its moment"),
            LineFault::UnknownCommand => f.write_str("its second word is no command"),
            LineFault::Missing { kind } => write!(f, "{kind} is missing"),
            LineFault::Wrong { place, kind } => write!(f, "word {place} is not {kind}"),
            LineFault::NoMessage => f.write_str("its bytes are not exactly one MIDI message"),
            LineFault::TooMany { place } => {
                write!(f, "there are too many words, from word {place} on")
            }
            LineFault::Remark { place } => {
                write!(f, "a remark has a line of its own: word {place} begins one")
            }
        }
    }
}

/// Why a line is unreadable, if it is.
pub fn line_fault(line: &[u8]) -> Option<LineFault>
    ensures { result ≡ faults.line_fault line.now }
{
    let mut words = Words::new(without_return(line));
    let first = words.word()?;
    if let [b'#', ..] = first {
        return None;
    }
    if number_of(first).is_none() {
        return Some(moment_fault(first));
    }
    command_fault(&mut words)
}

/// The fault of a first word that is no moment.
fn moment_fault(word: &[u8]) -> LineFault
    ensures { result ≡ faults.moment_fault word.now }
{
    if let [0xEF, 0xBB, 0xBF, ..] = word {
        return LineFault::ByteOrderMark;
    }
    LineFault::NoMoment
}

/// The fault of a wrong word at this place.
fn wrong_word(place: u64, word: &[u8], fault: LineFault) -> LineFault
    ensures { result ≡ faults.wrong_word place word.now fault }
{
    if let [b'#', ..] = word {
        return LineFault::Remark { place };
    }
    fault
}

/// What is wrong with the words after a moment.
fn command_fault(words: &mut Words) -> Option<LineFault>
    ensures { result ≡ faults.command_fault words.old }
{
    let Some(word) = words.word() else {
        return Some(LineFault::NoCommand);
    };
    let Some(form) = form_of(word) else {
        return Some(wrong_word(2, word, LineFault::UnknownCommand));
    };
    words.are_few();
    form_fault(form, words)
}

/// What is wrong with the words after a command's.
fn form_fault(form: LineForm, words: &mut Words) -> Option<LineFault>
    requires { 3 + length words.old < 2 ^ 64 }
    ensures { result ≡ faults.fault_from 3 form.kinds.now form.rest words.old }
{
    let mut place = 3;
    for kind in form.kinds {
        let Some(word) = words.word() else {
            return Some(LineFault::Missing { kind: *kind });
        };
        if !kind.is_said_by(word) {
            let wrong = LineFault::Wrong { place, kind: *kind };
            return Some(wrong_word(place, word, wrong));
        }
        place += 1;
    }
    rest_fault(form.rest, place, words)
}

/// What is wrong with the words from this place on, where this rest belongs.
fn rest_fault(rest: Rest, place: u64, words: &mut Words) -> Option<LineFault>
    requires { place + length words.old < 2 ^ 64 }
    ensures { result ≡ faults.rest_fault rest place words.old }
{
    match rest {
        Rest::Nothing => end_fault(place, words),
        Rest::Message => message_fault(place, words),
        Rest::Bytes => bytes_fault(place, words),
        Rest::Channel => channel_fault(place, words),
    }
}

fn end_fault(place: u64, words: &mut Words) -> Option<LineFault>
    ensures { result ≡ faults.end_fault place words.old }
{
    let word = words.word()?;
    Some(wrong_word(place, word, LineFault::TooMany { place }))
}

fn message_fault(place: u64, words: &mut Words) -> Option<LineFault>
    requires { place + length words.old < 2 ^ 64 }
    ensures { result ≡ faults.message_fault place words.old }
{
    let mut same = words.again();
    if let Some(fault) = bytes_fault(place, words) {
        return Some(fault);
    }
    if say_message(&mut same) {
        None
    } else {
        Some(LineFault::NoMessage)
    }
}

fn bytes_fault(place: u64, words: &mut Words) -> Option<LineFault>
    requires { place + length words.old < 2 ^ 64 }
    ensures { result ≡ faults.bytes_fault place words.old }
{
    let mut next = place;
    while let Some(word) = words.word() {
        if !WordKind::Byte.is_said_by(word) {
            let wrong = LineFault::Wrong {
                place: next,
                kind: WordKind::Byte,
            };
            return Some(wrong_word(next, word, wrong));
        }
        next += 1;
    }
    if next == place {
        Some(LineFault::Missing {
            kind: WordKind::Byte,
        })
    } else {
        None
    }
}

fn channel_fault(place: u64, words: &mut Words) -> Option<LineFault>
    requires { place + length words.old < 2 ^ 64 }
    ensures { result ≡ faults.channel_fault place words.old }
{
    let word = words.word()?;
    if !WordKind::Number8.is_said_by(word) {
        let wrong = LineFault::Wrong {
            place,
            kind: WordKind::Number8,
        };
        return Some(wrong_word(place, word, wrong));
    }
    end_fault(place + 1, words)
}
