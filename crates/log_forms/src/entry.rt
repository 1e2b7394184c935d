//! What the lines of a log say.

ghost use Rattle.std.specs.Prelude.{◌≡◌};
ghost use Rattle.std.specs.Option.{option_map};
ghost use Rattle.log_forms.specs.Entries.{arrival_of, got_of, skip_of, is_queue_state, queue_of, pools_of, ok_of, refusal_of, outcome_of, reply_of, timed_of, words_entry, entry_of};
ghost use Rattle.log_forms.specs.Kept.{arrival_seen, outcome_seen, entry_seen};

use crate::hex_text::HexText;
use crate::word::{Words, is_number, is_plain};

// The words of a log.

const SKIP: &[u8] = b"skip";

const GOT: &[u8] = b"got";

const PORT: &[u8] = b"port";

const LINE: &[u8] = b"line";

const OK: &[u8] = b"ok";

const REFUSED: &[u8] = b"refused";

const RUNNING: &[u8] = b"running";

const STOPPED: &[u8] = b"stopped";

const WAITING: &[u8] = b"waiting";

const LOST: &[u8] = b"lost";

const USED: &[u8] = b"used";

/// A message that came to a port.
#[derive(Drop)]
pub(crate) struct Arrival<'b> {
    pub(crate) moment: &'b [u8],
    pub(crate) port: &'b [u8],
    pub(crate) message: HexText<'b>,
}

/// How a command ended.
#[derive(Drop)]
pub(crate) enum Outcome<'b> {
    Done,
    Count(&'b [u8]),
    Queue {
        state: &'b [u8],
        tick: &'b [u8],
        nanos: &'b [u8],
    },
    Pools {
        waiting: &'b [u8],
        lost: &'b [u8],
        used: &'b [u8],
    },
    Refused {
        number: &'b [u8],
        name: &'b [u8],
    },
}

/// What a line of a log says. Its texts are words of the line.
#[derive(Drop)]
pub(crate) enum Entry<'b> {
    Skip {
        line: &'b [u8],
        reason: &'b [u8],
    },
    Delivery(Arrival<'b>),
    Received(Arrival<'b>),
    Reply {
        moment: &'b [u8],
        line: &'b [u8],
        outcome: Outcome<'b>,
    },
    /// A line of none of these forms.
    Listed(&'b [u8]),
}

/// Behind a moment and `port`.
fn arrival_of<'b>(moment: &'b [u8], words: &mut Words<'b>) -> Option<Arrival<'b>>
    ensures { option_map arrival_seen result ≡ arrival_of moment.now words.old }
{
    let port = words.word()?;
    if !is_number(moment) || !is_number(port) {
        return None;
    }
    let message = HexText::new(words.text()?)?;
    Some(Arrival {
        moment,
        port,
        message,
    })
}

/// Behind `got`.
fn got_of<'b>(words: &mut Words<'b>) -> Option<Arrival<'b>>
    ensures { option_map arrival_seen result ≡ got_of words.old }
{
    let moment = words.word()?;
    if words.word()? == PORT {
        arrival_of(moment, words)
    } else {
        None
    }
}

/// Behind `skip`.
fn skip_of<'b>(words: &mut Words<'b>) -> Option<Entry<'b>>
    ensures { option_map entry_seen result ≡ skip_of words.old }
{
    let line = words.word()?;
    let reason = words.word()?;
    if words.is_done() && is_number(line) && is_plain(reason) {
        Some(Entry::Skip { line, reason })
    } else {
        None
    }
}

fn is_queue_state(word: &[u8]) -> bool
    ensures { result ≡ is_queue_state word.now }
{
    word == RUNNING || word == STOPPED
}

/// Behind the state of the queue.
fn queue_of<'b>(state: &'b [u8], words: &mut Words<'b>) -> Option<Outcome<'b>>
    ensures { option_map outcome_seen result ≡ queue_of state.now words.old }
{
    let tick = words.word()?;
    let nanos = words.word()?;
    if words.is_done() && is_number(tick) && is_number(nanos) {
        Some(Outcome::Queue { state, tick, nanos })
    } else {
        None
    }
}

/// Behind `waiting`.
fn pools_of<'b>(words: &mut Words<'b>) -> Option<Outcome<'b>>
    ensures { option_map outcome_seen result ≡ pools_of words.old }
{
    let waiting = words.word()?;
    let lost_word = words.word()?;
    let lost = words.word()?;
    let used_word = words.word()?;
    let used = words.word()?;
    if words.is_done()
        && lost_word == LOST
        && used_word == USED
        && is_number(waiting)
        && is_number(lost)
        && is_number(used)
    {
        Some(Outcome::Pools {
            waiting,
            lost,
            used,
        })
    } else {
        None
    }
}

/// Behind `ok`.
fn ok_of<'b>(words: &mut Words<'b>) -> Option<Outcome<'b>>
    ensures { option_map outcome_seen result ≡ ok_of words.old }
{
    let Some(word) = words.word() else {
        return Some(Outcome::Done);
    };
    if is_queue_state(word) {
        queue_of(word, words)
    } else if word == WAITING {
        pools_of(words)
    } else if words.is_done() && is_number(word) {
        Some(Outcome::Count(word))
    } else {
        None
    }
}

/// Behind `refused`.
fn refusal_of<'b>(words: &mut Words<'b>) -> Option<Outcome<'b>>
    ensures { option_map outcome_seen result ≡ refusal_of words.old }
{
    let number = words.word()?;
    let name = words.word()?;
    if words.is_done() && is_number(number) && is_plain(name) {
        Some(Outcome::Refused { number, name })
    } else {
        None
    }
}

fn outcome_of<'b>(words: &mut Words<'b>) -> Option<Outcome<'b>>
    ensures { option_map outcome_seen result ≡ outcome_of words.old }
{
    let word = words.word()?;
    if word == OK {
        ok_of(words)
    } else if word == REFUSED {
        refusal_of(words)
    } else {
        None
    }
}

/// Behind a moment and `line`.
fn reply_of<'b>(moment: &'b [u8], words: &mut Words<'b>) -> Option<Entry<'b>>
    ensures { option_map entry_seen result ≡ reply_of moment.now words.old }
{
    let line = words.word()?;
    if !is_number(moment) || !is_number(line) {
        return None;
    }
    let outcome = outcome_of(words)?;
    Some(Entry::Reply {
        moment,
        line,
        outcome,
    })
}

/// Behind a moment.
fn timed_of<'b>(moment: &'b [u8], words: &mut Words<'b>) -> Option<Entry<'b>>
    ensures { option_map entry_seen result ≡ timed_of moment.now words.old }
{
    let word = words.word()?;
    if word == PORT {
        Some(Entry::Delivery(arrival_of(moment, words)?))
    } else if word == LINE {
        reply_of(moment, words)
    } else {
        None
    }
}

fn words_entry<'b>(words: &mut Words<'b>) -> Option<Entry<'b>>
    ensures { option_map entry_seen result ≡ words_entry words.old }
{
    let word = words.word()?;
    if word == SKIP {
        skip_of(words)
    } else if word == GOT {
        Some(Entry::Received(got_of(words)?))
    } else {
        timed_of(word, words)
    }
}

/// What a line says.
pub(crate) fn entry_of<'b>(line: &'b [u8]) -> Entry<'b>
    ensures { entry_seen result ≡ entry_of line.now }
{
    match words_entry(&mut Words::new(line)) {
        Some(entry) => entry,
        None => Entry::Listed(line),
    }
}
