//! What becomes of a message, in words.

ghost use Rattle.std.specs.Prelude.{◌≡◌, ◌++◌, OnOk};
ghost use Rattle.session_fates.specs.Told.{node_text, stop_text, fate_text};
ghost use Rattle.way_fates.specs.declared.stop.Stop.TheVariants.{Channel, NoteBelow, NoteAbove, NoteShifted};

use memory::OutOfMemory;
use node_table::Addr;
use std::alloc::Global;
use way_fates::{Fate, Stop};

/// Adds the address of a node.
pub(crate) fn push_node(text: &mut Vec<u8>, alloc: Global, node: &Addr) -> Result<(), OutOfMemory>
    ensures { OnOk result (text.new.items ≡ text.old.items ++ node_text node.now) }
{
    push_words(text, format!(in alloc; "{node}")?.as_str())
}

/// Adds words.
pub(crate) fn push_words(text: &mut Vec<u8>, words: &str) -> Result<(), OutOfMemory>
    ensures { OnOk result (text.new.items ≡ text.old.items ++ words.now) }
{
    text.extend_from_slice(words.as_bytes())?;
    Ok(())
}

/// Adds words, and more behind them.
fn push_both(text: &mut Vec<u8>, words: &str, more: &str) -> Result<(), OutOfMemory>
    ensures { OnOk result (text.new.items ≡ text.old.items ++ (words.now ++ more.now)) }
{
    push_words(text, words)?;
    push_words(text, more)
}

/// Adds the test that a message fails.
fn push_stop(text: &mut Vec<u8>, alloc: Global, why: Stop) -> Result<(), OutOfMemory>
    ensures { OnOk result (text.new.items ≡ text.old.items ++ stop_text why) }
{
    match why {
        Stop::Kind => push_words(text, "messages of its kind are not let through"),
        Stop::Channel(channel) => push_channel(text, alloc, channel),
        Stop::NoteBelow { note, low } => push_below(text, alloc, note, low),
        Stop::NoteAbove { note, high } => push_above(text, alloc, note, high),
        Stop::NoteShifted { note, shift } => push_shifted(text, alloc, note, shift),
    }
}

/// Adds that a note lies below a range.
fn push_below(text: &mut Vec<u8>, alloc: Global, note: u8, low: u8) -> Result<(), OutOfMemory>
    ensures { OnOk result (text.new.items ≡ text.old.items ++ stop_text (NoteBelow note low)) }
{
    push_words(
        text,
        format!(in alloc; "note {note} is below {low}")?.as_str(),
    )
}

/// Adds that a note lies above a range.
fn push_above(text: &mut Vec<u8>, alloc: Global, note: u8, high: u8) -> Result<(), OutOfMemory>
    ensures { OnOk result (text.new.items ≡ text.old.items ++ stop_text (NoteAbove note high)) }
{
    push_words(
        text,
        format!(in alloc; "note {note} is above {high}")?.as_str(),
    )
}

/// Adds that a note that is shifted is none.
fn push_shifted(text: &mut Vec<u8>, alloc: Global, note: u8, shift: i16) -> Result<(), OutOfMemory>
    ensures { OnOk result (text.new.items ≡ text.old.items ++ stop_text (NoteShifted note shift)) }
{
    let note = format!(in alloc; "note {note} shifted by ")?;
    let shift = format!(in alloc; "{shift} is no note")?;
    push_both(text, note.as_str(), shift.as_str())
}

/// Adds that a channel is not let through.
fn push_channel(text: &mut Vec<u8>, alloc: Global, channel: u8) -> Result<(), OutOfMemory>
    ensures { OnOk result (text.new.items ≡ text.old.items ++ stop_text (Channel channel)) }
{
    let number = u16::from(channel) + 1;
    push_words(
        text,
        format!(in alloc; "channel {number} is not let through")?.as_str(),
    )
}

/// Adds what becomes of a message.
pub(crate) fn push_fate(text: &mut Vec<u8>, alloc: Global, fate: Fate) -> Result<(), OutOfMemory>
    ensures { OnOk result (text.new.items ≡ text.old.items ++ fate_text fate) }
{
    match fate {
        Fate::Stopped { why, .. } => {
            push_words(text, " stopped: ")?;
            push_stop(text, alloc, why)
        }
        Fate::Arrives => push_words(text, " arrives"),
        Fate::Lost { size } => {
            push_words(
                text,
                format!(in alloc; " lost: pool of {size} full")?.as_str(),
            )
        }
    }
}
