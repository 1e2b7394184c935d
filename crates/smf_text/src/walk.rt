//! The tracks of a file, chunk by chunk and pair by pair, with places in front of their lines or without.

ghost use Rattle.std.specs.Prelude.{◌≡◌, ◌≤◌, ◌^◌, ◌++◌, [], None, false, length, IfErr, IsTrue, OnOk, OnErr};
ghost use Rattle.byte_io.specs.Marks.{SinkMarks};
ghost use Rattle.smf_grammar.specs.Files.{IsFile};
ghost use Rattle.smf_files.specs.Playing.{is_whole, rest_of};
ghost use Rattle.tool_text.specs.Faults.{blames_sink, IsOutput};
ghost use Rattle.tool_text.specs.Gathered.{IsGathered, TookFirst};
ghost use Rattle.smf_text.specs.PlacedTexts.{placed_pairs, placed_track, placed_items};

use crate::lines::{push_place, push_placed_line};
use byte_io::Sink;
use memory::OutOfMemory;
use smf_files::SmfFile;
use smf_grammar::{chunk_at, pair_at};
use text_forms::push_decimal;
use tool_text::{ToolFault, spill};

/// Prints the lines of the pairs of a track after a text that was gathered. The content ends at this place of the file.
fn print_pairs<W: Sink>(
    is_placed: bool,
    end: u64,
    content: &[u8],
    text: &mut Vec<u8>,
    out: &mut W,
) -> Result<(), ToolFault>
    requires whole { IsTrue (is_whole None content.now) }
    requires small { length content.now ≤ 2 ^ 24 }
    requires within { length content.now ≤ end }
    requires sound { W.failed out.old ≡ false }
    ensures sent { OnOk result (IsGathered W.HasTaken out.old out.new text.new.items []
        (text.old.items
        ++ placed_pairs is_placed end None content.now 0 (rest_of None content.now))) }
    ensures short { OnErr result (TookFirst W.HasTaken out.old (text.old.items
        ++ placed_pairs is_placed end None content.now 0 (rest_of None content.now)) out.new) }
    ensures marks { SinkMarks W.failed W.takes_some out.old out.new (blames_sink result) }
    ensures only { IfErr result IsOutput }
{
    let mut left = content;
    let mut running = None;
    let mut tick = 0u64;
    'pairs: loop {
        let (pair, rest) = match pair_at(running, left) {
            Ok(found) => found,
            Err(_) => unreachable!(),
        };
        tick += pair.delta as u64;
        let place = end - left.len() as u64;
        push_placed_line(is_placed, place, tick, &pair.event, text)?;
        spill(text, out)?;
        if pair.event.is_end() {
            return Ok(());
        }
        running = pair.event.status_after();
        left = rest;
    }
}

/// Adds the line of a track with this number, whose chunk stands at this place.
fn push_number(
    is_placed: bool,
    place: u64,
    track: u16,
    text: &mut Vec<u8>,
) -> Result<(), OutOfMemory>
    ensures { OnOk result (text.new.items
        ≡ text.old.items ++ placed_track is_placed place track [] []) }
{
    push_place(is_placed, place, text)?;
    text.extend_from_slice(b"track ")?;
    push_decimal(text, track as u64)?;
    text.push(b'\n')?;
    Ok(())
}

/// Prints a track with this number, whose chunk stands at this place, after a text that was gathered.
fn print_track<W: Sink>(
    is_placed: bool,
    place: u64,
    track: u16,
    content: &[u8],
    text: &mut Vec<u8>,
    out: &mut W,
) -> Result<(), ToolFault>
    requires whole { IsTrue (is_whole None content.now) }
    requires small { length content.now ≤ 2 ^ 24 }
    requires near { place ≤ 2 ^ 24 }
    requires sound { W.failed out.old ≡ false }
    ensures sent { OnOk result (IsGathered W.HasTaken out.old out.new text.new.items []
        (text.old.items
        ++ placed_track is_placed place track content.now (rest_of None content.now))) }
    ensures short { OnErr result (TookFirst W.HasTaken out.old (text.old.items
        ++ placed_track is_placed place track content.now (rest_of None content.now)) out.new) }
    ensures marks { SinkMarks W.failed W.takes_some out.old out.new (blames_sink result) }
    ensures only { IfErr result IsOutput }
{
    push_number(is_placed, place, track, text)?;
    let end = place + 8 + content.len() as u64;
    print_pairs(is_placed, end, content, text, out)
}

/// Prints the tracks of the file that these bytes are after a text that was gathered. So much is left after its header.
pub(crate) fn print_tracks<W: Sink>(
    is_placed: bool,
    file: &SmfFile<'_>,
    bytes: &[u8],
    after: &[u8],
    text: &mut Vec<u8>,
    out: &mut W,
) -> Result<(), ToolFault>
    requires file { IsFile bytes.now file.now }
    requires headed { (w : IsFile bytes.now file.now) → w.after ≡ after.now }
    requires small { length bytes.now ≤ 2 ^ 24 }
    requires within { length after.now ≤ length bytes.now }
    requires sound { W.failed out.old ≡ false }
    ensures sent { OnOk result ((w : IsFile bytes.now file.now) →
        IsGathered W.HasTaken out.old out.new text.new.items []
        (text.old.items ++ placed_items is_placed (length bytes.now) 0 w.after w.items)) }
    ensures short { OnErr result ((w : IsFile bytes.now file.now) →
        TookFirst W.HasTaken out.old
        (text.old.items ++ placed_items is_placed (length bytes.now) 0 w.after w.items) out.new) }
    ensures marks { SinkMarks W.failed W.takes_some out.old out.new (blames_sink result) }
    ensures only { IfErr result IsOutput }
{
    let mut left = after;
    let mut track = 0u16;
    'tracks: while track < file.tracks() {
        let place = (bytes.len() - left.len()) as u64;
        let (chunk, rest) = match chunk_at(left) {
            Ok(found) => found,
            Err(_) => unreachable!(),
        };
        if chunk.is_track {
            print_track(is_placed, place, track, chunk.content, text, out)?;
            track += 1;
        }
        left = rest;
    }
    Ok(())
}
