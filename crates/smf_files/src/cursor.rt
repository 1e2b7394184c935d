//! The events of a file, one after another.

ghost use Rattle.std.specs.Prelude.{◌≡◌, ◌<◌, ◌^◌, [], ◌∷◌, length, IfOk, IfSome, IfNone, OnErr, slice_get, IsTrue, map};
ghost use Rattle.std.specs.List.{list_all};
ghost use Rattle.std.specs.Option.{option_map};
ghost use Rattle.std.specs.Rc.{rc_value};
ghost use Rattle.smf_files.specs.Kept.{is_track};
ghost use Rattle.smf_files.specs.Playing.{all_events, still_to_come, IsPlaying, IsNextExclusive};

use crate::heads::{TrackHead, make_heap, push_head, replace_first};
use crate::place::{find, message_of, open};
use memory::OutOfMemory;
use smf_grammar::Event;
use std::alloc::Global;
use std::marker::Model;
use std::rc::Rc;

/// The events of a file that are still to come, in order of tick, at one tick by track, and within a track in its
/// order.
///
/// It keeps no list of events, but a place for each track that has events left, and shares the rest with the file.
#[derive(Drop)]
pub struct Cursor<'b> {
    alloc: Global,
    contents: Rc<Vec<&'b [u8]>>,
    heads: Vec<TrackHead>,
}

impl<'b> Model for Cursor<'b> {
    ghost use Rattle.std.specs.Prelude.{List, map};
    ghost use Rattle.std.specs.Rc.{rc_value};
    ghost use Rattle.smf_grammar.specs.declared.event.Event.{Event};
    ghost use Rattle.smf_files.specs.Playing.{still_to_come, IsPlaying};

    ghost Value = { List Event };

    ghost view = { λ c. still_to_come (map (λ b. b.now) (rc_value c.contents).items) c.heads.items };

    ghost invariant = { λ c. IsPlaying (map (λ b. b.now) (rc_value c.contents).items) c.heads.items };
}

/// The heads at the beginning of tracks with these contents.
fn first_heads(alloc: Global, contents: &[&[u8]]) -> Result<Vec<TrackHead>, OutOfMemory>
    requires tracks { IsTrue (list_all is_track (map (λ b. b.now) contents.now)) }
    requires few { length contents.now < 2 ^ 16 }
    ensures playing { IfOk result (λ heads. IsPlaying (map (λ b. b.now) contents.now) heads.items) }
    ensures events { IfOk result (λ heads. still_to_come (map (λ b. b.now) contents.now) heads.items
        ≡ all_events (map (λ b. b.now) contents.now)) }
{
    let mut heads = Vec::with_capacity(alloc, contents.len())?;
    for i in 0..contents.len() {
        push_head(&mut heads, find(i as u16, 0, None, contents[i]))?;
    }
    // A playback keeps no room for the tracks without events.
    heads.shrink_to_fit();
    make_heap(&mut heads);
    Ok(heads)
}

/// A cursor at the beginning of tracks with these contents.
pub(crate) fn play<'b>(
    alloc: Global,
    contents: Rc<Vec<&'b [u8]>>,
) -> Result<Cursor<'b>, OutOfMemory>
    requires tracks { IsTrue (list_all is_track (map (λ b. b.now) (rc_value contents).items)) }
    requires few { length (rc_value contents).items < 2 ^ 16 }
    ensures { IfOk result (λ c. c
        ≡ all_events (map (λ b. b.now) (rc_value contents.entry).items)) }
{
    let heads = first_heads(alloc, contents.as_slice())?;
    Ok(Cursor {
        alloc,
        contents,
        heads,
    })
}

impl<'b> Cursor<'b> {
    /// The tick of the next event.
    pub fn peek_tick(&self) -> Option<u64>
        ensures { result ≡ option_map (λ e. e.tick) (slice_get self.now 0) }
    {
        match self.heads.first() {
            Some(head) => Some(head.tick),
            None => None,
        }
    }

    /// Takes the next event. Memory is taken for an exclusive message alone; where there is none, the cursor stays.
    pub fn next(&mut self) -> Result<Option<Event>, OutOfMemory>
        ensures some { IfOk result (λ r. IfSome r (λ e. self.old ≡ e ∷ self.new)) }
        ensures none { IfOk result (λ r. IfNone r (self.old ≡ [])) }
        ensures over { IfOk result (λ r. IfNone r (self.new ≡ [])) }
        ensures err { OnErr result (self.new ≡ self.old) }
        ensures exclusive { OnErr result (IsNextExclusive self.old) }
    {
        let head = match self.heads.first() {
            Some(head) => *head,
            None => return Ok(None),
        };
        let opened = open(head, self.contents[head.track as usize]);
        let message = message_of(self.alloc, &opened.event)?;
        let next = find(head.track, head.tick, opened.running, opened.left);
        replace_first(&mut self.heads, next);
        Ok(Some(Event {
            tick: head.tick,
            message,
        }))
    }
}
