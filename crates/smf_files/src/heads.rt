//! The tracks that are not over, as a heap: the one whose next message is the first of all on top.

ghost use Rattle.std.specs.Prelude.{◌≡◌, ◌≤◌, ◌<◌, ◌+◌, ◌*◌, ◌∷◌, ◌++◌, length, drop, vec_len, OnOk};
ghost use Rattle.std.specs.Option.{option_to_list};
ghost use Rattle.std.specs.List.Sorted.{IsPermutation};
ghost use Rattle.smf_files.specs.Playing.{is_later, IsHeapFrom, IsFirstChild};

use memory::OutOfMemory;

/// The place of a track that is not over.
// 16 bytes: a file may have 65,535 tracks, and each playback of it has such a place for each.
#[derive(Clone, Copy)]
pub(crate) struct TrackHead {
    /// When the next message comes.
    pub tick: u64,
    /// How many bytes of the track's content are left, from the delta time of that message on.
    pub left: u32,
    pub track: u16,
    /// The running status before it.
    pub running: Option<u8>,
}

/// Adds a head, where there is one.
pub(crate) fn push_head(
    heads: &mut Vec<TrackHead>,
    head: Option<TrackHead>,
) -> Result<(), OutOfMemory>
    ensures { OnOk result (heads.new.items ≡ heads.old.items ++ option_to_list head) }
{
    if let Some(head) = head {
        heads.push(head)?;
    }
    Ok(())
}

/// Whether a head comes later than another: at a later tick, or at the same one in a later track.
#[inline(always)]
fn is_later(a: TrackHead, b: TrackHead) -> bool
    ensures { result ≡ is_later a b }
{
    b.tick < a.tick || (b.tick == a.tick && b.track < a.track)
}

/// The first of the children of the head at `at`.
#[inline(always)]
fn first_child(heads: &[TrackHead], at: usize) -> usize
    requires { at * 2 + 1 < length heads.now }
    ensures within { result < length heads.now }
    ensures left { at * 2 + 1 ≤ result }
    ensures right { result ≤ at * 2 + 2 }
    ensures first { IsFirstChild heads.now at result }
{
    let left = at * 2 + 1;
    if heads.len() - left > 1 && is_later(heads[left], heads[left + 1]) {
        return left + 1;
    }
    left
}

/// Moves a head down to its place among those below it.
#[inline(always)]
fn sink(heads: &mut [TrackHead], from: usize)
    ensures order { IsHeapFrom (from + 1) heads.old → IsHeapFrom from heads.new }
    ensures permutation { IsPermutation heads.old heads.new }
{
    let mut at = from;
    'down: while at < heads.len() / 2 {
        let child = first_child(heads, at);
        if !is_later(heads[at], heads[child]) {
            return;
        }
        heads.swap(at, child);
        at = child;
    }
}

/// Brings heads into the order of a heap.
fn order(heads: &mut [TrackHead])
    ensures order { IsHeapFrom 0 heads.new }
    ensures permutation { IsPermutation heads.old heads.new }
{
    let mut from = heads.len() / 2;
    'up: while from > 0 {
        from -= 1;
        sink(heads, from);
    }
}

/// Makes a heap.
pub(crate) fn make_heap(heads: &mut Vec<TrackHead>)
    ensures order { IsHeapFrom 0 heads.new.items }
    ensures permutation { IsPermutation heads.old.items heads.new.items }
{
    order(heads.as_mut_slice());
}

/// Puts a head in the place of the first.
#[inline(always)]
fn replace_top(heads: &mut [TrackHead], head: TrackHead)
    requires { 0 < length heads.old }
    ensures order { IsHeapFrom 0 heads.old → IsHeapFrom 0 heads.new }
    ensures permutation { IsPermutation (head ∷ drop 1 heads.old) heads.new }
{
    heads[0] = head;
    sink(heads, 0);
}

/// Takes the first head away.
fn remove_top(heads: &mut Vec<TrackHead>)
    requires { 0 < vec_len heads.old }
    ensures order { IsHeapFrom 0 heads.old.items → IsHeapFrom 0 heads.new.items }
    ensures permutation { IsPermutation (drop 1 heads.old.items) heads.new.items }
{
    match heads.pop() {
        Some(last) => {
            if !heads.is_empty() {
                replace_top(heads.as_mut_slice(), last);
            }
        }
        None => unreachable!(),
    }
}

/// Puts the next head of its track in the place of the first; none where the track is over.
#[inline(always)]
pub(crate) fn replace_first(heads: &mut Vec<TrackHead>, next: Option<TrackHead>)
    requires { 0 < vec_len heads.old }
    ensures order { IsHeapFrom 0 heads.old.items → IsHeapFrom 0 heads.new.items }
    ensures permutation { IsPermutation (option_to_list next ++ drop 1 heads.old.items) heads.new.items }
{
    match next {
        Some(head) => replace_top(heads.as_mut_slice(), head),
        None => remove_top(heads),
    }
}
