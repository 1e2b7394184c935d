//! A binary heap in a vector, of which any element can be taken out.

ghost use Rattle.std.specs.Prelude.{◌≡◌, ◌<◌, ◌≤◌, ◌+◌, ◌*◌, [], ◌∷◌, Some, OnOk, OnErr, IfSome, IfNone, IsOk, length, slice_get, slice_set};
ghost use Rattle.std.specs.BinaryHeap.{lt_by_cmp, IsHeap, IsUpperBound, KeepsHeap};
ghost use Rattle.std.specs.BinaryHeap.Sift.{IsHeapWithHole};
ghost use Rattle.std.specs.List.Sorted.{IsPermutation};
ghost use Rattle.std.specs.Slice.{IsItemAt};
ghost use Rattle.std.specs.Slice.Heapsort.{IsNotBelowChildren};

use memory::OutOfMemory;

/// The greatest element, which stands first.
#[inline]
pub(crate) fn greatest<T: Ord>(heap: &[T]) -> Option<&T>
    ensures place { IsItemAt heap.now 0 result }
    ensures greatest { IfSome result (λ x.
        IsHeap T.cmp heap.now → IsUpperBound T.cmp x.now heap.now) }
    ensures none { IfNone result (heap.now ≡ []) }
{
    heap.first()
}

/// Adds an element.
#[inline]
pub(crate) fn push<T: Ord + Copy>(heap: &mut Vec<T>, item: T) -> Result<(), OutOfMemory>
    ensures permutation { OnOk result (IsPermutation (item ∷ heap.old.items) heap.new.items) }
    ensures order { KeepsHeap T.cmp heap.old.items heap.new.items }
    ensures same { OnErr result (heap.new.items ≡ heap.old.items) }
    ensures succeeds { heap.old.len < heap.old.cap → IsOk result }
{
    let end = heap.len();
    heap.push(item)?;
    rise(heap.as_mut_slice(), end, item);
    Ok(())
}

/// Takes out the element at a place; the last one goes to where it belongs.
pub(crate) fn take_at<T: Ord + Copy>(heap: &mut Vec<T>, place: usize) -> T
    requires { place < length heap.old.items }
    ensures item { slice_get heap.old.items place ≡ Some result }
    ensures permutation { IsPermutation heap.old.items (result ∷ heap.new.items) }
    ensures order { KeepsHeap T.cmp heap.old.items heap.new.items }
{
    let taken = heap.swap_remove(place);
    if place < heap.len() {
        settle(heap.as_mut_slice(), place);
    }
    taken
}

/// Moves the element at a place, which alone may stand wrongly, to where it belongs.
///
/// What it leaves goes down to a leaf first, at one comparison a level, since it came from the end and most often
/// belongs near it.
fn settle<T: Ord + Copy>(items: &mut [T], place: usize)
    requires { place < length items.old }
    ensures permutation { IsPermutation items.old items.new }
    ensures order { IsHeapWithHole (lt_by_cmp T.cmp) items.old place (length items.old)
        → IsHeap T.cmp items.new }
{
    let item = items[place];
    let mut hole = place;
    while hole < items.len() / 2 {
        let child = greater_child(items, hole);
        items[hole] = items[child];
        hole = child;
    }
    rise(items, hole, item);
}

/// Of an element's children one that is not less than the other.
#[inline]
fn greater_child<T: Ord>(items: &[T], parent: usize) -> usize
    requires { parent * 2 + 1 < length items.now }
    ensures low { parent * 2 + 1 ≤ result }
    ensures high { result ≤ parent * 2 + 2 }
    ensures within { result < length items.now }
    ensures greater { IsNotBelowChildren (lt_by_cmp T.cmp) items.now parent result
        (length items.now) }
{
    let left = parent * 2 + 1;
    if left + 1 >= items.len() {
        return left;
    }
    // A sum and no branch, since it could not be foretold.
    let is_right = items[left].cmp(&items[left + 1]).is_lt();
    left + is_right as usize
}

/// Moves a hole up from a leaf while its parent is less than the item, and puts the item there.
#[inline]
fn rise<T: Ord + Copy>(items: &mut [T], leaf: usize, item: T)
    requires within { leaf < length items.old }
    requires leaf { length items.old ≤ leaf * 2 + 1 }
    ensures permutation { IsPermutation (slice_set items.old leaf item) items.new }
    ensures order { IsHeapWithHole (lt_by_cmp T.cmp) items.old leaf (length items.old)
        → IsHeap T.cmp items.new }
{
    let mut hole = leaf;
    while hole > 0 {
        let parent = (hole - 1) / 2;
        let above = items[parent];
        if !above.cmp(&item).is_lt() {
            break;
        }
        items[hole] = above;
        hole = parent;
    }
    items[hole] = item;
}
