//! Places that are closed in two lists, one beside the other.

ghost use Rattle.std.specs.Prelude.{◌≡◌, ◌≤◌, ◌<◌, ◌+◌, ◌-◌, length};
ghost use Rattle.std.specs.List.{remove};

use node_table::Addr;

/// Moves so many elements, from a place on, up by one.
// A move of a known length is a few loads and stores. One of any length moves an address after the other.
#[inline(always)]
fn move_up<T: Copy, const N: usize>(items: &mut [T], place: usize)
    requires { place + N < length items.old }
    ensures count { length items.new ≡ length items.old }
    ensures rest { remove items.new place ≡ remove items.old (place + N) }
{
    items.copy_within(place..place + N, place + 1);
}

/// Moves so many elements, from behind a place on, down by one.
// In the part that begins at the place, where no test is needed of which way they go.
#[inline(always)]
fn move_down<T: Copy, const N: usize>(items: &mut [T], place: usize)
    requires { place + N < length items.old }
    ensures count { length items.new ≡ length items.old }
    ensures rest { remove items.new (place + N) ≡ remove items.old place }
{
    items[place..].copy_within(1..1 + N, 0);
}

/// Moves what stands before a place up by one, so many at once as long as there are so many. It gives the place that is
/// then to be closed.
#[inline(always)]
fn lift<const N: usize>(nodes: &mut [Addr], ages: &mut [u64], place: usize) -> usize
    requires some { 0 < N }
    requires within { place < length nodes.old }
    requires beside { length ages.old ≡ length nodes.old }
    ensures few { (result < N) × (result < length nodes.old) }
    ensures nodes { remove nodes.new result ≡ remove nodes.old place }
    ensures ages { remove ages.new result ≡ remove ages.old place }
    ensures node_count { length nodes.new ≡ length nodes.old }
    ensures age_count { length ages.new ≡ length ages.old }
{
    let mut at = place;
    while at >= N {
        at -= N;
        move_up::<Addr, N>(nodes, at);
        move_up::<u64, N>(ages, at);
    }
    at
}

/// Moves what stands behind a place down by one, so many at once as long as there are so many. It takes and gives how
/// many stand from the place on that is to be closed.
#[inline(always)]
fn lower<const N: usize>(nodes: &mut [Addr], ages: &mut [u64], rest: usize) -> usize
    requires some { 0 < N }
    requires within { (0 < rest) × (rest ≤ length nodes.old) }
    requires beside { length ages.old ≡ length nodes.old }
    ensures few { (0 < result) × (result ≤ N) × (result ≤ length nodes.old) }
    ensures nodes { let count = length nodes.old in
        remove nodes.new (count - result) ≡ remove nodes.old (count - rest) }
    ensures ages { let count = length nodes.old in
        remove ages.new (count - result) ≡ remove ages.old (count - rest) }
    ensures node_count { length nodes.new ≡ length nodes.old }
    ensures age_count { length ages.new ≡ length ages.old }
{
    // Counted by what is left, as in `lift`, so that each smaller step is known to be taken at most once.
    let mut left = rest;
    while left > N {
        let at = nodes.len() - left;
        move_down::<Addr, N>(nodes, at);
        move_down::<u64, N>(ages, at);
        left -= N;
    }
    left
}

/// Closes a place by all that stands before it.
fn lift_all(nodes: &mut [Addr], ages: &mut [u64], place: usize)
    requires within { place < length nodes.old }
    requires beside { length ages.old ≡ length nodes.old }
    ensures nodes { remove nodes.new 0 ≡ remove nodes.old place }
    ensures ages { remove ages.new 0 ≡ remove ages.old place }
    ensures node_count { length nodes.new ≡ length nodes.old }
    ensures age_count { length ages.new ≡ length ages.old }
{
    let at = lift::<16>(nodes, ages, place);
    let at = lift::<8>(nodes, ages, at);
    let at = lift::<4>(nodes, ages, at);
    let at = lift::<2>(nodes, ages, at);
    lift::<1>(nodes, ages, at);
}

/// Closes a place by all that stands behind it.
fn lower_all(nodes: &mut [Addr], ages: &mut [u64], place: usize)
    requires within { place < length nodes.old }
    requires beside { length ages.old ≡ length nodes.old }
    ensures nodes { remove nodes.new (length nodes.old - 1) ≡ remove nodes.old place }
    ensures ages { remove ages.new (length nodes.old - 1) ≡ remove ages.old place }
    ensures node_count { length nodes.new ≡ length nodes.old }
    ensures age_count { length ages.new ≡ length ages.old }
{
    let rest = nodes.len() - place;
    let rest = lower::<16>(nodes, ages, rest);
    let rest = lower::<8>(nodes, ages, rest);
    let rest = lower::<4>(nodes, ages, rest);
    let rest = lower::<2>(nodes, ages, rest);
    lower::<1>(nodes, ages, rest);
}

/// Removes what stands at a place of both lists, by what stands before it from `first` on. So `first` itself is free.
pub fn close_upward(nodes: &mut Vec<Addr>, ages: &mut Vec<u64>, first: usize, place: usize)
    requires within { (first ≤ place) × (place < length nodes.old.items) }
    requires beside { length ages.old.items ≡ length nodes.old.items }
    ensures nodes { remove nodes.new.items first ≡ remove nodes.old.items place }
    ensures ages { remove ages.new.items first ≡ remove ages.old.items place }
    ensures node_count { length nodes.new.items ≡ length nodes.old.items }
    ensures age_count { length ages.new.items ≡ length ages.old.items }
{
    lift_all(&mut nodes[first..], &mut ages[first..], place - first);
}

/// Removes what stands at a place of both lists, by what stands behind it.
pub fn close_downward(nodes: &mut Vec<Addr>, ages: &mut Vec<u64>, place: usize)
    requires within { place < length nodes.old.items }
    requires beside { length ages.old.items ≡ length nodes.old.items }
    ensures nodes { nodes.new.items ≡ remove nodes.old.items place }
    ensures ages { ages.new.items ≡ remove ages.old.items place }
{
    lower_all(nodes, ages, place);
    nodes.pop();
    ages.pop();
}
