//! Ages that rise, and where one of them stands.

ghost use Rattle.std.specs.Prelude.{◌≡◌, ◌≤◌, ◌<◌, ◌+◌, ℕ, length, slice_index, IfSome, IfNone};
ghost use Rattle.std.specs.List.Sorted.{IsNonDecreasing};
ghost use Rattle.patch_graph.specs.Search.{StandsFrom};

/// The most ages among which six steps find one, each by half of what is left.
const MOST_BY_STEPS: usize = 64;

/// Where an age stands among ages that rise.
// Among few ages by steps of known lengths, of two tests each, for which `binary_search` takes nearly twice as long.
pub fn place_of_age(ages: &[u64], age: u64) -> Option<usize>
    requires { IsNonDecreasing ages.now }
    ensures there { IfSome result (λ i. (i < length ages.now) × (slice_index ages.now i ≡ age)) }
    ensures none { IfNone result ((i : ℕ) → i < length ages.now → slice_index ages.now i ≡ age → ⊥) }
{
    if ages.len() > MOST_BY_STEPS {
        return ages.binary_search(&age).ok();
    }
    let place = step_on::<32>(ages, age, 0);
    let place = step_on::<16>(ages, age, place);
    let place = step_on::<8>(ages, age, place);
    let place = step_on::<4>(ages, age, place);
    let place = step_on::<2>(ages, age, place);
    let place = step_on::<1>(ages, age, place);
    if place < ages.len() && ages[place] == age {
        return Some(place);
    }
    None
}

/// The place so many steps on, where the age there is not above the one that is looked for.
#[inline(always)]
fn step_on<const N: usize>(ages: &[u64], age: u64, place: usize) -> usize
    requires rising { IsNonDecreasing ages.now }
    requires small { (N ≤ 32) × (place ≤ length ages.now) }
    ensures within { result ≤ length ages.now }
    ensures stands { StandsFrom ages.now age place (N + N) → StandsFrom ages.now age result N }
{
    let next = place + N;
    if next < ages.len() && ages[next] <= age {
        next
    } else {
        place
    }
}
