//! Pools of events, and stores of cells.

use super::numbers::client;
use cell_pools::{CellKey, CellStore, InPool, PoolFault, PutFault, take_all};
use memory::OutOfMemory;
use node_table::ClientId;
use std::process::Abort;
use std::test::Fail;

/// Sizes, and why each is refused.
const SIZES: &[(u32, Option<PoolFault>)] = &[
    (0, Some(PoolFault::BadSize)),
    (1, None),
    (2000, None),
    (2001, Some(PoolFault::BadSize)),
    (u32::MAX, Some(PoolFault::BadSize)),
];

#[test]
fn pools_have_limits(rt: HostRuntime) {
    for (size, fault) in SIZES {
        match InPool::<u32>::new(rt.alloc(), *size) {
            Ok(pool) => assert!(rt; pool.size() == *size && fault.is_none(), "of {size}"),
            Err(refused) => assert!(rt; Some(refused) == *fault, "of {size}"),
        }
    }
}

// Offers the numbers from the first on at a moment, so many of them, and says how many were taken.
fn offered(pool: &mut InPool<u32>, moment: u64, first: u32, count: u32) -> u32 {
    let mut taken = 0u32;
    for turn in 0..count {
        if pool.offer(moment, first.wrapping_add(turn)) {
            taken = taken.wrapping_add(1);
        }
    }
    taken
}

// Whether these are the numbers from the first on, so many of them.
fn count_up(items: &[u32], first: u32, count: usize) -> bool {
    let mut next = first;
    for item in items {
        if *item != next {
            return false;
        }
        next = next.wrapping_add(1);
    }
    items.len() == count
}

/// A call on a pool of 2000, and what comes of it.
#[derive(Clone, Copy)]
enum PoolStep {
    /// From the first number on, so many are offered at moment 1, and so many taken.
    Offers(u32, u32, u32),
    /// At a moment so many are offered, and so many taken.
    OffersAt(u64, u32, u32),
    /// It listens from now on.
    Listens,
    /// It listens no longer.
    Waits,
    /// Whether it has room at a moment.
    HasRoom(u64, bool),
    /// At a moment so many come of which those beyond its room are lost at once.
    LosesBeyond(u64, u64),
    /// At most so many are taken. From the first number on, so many come.
    Takes(u32, u32, usize),
    /// So many wait, and so many are lost.
    Counts(u32, u64),
}

use self::PoolStep::*;

/// A pool that is new before the first step.
struct PoolCase {
    name: &'static str,
    steps: &'static [PoolStep],
}

const POOL_CASES: &[PoolCase] = &[
    PoolCase {
        name: "a full pool drops and counts",
        steps: &[
            Offers(0, 2000, 2000),
            Counts(2000, 0),
            Offers(5000, 10, 0),
            Counts(2000, 10),
        ],
    },
    PoolCase {
        name: "a pool drains in pieces",
        steps: &[
            Offers(0, 2000, 2000),
            Takes(700, 0, 700),
            Offers(2000, 800, 700),
            Takes(1, 700, 1),
            Takes(2000, 701, 1999),
            Takes(2000, 0, 0),
            Counts(0, 100),
        ],
    },
    PoolCase {
        name: "of each moment a pool that listens takes as much as may wait",
        steps: &[
            Listens,
            OffersAt(7, 2001, 2000),
            HasRoom(7, false),
            HasRoom(8, true),
            OffersAt(8, 1, 1),
            OffersAt(9, 2000, 2000),
            OffersAt(9, 3, 0),
            Counts(0, 4),
        ],
    },
    PoolCase {
        name: "what waited waits while a pool listens",
        steps: &[
            Offers(0, 2000, 2000),
            Listens,
            OffersAt(2, 5, 5),
            Counts(2000, 0),
            Waits,
            HasRoom(2, false),
            Takes(2000, 0, 2000),
            Counts(0, 0),
        ],
    },
    PoolCase {
        name: "a pool that begins to listen anew has all its room",
        steps: &[
            Listens,
            OffersAt(2, 2000, 2000),
            Listens,
            OffersAt(2, 1, 1),
            Counts(0, 0),
        ],
    },
    PoolCase {
        name: "what finds no room is counted before it comes",
        steps: &[
            Offers(0, 1500, 1500),
            LosesBeyond(1, 600),
            Listens,
            OffersAt(4, 1990, 1990),
            LosesBeyond(4, 12),
            LosesBeyond(5, 2000),
            Counts(1500, 102),
        ],
    },
];

fn pool_holds(pool: &mut InPool<u32>, step: PoolStep) -> Result<bool, OutOfMemory> {
    Ok(match step {
        Offers(first, count, taken) => offered(pool, 1, first, count) == taken,
        OffersAt(moment, count, taken) => offered(pool, moment, 0, count) == taken,
        Listens => {
            pool.listen();
            pool.is_listening()
        }
        Waits => {
            pool.unlisten();
            !pool.is_listening()
        }
        HasRoom(moment, room) => pool.has_room(moment) == room,
        LosesBeyond(moment, count) => {
            pool.lose_beyond(moment, count);
            true
        }
        Takes(most, first, count) => count_up(pool.take(most)?.as_slice(), first, count),
        Counts(waiting, lost) => (pool.waiting(), pool.lost(), pool.size())
            == (waiting, lost, 2000),
    })
}

fn assert_pool(
    rt: &impl Abort,
    pool: &mut InPool<u32>,
    case: &PoolCase,
) -> Result<(), OutOfMemory> {
    for (number, step) in case.steps.iter().enumerate() {
        assert!(rt; pool_holds(pool, *step)?, "{}: step {number}", case.name);
    }
    Ok(())
}

#[test]
fn pools_answer_step_by_step(rt: HostRuntime) -> Result<(), Fail> {
    for case in POOL_CASES {
        let mut pool = InPool::new(rt.alloc(), 2000).ok().expect(&rt, "memory");
        assert_pool(&rt, &mut pool, case)?;
    }
    Ok(())
}

// One cell is put, and one more when it is gone.
fn assert_put(rt: &impl Abort, store: &mut CellStore<char>) -> Result<(), Fail> {
    let one = client(rt, 128);
    store.set_size(one, 1);
    assert!(rt; (store.size(one), store.used(one)) == (1, 0));
    let key = store.put(one, 'a').ok().ok_or("full")?;
    assert!(rt; store.client_of(key) == Some(one));
    assert_taken(rt, store, key);
    let key = store.put(one, 'c').ok().ok_or("full")?;
    assert!(rt; store.take_owned(key) == Some((one, 'c')));
    Ok(())
}

// It is written, and taken once.
fn assert_taken(rt: &impl Abort, store: &mut CellStore<char>, key: CellKey) {
    if let Some(value) = store.get_mut(key) {
        *value = 'b';
    }
    assert!(rt; store.get(key).copied() == Some('b'));
    assert!(rt; store.take(key) == Some('b'));
    assert!(rt; store.take(key) == None);
    assert!(rt; store.get(key).is_none() && store.get_mut(key).is_none());
}

#[test]
fn a_store_puts_and_takes(rt: HostRuntime) -> Result<(), Fail> {
    let mut store = CellStore::new(rt.alloc());
    assert_put(&rt, &mut store)
}

fn sum_under(store: &CellStore<u32>, keys: &[CellKey]) -> u32 {
    let mut sum = 0u32;
    for key in keys {
        sum = sum.wrapping_add(store.get(*key).copied().unwrap_or(1000));
    }
    sum
}

// How many keys of a client are listed, and the sum of what is under them.
fn listed_of(store: &CellStore<u32>, of: ClientId) -> Result<(usize, u32), OutOfMemory> {
    let keys = store.keys_of(of)?;
    Ok((keys.len(), sum_under(store, &keys)))
}

// The same of all clients.
fn listed(store: &CellStore<u32>) -> Result<(usize, u32), OutOfMemory> {
    let keys = store.keys()?;
    Ok((keys.len(), sum_under(store, &keys)))
}

// Takes those of a client's cells that have an odd value, from the last on, and gives their sum.
fn take_odd(store: &mut CellStore<u32>, of: ClientId) -> u32 {
    let mut sum = 0u32;
    for index in (0..store.used(of)).rev() {
        if let Some(key) = store.nth_of(of, index) {
            if store.get(key).copied().unwrap_or(0) % 2 == 1 {
                sum = sum.wrapping_add(store.take(key).unwrap_or(0));
            }
        }
    }
    sum
}

/// A call on a store, and what comes of it. Clients are named by their numbers.
#[derive(Clone, Copy)]
enum StoreStep {
    SetsSize(u8, u32),
    Puts(u8, u32),
    /// There is no room for this value, which comes back.
    Refuses(u8, u32),
    /// Each of these clients puts a value, which count up from 0, and has a size of 10.
    Fills(&'static [u8]),
    /// A client has this size, and puts as many values, which count up from 0.
    FillsSize(u8, u32),
    Used(u8, u32),
    /// How many keys a client has, and the sum of what is under them.
    Lists(u8, usize, u32),
    /// The same of all clients.
    ListsAll(usize, u32),
    /// The odd values of a client, which have this sum, are taken.
    TakesOdd(u8, u32),
    Empties(u8),
}

use self::StoreStep::*;

/// A store that is new before the first step.
struct StoreCase {
    name: &'static str,
    steps: &'static [StoreStep],
}

const STORE_CASES: &[StoreCase] = &[
    StoreCase {
        name: "a new store lists no keys",
        steps: &[ListsAll(0, 0)],
    },
    StoreCase {
        name: "each client has its own size",
        steps: &[
            SetsSize(128, 2),
            Refuses(191, 1),
            Puts(128, 2),
            Puts(128, 3),
            Refuses(128, 4),
            SetsSize(191, 1),
            Puts(191, 5),
            SetsSize(128, 1),
            Refuses(128, 6),
            Used(128, 2),
            Used(191, 1),
        ],
    },
    StoreCase {
        name: "a client fills the greatest size, and another puts one more",
        steps: &[
            FillsSize(191, 2000),
            Refuses(191, 7),
            FillsSize(128, 1),
            Lists(191, 2000, 1_999_000),
            ListsAll(2001, 1_999_000),
        ],
    },
    StoreCase {
        name: "keys are listed",
        steps: &[
            Fills(&[128, 191, 128, 191, 150]),
            Lists(128, 2, 2),
            Lists(191, 2, 4),
            Lists(151, 0, 0),
            ListsAll(5, 10),
        ],
    },
    StoreCase {
        name: "a walk takes what it comes to",
        steps: &[
            Fills(&[128, 128, 128, 191, 128, 191, 128, 128, 128]),
            TakesOdd(128, 8),
            TakesOdd(128, 0),
            Used(128, 5),
            TakesOdd(191, 8),
            Used(191, 0),
        ],
    },
    StoreCase {
        name: "a client is emptied, and no other",
        steps: &[
            Fills(&[128, 191, 128, 128, 191]),
            Empties(128),
            Used(128, 0),
            Used(191, 2),
            ListsAll(2, 5),
        ],
    },
];

fn refuses(store: &mut CellStore<u32>, of: ClientId, value: u32) -> bool {
    match store.put(of, value) {
        Err(PutFault::Full(back)) => back == value,
        Ok(_) | Err(PutFault::OutOfMemory(_)) => false,
    }
}

fn fills(rt: &impl Abort, store: &mut CellStore<u32>, numbers: &[u8]) -> bool {
    let mut value = 0u32;
    for number in numbers {
        let of = client(rt, *number);
        store.set_size(of, 10);
        if store.put(of, value).is_err() {
            return false;
        }
        value = value.wrapping_add(1);
    }
    true
}

fn fills_size(store: &mut CellStore<u32>, of: ClientId, size: u32) -> bool {
    store.set_size(of, size);
    for value in 0..size {
        if store.put(of, value).is_err() {
            return false;
        }
    }
    true
}

fn store_holds(
    rt: &impl Abort,
    store: &mut CellStore<u32>,
    step: StoreStep,
) -> Result<bool, OutOfMemory> {
    Ok(match step {
        SetsSize(of, size) => {
            store.set_size(client(rt, of), size);
            true
        }
        Puts(of, value) => store.put(client(rt, of), value).is_ok(),
        Refuses(of, value) => refuses(store, client(rt, of), value),
        Fills(numbers) => fills(rt, store, numbers),
        FillsSize(of, size) => fills_size(store, client(rt, of), size),
        Used(of, count) => store.used(client(rt, of)) == count,
        Lists(of, count, sum) => listed_of(store, client(rt, of))? == (count, sum),
        ListsAll(count, sum) => listed(store)? == (count, sum),
        TakesOdd(of, sum) => take_odd(store, client(rt, of)) == sum,
        Empties(of) => {
            take_all(store, client(rt, of));
            true
        }
    })
}

fn assert_store(
    rt: &impl Abort,
    store: &mut CellStore<u32>,
    case: &StoreCase,
) -> Result<(), OutOfMemory> {
    for (number, step) in case.steps.iter().enumerate() {
        assert!(rt;
            store_holds(rt, store, *step)?,
            "{}: step {number}",
            case.name
        );
    }
    Ok(())
}

#[test]
fn stores_answer_step_by_step(rt: HostRuntime) -> Result<(), Fail> {
    for case in STORE_CASES {
        let mut store = CellStore::new(rt.alloc());
        assert_store(&rt, &mut store, case)?;
    }
    Ok(())
}

// A linear congruential generator, of the multiplier and the increment that Knuth gives.
#[derive(Drop)]
struct Random(u64);

impl Random {
    // Below the limit, of the upper bits.
    fn below(&mut self, limit: u64) -> u64 {
        self.0 = self
            .0
            .wrapping_mul(6364136223846793005)
            .wrapping_add(1442695040888963407);
        if limit == 0 {
            0
        } else {
            (self.0 >> 33) % limit
        }
    }
}

// A store, and beside it the same cells as a plain list of their clients, keys and values.
#[derive(Drop)]
struct Twins {
    store: CellStore<u32>,
    list: Vec<(u8, CellKey, u32)>,
}

impl Twins {
    fn count(&self, number: u8) -> usize {
        self.list.iter().filter(|cell| cell.0 == number).count()
    }

    fn put(&mut self, rt: &impl Abort, number: u8, value: u32) {
        let of = client(rt, number);
        match self.store.put(of, value) {
            Ok(key) => assert!(rt; self.list.push((number, key, value)).is_ok()),
            Err(_) => assert!(rt; self.count(number) == self.store.size(of) as usize),
        }
    }

    fn take(&mut self, rt: &impl Abort, index: u64) {
        if (index as usize) < self.list.len() {
            let (number, key, value) = self.list.swap_remove(index as usize);
            assert!(rt; self.store.client_of(key) == Some(client(rt, number)));
            assert!(rt; self.store.take(key) == Some(value));
        }
    }

    fn agree(&self, rt: &impl Abort, number: u8) {
        let used = self.store.used(client(rt, number));
        assert!(rt; used as usize == self.count(number));
    }
}

#[test]
fn counts_follow_the_cells(rt: HostRuntime) {
    let mut random = Random(7);
    let mut twins = Twins {
        store: CellStore::new(rt.alloc()),
        list: Vec::new(rt.alloc()),
    };
    twins.store.set_size(client(&rt, 128), 20);
    twins.store.set_size(client(&rt, 129), 33);
    for turn in 0..4000u32 {
        let number = if random.below(2) == 0 { 128 } else { 129 };
        if random.below(5) < 3 {
            twins.put(&rt, number, turn);
        } else {
            twins.take(&rt, random.below(60));
        }
        twins.agree(&rt, 128);
        twins.agree(&rt, 129);
    }
}
