//! What waits to be read.

ghost use Rattle.std.specs.Prelude.{◌≡◌, ◌↔◌, ◌≤◌, ◌<◌, ◌^◌, length, IfOk, OnOk, OnErr, IsErrOf, true, false, if◌then◌else◌};
ghost use Rattle.cell_pools.specs.Pools.{most_waiting, is_size, empty_pool, taken_at, has_room, room_in, is_listening, listening_on, not_listening, with_item, after_offer, after_losses_of, oldest_items, after_take};

use crate::fault::PoolFault;
use crate::listening::Listening;
use circular_buffer::HeapCircularBuffer;
use memory::OutOfMemory;
use std::alloc::Global;
use std::marker::Model;

/// How many items a pool may hold at most.
pub const MOST_WAITING: u32 = 2000;

/// Whether a pool may have this size.
pub fn is_size(size: u32) -> bool
    ensures { result ≡ is_size size }
{
    (1..=MOST_WAITING).contains(&size)
}

/// What waits to be read, the oldest first. What finds no room is dropped and counted.
///
/// A pool that listens keeps nothing of what comes: it counts what came at the last moment, and takes as many items of
/// one moment as might wait in it. What waited when it began to listen waits still.
///
/// `new` takes all the memory that the items need, so a full pool costs what an empty one does.
#[derive(Drop)]
pub struct InPool<T> {
    alloc: Global,
    items: HeapCircularBuffer<T>,
    lost: u64,
    listening: Option<Listening>,
}

impl<T> Model for InPool<T> {
    ghost use Rattle.std.specs.Prelude.{length};
    ghost use Rattle.cell_pools.specs.Pools.{Pool, coded_pool, IsBounded};

    ghost Value = { Pool T };

    ghost coded = { coded_pool T.code };

    ghost view = { λ p.
        record {
          size = p.items.capacity;
          waiting = p.items.items;
          lost = p.lost;
          listening = p.listening;
        } };

    ghost invariant = { λ p. IsBounded p.items.capacity (length p.items.items) };
}

impl<T> InPool<T> {
    /// A pool in which nothing waits, for 1 to 2,000 items.
    pub fn new(alloc: Global, size: u32) -> Result<InPool<T>, PoolFault>
        ensures ok { IfOk result (λ p. p ≡ empty_pool size) }
        ensures bad_size { IsErrOf result PoolFault.BadSize ↔ (is_size size ≡ false) }
    {
        if !is_size(size) {
            return Err(PoolFault::BadSize);
        }
        let items = HeapCircularBuffer::with_capacity(alloc, size as usize)?;
        Ok(InPool {
            alloc,
            items,
            lost: 0,
            listening: None,
        })
    }

    /// Begins to listen, whether it did or not.
    pub fn listen(&mut self)
        ensures { self.new ≡ listening_on self.old }
    {
        self.listening = Some(Listening::new());
    }

    /// Listens no longer: what comes waits again.
    pub fn unlisten(&mut self)
        ensures { self.new ≡ not_listening self.old }
    {
        self.listening = None;
    }

    pub fn is_listening(&self) -> bool
        ensures { result ≡ is_listening self.now }
    {
        self.listening.is_some()
    }

    /// Takes an item that comes at this moment where there is room, and else drops and counts it. Whatever is counted
    /// as a moment will do, if it never falls. It takes no memory.
    pub fn offer(&mut self, moment: u64, item: T) -> bool
    where
        T: Drop,
        ensures taken { result ≡ has_room moment self.old }
        ensures after { self.new ≡ after_offer moment self.old item }
    {
        let taken = if self.listening.is_some() {
            self.hear(moment)
        } else {
            self.items.try_push_back(item).is_ok()
        };
        if !taken {
            self.lost = self.lost.saturating_add(1);
        }
        taken
    }

    // Apart, so that an offer to a pool that does not listen is small enough to be inlined.
    #[inline(never)]
    fn hear(&mut self, moment: u64) -> bool
        requires listens { is_listening self.old ≡ true }
        ensures taken { result ≡ has_room moment self.old }
        ensures after { (x : T) → let heard = with_item moment x self.old self.old.listening in
            self.new ≡ (if has_room moment self.old then heard else self.old) }
    {
        let most = self.size();
        match &mut self.listening {
            Some(listening) => listening.take(moment, most),
            None => false,
        }
    }

    /// Whether an item that comes at this moment would find room.
    pub fn has_room(&self, moment: u64) -> bool
        ensures { result ≡ has_room moment self.now }
    {
        self.taken_at(moment) < self.size()
    }

    /// For how many items more that come at this moment there is room.
    pub fn room(&self, moment: u64) -> u32
        ensures { result ≡ room_in moment self.now }
    {
        self.size().saturating_sub(self.taken_at(moment))
    }

    /// Counts as lost those for which there is no room, where so many items come at this moment, before any of them is
    /// offered.
    pub fn lose_beyond(&mut self, moment: u64, count: u64)
        ensures { self.new ≡ after_losses_of moment count self.old }
    {
        let room = u64::from(self.room(moment));
        self.lost = self.lost.saturating_add(count.saturating_sub(room));
    }

    fn taken_at(&self, moment: u64) -> u32
        ensures { result ≡ taken_at moment self.now }
    {
        match &self.listening {
            Some(listening) => listening.came_at(moment),
            None => self.waiting(),
        }
    }

    /// Takes the oldest items, `max` of them or all where there are fewer.
    ///
    /// Memory is for the answer alone. Where it is refused, all stays as it was.
    pub fn take(&mut self, max: u32) -> Result<Vec<T>, OutOfMemory>
    where
        T: Drop,
        ensures ok { IfOk result (λ items. items.items ≡ oldest_items max self.old) }
        ensures left { OnOk result (self.new ≡ after_take max self.old) }
        ensures err { OnErr result (self.new ≡ self.old) }
    {
        let count = self.items.len().min(max as usize);
        let mut taken = Vec::with_capacity(self.alloc, count)?;
        for _turn in 0..count {
            let item = self.items.pop_front().unwrap();
            taken.push_reserved(item);
        }
        Ok(taken)
    }

    /// How many items wait.
    pub fn waiting(&self) -> u32
        ensures value { result ≡ length self.now.waiting }
        ensures within { result ≤ self.now.size }
    {
        self.items.len() as u32
    }

    /// How many items found no room. The count stays at 2^64 - 1.
    pub fn lost(&self) -> u64
        ensures value { result ≡ self.now.lost }
        ensures bounded { self.now.lost < 2 ^ 64 }
    {
        self.lost
    }

    /// How many items may wait.
    pub fn size(&self) -> u32
        ensures value { result ≡ self.now.size }
        ensures least { 1 ≤ self.now.size }
        ensures most { self.now.size ≤ most_waiting }
    {
        self.items.capacity() as u32
    }
}
