//! A stream of bytes, read in any pieces.

ghost use Rattle.std.specs.Prelude.{◌≡◌, ◌≤◌, ◌<◌, ℕ, [], ◌∷◌, ◌++◌, length, take, nat_le, if◌then◌else◌, Bool, true, false, IsTrue, IfSome, IfNone, ◌+◌, ◌↔◌, IfOk, OnOk, OnErr, IsErrOf};
ghost use Rattle.std.specs.List.{position_or_len};
ghost use Rattle.std.specs.Rc.{rc_value};
ghost use Rattle.midi_wire.specs.declared.message.TheConstants.{SHARED};
ghost use Rattle.midi_wire.specs.Messages.{all_data, begins, exclusive_message, is_message, is_status, most_data};
ghost use Rattle.midi_wire.specs.Readings.{reading, rest};
ghost use Rattle.midi_wire.specs.Parsing.{next_group, data_in, message_in, GainsPrefix, IsExclusiveFront, NoExclusiveFront};

use crate::fault::WireFault;
use crate::message::{Message, SHARED};
use crate::status::{
    END_OF_EXCLUSIVE, EXCLUSIVE, FIRST_REAL_TIME, FIRST_STATUS, MOST_DATA, StatusClass, Width,
    is_real_time, is_status, is_voice_of_two,
};
use memory::OutOfMemory;
use smallvec::SmallVec;
use std::alloc::Global;
use std::marker::Model;
use std::rc::Rc;

/// What the last block of the stream waits for. A block is a status with the data up to the next status.
#[derive(Clone, Copy, Drop)]
enum LastBlock {
    /// Nothing: data is passed over.
    Idle,
    /// So many data bytes, of which none has come.
    Waiting { status: u8, width: Width },
    /// The second of two data bytes.
    Half { status: u8, first: u8 },
    /// The status that ends an exclusive message, whose data stands in `payload`.
    Collecting,
    /// The same, but the message has too much data and is not given.
    Overlong,
}

/// What is waited for after a whole message: data under running status, which only a channel message leaves.
#[inline]
fn next_group(status: u8, width: Width) -> LastBlock
    ensures { result ≡ next_group width status }
{
    if StatusClass::of(status).is_channel() {
        LastBlock::Waiting { status, width }
    } else {
        LastBlock::Idle
    }
}

/// Adds an exclusive message of this data.
// Not inline, so that the end of any other block costs little.
#[cold]
#[inline(never)]
fn tell_exclusive(alloc: Global, payload: &[u8], out: &mut Vec<Message>) -> Result<(), OutOfMemory>
    requires { IsTrue (is_message (exclusive_message payload.now)) }
    ensures told { OnOk result
        (out.new.items ≡ out.old.items ++ exclusive_message payload.now ∷ []) }
    ensures err { OnErr result (out.new.items ≡ out.old.items) }
{
    let message = Message::exclusive(alloc, payload)?;
    out.push(message)?;
    Ok(())
}

/// How many data bytes stand before the first status.
#[inline(always)]
fn data_len(bytes: &[u8]) -> usize
    ensures value { result ≡ position_or_len is_status bytes.now }
    ensures within { result ≤ length bytes.now }
{
    let mut n = 0;
    while n < bytes.len() && !is_status(bytes[n]) {
        n += 1;
    }
    n
}

/// How many data bytes an exclusive message has that stands first, from its status to F7.
#[inline(always)]
fn exclusive_count(bytes: &[u8]) -> Option<usize>
    ensures some { IfSome result (λ count. IsExclusiveFront bytes.now count) }
    ensures none { IfNone result (NoExclusiveFront bytes.now) }
{
    if let [status, data @ ..] = bytes
        && *status == EXCLUSIVE
    {
        let count = data_len(data);
        if count < data.len() && data[count] == END_OF_EXCLUSIVE {
            return Some(count);
        }
    }
    None
}

/// Adds data to that of an exclusive message, and answers whether it is not too much. What is too much takes no memory,
/// and drops what is there.
fn add_data(payload: &mut Vec<u8>, more: &[u8]) -> Result<bool, OutOfMemory>
    requires { length payload.old.items ≤ most_data }
    ensures fits { let all = payload.old.items ++ more.now in
        IfOk result (λ fits. fits ≡ nat_le (length all) most_data) }
    ensures added { let all = payload.old.items ++ more.now in
        OnOk result (payload.new.items ≡ (if nat_le (length all) most_data then all else [])) }
    ensures err { OnErr result (payload.new.items ≡ payload.old.items) }
{
    if more.len() > MOST_DATA - payload.len() {
        payload.clear();
        return Ok(false);
    }
    payload.extend_from_slice(more)?;
    Ok(true)
}

/// What of the stream so far still matters.
#[derive(Drop)]
struct OpenBlock {
    alloc: Global,
    block: LastBlock,
    payload: Vec<u8>,
}

impl Model for OpenBlock {
    ghost use Rattle.std.specs.Prelude.{List, ℕ};

    ghost Value = { List ℕ };

    ghost use Rattle.std.specs.Prelude.{IsTrue, ◌≤◌, length};
    ghost use Rattle.midi_wire.specs.Messages.{most_data};
    ghost use Rattle.midi_wire.specs.Parsing.{pending_bytes, is_sound};

    ghost view = { λ p. pending_bytes p.block p.payload.items };

    ghost invariant = { λ p. IsTrue (is_sound p.block p.payload.items)
        × (length p.payload.items ≤ most_data) };
}

impl OpenBlock {
    fn new(alloc: Global) -> OpenBlock
        ensures { result ≡ [] }
    {
        OpenBlock {
            alloc,
            block: LastBlock::Idle,
            payload: Vec::new(alloc),
        }
    }

    /// Ends the last block, since a status is about to come.
    #[inline(always)]
    fn end(&mut self, out: &mut Vec<Message>) -> Result<(), OutOfMemory>
        requires { rest self.old ≡ self.old }
        ensures told { OnOk result
            (out.new.items ≡ out.old.items ++ reading (self.old ++ END_OF_EXCLUSIVE ∷ [])) }
        ensures nothing { OnOk result (self.new ≡ []) }
        ensures err { OnErr result (out.new.items ≡ out.old.items) }
    {
        if let LastBlock::Collecting = self.block {
            tell_exclusive(self.alloc, self.payload.as_slice(), out)?;
        }
        self.block = LastBlock::Idle;
        Ok(())
    }

    /// Begins a block with this status.
    #[inline]
    fn begin(&mut self, status: u8, out: &mut Vec<Message>) -> Result<(), OutOfMemory>
        requires idle { self.old ≡ [] }
        requires high { FIRST_STATUS ≤ status }
        requires low { status < FIRST_REAL_TIME }
        ensures told { OnOk result (out.new.items ≡ out.old.items ++ reading (status ∷ [])) }
        ensures leaves { OnOk result (self.new ≡ rest (status ∷ [])) }
        ensures err { OnErr result (out.new.items ≡ out.old.items) }
    {
        match StatusClass::of(status) {
            StatusClass::Channel(width) | StatusClass::Common(width) => {
                self.block = LastBlock::Waiting { status, width };
            }
            StatusClass::Exclusive => {
                self.payload.clear();
                self.block = LastBlock::Collecting;
            }
            StatusClass::TuneRequest => out.push(Message::alone(status))?,
            StatusClass::RealTime | StatusClass::Nothing => {}
        }
        Ok(())
    }

    /// Takes a data byte, which joins the last block.
    #[inline]
    fn data(&mut self, byte: u8, out: &mut Vec<Message>) -> Result<(), OutOfMemory>
        requires settled { rest self.old ≡ self.old }
        requires low { byte < FIRST_STATUS }
        ensures told { OnOk result
            (out.new.items ≡ out.old.items ++ reading (self.old ++ byte ∷ [])) }
        ensures leaves { OnOk result (self.new ≡ rest (self.old ++ byte ∷ [])) }
        ensures err { OnErr result (out.new.items ≡ out.old.items) }
    {
        match self.block {
            LastBlock::Idle | LastBlock::Overlong => {}
            LastBlock::Waiting { status, width } => match width {
                Width::One => {
                    out.push(Message::with_one(status, byte))?;
                    self.block = next_group(status, width);
                }
                Width::Two => {
                    self.block = LastBlock::Half {
                        status,
                        first: byte,
                    };
                }
            },
            LastBlock::Half { status, first } => {
                out.push(Message::with_two(status, first, byte))?;
                self.block = next_group(status, Width::Two);
            }
            LastBlock::Collecting => {
                if !add_data(&mut self.payload, &[byte])? {
                    self.block = LastBlock::Overlong;
                }
            }
        }
        Ok(())
    }

    /// Takes the next byte.
    #[inline]
    fn take(&mut self, byte: u8, out: &mut Vec<Message>) -> Result<(), OutOfMemory>
        requires { rest self.old ≡ self.old }
        ensures told { OnOk result
            (out.new.items ≡ out.old.items ++ reading (self.old ++ byte ∷ [])) }
        ensures leaves { OnOk result (self.new ≡ rest (self.old ++ byte ∷ [])) }
        ensures err { OnErr result
            (GainsPrefix out.old.items out.new.items (reading (self.old ++ byte ∷ []))) }
    {
        if !is_status(byte) {
            return self.data(byte, out);
        }
        if !is_real_time(byte) {
            self.end(out)?;
            return self.begin(byte, out);
        }
        if let StatusClass::RealTime = StatusClass::of(byte) {
            out.push(Message::alone(byte))?;
        }
        Ok(())
    }

    /// Takes a whole message of a channel with two data bytes.
    #[inline(always)]
    fn take_voice(
        &mut self,
        status: u8,
        first: u8,
        second: u8,
        out: &mut Vec<Message>,
    ) -> Result<(), OutOfMemory>
        requires settled { rest self.old ≡ self.old }
        requires channel { begins status ≡ StatusClass.Channel Width.Two }
        requires first { first < FIRST_STATUS }
        requires second { second < FIRST_STATUS }
        ensures told { OnOk result
            (out.new.items ≡ out.old.items ++ reading (self.old ++ status ∷ first ∷ second ∷ [])) }
        ensures leaves { OnOk result (self.new ≡ rest (self.old ++ status ∷ first ∷ second ∷ [])) }
        ensures err { let stream = self.old ++ status ∷ first ∷ second ∷ [] in
            OnErr result (GainsPrefix out.old.items out.new.items (reading stream)) }
    {
        // No other block gives a message at its end.
        if let LastBlock::Collecting = self.block {
            self.end(out)?;
        }
        out.push(Message::with_two(status, first, second))?;
        self.block = LastBlock::Waiting {
            status,
            width: Width::Two,
        };
        Ok(())
    }

    /// Takes an exclusive message with `count` data bytes, which stand among these from this place on.
    #[inline(always)]
    fn take_exclusive(
        &mut self,
        bytes: &Rc<SmallVec<u8, SHARED>>,
        from: usize,
        count: usize,
        out: &mut Vec<Message>,
    ) -> Result<(), OutOfMemory>
        requires settled { rest self.old ≡ self.old }
        requires few { length (rc_value bytes.now).items ≤ SHARED }
        requires within { from + count ≤ length (rc_value bytes.now).items }
        requires data { IsTrue (all_data (data_in from count (rc_value bytes.now).items)) }
        ensures told { let message = message_in from count (rc_value bytes.now).items in
            OnOk result (out.new.items ≡ out.old.items ++ reading (self.old ++ message)) }
        ensures leaves { let message = message_in from count (rc_value bytes.now).items in
            OnOk result (self.new ≡ rest (self.old ++ message)) }
        ensures err { let message = message_in from count (rc_value bytes.now).items in
            OnErr result (GainsPrefix out.old.items out.new.items (reading (self.old ++ message))) }
    {
        self.end(out)?;
        out.push(Message::exclusive_in(bytes, from, count)?)?;
        Ok(())
    }

    /// Takes the exclusive messages that stand first, whole and one behind the other, and answers how many bytes. The
    /// first has `first` data bytes. They share one allocation.
    // Not inline, so that channel messages cost little.
    #[inline(never)]
    fn take_exclusives(
        &mut self,
        bytes: &[u8],
        first: usize,
        out: &mut Vec<Message>,
    ) -> Result<usize, OutOfMemory>
        requires settled { rest self.old ≡ self.old }
        requires few { length bytes.now ≤ SHARED }
        requires first { IsExclusiveFront bytes.now first }
        ensures within { IfOk result (λ n. (0 < n) × (n ≤ length bytes.now)) }
        ensures told { IfOk result (λ n.
            out.new.items ≡ out.old.items ++ reading (self.old ++ take n bytes.now)) }
        ensures leaves { IfOk result (λ n. self.new ≡ rest (self.old ++ take n bytes.now)) }
        ensures err { OnErr result
            (GainsPrefix out.old.items out.new.items (reading (self.old ++ bytes.now))) }
    {
        let shared = Rc::new(self.alloc, SmallVec::from_slice(self.alloc, bytes)?)?;
        let mut at = 0;
        let mut next = Some(first);
        while let Some(count) = next {
            self.take_exclusive(&shared, at + 1, count, out)?;
            at += count + 2;
            next = exclusive_count(&bytes[at..]);
        }
        Ok(at)
    }

    /// Takes the first bytes, and answers how many: a whole message of a channel with two data bytes where one stands
    /// there, also under running status; whole exclusive messages among the next `SHARED` bytes; all data bytes inside
    /// another; and else one byte.
    #[inline(always)]
    fn take_front(&mut self, bytes: &[u8], out: &mut Vec<Message>) -> Result<usize, OutOfMemory>
        requires settled { rest self.old ≡ self.old }
        requires some { 0 < length bytes.now }
        ensures within { IfOk result (λ n. (0 < n) × (n ≤ length bytes.now)) }
        ensures told { IfOk result (λ n.
            out.new.items ≡ out.old.items ++ reading (self.old ++ take n bytes.now)) }
        ensures leaves { IfOk result (λ n. self.new ≡ rest (self.old ++ take n bytes.now)) }
        ensures err { OnErr result
            (GainsPrefix out.old.items out.new.items (reading (self.old ++ bytes.now))) }
    {
        let byte = bytes[0];
        if is_status(byte) {
            if let [_, first, second, ..] = bytes
                && is_voice_of_two(byte)
                && !is_status(*first)
                && !is_status(*second)
            {
                self.take_voice(byte, *first, *second, out)?;
                return Ok(3);
            }
            let near = &bytes[..bytes.len().min(SHARED)];
            if let Some(count) = exclusive_count(near) {
                return self.take_exclusives(near, count, out);
            }
        } else if let LastBlock::Waiting { status, .. } = self.block
            && let [_, second, ..] = bytes
            && is_voice_of_two(status)
            && !is_status(*second)
        {
            out.push(Message::with_two(status, byte, *second))?;
            return Ok(2);
        } else if let LastBlock::Collecting = self.block {
            let count = data_len(bytes);
            if !add_data(&mut self.payload, &bytes[..count])? {
                self.block = LastBlock::Overlong;
            }
            return Ok(count);
        }
        self.take(byte, out)?;
        Ok(1)
    }
}

/// Reads a stream of bytes in any pieces, seen as what of the stream so far still matters, and whether memory was
/// refused.
///
/// It keeps running status ("Running Status"), gives real time messages where they stand, also inside other messages
/// ("System Real Time Messages"), and ends an exclusive message at any other status ("System Exclusive Messages"). It
/// holds the data of one exclusive message at most: data past 65,536 bytes takes no memory, and that message is not
/// given.
#[derive(Drop)]
pub struct StreamParser {
    pending: OpenBlock,
    failed: bool,
}

impl Model for StreamParser {
    ghost use Rattle.std.specs.Prelude.{◌≡◌, false};
    ghost use Rattle.midi_wire.specs.Parsing.{Parsing};
    ghost use Rattle.midi_wire.specs.Readings.{rest};

    ghost Value = { Parsing };

    ghost view = { λ p. record { rest = p.pending; failed = p.failed } };

    ghost invariant = { λ p. p.failed ≡ false → rest p.pending ≡ p.pending };
}

impl StreamParser {
    /// A parser at the beginning of a stream.
    pub fn new(alloc: Global) -> StreamParser
        ensures { result ≡ record { rest = []; failed = false } }
    {
        StreamParser {
            pending: OpenBlock::new(alloc),
            failed: false,
        }
    }

    /// Takes the next piece of the stream, adds each message that is whole now to `out`, and answers their number.
    ///
    /// Memory is taken for the room in `out` and for exclusive messages. After `OutOfMemory` the first of the messages,
    /// maybe none, have been added, and each later call answers `Failed`.
    pub fn feed(&mut self, piece: &[u8], out: &mut Vec<Message>) -> Result<usize, WireFault>
        ensures refused { IsErrOf result WireFault.Failed ↔ IsTrue self.old.failed }
        ensures told { OnOk result
            (out.new.items ≡ out.old.items ++ reading (self.old.rest ++ piece.now)) }
        ensures number { IfOk result (λ n. n ≡ length (reading (self.old.rest ++ piece.now))) }
        ensures state { OnOk result
            (self.new ≡ record { rest = rest (self.old.rest ++ piece.now); failed = false }) }
        ensures fails { OnErr result (self.new.failed ≡ true) }
        ensures prefix { OnErr result
            (GainsPrefix out.old.items out.new.items (reading (self.old.rest ++ piece.now))) }
    {
        if self.failed {
            return Err(WireFault::Failed);
        }
        let before = out.len();
        self.failed = true;
        let mut left = piece;
        while !left.is_empty() {
            let taken = self.pending.take_front(left, out)?;
            left = &left[taken..];
        }
        self.failed = false;
        Ok(out.len() - before)
    }
}
