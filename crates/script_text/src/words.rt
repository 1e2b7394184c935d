//! A cursor over the words of a line.

ghost use Rattle.std.specs.Prelude.{◌≡◌, ◌≤◌, ◌<◌, ◌^◌, ℕ, nat_le, ◌∷◌, codes, length, take, [], Some, None, IfSome, IfNone, IfOk, IfErr, IsErrOf, map, OnOk, OnErr, OnSome, true, false};
ghost use Rattle.script_text.specs.Words.{is_blank, words};
ghost use Rattle.std.specs.List.{list_all, position, position_or_len, prefix_len};
ghost use Rattle.script_text.specs.Table.{word_as, no_more, maybe, file};
ghost use Rattle.std.specs.Option.{option_map};
ghost use Rattle.script_text.specs.Numbers.{hex_bytes, some_bytes};
ghost use Rattle.script_text.specs.Numbers as says;
ghost use Rattle.script_text.specs.declared.script.TheConstants.{MOST_FILES};

use crate::address::{addr_of, due_of, hex_byte, hex_digit, number_of_name, queue_of};
use crate::number::{
    caps_of, filter_of, number_of, port_of, queue_no_of, shift_of, u8_of, u16_of, u32_of,
};
use crate::unread::Unread;
use node_table::{Addr, Caps, ClientId, FilterNo, PortNo, QueueAddr, QueueNo};
use seq_state::DueAt;
use smallvec::SmallVec;
use std::alloc::Global;
use std::marker::Model;

/// So many bytes of a line take no memory: most messages have three or less.
const SHORT: usize = 8;

/// The words of a line that are left.
#[derive(Drop)]
pub(crate) struct Words<'b> {
    rest: &'b [u8],
}

impl<'b> Model for Words<'b> {
    ghost use Rattle.std.specs.Prelude.{List, ℕ};
    ghost use Rattle.script_text.specs.Words.{words};

    ghost Value = { List (List ℕ) };

    ghost view = { λ w. words w.rest.now };
}

/// Whether a byte parts words: a space or a tab.
#[inline]
pub fn is_blank(byte: u8) -> bool
    ensures { result ≡ is_blank byte }
{
    byte == b' ' || byte == b'\t'
}

/// How many blanks stand at the front.
#[inline]
fn blanks(bytes: &[u8]) -> usize
    ensures value { result ≡ prefix_len is_blank bytes.now }
    ensures within { result ≤ length bytes.now }
{
    let mut n = 0;
    while n < bytes.len() && is_blank(bytes[n]) {
        n += 1;
    }
    n
}

fn first_blank(bytes: &[u8]) -> Option<usize>
    ensures { result ≡ position is_blank bytes.now }
{
    bytes.iter().position(|b| is_blank(*b))
}

/// The place of the first byte that is not above a space.
#[inline]
fn first_low(bytes: &[u8]) -> Option<usize>
    ensures value { result ≡ position (λ b. nat_le b 32) bytes.now }
    ensures within { IfSome result (λ n. n < length bytes.now) }
{
    bytes.iter().position(|b| *b <= b' ')
}

/// How long the word at the front is: a line that begins with a blank has one of no bytes.
#[inline]
pub fn word_len(bytes: &[u8]) -> usize
    ensures value { result ≡ position_or_len is_blank bytes.now }
    ensures within { result ≤ length bytes.now }
{
    // Words have few bytes below the blanks: one comparison passes over each other.
    match first_low(bytes) {
        Some(place) if !is_blank(bytes[place]) => longer_word_len(bytes),
        Some(place) => place,
        None => bytes.len(),
    }
}

/// The same, of a word with any bytes.
#[cold]
#[inline(never)]
fn longer_word_len(bytes: &[u8]) -> usize
    ensures value { result ≡ position_or_len is_blank bytes.now }
    ensures within { result ≤ length bytes.now }
{
    first_blank(bytes).unwrap_or(bytes.len())
}

/// The number at the front and how many digits it has, where a word of 1 to 19 digits stands there. So many fit.
// Looking for the word's end first would take two passes over the digits.
#[inline]
fn front_number(bytes: &[u8]) -> Option<(u64, usize)>
    ensures value { IfSome result (λ p. says.u64 (take p.1 bytes.now) ≡ Some p.0) }
    ensures digits { IfSome result (λ p. list_all says.is_digit (take p.1 bytes.now) ≡ true) }
    ensures whole { IfSome result (λ p. p.1 ≡ position_or_len is_blank bytes.now) }
    ensures within { IfSome result (λ p. p.1 ≤ length bytes.now) }
    ensures some { IfSome result (λ p. 1 ≤ p.1) }
{
    let most = bytes.len().min(19);
    let mut value = 0;
    let mut n = 0;
    while n < most && bytes[n] >= b'0' && bytes[n] <= b'9' {
        value = value * 10 + u64::from(bytes[n] - b'0');
        n += 1;
    }
    if n == 0 || (n < bytes.len() && !is_blank(bytes[n])) {
        return None;
    }
    Some((value, n))
}

impl<'b> Words<'b> {
    pub(crate) fn new(line: &'b [u8]) -> Words<'b>
        ensures { result ≡ words line.now }
    {
        Words { rest: line }
    }

    /// The same words once more.
    pub(crate) fn again(&self) -> Words<'b>
        ensures { result ≡ self.now }
    {
        Words { rest: self.rest }
    }

    /// A line has fewer words than a slice has bytes at most. It does nothing.
    pub(crate) fn are_few(&self)
        ensures { length self.now ≤ 2 ^ 63 }
    {
        // The length is known only once it is read.
        let _len = self.rest.len();
    }

    /// The next word.
    #[inline]
    pub(crate) fn word(&mut self) -> Option<&'b [u8]>
        ensures some { IfSome result (λ w. self.old ≡ w.now ∷ self.new) }
        ensures none { IfNone result (self.old ≡ []) }
    {
        let line = &self.rest[blanks(self.rest)..];
        if line.is_empty() {
            return None;
        }
        let (word, rest) = line.split_at(word_len(line));
        self.rest = rest;
        Some(word)
    }

    /// The number that the next word says, where it is one digit that single spaces part from the other words.
    #[inline]
    fn spaced_digit(&mut self) -> Option<u8>
        ensures some { IfSome result (λ n. (most : ℕ) → 9 ≤ most
            → word_as (says.up_to most) self.old ≡ Some (n, self.new)) }
        ensures small { IfSome result (λ n. n ≤ 9) }
        ensures none { IfNone result (self.new ≡ self.old) }
    {
        if let [b' ', digit @ b'0'..=b'9', rest @ ..] = self.rest {
            if let [] | [b' ', ..] = rest {
                self.rest = rest;
                return Some(*digit - b'0');
            }
        }
        None
    }

    /// The number that the next word says, where the line begins with it and it has 1 to 19 digits.
    #[inline]
    pub(crate) fn first_number(&mut self) -> Option<u64>
        ensures some { IfSome result (λ n. word_as says.u64 self.old ≡ Some (n, self.new)) }
        ensures none { IfNone result (self.new ≡ self.old) }
    {
        let (value, len) = front_number(self.rest)?;
        self.rest = &self.rest[len..];
        Some(value)
    }

    /// Whether the next word is `schedule`, where single spaces part it from the others. It is then passed over.
    #[inline]
    pub(crate) fn pass_schedule(&mut self) -> bool
        ensures yes { result ≡ true → self.old ≡ codes "schedule" ∷ self.new }
        ensures no { result ≡ false → self.new ≡ self.old }
    {
        if let [
            b' ',
            b's',
            b'c',
            b'h',
            b'e',
            b'd',
            b'u',
            b'l',
            b'e',
            rest @ ..,
        ] = self.rest
        {
            if let [b' ', ..] = rest {
                self.rest = rest;
                return true;
            }
        }
        false
    }

    /// The queue that the next word names, where it is as `128:q0` and single spaces part it from the other words.
    #[inline]
    fn spaced_queue(&mut self) -> Option<QueueAddr>
        ensures some { IfSome result (λ q. word_as says.queue self.old ≡ Some (q, self.new)) }
        ensures none { IfNone result (self.new ≡ self.old) }
    {
        if let [
            b' ',
            b'1',
            tens @ b'2'..=b'9',
            ones @ b'0'..=b'9',
            b':',
            b'q',
            digit @ b'0'..=b'7',
            rest @ ..,
        ] = self.rest
        {
            if let [] | [b' ', ..] = rest {
                let client = ClientId::new(100 + (*tens - b'0') * 10 + (*ones - b'0'))?;
                let queue = QueueNo::new(*digit - b'0')?;
                self.rest = rest;
                return Some(QueueAddr { client, queue });
            }
        }
        None
    }

    /// The due time that the next word says, where it is as `t480` or `n100` and single spaces part it from the others.
    #[inline]
    fn spaced_due(&mut self) -> Option<DueAt>
        ensures some { IfSome result (λ d. word_as says.due_word self.old ≡ Some (d, self.new)) }
        ensures none { IfNone result (self.new ≡ self.old) }
    {
        match self.rest {
            [b' ', b't', digits @ ..] => {
                let (ticks, len) = front_number(digits)?;
                self.rest = &digits[len..];
                Some(DueAt::Tick(ticks))
            }
            [b' ', b'n', digits @ ..] => {
                let (nanos, len) = front_number(digits)?;
                self.rest = &digits[len..];
                Some(DueAt::Nanos(nanos))
            }
            _ => None,
        }
    }

    /// The next word, whatever it is.
    pub(crate) fn any(&mut self) -> Result<&'b [u8], Unread>
        ensures ok { IfOk result (λ w. word_as says.any self.old ≡ Some (w.now, self.new)) }
        ensures err { OnErr result (word_as says.any self.old ≡ None) }
        ensures only { IfErr result (λ e. e ≡ Unread.Unreadable) }
    {
        let word = self.word().ok_or(Unread::Unreadable)?;
        Ok(word)
    }

    /// No word is left.
    pub(crate) fn end(&mut self) -> Result<(), Unread>
        ensures ok { OnOk result (no_more self.old ≡ true) }
        ensures err { OnErr result (no_more self.old ≡ false) }
        ensures only { IfErr result (λ e. e ≡ Unread.Unreadable) }
    {
        match self.word() {
            Some(_) => Err(Unread::Unreadable),
            None => Ok(()),
        }
    }

    /// A number of 64 bits.
    pub(crate) fn u64(&mut self) -> Result<u64, Unread>
        ensures ok { IfOk result (λ x. word_as says.u64 self.old ≡ Some (x, self.new)) }
        ensures err { OnErr result (word_as says.u64 self.old ≡ None) }
        ensures only { IfErr result (λ e. e ≡ Unread.Unreadable) }
    {
        let word = self.word().ok_or(Unread::Unreadable)?;
        let value = number_of(word).ok_or(Unread::Unreadable)?;
        Ok(value)
    }

    /// A number of 32 bits.
    pub(crate) fn u32(&mut self) -> Result<u32, Unread>
        ensures ok { IfOk result (λ x. word_as says.u32 self.old ≡ Some (x, self.new)) }
        ensures err { OnErr result (word_as says.u32 self.old ≡ None) }
        ensures only { IfErr result (λ e. e ≡ Unread.Unreadable) }
    {
        let word = self.word().ok_or(Unread::Unreadable)?;
        let value = u32_of(word).ok_or(Unread::Unreadable)?;
        Ok(value)
    }

    /// A number of 16 bits.
    pub(crate) fn u16(&mut self) -> Result<u16, Unread>
        ensures ok { IfOk result (λ x. word_as says.u16 self.old ≡ Some (x, self.new)) }
        ensures err { OnErr result (word_as says.u16 self.old ≡ None) }
        ensures only { IfErr result (λ e. e ≡ Unread.Unreadable) }
    {
        let word = self.word().ok_or(Unread::Unreadable)?;
        let value = u16_of(word).ok_or(Unread::Unreadable)?;
        Ok(value)
    }

    /// A number of 8 bits.
    pub(crate) fn u8(&mut self) -> Result<u8, Unread>
        ensures ok { IfOk result (λ x. word_as says.u8 self.old ≡ Some (x, self.new)) }
        ensures err { OnErr result (word_as says.u8 self.old ≡ None) }
        ensures only { IfErr result (λ e. e ≡ Unread.Unreadable) }
    {
        let word = self.word().ok_or(Unread::Unreadable)?;
        let value = u8_of(word).ok_or(Unread::Unreadable)?;
        Ok(value)
    }

    /// A number of semitones.
    pub(crate) fn shift(&mut self) -> Result<i16, Unread>
        ensures ok { IfOk result (λ x. word_as says.shift self.old ≡ Some (x, self.new)) }
        ensures err { OnErr result (word_as says.shift self.old ≡ None) }
        ensures only { IfErr result (λ e. e ≡ Unread.Unreadable) }
    {
        let word = self.word().ok_or(Unread::Unreadable)?;
        let value = shift_of(word).ok_or(Unread::Unreadable)?;
        Ok(value)
    }

    /// The number of a port.
    pub(crate) fn port(&mut self) -> Result<PortNo, Unread>
        ensures ok { IfOk result (λ x. word_as says.node_number self.old ≡ Some (x, self.new)) }
        ensures err { OnErr result (word_as says.node_number self.old ≡ None) }
        ensures only { IfErr result (λ e. e ≡ Unread.Unreadable) }
    {
        if let Some(digit) = self.spaced_digit() {
            return PortNo::new(digit).ok_or(Unread::Unreadable);
        }
        let word = self.word().ok_or(Unread::Unreadable)?;
        let value = port_of(word).ok_or(Unread::Unreadable)?;
        Ok(value)
    }

    /// The number of a filter.
    pub(crate) fn filter(&mut self) -> Result<FilterNo, Unread>
        ensures ok { IfOk result (λ x. word_as says.node_number self.old ≡ Some (x, self.new)) }
        ensures err { OnErr result (word_as says.node_number self.old ≡ None) }
        ensures only { IfErr result (λ e. e ≡ Unread.Unreadable) }
    {
        let word = self.word().ok_or(Unread::Unreadable)?;
        let value = filter_of(word).ok_or(Unread::Unreadable)?;
        Ok(value)
    }

    /// The number of a queue.
    pub(crate) fn queue_no(&mut self) -> Result<QueueNo, Unread>
        ensures ok { IfOk result (λ x. word_as says.queue_number self.old ≡ Some (x, self.new)) }
        ensures err { OnErr result (word_as says.queue_number self.old ≡ None) }
        ensures only { IfErr result (λ e. e ≡ Unread.Unreadable) }
    {
        let word = self.word().ok_or(Unread::Unreadable)?;
        let value = queue_no_of(word).ok_or(Unread::Unreadable)?;
        Ok(value)
    }

    /// Capabilities.
    pub(crate) fn caps(&mut self) -> Result<Caps, Unread>
        ensures ok { IfOk result (λ x. word_as says.caps self.old ≡ Some (x, self.new)) }
        ensures err { OnErr result (word_as says.caps self.old ≡ None) }
        ensures only { IfErr result (λ e. e ≡ Unread.Unreadable) }
    {
        let word = self.word().ok_or(Unread::Unreadable)?;
        let value = caps_of(word).ok_or(Unread::Unreadable)?;
        Ok(value)
    }

    /// The address of a node.
    pub(crate) fn addr(&mut self) -> Result<Addr, Unread>
        ensures ok { IfOk result (λ x. word_as says.addr self.old ≡ Some (x, self.new)) }
        ensures err { OnErr result (word_as says.addr self.old ≡ None) }
        ensures only { IfErr result (λ e. e ≡ Unread.Unreadable) }
    {
        let word = self.word().ok_or(Unread::Unreadable)?;
        let value = addr_of(word).ok_or(Unread::Unreadable)?;
        Ok(value)
    }

    /// The address of a queue.
    pub(crate) fn queue(&mut self) -> Result<QueueAddr, Unread>
        ensures ok { IfOk result (λ x. word_as says.queue self.old ≡ Some (x, self.new)) }
        ensures err { OnErr result (word_as says.queue self.old ≡ None) }
        ensures only { IfErr result (λ e. e ≡ Unread.Unreadable) }
    {
        if let Some(queue) = self.spaced_queue() {
            return Ok(queue);
        }
        let word = self.word().ok_or(Unread::Unreadable)?;
        let value = queue_of(word).ok_or(Unread::Unreadable)?;
        Ok(value)
    }

    /// A due time.
    pub(crate) fn due(&mut self) -> Result<DueAt, Unread>
        ensures ok { IfOk result (λ x. word_as says.due_word self.old ≡ Some (x, self.new)) }
        ensures err { OnErr result (word_as says.due_word self.old ≡ None) }
        ensures only { IfErr result (λ e. e ≡ Unread.Unreadable) }
    {
        if let Some(due_at) = self.spaced_due() {
            return Ok(due_at);
        }
        let word = self.word().ok_or(Unread::Unreadable)?;
        let value = due_of(word).ok_or(Unread::Unreadable)?;
        Ok(value)
    }

    /// The number of a file, by its name.
    pub(crate) fn file(&mut self, names: &[Vec<u8>]) -> Result<u32, Unread>
        requires { length names.now ≤ MOST_FILES }
        ensures ok { IfOk result (λ x.
            word_as (file (map (λ n. n.items) names.now)) self.old ≡ Some (x, self.new)) }
        ensures err { OnErr result (word_as (file (map (λ n. n.items) names.now)) self.old ≡ None) }
        ensures only { IfErr result (λ e. e ≡ Unread.Unreadable) }
    {
        let word = self.word().ok_or(Unread::Unreadable)?;
        Ok(number_of_name(names, word))
    }

    /// A last number of 8 bits, or nothing.
    pub(crate) fn maybe_u8(&mut self) -> Result<Option<u8>, Unread>
        ensures ok { IfOk result (λ x. maybe says.u8 self.old ≡ Some x) }
        ensures err { OnErr result (maybe says.u8 self.old ≡ None) }
        ensures only { IfErr result (λ e. e ≡ Unread.Unreadable) }
    {
        match self.word() {
            None => Ok(None),
            Some(word) => {
                let value = u8_of(word).ok_or(Unread::Unreadable)?;
                self.end()?;
                Ok(Some(value))
            }
        }
    }

    /// The byte that the next word says, where single spaces part it from the others, as mostly.
    #[inline(always)]
    fn spaced_byte(&mut self) -> Option<u8>
        ensures some { IfSome result (λ b.
            hex_bytes self.old ≡ option_map (λ bytes. b ∷ bytes) (hex_bytes self.new)) }
        ensures shorter { OnSome result (length self.new < length self.old) }
        ensures none { IfNone result (self.new ≡ self.old) }
    {
        if let [b' ', high, low, rest @ ..] = self.rest {
            if let [] | [b' ', ..] = rest {
                let high = hex_digit(*high)?;
                let low = hex_digit(*low)?;
                self.rest = rest;
                return Some(high * 16 + low);
            }
        }
        None
    }

    /// The byte that the next word says, or nothing where no word is left.
    #[inline(always)]
    fn next_byte(&mut self) -> Result<Option<u8>, Unread>
        ensures some { IfOk result (λ next. IfSome next (λ b.
            hex_bytes self.old ≡ option_map (λ bytes. b ∷ bytes) (hex_bytes self.new))) }
        ensures shorter { IfOk result (λ next. OnSome next (length self.new < length self.old)) }
        ensures end { IfOk result (λ next. IfNone next (self.old ≡ [])) }
        ensures err { OnErr result (hex_bytes self.old ≡ None) }
        ensures only { IfErr result (λ e. e ≡ Unread.Unreadable) }
    {
        if let Some(byte) = self.spaced_byte() {
            return Ok(Some(byte));
        }
        let Some(word) = self.word() else {
            return Ok(None);
        };
        let byte = hex_byte(word).ok_or(Unread::Unreadable)?;
        Ok(Some(byte))
    }

    /// The bytes that all words say, where they are three and single spaces part them.
    #[inline]
    pub(crate) fn three_bytes(&self) -> Option<(u8, u8, u8)>
        ensures { IfSome result (λ x. some_bytes self.now ≡ Some (x.0 ∷ x.1 ∷ x.2 ∷ [])) }
    {
        let mut words = self.again();
        let status = words.spaced_byte()?;
        let first = words.spaced_byte()?;
        let second = words.spaced_byte()?;
        if words.rest.is_empty() {
            Some((status, first, second))
        } else {
            None
        }
    }

    /// The bytes that all words say, one or more.
    // Most messages have three: handing the vector over would cost as much as one of them.
    #[inline(always)]
    pub(crate) fn bytes(&mut self, alloc: Global) -> Result<SmallVec<u8, SHORT>, Unread>
        ensures ok { IfOk result (λ x. some_bytes self.old ≡ Some x.items) }
        ensures err { IsErrOf result Unread.Unreadable → some_bytes self.old ≡ None }
    {
        let mut bytes = SmallVec::new(alloc);
        while let Some(byte) = self.next_byte()? {
            bytes.push(byte)?;
        }
        if bytes.is_empty() {
            return Err(Unread::Unreadable);
        }
        Ok(bytes)
    }
}
