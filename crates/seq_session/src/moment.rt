//! The text of a moment, kept for the lines that follow.

ghost use Rattle.std.specs.Prelude.{◌≡◌, ◌≤◌, ◌+◌, ◌++◌, OnOk, codes, length, take, vec_len};
ghost use Rattle.std.specs.Fmt.{decimal};
ghost use Rattle.seq_session.specs.Logs.{arrival_text};

use itoa::write_digits;
use memory::OutOfMemory;
use node_table::PortNo;
use text_forms::{overwrite, overwrite_spaced_line};

/// The most digits of a moment.
const MOST_DIGITS: usize = 20;

/// The most bytes of a line that tells of a message of three bytes: its moment, ` port 15`, ` 90 3C 40` and its end.
const MOST_LINE: usize = 38;

/// A moment in decimal. The lines of one moment follow one another, so that its digits are made once.
#[derive(Drop)]
pub(crate) struct MomentText {
    moment: u64,
    /// Its digits, and zeros behind them.
    digits: [u8; MOST_LINE],
    count: usize,
    ghost within: { count ≤ 20 },
    ghost said: { take count digits ≡ decimal moment },
}

impl MomentText {
    // Apart, so that what adds a line stays small where the moment is the last one.
    #[inline(never)]
    pub(crate) fn new(moment: u64) -> MomentText
        ensures { result.moment ≡ moment }
    {
        let mut row = [b'0'; MOST_DIGITS];
        let start = write_digits(moment, &mut row, MOST_DIGITS);
        let count = MOST_DIGITS - start;
        let mut digits = [b'0'; MOST_LINE];
        digits[..count].copy_from_slice(&row[start..]);
        MomentText {
            moment,
            digits,
            count,
        }
    }

    /// Is of this moment from now on.
    #[inline(always)]
    fn turn_to(&mut self, moment: u64)
        ensures { self.new.moment ≡ moment }
    {
        if moment != self.moment {
            *self = MomentText::new(moment);
        }
    }

    /// Adds a moment.
    // A fixed number of bytes takes no call to copy: all are added, and what stands past the digits is cut off again.
    #[inline(always)]
    pub(crate) fn push(&mut self, text: &mut Vec<u8>, moment: u64) -> Result<(), OutOfMemory>
        ensures { OnOk result (text.new.items ≡ text.old.items ++ decimal moment) }
    {
        self.turn_to(moment);
        let front = text.len();
        text.extend_from_slice(&self.digits)?;
        text.truncate(front + self.count);
        Ok(())
    }

    /// Adds the line of a message of at most three bytes that came to a port at a moment.
    // In one copy, with one test of room: what follows the moment is written over what was copied behind it.
    #[inline(always)]
    pub(crate) fn push_line(
        &mut self,
        text: &mut Vec<u8>,
        moment: u64,
        port: PortNo,
        bytes: &[u8],
    ) -> Result<(), OutOfMemory>
        requires { length bytes.now ≤ 3 }
        ensures { OnOk result (text.new.items
            ≡ text.old.items ++ decimal moment ++ arrival_text port bytes.now) }
    {
        self.turn_to(moment);
        let front = text.len() + self.count;
        text.extend_from_slice(&self.digits)?;
        let end = overwrite_port(text, front, port);
        overwrite_spaced_line(text, end, bytes);
        Ok(())
    }
}

/// Writes the word and the number of a port over what stands in the text from `at` on, and gives where they end.
#[inline(always)]
fn overwrite_port(text: &mut Vec<u8>, at: usize, port: PortNo) -> usize
    requires { at + 8 ≤ vec_len text.old }
    ensures written { take result text.new.items
        ≡ take at text.old.items ++ codes " port " ++ decimal port }
    ensures few { result ≤ at + 8 }
    ensures len { vec_len text.new ≡ vec_len text.old }
{
    let number = port.number();
    if number < 10 {
        overwrite(
            text,
            at,
            &[b' ', b'p', b'o', b'r', b't', b' ', b'0' + number],
        );
        return at + 7;
    }
    let last = b'0' + number % 10;
    overwrite(text, at, &[b' ', b'p', b'o', b'r', b't', b' ', b'1', last]);
    at + 8
}
