//! Bytes in hexadecimal.

ghost use Rattle.std.specs.Prelude.{◌≡◌, ◌≤◌, ◌<◌, ◌+◌, ◌*◌, ◌^◌, ℕ, [], ◌∷◌, ◌++◌, length, vec_len, vec_capacity, take, slice_index, OnOk, OnErr};
ghost use Rattle.text_forms.specs.Hex.{digit, spaced_hex, in_hex, hex_line};

use memory::OutOfMemory;

/// The line of each byte: a space, its two digits, and the end. A look-up takes fewer instructions than a comparison.
const LINES: &[u8; 1024] =
    b" 00\n 01\n 02\n 03\n 04\n 05\n 06\n 07\n 08\n 09\n 0A\n 0B\n 0C\n 0D\n 0E\n 0F\n \
    10\n 11\n 12\n 13\n 14\n 15\n 16\n 17\n 18\n 19\n 1A\n 1B\n 1C\n 1D\n 1E\n 1F\n \
    20\n 21\n 22\n 23\n 24\n 25\n 26\n 27\n 28\n 29\n 2A\n 2B\n 2C\n 2D\n 2E\n 2F\n \
    30\n 31\n 32\n 33\n 34\n 35\n 36\n 37\n 38\n 39\n 3A\n 3B\n 3C\n 3D\n 3E\n 3F\n \
    40\n 41\n 42\n 43\n 44\n 45\n 46\n 47\n 48\n 49\n 4A\n 4B\n 4C\n 4D\n 4E\n 4F\n \
    50\n 51\n 52\n 53\n 54\n 55\n 56\n 57\n 58\n 59\n 5A\n 5B\n 5C\n 5D\n 5E\n 5F\n \
    60\n 61\n 62\n 63\n 64\n 65\n 66\n 67\n 68\n 69\n 6A\n 6B\n 6C\n 6D\n 6E\n 6F\n \
    70\n 71\n 72\n 73\n 74\n 75\n 76\n 77\n 78\n 79\n 7A\n 7B\n 7C\n 7D\n 7E\n 7F\n \
    80\n 81\n 82\n 83\n 84\n 85\n 86\n 87\n 88\n 89\n 8A\n 8B\n 8C\n 8D\n 8E\n 8F\n \
    90\n 91\n 92\n 93\n 94\n 95\n 96\n 97\n 98\n 99\n 9A\n 9B\n 9C\n 9D\n 9E\n 9F\n \
    A0\n A1\n A2\n A3\n A4\n A5\n A6\n A7\n A8\n A9\n AA\n AB\n AC\n AD\n AE\n AF\n \
    B0\n B1\n B2\n B3\n B4\n B5\n B6\n B7\n B8\n B9\n BA\n BB\n BC\n BD\n BE\n BF\n \
    C0\n C1\n C2\n C3\n C4\n C5\n C6\n C7\n C8\n C9\n CA\n CB\n CC\n CD\n CE\n CF\n \
    D0\n D1\n D2\n D3\n D4\n D5\n D6\n D7\n D8\n D9\n DA\n DB\n DC\n DD\n DE\n DF\n \
    E0\n E1\n E2\n E3\n E4\n E5\n E6\n E7\n E8\n E9\n EA\n EB\n EC\n ED\n EE\n EF\n \
    F0\n F1\n F2\n F3\n F4\n F5\n F6\n F7\n F8\n F9\n FA\n FB\n FC\n FD\n FE\n FF\n";

/// How many bytes are spelled before they are added to a text.
const GROUP: usize = 64;

/// Adds a space and two upper-case digits for each byte, as ` 90 3C 40`. After an error the text ends within them.
// Apart, so that its buffer is no burden to the lines of few bytes below.
#[inline(never)]
pub fn push_spaced(text: &mut Vec<u8>, bytes: &[u8]) -> Result<(), OutOfMemory>
    ensures ok { OnOk result (text.new.items ≡ text.old.items ++ spaced_hex bytes.now) }
    ensures full { OnErr result
        (vec_capacity text.old < vec_len text.old + length (spaced_hex bytes.now)) }
    ensures capacity { vec_capacity text.old ≤ vec_capacity text.new }
{
    let mut digits = [b' '; 3 * GROUP];
    for group in bytes.chunks(GROUP) {
        spell(group, &mut digits);
        text.extend_from_slice(&digits[..3 * group.len()])?;
    }
    Ok(())
}

/// Writes the two digits of each byte behind the spaces that stand at every third place.
#[inline(always)]
fn spell(bytes: &[u8], digits: &mut [u8])
    requires room { 3 * length bytes.now ≤ length digits.old }
    requires spaces { (k : ℕ) → 3 * k < length digits.old → slice_index digits.old (3 * k) ≡ 32 }
    ensures spaces { (k : ℕ) → 3 * k < length digits.new → slice_index digits.new (3 * k) ≡ 32 }
    ensures spelled { take (3 * length bytes.now) digits.new ≡ spaced_hex bytes.now }
{
    for i in 0..bytes.len() {
        let [s, t] = hex_of(bytes[i]);
        digits[3 * i + 1] = s;
        digits[3 * i + 2] = t;
    }
}

/// Adds a space and two upper-case digits for each byte, and the end of the line. After an error the text ends within
/// them.
// Most messages have three bytes or less. Where there is room for them, nothing here calls what grows the text, so that
// no register has to be saved; and it stands inline, where the number of bytes is mostly known.
#[inline(always)]
pub fn push_spaced_line(text: &mut Vec<u8>, bytes: &[u8]) -> Result<(), OutOfMemory>
    ensures ok { OnOk result (text.new.items ≡ text.old.items ++ spaced_hex bytes.now ++ 10 ∷ []) }
    ensures full { OnErr result
        (vec_capacity text.old < vec_len text.old + length (spaced_hex bytes.now ++ 10 ∷ [])) }
    ensures capacity { vec_capacity text.old ≤ vec_capacity text.new }
{
    if text.capacity() - text.len() >= 10 {
        match bytes {
            [a] => {
                text.extend_from_slice(&line_of_one(*a))?;
                return Ok(());
            }
            [a, b] => {
                text.extend_from_slice(&line_of_two(*a, *b))?;
                return Ok(());
            }
            [a, b, c] => {
                text.extend_from_slice(&line_of_three(*a, *b, *c))?;
                return Ok(());
            }
            _ => {}
        }
    }
    push_any_spaced_line(text, bytes)
}

/// The same for any number of bytes.
#[inline(never)]
fn push_any_spaced_line(text: &mut Vec<u8>, bytes: &[u8]) -> Result<(), OutOfMemory>
    ensures ok { OnOk result (text.new.items ≡ text.old.items ++ spaced_hex bytes.now ++ 10 ∷ []) }
    ensures full { OnErr result
        (vec_capacity text.old < vec_len text.old + length (spaced_hex bytes.now ++ 10 ∷ [])) }
    ensures capacity { vec_capacity text.old ≤ vec_capacity text.new }
{
    push_spaced(text, bytes)?;
    text.push(b'\n')?;
    Ok(())
}

/// Adds a line of two upper-case digits for each byte, with one space between, as `90 3C 40`. After an error the text
/// ends within it.
pub fn push_hex_line(text: &mut Vec<u8>, bytes: &[u8]) -> Result<(), OutOfMemory>
    ensures ok { OnOk result (text.new.items ≡ text.old.items ++ hex_line bytes.now) }
    ensures full { OnErr result
        (vec_capacity text.old < vec_len text.old + length (hex_line bytes.now)) }
    ensures capacity { vec_capacity text.old ≤ vec_capacity text.new }
{
    if text.capacity() - text.len() >= 9 {
        match bytes {
            [a] => {
                let [s, t] = hex_of(*a);
                text.extend_from_slice(&[s, t, b'\n'])?;
                return Ok(());
            }
            [a, b] => {
                let [s, t] = hex_of(*a);
                let [u, v] = hex_of(*b);
                text.extend_from_slice(&[s, t, b' ', u, v, b'\n'])?;
                return Ok(());
            }
            [a, b, c] => {
                let [s, t] = hex_of(*a);
                let [u, v] = hex_of(*b);
                let [w, x] = hex_of(*c);
                text.extend_from_slice(&[s, t, b' ', u, v, b' ', w, x, b'\n'])?;
                return Ok(());
            }
            _ => {}
        }
    }
    push_any_hex_line(text, bytes)
}

/// The same for any number of bytes.
#[inline(never)]
fn push_any_hex_line(text: &mut Vec<u8>, bytes: &[u8]) -> Result<(), OutOfMemory>
    ensures ok { OnOk result (text.new.items ≡ text.old.items ++ hex_line bytes.now) }
    ensures full { OnErr result
        (vec_capacity text.old < vec_len text.old + length (hex_line bytes.now)) }
    ensures capacity { vec_capacity text.old ≤ vec_capacity text.new }
{
    if let [first, more @ ..] = bytes {
        text.extend_from_slice(&hex_of(*first))?;
        push_spaced(text, more)?;
    }
    text.push(b'\n')?;
    Ok(())
}

#[inline(always)]
fn line_of_one(a: u8) -> [u8; 4]
    ensures { result ≡ spaced_hex (a ∷ []) ++ 10 ∷ [] }
{
    let at = a as usize * 4;
    [LINES[at], LINES[at + 1], LINES[at + 2], LINES[at + 3]]
}

#[inline(always)]
fn line_of_two(a: u8, b: u8) -> [u8; 7]
    ensures { result ≡ spaced_hex (a ∷ b ∷ []) ++ 10 ∷ [] }
{
    let [s, t] = hex_of(a);
    let [u, v] = hex_of(b);
    [b' ', s, t, b' ', u, v, b'\n']
}

#[inline(always)]
fn line_of_three(a: u8, b: u8, c: u8) -> [u8; 10]
    ensures { result ≡ spaced_hex (a ∷ b ∷ c ∷ []) ++ 10 ∷ [] }
{
    let [s, t] = hex_of(a);
    let [u, v] = hex_of(b);
    let [w, x] = hex_of(c);
    [b' ', s, t, b' ', u, v, b' ', w, x, b'\n']
}

/// Writes a space and two upper-case digits for each byte, and the end of the line, over what stands in the text from
/// `at` on, and cuts the text behind it.
// Four bytes are written for each, of which the next covers the last: so each is copied at once.
#[inline(always)]
pub fn overwrite_spaced_line(text: &mut Vec<u8>, at: usize, bytes: &[u8])
    requires { at + 3 * length bytes.now + 1 ≤ vec_len text.old }
    ensures { text.new.items ≡ take at text.old.items ++ spaced_hex bytes.now ++ 10 ∷ [] }
{
    let mut end = at;
    for byte in bytes {
        overwrite(text, end, &line_of_one(*byte));
        end += 3;
    }
    overwrite(text, end, b"\n");
    text.truncate(end + 1);
}

/// Writes bytes over others, from `at` on.
#[inline(always)]
pub fn overwrite(text: &mut Vec<u8>, at: usize, bytes: &[u8])
    requires { at + length bytes.now ≤ vec_len text.old }
    ensures written { take (at + length bytes.now) text.new.items
        ≡ take at text.old.items ++ bytes.now }
    ensures len { vec_len text.new ≡ vec_len text.old }
{
    text[at..at + bytes.len()].copy_from_slice(bytes);
}

/// The two upper-case digits of a byte.
#[inline(always)]
pub fn hex_of(byte: u8) -> [u8; 2]
    ensures { result ≡ in_hex (byte ∷ []) }
{
    let at = byte as usize * 4;
    [LINES[at + 1], LINES[at + 2]]
}
