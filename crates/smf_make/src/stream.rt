//! A file that is made of a text as it comes.

ghost use Rattle.std.specs.Prelude.{◌≡◌, ◌<◌, ◌+◌, ◌++◌, ◌∷◌, [], length, false, IfSome, IfNone, IfOk, IfErr, OnOk};
ghost use Rattle.byte_io.specs.Moved.{GaveSome};
ghost use Rattle.smf_make.specs.Making.{IsLineTaken, IsLineRefused};
ghost use Rattle.smf_make.specs.ReadInPart.{IsUnended, IsPieceTaken, IsPieceRefused, IsTextEnded, IsTextUnended};
ghost use Rattle.smf_make.specs.Streamed.{most_text, IsTextMade, IsTextRefused};

use crate::fault::MakeFault;
use crate::maker::Maker;
use byte_io::Source;
use memchr::memchr;
use std::alloc::Global;

/// How many bytes a text has at most of which a file is made.
pub const MOST_TEXT: usize = 1_073_741_824;

/// How many bytes are read at once.
const PIECE: usize = 8192;

/// The file that the text says which `input` gives, as `make_file` makes it of a whole text: of the text it keeps a
/// line.
///
/// The fault of a line is told as soon as the piece was read in which the line ends.
pub fn make_text<R: Source>(alloc: Global, input: &mut R) -> Result<Vec<u8>, MakeFault>
    requires { R.failed input.old ≡ false }
    ensures made { IfOk result (λ bytes.
        IsTextMade R.HasLeft input.old input.new bytes.items) }
    ensures refused { IfErr result (IsTextRefused R.HasLeft R.failed input.old input.new) }
    ensures bounded { GaveSome R.HasLeft (most_text + 1) input.old input.new }
{
    let mut maker = Maker::new(alloc);
    let mut kept = Vec::new(alloc);
    let mut piece = [0u8; PIECE];
    let mut room = MOST_TEXT;
    'pieces: loop {
        // one byte more than may come, to tell that there is one
        let window = (room + 1).min(PIECE);
        let Ok(n) = input.read(&mut piece[..window]) else {
            return Err(MakeFault::Read);
        };
        if n == 0 {
            return end_text(maker, kept.as_slice());
        }
        if n > room {
            return Err(MakeFault::TooLong);
        }
        room -= n;
        take_piece(&mut maker, &mut kept, &piece[..n])?;
    }
}

/// Takes each line that a piece ends, and keeps what it begins.
fn take_piece(maker: &mut Maker, kept: &mut Vec<u8>, piece: &[u8]) -> Result<(), MakeFault>
    ensures taken { OnOk result
        (IsPieceTaken maker.old kept.old.items piece.now kept.new.items maker.new) }
    ensures refused { IfErr result (IsPieceRefused maker.old kept.old.items piece.now) }
{
    let mut left = piece;
    while let Some((part, rest)) = ended_part(left) {
        end_line(maker, kept, part)?;
        left = rest;
    }
    kept.extend_from_slice(left)?;
    Ok(())
}

/// What stands before the first line end, and what stands behind it.
fn ended_part(text: &[u8]) -> Option<(&[u8], &[u8])>
    ensures cut { IfSome result (λ l. text.now ≡ l.0.now ++ 10 ∷ l.1.now) }
    ensures unended { IfSome result (λ l. IsUnended l.0.now) }
    ensures shorter { IfSome result (λ l. length l.1.now < length text.now) }
    ensures none { IfNone result (IsUnended text.now) }
{
    let end = memchr(b'\n', text)?;
    Some((&text[..end], &text[end + 1..]))
}

/// Takes the line whose first part is kept, and which has ended with this one.
fn end_line(maker: &mut Maker, kept: &mut Vec<u8>, part: &[u8]) -> Result<(), MakeFault>
    ensures taken { OnOk result (IsLineTaken maker.old (kept.old.items ++ part.now) maker.new) }
    ensures empty { OnOk result (kept.new.items ≡ []) }
    ensures refused { IfErr result (IsLineRefused maker.old (kept.old.items ++ part.now)) }
{
    // A line that stands whole in a piece is taken from where it stands.
    if kept.is_empty() {
        return maker.take(part);
    }
    kept.extend_from_slice(part)?;
    maker.take(kept.as_slice())?;
    kept.clear();
    Ok(())
}

/// Takes what stands behind the last line end, which is a line where there is something.
fn end_text(maker: Maker, kept: &[u8]) -> Result<Vec<u8>, MakeFault>
    ensures made { IfOk result (λ bytes. IsTextEnded maker kept.now bytes.items) }
    ensures refused { IfErr result (IsTextUnended maker kept.now) }
{
    if kept.is_empty() {
        return maker.finish();
    }
    maker.line(kept)?.finish()
}
