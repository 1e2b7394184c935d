//! A Standard MIDI File that is made of a text.

ghost use Rattle.std.specs.Prelude.{◌≡◌, ◌⊎◌, true, false, IfErr, IfOk, OnOk};
ghost use Rattle.program_tasks.specs.Faults.{IsOfWriting};
ghost use Rattle.program_tasks.specs.Made.{IsMade, IsMakingStopped, IsOfOwnText, IsOwnText, IsStreamMade, IsTextApart};

use crate::choice::Stream;
use crate::program_fault::ProgramFault;
use crate::writing::write_file;
use byte_io::Source;
use file_store::FileStore;
use smf_make::{MakeFault, make_text};
use std::alloc::Global;

/// Makes the Standard MIDI File that a text says, in the form in which all of a file is printed, and writes it. What
/// stands at `out` stays until the whole text was read and the file is whole; it is not the text itself.
pub fn make<'a, S: FileStore, I: Source>(
    alloc: Global,
    store: &S,
    text: Stream<'a>,
    out: &'a str,
    input: &mut I,
) -> Result<(), ProgramFault<'a>>
    requires { I.failed input.old ≡ false }
    ensures made { OnOk result (IsMade S.IsOpened S.Reader.HasLeft I.HasLeft S.AreApart S.IsBegun
        S.Writer.HasTaken S.IsStored text.entry out.now input.old input.new) }
    ensures fault { IfErr result (λ e. IsOfOwnText S.AreOne text.entry out.now e
        ⊎ (IsMakingStopped S.IsOpened S.CannotOpen S.Reader.HasLeft S.Reader.failed I.HasLeft
        I.failed text.entry input.old input.new e
        ⊎ IsOfWriting S.IsBegun S.Writer.failed S.Writer.takes_some S.CannotBegin S.CannotStore
        out.now e)) }
{
    if is_own_text(store, text, out) {
        return Err(ProgramFault::OutIsText(out));
    }
    let bytes = made_of(alloc, store, text, input)?;
    write_file(alloc, store, out, bytes.as_slice())
}

/// Whether a path leads to the file that the text is read from, also by links.
fn is_own_text<S: FileStore>(store: &S, text: Stream<'_>, out: &str) -> bool
    ensures apart { result ≡ false → IsTextApart S.AreApart text.entry out.now }
    ensures own { result ≡ true → IsOwnText S.AreOne text.entry out.now }
{
    match text {
        Stream::Standard => false,
        Stream::Path(path) => store.is_one(path, out),
    }
}

/// The bytes of the file that the text of a stream says.
fn made_of<'a, S: FileStore, I: Source>(
    alloc: Global,
    store: &S,
    text: Stream<'a>,
    input: &mut I,
) -> Result<Vec<u8>, ProgramFault<'a>>
    requires { I.failed input.old ≡ false }
    ensures made { IfOk result (λ bytes. IsStreamMade S.IsOpened S.Reader.HasLeft I.HasLeft
        text.entry input.old input.new bytes.items) }
    ensures fault { IfErr result (IsMakingStopped S.IsOpened S.CannotOpen S.Reader.HasLeft
        S.Reader.failed I.HasLeft I.failed text.entry input.old input.new) }
{
    let made = match text {
        Stream::Standard => make_text(alloc, input),
        Stream::Path(path) => match store.open(path) {
            Ok(mut file) => make_text(alloc, &mut file),
            Err(_) => Err(MakeFault::Read),
        },
    };
    match made {
        Ok(bytes) => Ok(bytes),
        Err(fault) => Err(ProgramFault::of_making(text, fault)),
    }
}
