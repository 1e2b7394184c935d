//! Files read by the lenient grammar.

ghost use Rattle.std.specs.Prelude.{◌≡◌, ◌≢◌, ◌+◌, true, false, Err, IfOk, IfErr, OnOk, IsErrOf};
ghost use Rattle.byte_io.specs.Moved.{GaveSome};
ghost use Rattle.smf_grammar.specs.declared.fault.SmfFault.TheVariants as smf;
ghost use Rattle.smf_grammar.specs.Chunks.{most_bytes};
ghost use Rattle.smf_grammar.specs.Files.{IsFile};
ghost use Rattle.tool_text.specs.Faults.{blames_sink};
ghost use Rattle.lenient_text.specs.LenientDumped.{TellsLenientFault};
ghost use Rattle.lenient_text.specs.LenientlyRead.{IsStrict, IsReadLeniently};

use byte_io::{Source, read_to};
use smf_files::SmfFile;
use smf_grammar::MOST_BYTES;
use smf_mend::{Mended, mend_unwrapped};
use std::alloc::Global;
use tool_text::ToolFault;

/// Reads a file by the lenient grammar, perhaps in a container, and writes it as a strict one.
pub(crate) fn read_leniently<R: Source>(alloc: Global, input: &mut R) -> Result<Mended, ToolFault>
    requires { R.failed input.old ≡ false }
    ensures mended { IfOk result (IsReadLeniently R.HasLeft input.old input.new) }
    ensures bounded { GaveSome R.HasLeft (most_bytes + 1) input.old input.new }
    ensures told { IfErr result (TellsLenientFault R.HasLeft input.old input.new) }
    ensures memory { result ≢ Err (ToolFault.Smf smf.OutOfMemory) }
    ensures read { IsErrOf result ToolFault.Read → R.failed input.new ≡ true }
    ensures unread { IsErrOf result ToolFault.OutOfMemory → R.failed input.new ≡ false }
    ensures unmarked { OnOk result (R.failed input.new ≡ false) }
    ensures blameless { blames_sink result ≡ false }
{
    let bytes = match read_to(alloc, input, MOST_BYTES + 1) {
        Ok(bytes) => bytes,
        Err(_) => {
            if input.has_failed() {
                return Err(ToolFault::Read);
            }
            return Err(ToolFault::OutOfMemory);
        }
    };
    match mend_unwrapped(alloc, bytes.as_slice()) {
        Ok(mended) => Ok(mended),
        Err(fault) => Err(ToolFault::from(fault)),
    }
}

/// The strict file that was written, which has no fault.
pub(crate) fn strict_file<'m>(alloc: Global, mended: &'m Mended) -> Result<SmfFile<'m>, ToolFault>
    requires { IsStrict mended.now }
    ensures file { IfOk result (λ file. IsFile mended.now.bytes.items file) }
    ensures only { IfErr result (λ e. e ≡ ToolFault.OutOfMemory) }
{
    match SmfFile::read(alloc, mended.bytes.as_slice()) {
        Ok(file) => Ok(file),
        Err(fault) => Err(ToolFault::from(fault)),
    }
}
