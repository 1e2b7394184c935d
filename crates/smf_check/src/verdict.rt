//! The verdict on a file.

ghost use Rattle.std.specs.Prelude.{◌≡◌, ℕ, List, true, false, Ok, IfOk};
ghost use Rattle.std.specs.Fmt.{WritesOnOk};
ghost use Rattle.folder_files.specs.Contents.{bytes_read};
ghost use Rattle.smf_mend.specs.Unwrapping.{IsMendedIn};
ghost use Rattle.smf_check.specs.Verdicts.{finds_whole, forgiven_part, IsJudged, IsVerdict};

use file_store::{FileStore, Standing};
use folder_files::{content_of, unread_text};
use memory::OutOfMemory;
use smf_files::{SmfFault, SmfFile};
use smf_mend::{Forgiven, ForgivenText, Lenience, Mended, mend_unwrapped};
use std::alloc::Global;
use std::fmt;

/// What a file is found to be. It is printed as `ok`, with what was forgiven, as its fault, or as what keeps it from
/// being read.
#[derive(Clone, Copy, Debug, PartialEq, Eq)]
pub enum Verdict {
    /// It is a Standard MIDI File.
    Whole,
    /// It is one by the lenient grammar, and something of one kind at least was forgiven.
    Forgiven {
        running_status: Option<Forgiven>,
        program_change: Option<Forgiven>,
    },
    /// It is none, for this fault. It is never out of memory.
    Damaged(SmfFault),
    /// It cannot be read, or is no regular file; this stands at its path.
    Unread(Standing),
}

impl Verdict {
    /// Whether the file is a Standard MIDI File, by the grammar that was asked.
    pub fn is_whole(self) -> bool
        ensures { result ≡ finds_whole self }
    {
        match self {
            Verdict::Whole | Verdict::Forgiven { .. } => true,
            Verdict::Damaged(_) | Verdict::Unread(_) => false,
        }
    }
}

impl fmt::Display for Verdict {
    ghost use Rattle.std.specs.Prelude.{Some};
    ghost use Rattle.smf_check.specs.Verdicts.{verdict_text};

    ghost output = { λ v. Some (verdict_text v) };

    fn fmt<W: fmt::Write>(&self, f: &mut fmt::Formatter<W>) -> fmt::Result {
        match *self {
            Verdict::Whole => f.write_str("ok"),
            Verdict::Forgiven {
                running_status,
                program_change,
            } => {
                f.write_str("ok")?;
                write_forgiven(Lenience::RunningStatus, running_status, f)?;
                write_forgiven(Lenience::ProgramChange, program_change, f)
            }
            Verdict::Damaged(fault) => write!(f, "{fault}"),
            Verdict::Unread(there) => {
                f.write_str("cannot read")?;
                f.write_str(unread_text(there))
            }
        }
    }
}

/// Writes what was forgiven of a kind, behind other text.
fn write_forgiven<W: fmt::Write>(
    kind: Lenience,
    forgiven: Option<Forgiven>,
    f: &mut fmt::Formatter<W>,
) -> fmt::Result
    ensures { WritesOnOk W.write_str_gives f.old result (forgiven_part kind forgiven) f.new }
{
    match forgiven {
        Some(forgiven) => {
            let told = ForgivenText(kind, forgiven);
            write!(f, ", {told}")
        }
        None => Ok(()),
    }
}

/// The verdict of the strict grammar on these bytes.
fn strict_verdict(alloc: Global, bytes: &[u8]) -> Result<Verdict, OutOfMemory>
    ensures { IfOk result (IsVerdict false (Ok bytes.now)) }
{
    match SmfFile::read(alloc, bytes) {
        Ok(_) => Ok(Verdict::Whole),
        Err(SmfFault::OutOfMemory) => Err(OutOfMemory),
        Err(fault) => Ok(Verdict::Damaged(fault)),
    }
}

/// The verdict on bytes that are mended.
fn mended_verdict(mended: &Mended) -> Verdict
    ensures { (bytes : List ℕ) → IsMendedIn bytes mended.now → IsVerdict true (Ok bytes) result }
{
    let running_status = mended.running_status;
    let program_change = mended.high_data;
    if running_status.is_none() && program_change.is_none() {
        return Verdict::Whole;
    }
    Verdict::Forgiven {
        running_status,
        program_change,
    }
}

/// The verdict of the lenient grammar on these bytes.
fn lenient_verdict(alloc: Global, bytes: &[u8]) -> Result<Verdict, OutOfMemory>
    ensures { IfOk result (IsVerdict true (Ok bytes.now)) }
{
    match mend_unwrapped(alloc, bytes) {
        Ok(mended) => Ok(mended_verdict(&mended)),
        Err(SmfFault::OutOfMemory) => Err(OutOfMemory),
        Err(fault) => Ok(Verdict::Damaged(fault)),
    }
}

/// The verdict on what was read of a file.
fn verdict_of(
    alloc: Global,
    content: &Result<Vec<u8>, Standing>,
    is_lenient: bool,
) -> Result<Verdict, OutOfMemory>
    ensures { IfOk result (IsVerdict is_lenient (bytes_read content.now)) }
{
    let bytes = match content {
        Ok(bytes) => bytes,
        Err(there) => return Ok(Verdict::Unread(*there)),
    };
    if is_lenient {
        return lenient_verdict(alloc, bytes.as_slice());
    }
    strict_verdict(alloc, bytes.as_slice())
}

/// The verdict on the file at a path.
pub(crate) fn verdict_at<S: FileStore>(
    alloc: Global,
    store: &S,
    path: &str,
    is_lenient: bool,
) -> Result<Verdict, OutOfMemory>
    ensures { IfOk result (IsJudged is_lenient S.IsOpened S.Reader.HasLeft S.CannotOpen
        S.Reader.failed S.IsStanding path.now) }
{
    let content = content_of(alloc, store, path)?;
    verdict_of(alloc, &content, is_lenient)
}
