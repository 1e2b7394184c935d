//! The files of a folder that a run leaves out, and why.

ghost use Rattle.std.specs.Prelude.{◌≡◌};
ghost use Rattle.std.specs.Fmt.{WritesOnOk};
ghost use Rattle.program_tasks.specs.LeftOut.{standing_text, why_text};

use crate::program_fault::LeftOut;
use file_store::Standing;
use smf_files::SmfFault;
use std::fmt;

/// Why a run leaves out a file of its folder.
#[derive(Clone, Copy, Debug, PartialEq, Eq)]
pub enum WhyLeftOut {
    /// It is no Standard MIDI File, by the grammar that was asked for.
    Damaged(SmfFault),
    /// It could not be read, and this stands at its path.
    Unread(Standing),
    /// As many files as a run takes stand before it.
    Beyond,
    /// Its name would end in `.mid` but for capitals.
    Capitals,
}

/// A file of a folder that a run leaves out.
#[derive(Clone, Copy, Debug, PartialEq, Eq)]
pub struct LeftOutFile<'f> {
    pub name: &'f str,
    pub why: WhyLeftOut,
}

/// Why a file could not be read, by what stands at its path.
fn standing_text(there: Standing) -> &'static str
    ensures { result.now ≡ standing_text there }
{
    match there {
        Standing::Nothing => "there is no such file",
        Standing::Folder => "it is a folder",
        Standing::Special => "it is no regular file",
        Standing::Denied | Standing::File => "it cannot be read",
    }
}

/// Writes why a file is left out.
fn write_why<W: fmt::Write>(why: WhyLeftOut, f: &mut fmt::Formatter<W>) -> fmt::Result
    ensures { WritesOnOk W.write_str_gives f.old result (why_text why) f.new }
{
    match why {
        WhyLeftOut::Damaged(fault) => write!(f, "{fault}"),
        WhyLeftOut::Unread(there) => f.write_str(standing_text(there)),
        WhyLeftOut::Beyond => f.write_str("256 files were taken before it"),
        WhyLeftOut::Capitals => f.write_str("its name does not end in .mid"),
    }
}

/// The line that tells of a file that a run leaves out as `LeftOut` does, and why it does.
#[derive(Clone, Copy, Debug, PartialEq, Eq)]
pub struct LeftOutSince<'a>(pub LeftOutFile<'a>);

impl fmt::Display for LeftOutSince<'_> {
    ghost use Rattle.std.specs.Prelude.{Some, true};
    ghost use Rattle.program_tasks.specs.FolderFiles.{seen_lost};
    ghost use Rattle.program_tasks.specs.LeftOut.{lost_line};

    ghost output = { λ e. Some (lost_line true (seen_lost e.0)) };

    fn fmt<W: fmt::Write>(&self, f: &mut fmt::Formatter<W>) -> fmt::Result {
        let file = self.0;
        let line = LeftOut(file.name);
        write!(f, "{line}: ")?;
        write_why(file.why, f)
    }
}
