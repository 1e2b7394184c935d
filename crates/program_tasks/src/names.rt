//! The files of a folder that a run takes.

ghost use Rattle.std.specs.Prelude.{◌≡◌, take, drop};
ghost use Rattle.script_text.specs.declared.script.TheConstants.{MOST_FILES};

use script_text::MOST_FILES;

/// The files that are taken, and those that are left out because there are more than `MOST_FILES`.
pub fn taken_files(files: &[String]) -> (&[String], &[String])
    ensures taken { result.0.now ≡ take MOST_FILES files.now }
    ensures left_out { result.1.now ≡ drop MOST_FILES files.now }
{
    files.split_at(MOST_FILES.min(files.len()))
}
