//! What the texts mean.

ghost use Rattle.smf_check.specs.Rows.{WorkedChecks};

/// What is printed and answered of three files, of which one is damaged and one cannot be read, of each kind alone, of
/// files of which something is forgiven, and of no file.
pub fn worked_checks()
    ensures { WorkedChecks }
{}
