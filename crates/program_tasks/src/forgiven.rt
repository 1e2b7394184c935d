//! What is told of the files of a folder of which something was forgiven.

ghost use Rattle.std.specs.Prelude.{map, string_bytes};
ghost use Rattle.byte_io.specs.Moved.{Took};
ghost use Rattle.program_tasks.specs.ForgivenFiles.{all_forgiven, forgiven_in, forgiven_of};

use crate::left_out::WhyLeftOut;
use crate::notes::Notes;
use crate::program_fault::write_start;
use folder_files::Escaped;
use smf_mend::{Forgiven, ForgivenText, Lenience, Mended};
use std::fmt;

/// The line of what was forgiven of a kind in a file.
#[derive(Clone, Copy)]
pub struct ForgivenIn<'a> {
    pub name: &'a str,
    pub kind: Lenience,
    pub forgiven: Forgiven,
}

impl fmt::Display for ForgivenIn<'_> {
    ghost use Rattle.std.specs.Prelude.{Some};
    ghost use Rattle.program_tasks.specs.ForgivenFiles.{forgiven_line};

    ghost output = { λ e. Some (forgiven_line e.name.now e.kind e.forgiven) };

    fn fmt<W: fmt::Write>(&self, f: &mut fmt::Formatter<W>) -> fmt::Result {
        let name = Escaped(self.name);
        let told = ForgivenText(self.kind, self.forgiven);
        write_start(f)?;
        write!(f, "{name}: ")?;
        write!(f, "{told}")
    }
}

/// Tells what was forgiven of a kind in a file, where something was.
fn tell_kind<N: Notes>(notes: &mut N, name: &str, kind: Lenience, forgiven: Option<Forgiven>)
    ensures { Took N.HasTold notes.old (forgiven_of name.now kind forgiven) notes.new }
{
    if let Some(forgiven) = forgiven {
        notes.tell(ForgivenIn {
            name,
            kind,
            forgiven,
        });
    }
}

/// Tells what was forgiven in a file that is taken.
fn tell_file<N: Notes>(notes: &mut N, name: &str, content: &Result<Mended, WhyLeftOut>)
    ensures { Took N.HasTold notes.old (forgiven_in name.now content.now) notes.new }
{
    if let Ok(taken) = content {
        tell_kind(notes, name, Lenience::RunningStatus, taken.running_status);
        tell_kind(notes, name, Lenience::ProgramChange, taken.high_data);
    }
}

/// Tells what was forgiven in each of the files with these names, of which this is taken.
pub(crate) fn tell_forgiven<N: Notes>(
    notes: &mut N,
    names: &[String],
    contents: &[Result<Mended, WhyLeftOut>],
)
    ensures { Took N.HasTold notes.old
        (all_forgiven (map string_bytes names.now) contents.now) notes.new }
{
    let Some((name, more_names)) = names.split_first() else {
        return;
    };
    let Some((content, more)) = contents.split_first() else {
        return;
    };
    tell_file(notes, name.as_str(), content);
    tell_forgiven(notes, more_names, more);
}
