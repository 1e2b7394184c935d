//! The files of a run, with their names.

ghost use Rattle.std.specs.Prelude.{◌≡◌, ◌≤◌, ◌↔◌, map, length, IsSome, IfSome};
ghost use Rattle.smf_grammar.specs.Played.{as_played};
ghost use Rattle.script_text.specs.declared.script.TheConstants.{MOST_FILES};

use script_text::MOST_FILES;
use smf_files::SmfFile;
use std::marker::Model;

/// The files of a run, with a name for each, by which scripts name it.
#[derive(Drop)]
pub struct NamedFiles<'f, 'b> {
    names: &'f [Vec<u8>],
    files: &'f [SmfFile<'b>],
}

impl<'f, 'b> Model for NamedFiles<'f, 'b> {
    ghost use Rattle.std.specs.Prelude.{◌≡◌, ◌≤◌, map, length};
    ghost use Rattle.smf_grammar.specs.Played.{as_played};
    ghost use Rattle.script_text.specs.declared.script.TheConstants.{MOST_FILES};
    ghost use Rattle.seq_session.specs.Sessions.{FolderContents};

    ghost Value = { FolderContents };

    ghost view = { λ n. record {
      names = map (λ name. name.items) n.names.now;
      files = map as_played n.files.now;
    } };

    ghost invariant = { λ n. length n.names.now ≤ MOST_FILES };
}

impl<'f, 'b> NamedFiles<'f, 'b> {
    /// The names and their files, side by side: as many of the one as of the other, and at most 256.
    pub fn new(names: &'f [Vec<u8>], files: &'f [SmfFile<'b>]) -> Option<NamedFiles<'f, 'b>>
        ensures fits { IsSome result ↔ ((length names.now ≡ length files.now)
            × (length names.now ≤ MOST_FILES)) }
        ensures value { IfSome result (λ n. n ≡ record {
          names = map (λ name. name.items) names.now;
          files = map as_played files.now;
        }) }
    {
        if names.len() == files.len() && names.len() <= MOST_FILES {
            Some(NamedFiles { names, files })
        } else {
            None
        }
    }

    /// The names, in the order of the files.
    pub fn names(&self) -> &'f [Vec<u8>]
        ensures names { map (λ name. name.items) result.now ≡ self.now.names }
        ensures few { length result.now ≤ MOST_FILES }
    {
        self.names
    }

    /// The files, in the order of their names.
    pub fn files(&self) -> &'f [SmfFile<'b>]
        ensures { map as_played result.now ≡ self.now.files }
    {
        self.files
    }
}
