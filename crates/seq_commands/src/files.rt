//! The files of a run.

ghost use Rattle.std.specs.Prelude.{◌≡◌, true, Some, is_some, map};
ghost use Rattle.std.specs.List.{list_all};
ghost use Rattle.std.specs.Option.{option_copied, option_map};
ghost use Rattle.smf_grammar.specs.Played.{as_played};
ghost use Rattle.seq_state.specs.Laws.{has_ticks};
ghost use Rattle.seq_state.specs.Effect.{file_at, has_division};

use seq_clients::Queue;
use smf_files::SmfFile;
use std::marker::Model;

/// The files that clients may play, by number from 0.
#[derive(Drop)]
pub struct Files<'f, 'b> {
    files: &'f [SmfFile<'b>],
}

impl<'f, 'b> Model for Files<'f, 'b> {
    ghost use Rattle.std.specs.Prelude.{List, map};
    ghost use Rattle.smf_grammar.specs.Played.{PlayedFile, as_played};

    ghost Value = { List PlayedFile };

    ghost view = { λ f. map as_played f.files.now };
}

impl<'f, 'b> Files<'f, 'b> {
    /// Files that may be played, by their places from 0 on.
    pub fn new(files: &'f [SmfFile<'b>]) -> Files<'f, 'b>
        ensures files { result ≡ map as_played files.now }
        ensures ticks { list_all has_ticks result ≡ true }
    {
        // Tells the prover that each division has ticks.
        for file in files {
            file.plays_in_order();
        }
        Files { files }
    }

    /// The file with this number, if there is one.
    pub fn get(&self, number: u32) -> Option<&'f SmfFile<'b>>
        ensures { option_map as_played (option_copied result) ≡ file_at self.now number }
    {
        self.files.get(number as usize)
    }

    /// Whether there is a file with this number.
    pub(crate) fn has(&self, number: u32) -> bool
        ensures { result ≡ is_some (file_at self.now number) }
    {
        self.get(number).is_some()
    }

    /// Whether the file with this number, if there is one, has the division of a queue.
    pub(crate) fn has_division_of(&self, queue: &Queue, number: u32) -> bool
        ensures { result ≡ has_division (Some queue.now) (file_at self.now number) }
    {
        match self.get(number) {
            Some(file) => file.division() == queue.clock().division(),
            None => false,
        }
    }
}
