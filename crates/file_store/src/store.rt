//! What a program asks of a system's files.

ghost use Rattle.std.specs.Prelude.{◌≡◌, true, false, map, string_bytes, IfOk, OnOk, OnErr, IsErrOf};

use crate::standing::Standing;
use byte_io::{DeviceFault, Sink, Source};
use std::alloc::Global;

/// Files that are listed, opened and written by their paths.
///
/// No contract can say what a file holds. What it can say is of which file a reader or a writer is: nothing but these
/// calls tells that, so what is proved over every store holds of the calls that were made.
pub trait FileStore {
    ghost use Rattle.std.specs.Prelude.{ℕ, Bool, List};
    ghost use Rattle.file_store.specs.declared.standing.Standing.{Standing};

    type Reader: Source + Drop;

    type Writer: Sink + Drop;

    /// The reader was opened at this path, and nothing was read of it.
    ghost IsOpened: { List ℕ → Self.Reader → Type 0 };

    /// No file could be opened at this path.
    ghost CannotOpen: { List ℕ → Type 0 };

    /// This was seen to stand at this path.
    ghost IsStanding: { List ℕ → Standing → Type 0 };

    /// No folder could be listed at this path.
    ghost CannotList: { List ℕ → Type 0 };

    /// The folder at this path has entries with these names, and others whose names are no text.
    ghost HasNames: { List ℕ → List (List ℕ) → Type 0 };

    /// The writer begins a file for this path, and nothing was written to it.
    ghost IsBegun: { List ℕ → Self.Writer → Type 0 };

    /// No file could be begun for this path.
    ghost CannotBegin: { List ℕ → Type 0 };

    /// At this path stands what the writer wrote.
    ghost IsStored: { List ℕ → Self.Writer → Type 0 };

    /// What was written could not be put at this path.
    ghost CannotStore: { List ℕ → Type 0 };

    /// The writer began a file at this path where it stands, which is emptied, or with `true` keeps what it has.
    ghost IsPlaced: { List ℕ → Bool → Self.Writer → Type 0 };

    /// No file could be begun where it stands.
    ghost CannotPlace: { List ℕ → Type 0 };

    /// These paths lead to one file.
    ghost AreOne: { List ℕ → List ℕ → Type 0 };

    /// These paths lead to different files, or one of them to none.
    ghost AreApart: { List ℕ → List ℕ → Type 0 };

    /// Opens the file at a path.
    fn open(&self, path: &str) -> Result<Self::Reader, DeviceFault>
        ensures opened { IfOk result (λ r. IsOpened path.now r) }
        ensures refused { OnErr result (CannotOpen path.now) }
        ensures sound { IfOk result (λ r. Self.Reader.failed r ≡ false) };

    /// Opens the file at a path as `open` does, where it is a regular file: who opens a pipe waits for its writer.
    fn open_regular(&self, path: &str) -> Result<Self::Reader, DeviceFault>
        ensures opened { IfOk result (λ r. IsOpened path.now r) }
        ensures refused { OnErr result (CannotOpen path.now) }
        ensures sound { IfOk result (λ r. Self.Reader.failed r ≡ false) };

    /// What stands at a path, for whoever tells why it could not be read. Only a regular file is opened for it, and
    /// nothing is read.
    fn look(&self, path: &str) -> Standing
        ensures { IsStanding path.now result };

    /// The names in a folder, but for those that are not UTF-8.
    fn names(&self, alloc: Global, folder: &str) -> Result<Vec<String>, DeviceFault>
        ensures listed { IfOk result (λ names.
            HasNames folder.now (map string_bytes names.items)) }
        ensures refused { IsErrOf result DeviceFault.Broken → CannotList folder.now };

    /// Begins a file for a path. What stands there stays until the file is stored.
    fn begin(&self, alloc: Global, path: &str) -> Result<Self::Writer, DeviceFault>
        ensures begun { IfOk result (λ w. IsBegun path.now w) }
        ensures refused { IsErrOf result DeviceFault.Broken → CannotBegin path.now }
        ensures sound { IfOk result (λ w. Self.Writer.failed w ≡ false) };

    /// Puts a file that was written at its path, in place of what stood there.
    fn store(&self, path: &str, written: Self::Writer) -> Result<(), DeviceFault>
        ensures stored { OnOk result (IsStored path.now written) }
        ensures refused { OnErr result (CannotStore path.now) };

    /// Lets a file go that was begun. What stands at its path stays.
    fn discard(&self, begun: Self::Writer);

    /// Begins a file where it stands, for whoever reads it while it is written. What was there goes, or with `append`
    /// stays in front of what is written.
    fn begin_in_place(&self, path: &str, append: bool) -> Result<Self::Writer, DeviceFault>
        ensures placed { IfOk result (λ w. IsPlaced path.now append w) }
        ensures refused { OnErr result (CannotPlace path.now) }
        ensures sound { IfOk result (λ w. Self.Writer.failed w ≡ false) };

    /// Whether two paths lead to one file, also by links.
    fn is_one(&self, path: &str, other: &str) -> bool
        ensures one { result ≡ true → AreOne path.now other.now }
        ensures apart { result ≡ false → AreApart path.now other.now };
}
