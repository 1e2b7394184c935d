//! The path of a file in a folder.

ghost use Rattle.std.specs.Prelude.{◌≡◌, string_bytes, IfOk};
ghost use Rattle.folder_files.specs.Paths.{path_in};

use memory::OutOfMemory;
use std::alloc::Global;

/// The path of a file in a folder.
pub fn path_in(alloc: Global, dir: &str, name: &str) -> Result<String, OutOfMemory>
    ensures { IfOk result (λ path. string_bytes path ≡ path_in dir.now name.now) }
{
    Ok(format!(in alloc; "{dir}/{name}")?)
}
