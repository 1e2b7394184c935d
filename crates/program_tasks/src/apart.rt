//! Whether a file is one that a session reads.

ghost use Rattle.std.specs.Prelude.{◌≡◌, true, false, map, string_bytes, IfOk};
ghost use Rattle.std.specs.Option.{option_map};
ghost use Rattle.program_tasks.specs.Apart.{AreScriptsApart, AreFilesApart, IsApart, IsOneScript, IsOneFile, IsShared};

use crate::session::Session;
use crate::words::ScriptWord;
use file_store::FileStore;
use folder_files::path_in;
use memory::OutOfMemory;
use std::alloc::Global;

/// Whether a path leads to none of a session's scripts and to none of the files with these names in its folder, also by
/// links.
pub(crate) fn is_apart<S: FileStore>(
    alloc: Global,
    store: &S,
    path: &str,
    session: &Session<'_>,
    names: &[String],
) -> Result<bool, OutOfMemory>
    ensures apart { IfOk result (λ apart. apart ≡ true → IsApart S.AreApart path.now
        session.now.scripts.items (option_map (λ d. d.now) session.now.dir)
        (map string_bytes names.now)) }
    ensures shared { IfOk result (λ apart. apart ≡ false → IsShared S.AreOne path.now
        session.now.scripts.items (option_map (λ d. d.now) session.now.dir)
        (map string_bytes names.now)) }
{
    if !is_no_script(store, path, session.scripts.as_slice()) {
        return Ok(false);
    }
    match session.dir {
        Some(dir) => is_no_file(alloc, store, path, dir, names),
        None => Ok(true),
    }
}

/// Whether a path leads to none of these scripts, also by links.
pub(crate) fn is_no_script<S: FileStore>(store: &S, path: &str, scripts: &[ScriptWord<'_>]) -> bool
    ensures apart { result ≡ true → AreScriptsApart S.AreApart path.now scripts.now }
    ensures one { result ≡ false → IsOneScript S.AreOne path.now scripts.now }
{
    match scripts.split_first() {
        Some((first, more)) => {
            !store.is_one(path, first.path) && is_no_script(store, path, more)
        }
        None => true,
    }
}

fn is_no_file<S: FileStore>(
    alloc: Global,
    store: &S,
    path: &str,
    dir: &str,
    names: &[String],
) -> Result<bool, OutOfMemory>
    ensures apart { IfOk result (λ apart. apart ≡ true
        → AreFilesApart S.AreApart path.now dir.now (map string_bytes names.now)) }
    ensures one { IfOk result (λ apart. apart ≡ false
        → IsOneFile S.AreOne path.now dir.now (map string_bytes names.now)) }
{
    let Some((first, more)) = names.split_first() else {
        return Ok(true);
    };
    let file = path_in(alloc, dir, first.as_str())?;
    if store.is_one(path, file.as_str()) {
        return Ok(false);
    }
    is_no_file(alloc, store, path, dir, more)
}
