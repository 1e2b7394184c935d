//! The files of the system that the program runs on.

ghost use Rattle.std.specs.Prelude.{◌≡◌, false, IfOk};

use crate::draft::{Draft, DraftPaths};
use crate::standing::Standing;
use crate::store::FileStore;
use byte_io::{DeviceFault, StdSink, StdSource};
use std::alloc::Global;
use std::fs;
use std::fs::{Metadata, OpenOptions};
use std::io::ErrorKind;
use std::os::unix::fs::MetadataExt;
use std::rt::Files;

/// How many names are tried for a file that is not yet at its path.
const MOST_DRAFTS: u32 = 100;

/// The files of a system, by the runtime that reaches them.
#[derive(Drop)]
pub struct SystemFiles<R: Files + Drop> {
    rt: R,
}

impl<R: Files + AllocGlobal + Clone + Drop> SystemFiles<R> {
    pub fn new(rt: R) -> Self {
        SystemFiles { rt }
    }

    /// Begins a file beside a path, under a name that nothing has yet.
    fn begin_beside(&self, alloc: Global, target: String) -> Result<Draft<R::File>, DeviceFault>
        ensures { IfOk result (λ d. d.sink.broken ≡ false) }
    {
        for number in 0..MOST_DRAFTS {
            let path = target.as_str();
            let beside = format!(in alloc; "{path}.part{number}")?;
            match fs::File::create_new(&self.rt, beside.as_str()) {
                Ok(file) => {
                    return Ok(Draft {
                        sink: StdSink::new(file),
                        paths: Some(DraftPaths { beside, target }),
                    });
                }
                Err(error) => {
                    if error.kind() != ErrorKind::AlreadyExists {
                        return Err(DeviceFault::Broken);
                    }
                }
            }
        }
        Err(DeviceFault::Broken)
    }

    /// Begins a file in place of one, with its permissions. A link stays, and the file that it leads to is replaced.
    fn begin_again(
        &self,
        alloc: Global,
        path: &str,
        there: &Metadata,
    ) -> Result<Draft<R::File>, DeviceFault>
        ensures { IfOk result (λ d. d.sink.broken ≡ false) }
    {
        let target = match fs::canonicalize(&self.rt, path) {
            Ok(target) => target,
            Err(error) => return Err(fault_of(error.kind())),
        };
        let Some(target) = target.to_str() else {
            return Err(DeviceFault::Broken);
        };
        let draft = self.begin_beside(alloc, text_of(alloc, target)?)?;
        if let Some(paths) = &draft.paths {
            let _ = fs::set_permissions(&self.rt, paths.beside.as_str(), there.permissions());
        }
        Ok(draft)
    }
}

impl<R: Files + AllocGlobal + Clone + Drop> FileStore for SystemFiles<R> {
    type Reader = StdSource<R::File>;

    type Writer = Draft<R::File>;

    ghost IsOpened = { λ _ _. Unit {0} };

    ghost CannotOpen = { λ _. Unit {0} };

    ghost IsStanding = { λ _ _. Unit {0} };

    ghost CannotList = { λ _. Unit {0} };

    ghost HasNames = { λ _ _. Unit {0} };

    ghost IsBegun = { λ _ _. Unit {0} };

    ghost CannotBegin = { λ _. Unit {0} };

    ghost IsStored = { λ _ _. Unit {0} };

    ghost CannotStore = { λ _. Unit {0} };

    ghost IsPlaced = { λ _ _ _. Unit {0} };

    ghost CannotPlace = { λ _. Unit {0} };

    ghost AreOne = { λ _ _. Unit {0} };

    ghost AreApart = { λ _ _. Unit {0} };

    fn open(&self, path: &str) -> Result<StdSource<R::File>, DeviceFault> {
        match fs::open(&self.rt, path) {
            Ok(file) => Ok(StdSource::new(file)),
            Err(_) => Err(DeviceFault::Broken),
        }
    }

    fn open_regular(&self, path: &str) -> Result<StdSource<R::File>, DeviceFault> {
        match fs::metadata(&self.rt, path) {
            Ok(there) if there.is_file() => self.open(path),
            _ => Err(DeviceFault::Broken),
        }
    }

    fn look(&self, path: &str) -> Standing {
        match fs::metadata(&self.rt, path) {
            Ok(there) if there.is_dir() => Standing::Folder,
            Ok(there) if there.is_file() => match fs::open(&self.rt, path) {
                Ok(_) => Standing::File,
                Err(error) => standing_of(error.kind()),
            },
            Ok(_) => Standing::Special,
            Err(error) => standing_of(error.kind()),
        }
    }

    fn names(&self, alloc: Global, folder: &str) -> Result<Vec<String>, DeviceFault> {
        let mut names = Vec::new(alloc);
        let entries = match fs::read_dir(&self.rt, folder) {
            Ok(entries) => entries,
            Err(error) => return Err(fault_of(error.kind())),
        };
        for entry in entries {
            match entry {
                Ok(entry) => push_name(&mut names, text_of(alloc, entry.file_name())?)?,
                Err(error) => {
                    if error.kind() != ErrorKind::InvalidFilename {
                        return Err(fault_of(error.kind()));
                    }
                }
            }
        }
        Ok(names)
    }

    fn begin(&self, alloc: Global, path: &str) -> Result<Draft<R::File>, DeviceFault> {
        match fs::metadata(&self.rt, path) {
            Ok(there) if there.is_file() => self.begin_again(alloc, path, &there),
            Ok(_) => self.begin_in_place(path, false),
            Err(_) => self.begin_beside(alloc, text_of(alloc, path)?),
        }
    }

    fn store(&self, _path: &str, written: Draft<R::File>) -> Result<(), DeviceFault> {
        let Some(paths) = &written.paths else {
            return Ok(());
        };
        if fs::rename(&self.rt, paths.beside.as_str(), paths.target.as_str()).is_ok() {
            return Ok(());
        }
        let _ = fs::remove_file(&self.rt, paths.beside.as_str());
        Err(DeviceFault::Broken)
    }

    fn discard(&self, begun: Draft<R::File>) {
        if let Some(paths) = &begun.paths {
            let _ = fs::remove_file(&self.rt, paths.beside.as_str());
        }
    }

    fn begin_in_place(&self, path: &str, append: bool) -> Result<Draft<R::File>, DeviceFault> {
        let opened = if append {
            OpenOptions::new()
                .create(true)
                .append(true)
                .open(&self.rt, path)
        } else {
            fs::create(&self.rt, path)
        };
        match opened {
            Ok(file) => Ok(Draft {
                sink: StdSink::new(file),
                paths: None,
            }),
            Err(_) => Err(DeviceFault::Broken),
        }
    }

    fn is_one(&self, path: &str, other: &str) -> bool {
        if path == other {
            return true;
        }
        match (fs::metadata(&self.rt, path), fs::metadata(&self.rt, other)) {
            (Ok(one), Ok(two)) => one.dev() == two.dev() && one.ino() == two.ino(),
            _ => false,
        }
    }
}

fn text_of(alloc: Global, text: &str) -> Result<String, DeviceFault> {
    Ok(String::from_str(alloc, text)?)
}

fn push_name(names: &mut Vec<String>, name: String) -> Result<(), DeviceFault> {
    match names.push(name) {
        Ok(()) => Ok(()),
        Err(_) => Err(DeviceFault::OutOfMemory),
    }
}

/// Why a folder could not be listed, or a path not followed.
fn fault_of(kind: ErrorKind) -> DeviceFault {
    match kind {
        ErrorKind::OutOfMemory => DeviceFault::OutOfMemory,
        _ => DeviceFault::Broken,
    }
}

/// What stands at a path that could not be looked at, or opened.
fn standing_of(kind: ErrorKind) -> Standing {
    match kind {
        ErrorKind::NotFound | ErrorKind::NotADirectory => Standing::Nothing,
        ErrorKind::PermissionDenied => Standing::Denied,
        _ => Standing::File,
    }
}
