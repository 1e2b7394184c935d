//! The files of a folder that a run can play.

ghost use Rattle.std.specs.Prelude.{◌≡◌, ◌≤◌, [], length, map, string_bytes, IfOk, OnOk};
ghost use Rattle.program_tasks.specs.FolderFiles.{seen_files, IsOpenedAs, AreOpened, GainsFile};

use crate::left_out::{LeftOutFile, WhyLeftOut};
use memory::OutOfMemory;
use smf_files::{SmfFault, SmfFile};
use smf_mend::Mended;
use std::alloc::Global;

/// What a run takes of the files of a folder, and what it leaves out.
#[derive(Drop)]
pub struct FolderFiles<'f> {
    /// The name of each file that can be played, in the order of the folder.
    pub names: Vec<Vec<u8>>,
    /// The files with these names.
    pub files: Vec<SmfFile<'f>>,
    /// The others.
    pub left_out: Vec<LeftOutFile<'f>>,
}

/// Opens the files with these names, from what is taken of each. One of which nothing is, and one that is no Standard
/// MIDI File, is left out.
pub fn open_files<'f>(
    alloc: Global,
    names: &'f [String],
    contents: &'f [Result<Mended, WhyLeftOut>],
) -> Result<FolderFiles<'f>, OutOfMemory>
    requires { length names.now ≡ length contents.now }
    ensures opened { IfOk result (λ o.
        AreOpened (map string_bytes names.now) contents.now (seen_files o)) }
    ensures as_many { IfOk result (λ o. length o.names.items ≡ length o.files.items) }
    ensures few { IfOk result (λ o. length o.names.items ≤ length names.now) }
{
    let mut opened = FolderFiles::new(alloc);
    for (place, content) in contents.iter().enumerate() {
        opened.add(alloc, names[place].as_str(), content)?;
    }
    Ok(opened)
}

impl<'f> FolderFiles<'f> {
    fn new(alloc: Global) -> FolderFiles<'f>
        ensures names { result.names.items ≡ [] }
        ensures files { result.files.items ≡ [] }
        ensures left_out { result.left_out.items ≡ [] }
    {
        FolderFiles {
            names: Vec::new(alloc),
            files: Vec::new(alloc),
            left_out: Vec::new(alloc),
        }
    }

    /// Adds the next file, or leaves it out.
    fn add(
        &mut self,
        alloc: Global,
        name: &'f str,
        content: &'f Result<Mended, WhyLeftOut>,
    ) -> Result<(), OutOfMemory>
        ensures { OnOk result (GainsFile name.now content.now
            (seen_files self.old) (seen_files self.new)) }
    {
        match file_of(alloc, content)? {
            Ok(file) => {
                self.names.push(Vec::from_slice(alloc, name.as_bytes())?)?;
                self.files.push(file)?;
            }
            Err(why) => self.left_out.push(LeftOutFile { name, why })?,
        }
        Ok(())
    }
}

/// The file that is taken, or why there is none.
fn file_of<'f>(
    alloc: Global,
    content: &'f Result<Mended, WhyLeftOut>,
) -> Result<Result<SmfFile<'f>, WhyLeftOut>, OutOfMemory>
    ensures { IfOk result (IsOpenedAs content.now) }
{
    let taken = match content {
        Ok(taken) => taken,
        Err(why) => return Ok(Err(*why)),
    };
    match SmfFile::read(alloc, taken.bytes.as_slice()) {
        Ok(file) => Ok(Ok(file)),
        Err(SmfFault::OutOfMemory) => Err(OutOfMemory),
        Err(fault) => Ok(Err(WhyLeftOut::Damaged(fault))),
    }
}
