//! Why a path cannot be read.

ghost use Rattle.std.specs.Prelude.{◌≡◌};
ghost use Rattle.folder_files.specs.Unread.{unread_text};

use file_store::Standing;

/// Why a path cannot be read, where what stands there says so: what follows on the words that say that it cannot be.
pub fn unread_text(there: Standing) -> &'static str
    ensures { result.now ≡ unread_text there }
{
    match there {
        Standing::Nothing => ": there is no such file",
        Standing::Folder => ": it is a folder",
        Standing::Denied => ": permission is denied",
        Standing::Special | Standing::File => "",
    }
}
