//! What stands at a path.

/// What stands at a path, for whoever tells why it could not be read.
#[derive(Clone, Copy, Debug, PartialEq, Eq)]
pub enum Standing {
    /// Nothing: there is no such file, or what leads to it is no folder, or a link leads nowhere.
    Nothing,
    /// A folder.
    Folder,
    /// Neither a folder nor a regular file, as a terminal or a pipe.
    Special,
    /// A file that may not be read, or what may not be looked at.
    Denied,
    /// A regular file that can be opened, or something of which nothing else is known.
    File,
}
