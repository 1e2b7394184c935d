//! Files by their paths: listed, opened, and written so that what stood there stays until the new file is whole.
//!
//! `FileStore` is what a program asks of a system's files. `SystemFiles` asks it of the system on which the program
//! runs; of what that one opens, lists and renames nothing is proved.
#![tactic(auto)]

mod draft;
mod standing;
mod store;
mod system;

pub use byte_io::DeviceFault;
pub use draft::Draft;
pub use standing::Standing;
pub use store::FileStore;
pub use system::SystemFiles;
