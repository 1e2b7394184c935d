//! How much of a stream is read.

use smf_grammar::MOST_BYTES;

/// How many bytes are read at once.
pub(crate) const CHUNK: usize = 4096;

/// How many bytes a stream or a file has at most, for the tools.
pub(crate) const MOST: usize = MOST_BYTES;
