//! Streams, tempo maps and files, through their public calls.

mod devices;
mod files;
mod tempo;
mod texts;
mod wire;
