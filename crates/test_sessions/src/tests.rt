//! Sessions and scripts, through the public calls.

mod devices;
mod diagnosing;
mod failing_devices;
mod files;
mod patching;
mod pieces;
mod queues;
mod scripts;
mod sending;
mod session;
mod size_limits;
mod strangers;
mod texts;
mod waiting;
