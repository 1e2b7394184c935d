//! The tools of the program, through their public calls.

mod checks;
mod circles;
mod circles_of_scripts;
mod dump;
mod failing_devices;
mod faults;
mod grids;
mod left_out;
mod live;
mod log_files;
mod makings;
mod recording;
mod refusals;
mod sessions;
mod streams;
mod why;
