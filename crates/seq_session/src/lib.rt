//! Sessions: the scripts of many clients, merged and run together, and the log of each.
//!
//! `stream_sessions` goes from the bytes of scripts to logs that are written while the session runs. Its contract
//! says what each log tells, and that it tells within a closed circle of clients what it tells in the session of the
//! circle's scripts alone.
#![tactic(auto)]

mod about;
mod diagnosing;
mod diagnostic;
mod fault;
mod join;
mod laws;
mod lines;
mod log;
mod logging;
mod made_caps;
mod made_ports;
mod merged;
mod merging;
mod moment;
mod named_files;
mod naming;
mod parse;
mod progress;
mod reading;
mod rows;
mod session_logs;
mod session_run;
mod sessions;
mod slip;
mod slips;
mod source;
mod streaming;
mod writing;

pub use about::{About, Capability};
pub use diagnostic::{Cause, Diagnostic};
pub use fault::SessionFault;
pub use laws::{logs_alone, merges_of_a_circle, readings_are_sorted, sessions_are_timed};
pub use lines::{Scratch, push_delivery, push_reply, push_skip};
pub use log::{log_text, log_texts};
pub use merged::Merged;
pub use merging::merge;
pub use named_files::NamedFiles;
pub use parse::{parse_all, parse_script};
pub use progress::{Progress, Unwatched};
pub use rows::worked_logs;
pub use script_text::{MOST_FILES, MOST_SCRIPT, ScriptInput, ScriptRead, Skip, SkipReason};
pub use session_logs::SessionLogs;
pub use session_run::SessionRun;
pub use sessions::{run_scripts, run_sessions, stream_sessions};
pub use slip::{Slip, SlipOnLine};
pub use source::{Script, ScriptSource, clients_rise, logs_are_open, readers_are_sound};
