//! What the program does: the words that it is given, the files that these name, the work itself, and the line and the
//! status of each fault.
//!
//! `run` is what `midiseq run` does, and `explain` what it does where it explains; `record` what `midiseq record` does,
//! `circle` what `midiseq circle` does, `live` what `midiseq live` does, `make` what `midiseq make` does, `check` what
//! `midiseq check` does, and `perform` what the tools do, over every store of files: from the files that the words name
//! to the text that is printed, or to the file that is written.
#![tactic(auto)]

mod answer;
mod answering;
mod apart;
mod checking;
mod choice;
mod circling;
mod end_word;
mod ending;
mod explaining;
mod explanation;
mod folder;
mod forgiven;
mod form_word;
mod formed;
mod grid;
mod held_log;
mod left_out;
mod log_folder;
mod logs;
mod making;
mod names;
mod notes;
mod opening;
mod port_file;
mod printing;
mod program_fault;
mod progress_line;
mod question;
mod reading;
mod reason;
mod recording;
mod remedy;
mod rows;
mod run_answer;
mod running;
mod session;
mod streaming;
mod subcommands;
mod tabling;
mod task;
mod telling;
mod times;
mod why_answer;
mod why_question;
mod words;
mod writing;

pub use answer::CircleAnswer;
pub use answering::print_circle;
pub use checking::check;
pub use choice::{DumpFlags, Grammar, STANDARD, Stream, Task, Tool};
pub use end_word::EndWord;
pub use ending::{Ended, finish};
pub use explaining::explain_session;
pub use explanation::Explanation;
pub use folder::{Folder, named};
pub use forgiven::ForgivenIn;
pub use form_word::{Printing, form_named};
pub use grid::GridWords;
pub use held_log::HeldLog;
pub use left_out::{LeftOutFile, LeftOutSince, WhyLeftOut};
pub use log_folder::LogFolder;
pub use logs::print_logs;
pub use making::make;
pub use names::taken_files;
pub use notes::{Notes, StandardError};
pub use opening::{FolderFiles, open_files};
pub use port_file::record_file;
pub use printing::print_session;
pub use program_fault::{FaultLine, LINE_START, LeftOut, ProgramFault};
pub use progress_line::ProgressLine;
pub use question::CircleQuestion;
pub use reading::read_scripts;
pub use reason::reasoned;
pub use recording::{Recorded, Recording, record_session, recorded_bytes};
pub use rows::worked_recording;
pub use run_answer::RunAnswer;
pub use session::Session;
pub use streaming::stream_session;
pub use subcommands::{circle, explain, live, record, run, stream, why};
pub use task::perform;
pub use telling::{AbsentLine, DiagnosticLine, LossLine, SlipLine, SoundingLine};
pub use times::time_named;
pub use why_answer::print_why;
pub use why_question::WhyQuestion;
pub use words::{ScriptWord, client_named, port_named, ports_named, scripts_named, until_named};
pub use writing::write_file;
