//! Verdicts on files: which are Standard MIDI Files, what is wrong with the others, and which cannot be read.
#![tactic(auto)]

mod answer;
mod checking;
mod laws;
mod report;
mod tally;
#[cfg(test)]
mod tests;
mod verdict;

pub use answer::CheckAnswer;
pub use checking::check_files;
pub use laws::worked_checks;
pub use verdict::Verdict;
