//! The circle round a client, from the scripts of a session: who is in it, and whether any stranger can open it.
//!
//! `circle_of_scripts` goes from the bytes of scripts to the least circle. Its contract says that where it is shut, no
//! script of any stranger changes a byte of the owner's log, but for the outcomes that `SessionCircle` names; and
//! `circle_text` prints it. `first_reach` says whether it is closed in the run of these very scripts, strangers' among
//! them.
#![tactic(auto)]

mod circle;
mod closing;
mod every_end;
mod laws;
mod phrases;
mod table;
mod table_lines;
mod text;

pub use circle::{SessionCircle, circle_of_scripts};
pub use closing::first_reach;
pub use every_end::{EveryEnd, NO_END, circle_for_every_end, circles_for_every_end};
pub use laws::{no_script_matters, shut_for_every_end};
pub use table::{OwnedCircle, SessionCircles, are_all_shut, circles_of_scripts};
pub use table_lines::table_text;
pub use text::{circle_text, reach_text};
