//! What the sequencer means: the words of its commands, replies and logs, its plain state, the step of one input, the
//! plain run of a list of inputs, and what the owner of a circle of clients sees of a run.
//!
//! The definitions stand in `specs/`, the commands in `specs/Table.antt`; the laws about them are the contracts of the
//! functions of `laws`, which do nothing.
#![tactic(auto)]

mod input;
mod laws;
mod log;
mod refusal;

pub use input::{Command, DueAt, Input};
pub use laws::{
    all_are_closed, bounds_hold, circle_alone, circle_heard_alone, circles_meet, due_in_order,
    edges_that_go, ends_are_there, filters_make_no_cycle, lists_that_agree, lowest_is_told,
    moments_never_fall, one_input, others_stay, paths_within, playbacks_have_events,
    playbacks_that_go, queues_keep_up, receive_takes_the_oldest, refused_changes_nothing,
    settling_in_two, sources_within,
};
pub use log::{Arrival, Delivery, LogEntry, Reply};
pub use patch_graph::Edge;
pub use refusal::Refusal;
