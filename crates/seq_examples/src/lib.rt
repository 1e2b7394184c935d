//! Runs of the sequencer that were worked out by hand, and an example of every refusal of every command.
//!
//! They are computed from the definitions of `seq_state`, so they show what those mean. Only `test_sessions` stands on
//! this crate.
#![tactic(auto)]

mod rows;

pub use rows::{
    changed_filter, circles_of_runs, closed_client, copies_by_edge_age, counted_frames,
    deleted_port, dropped_output, each_condition, each_refusal, each_step, equal_moments,
    equal_ticks, input_overflow, listened, lost_count_stays, noisy_stranger, opened_again,
    output_full, played_file, queue_clock, restarted_queue, running_status, send_inside_message,
    shared_queue, third_clients,
};
