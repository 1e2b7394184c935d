//! Runs of whole lists of inputs, under both agendas, and tests of the layers below them.

mod circles;
mod clients;
mod filter_trees;
mod going;
mod kept_ways;
mod lines;
mod logs;
mod long_runs;
mod losses;
mod many_ways;
mod patchbay;
mod sending;
mod setting_up;
mod settle;
mod single_steps;
mod state;
mod wiring;
