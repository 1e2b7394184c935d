//! The open clients with the subscriptions between their nodes, what goes along these, and the listing.
#![tactic(auto)]

mod changing;
mod keeping;
mod listing;
mod patchbay;
mod removing;
mod rows;

pub use patchbay::Patchbay;
pub use rows::worked_listing;
