//! What goes along the subscriptions: the ways from a port, and the copies that a message leaves at their ends.
//!
//! `specs/Carrying.antt` says which copies come of a message. Filters one after another are one rule, so that a message
//! is changed once on a way. Where the ways are too many to walk, the copies are counted by the nodes that they come
//! to, and those ways alone are walked on which one finds room.
#![tactic(auto)]

mod barren;
mod carried;
mod changes;
mod class;
mod count_fault;
mod counted;
mod counting;
mod front;
mod hints;
mod joining;
mod kept_counts;
mod laws;
mod reach;
mod sending;
mod table;
mod walking;
mod ways;

pub use carried::Carried;
pub use laws::{
    copies_are_counted, cuts_stay, each_pool_alone, losses_come_first,
    one_class_goes_the_same_ways, onward_from_kept,
};
pub use sending::deliver;
pub use table::WayTable;
