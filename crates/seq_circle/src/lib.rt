//! Circles of clients that no stranger can open: the least round an owner, and whether it is shut.
//!
//! `circle_of` goes over the inputs of a session. Its contract says that where it finds no opening the circle is shut,
//! so that nothing which strangers say changes what the owner sees, and that else no circle round the owner is shut.
#![tactic(auto)]

mod asking;
mod circle;
mod finding;
mod laws;
mod mattering;
mod members;

pub use asking::{Making, closed_bits, is_inner, making_of, target_of};
pub use circle::{Circle, circle_among, circle_of};
pub use laws::{
    line_more_keeps_shut, mended_is_shut, no_stranger_matters, open_can_be_joined,
    shut_circles_meet, shut_is_closed,
};
pub use mattering::places_that_matter;
pub use members::Joined;
