//! What is still to be sent, and how it is: the playbacks of all clients in cells, an agenda of when they are due, and
//! settling, which sends all that is due by a moment.
#![tactic(auto)]

mod adding;
mod cells;
mod desk;
mod dropping;
mod events;
mod head;
mod keys;
mod lists;
mod next;
mod order;
mod playback;
mod rekeying;
mod settling;
mod waiting;
mod waking;
mod which;

pub use adding::{Accepted, add_playback};
pub use cells::Cells;
pub use desk::Desk;
pub use dropping::drop_playbacks;
pub use events::Events;
pub use head::{PlaybackHead, PoppedMessage};
pub use next::soonest;
pub use order::QueueOrder;
pub use playback::Playback;
pub use rekeying::rekey_all;
pub use settling::settle_all;
pub use which::Which;
