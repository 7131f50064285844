// The replies that the controller sends: the exact bytes of each message that a reply packet carries.
// A reply means its message, of at most 768 bytes; what would not fit is cut, so that whoever fills one owes no proof of room.
// Promised: each reply is its layout to the byte, and equal layouts make equal replies.
#![tactic(auto)]

mod dates;
mod list;
mod logs;
mod plans;
mod readings;
mod reply;
mod status;
mod stored;
mod verdict;

pub use logs::{FaultEntry, FaultEvent, OrderEntry};
pub use plans::EnabledPlan;
pub use reply::Reply;
pub use status::{Named, Row, Status};
pub use stored::Listed;
