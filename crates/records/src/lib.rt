// Frames, messages and plans as records, and the numbered store that keeps them.
//
// A record made from a fit command gives back that command's very bytes. Find, replace and list are proved once for
// every kind of record: what is replaced is found, all else stays, and a listing rises.
#![tactic(auto)]

pub mod any_record;
pub mod frame;
pub mod message;
pub mod plan;
pub mod slots;
pub mod store;
mod writing;
