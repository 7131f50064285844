// The verdict on a message: the command that it is, or the first ground on which it is rejected.
//
// `judge` decides and alters nothing. Its grounds stand in one fixed order, each with its number. What a verdict means
// for the session and for the application error code is said here too, for every verdict.
#![tactic(auto)]

pub mod effects;
mod grounds;
pub mod rejection;
pub mod verdict;
