// The messages that a controller of roadside signs is sent.
//
// `parse` reads any bytes as one of 23 commands, or says why they are none; its text and graphic cases borrow their
// bytes from the message. Whether the values of a command are fit is judged apart.
#![tactic(auto)]

pub mod command;
pub mod kind;
pub mod lists;
pub mod parsing;
pub mod rejection;
