// What the programs share: recorded calls, the site that they run, and the lines that they print.
//
// Promised: input is read as exactly its calls, up to its end, a cut or anything else; the site is the two text signs in
// two groups and is never refused; a line tells what a sign shows, to the byte.
#![tactic(auto)]

pub mod input;
pub mod lines;
pub mod site;
