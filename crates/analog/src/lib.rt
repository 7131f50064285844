// Analog readings: volts of the mains and of the battery, and a temperature, each coded to one byte of a reply.
// Promised: a code is the count of exact half marks that the reading reaches; volt codes 1 to 254 lie within 0.5001
// of ten times the exact volts, degree codes 81 to 179 within half a degree; a reading is kept exactly where its slot
// takes its kind and its state is known, and a refused one alters nothing.
#![tactic(auto)]

mod reading;
mod slots;

pub use reading::{Reading, worked_volts};
pub use slots::{Entry, Readings, Refusal, Slot, State};
