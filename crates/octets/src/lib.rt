// Bytes up to a bounded length, in memory of their own: what replies, packets and pictures are kept in, off the heap.
// A stretch means the list of its bytes. Promised: what is put behind it follows what it held, and what does not fit is
// cut; the bytes behind those in use stay 0, so that equal stretches are equal all through.
#![tactic(auto)]

mod octets;

pub use octets::Octets;
