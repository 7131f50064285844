// The line: check words, digits, packets, and the reader that gathers packets from a noisy line of bytes.
//
// What is written is read back as the same number, address and message, and what is read is what would be written.
// SOH starts a packet afresh from any state, and noise in a gap of the line leaves no trace but in the reader.
#![tactic(auto)]

mod crc;
mod digits;
mod packet;
mod reader;

pub use crc::check_word;
pub use digits::{byte_of, digits_of, word_digits};
pub use packet::writing::write_packet;
pub use packet::{MESSAGE_MOST, PACKET_MOST, Packet};
pub use reader::Reader;
