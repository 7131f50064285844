ghost use Rattle.std.specs.Prelude.{◌≤◌, length};
ghost use Rattle.octets.specs.Held.{held};

use octets::Octets;

pub mod reading;
pub mod writing;

// The most bytes of a packet.
pub const PACKET_MOST: usize = 1547;

// The most bytes of a message.
pub const MESSAGE_MOST: usize = 768;

// The bytes of a packet before its message.
const HEAD: usize = 6;

// The bytes of a packet behind its message.
const TAIL: usize = 5;

// The bytes of a packet beside those of its message.
const FRAME: usize = HEAD + TAIL;

pub const SOH: u8 = 1;

pub const STX: u8 = 2;

pub const ETX: u8 = 3;

// A whole packet: its message has at least one byte.
#[derive(Clone, Copy)]
pub struct Packet {
    pub number: u8,
    pub address: u8,
    message: Octets<MESSAGE_MOST>,
    ghost some: { 1 ≤ length (held message) },
}
