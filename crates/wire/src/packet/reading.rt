ghost use Rattle.std.specs.Prelude.{◌≡◌, ◌*◌, ◌≤◌, length, IfSome};
ghost use Rattle.std.specs.Bool.{OnTrue};
ghost use Rattle.std.specs.Option.{option_map};
ghost use Rattle.octets.specs.Held.{held};
ghost use Rattle.wire.specs.Digits.{from_digits};
ghost use Rattle.wire.specs.Packet.{framed, decode, said, Whole, Alike};

use crate::crc::check_word;
use crate::digits::{byte_of, word_digits};
use crate::packet::{ETX, FRAME, HEAD, MESSAGE_MOST, PACKET_MOST, Packet, SOH, STX, TAIL};
use octets::Octets;

// The bytes that digits spell.
fn from_digits(digits: &[u8]) -> Option<Octets<MESSAGE_MOST>>
    requires { length digits.now ≤ 1536 }
    ensures bytes { option_map held result ≡ from_digits digits.now }
    ensures long { IfSome result (λ bytes. 2 * length (held bytes) ≡ length digits.now) }
{
    let mut bytes = Octets::new();
    let mut left = digits;
    while let [high, low, rest @ ..] = left {
        bytes.push(byte_of(*high, *low)?);
        left = rest;
    }
    left.is_empty().then_some(bytes)
}

// Whether the bytes have a packet's frame: its length, its marks and its check word.
#[tactic(auto, unfolding(crate::specs::Packet::framed))]
fn is_framed(bytes: &[u8]) -> bool
    ensures frame { result ≡ framed bytes.now }
    ensures long { OnTrue result ((13 ≤ length bytes.now) × (length bytes.now ≤ 1547)) }
{
    let [SOH, _, _, _, _, STX, ..] = bytes else {
        return false;
    };
    if !(FRAME + 2..=PACKET_MOST).contains(&bytes.len()) {
        return false;
    }
    let body = &bytes[..bytes.len() - TAIL];
    let [first, second, third, fourth] = word_digits(check_word(body));
    bytes.ends_with(&[first, second, third, fourth, ETX])
}

impl Packet {
    // The packet that the bytes are, if they are one.
    #[tactic(auto, using(crate::proofs::Alike::alike), unfolding(crate::specs::Packet::decode))]
    pub fn read(bytes: &[u8]) -> Option<Packet>
        ensures packet { option_map said result ≡ decode bytes.now }
        ensures whole { Whole bytes.now (option_map said result) }
        ensures alike { Alike }
    {
        if !is_framed(bytes) {
            return None;
        }
        let [_, number_high, number_low, address_high, address_low, ..] = bytes else {
            return None;
        };
        Some(Packet {
            number: byte_of(*number_high, *number_low)?,
            address: byte_of(*address_high, *address_low)?,
            message: from_digits(&bytes[HEAD..bytes.len() - TAIL])?,
        })
    }

    // The message, in place.
    pub fn message(&self) -> &[u8]
        ensures bytes { result.now ≡ (said self.now).message }
        ensures long { (1 ≤ length result.now) × (length result.now ≤ 768) }
    {
        self.message.as_slice()
    }
}
