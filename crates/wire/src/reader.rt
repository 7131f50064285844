ghost use Rattle.std.specs.Prelude.{◌≡◌, IfSome};
ghost use Rattle.std.specs.Option.{option_map};
ghost use Rattle.wire.specs.Line.{Line-is-clean};
ghost use Rattle.wire.specs.Noise.{Soh-starts-afresh, Soh-ends-noise, Packet-survives-noise, Taken-has-come, Noise-leaves-no-trace};
ghost use Rattle.wire.specs.Packet.{said, Fitting};
ghost use Rattle.wire.specs.Reader.{rest, next, taken};

use crate::packet::{ETX, PACKET_MOST, Packet, SOH};
use std::marker::Model;

// Gathers the bytes of a line into packets: at rest, or with so many bytes gathered.
// An array and a length, since `Octets` would clear 1,547 bytes at each SOH, and a line byte is to take a few nanoseconds.
#[derive(Drop)]
pub struct Reader {
    gathered: [u8; PACKET_MOST],
    len: Option<usize>,
}

impl Model for Reader {
    ghost use Rattle.std.specs.Prelude.{◌≤◌, IfSome};
    ghost use Rattle.wire.specs.Reader.{State, held};

    ghost Value = { State };

    ghost view = { λ r. held r.len r.gathered };

    ghost invariant = { λ r. IfSome r.len (λ n. (1 ≤ n) × (n ≤ 1547)) };
}

impl Reader {
    // A reader at rest, and the laws that it lives by.
    pub fn new() -> Reader
        ensures state { result ≡ rest }
        ensures afresh { Soh-starts-afresh }
        ensures noise { Soh-ends-noise }
        ensures packet { Packet-survives-noise }
        ensures come { Taken-has-come }
        ensures trace { Noise-leaves-no-trace }
        ensures clean { Line-is-clean }
    {
        Reader {
            gathered: [0; PACKET_MOST],
            len: None,
        }
    }

    // Takes in a byte of the line, and gives the packet that it makes whole.
    #[tactic(auto, unfolding(crate::specs::Reader::next, crate::specs::Reader::taken))]
    pub fn feed(&mut self, byte: u8) -> Option<Packet>
        ensures state { self.new ≡ next self.old byte }
        ensures packet { option_map said result ≡ taken self.old byte }
        ensures fits { IfSome result (λ p. Fitting (said p)) }
    {
        match (self.len, byte) {
            (_, SOH) => {
                self.gathered[0] = SOH;
                self.len = Some(1);
                None
            }
            (None, _) => None,
            (Some(PACKET_MOST), _) => {
                self.len = None;
                None
            }
            (Some(len), ETX) => {
                self.gathered[len] = ETX;
                self.len = None;
                Packet::read(&self.gathered[..len + 1])
            }
            (Some(len), _) => {
                self.gathered[len] = byte;
                self.len = Some(len + 1);
                None
            }
        }
    }
}
