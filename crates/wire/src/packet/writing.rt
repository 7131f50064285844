ghost use Rattle.std.specs.Prelude.{◌≡◌, ◌+◌, ◌*◌, ◌≤◌, ◌++◌, length, drop};
ghost use Rattle.wire.specs.Digits.{in_digits};
ghost use Rattle.wire.specs.Packet.{encode, length_written, Written};

use crate::crc::check_word;
use crate::digits::{digits_of, word_digits};
use crate::packet::{ETX, FRAME, HEAD, MESSAGE_MOST, SOH, STX, TAIL};

// Fills `out` with the digits of `bytes`.
fn put_digits(out: &mut [u8], bytes: &[u8])
    requires { length out.old ≡ 2 * length bytes.now }
    ensures { out.new ≡ in_digits bytes.now }
{
    // at counted places: through an iterator over the pairs of `out` it is not known what is written, and `Octets` takes twice as long
    for (i, byte) in bytes.iter().enumerate() {
        out[2 * i..2 * i + 2].copy_from_slice(&digits_of(*byte));
    }
}

// Writes a packet at the front of `out`, and answers its length.
fn fill(out: &mut [u8], number: u8, address: u8, message: &[u8]) -> usize
    requires { (length message.now ≤ 768) × (2 * length message.now + 11 ≤ length out.old) }
    ensures bytes { out.new ≡ encode number address message.now ++ drop result out.old }
    ensures long { result ≡ 2 * length message.now + 11 }
{
    let [number_high, number_low] = digits_of(number);
    let [address_high, address_low] = digits_of(address);
    let end = HEAD + 2 * message.len();
    out[..HEAD].copy_from_slice(&[SOH, number_high, number_low, address_high, address_low, STX]);
    put_digits(&mut out[HEAD..end], message);
    let [first, second, third, fourth] = word_digits(check_word(&out[..end]));
    out[end..end + TAIL].copy_from_slice(&[first, second, third, fourth, ETX]);
    end + TAIL
}

// Writes the packet of a message at the front of `out` and answers its length; all behind it keeps its bytes.
// Nothing is written where the message is empty or too long, or where the packet has no room.
pub fn write_packet(out: &mut [u8], number: u8, address: u8, message: &[u8]) -> Option<usize>
    ensures long { result ≡ length_written out.old message.now }
    ensures bytes { Written out.old number address message.now result out.new }
{
    if message.is_empty() || message.len() > MESSAGE_MOST || out.len() < 2 * message.len() + FRAME {
        return None;
    }
    Some(fill(out, number, address, message))
}
