ghost use Rattle.std.specs.Prelude.{◌≤◌, length};
ghost use Rattle.octets.specs.Held.{held};

use octets::Octets;
use std::io;

fn digit(byte: u8) -> u8
    ensures { result ≤ 15 }
{
    match byte {
        b'0'..=b'9' => byte - b'0',
        b'A'..=b'F' => byte - b'A' + 10,
        _ => 0,
    }
}

// The bytes that pairs of hex digits spell, the first 800 of them; a digit without another is passed over.
pub(crate) fn read_hex(text: &str) -> Octets<800>
    ensures { length (held result) ≤ 800 }
{
    let mut bytes = Octets::new();
    for pair in text.as_bytes().chunks_exact(2).take(800) {
        if let [high, low] = *pair {
            bytes.push(digit(high) * 16 + digit(low));
        }
    }
    bytes
}

pub(crate) fn show_hex(rt: &impl Print, word: &str, bytes: &[u8]) -> io::Result<()> {
    print!(rt; "{word} ")?;
    for byte in bytes {
        print!(rt; "{byte:02X}")?;
    }
    println!(rt; "")
}
