ghost use Rattle.std.specs.Prelude.{◌≡◌, ◌*◌};
ghost use Rattle.wire.specs.CheckWord.{shifts, fed, check_word, Example};

use crate::crc::table::SHIFTED;

mod table;

// What eight shifts make of a register that holds a byte at its top.
fn eight_shifts(top: u8) -> u16
    ensures { result ≡ shifts 8 (top * 256) }
{
    SHIFTED[top as usize]
}

// The register after one more byte.
fn feed(register: u16, byte: u8) -> u16
    ensures { result ≡ fed register byte }
{
    let [top, _] = register.to_be_bytes();
    (register << 8) ^ eight_shifts(top ^ byte)
}

// The check word of `bytes`: 16-bit CRC, generator 1021h, register starting at 0, high bit first, nothing inverted.
#[tactic(auto, unfolding(crate::specs::CheckWord::check_word))]
pub fn check_word(bytes: &[u8]) -> u16
    ensures word { result ≡ check_word bytes.now }
    ensures example { Example }
{
    bytes.iter().fold(0, |register, byte| feed(register, *byte))
}
