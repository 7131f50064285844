ghost use Rattle.std.specs.Prelude.{◌≡◌};
ghost use Rattle.fitness.specs.Soundness.{right_word};

use wire::check_word;

// Whether the last word of a storing command is the check word of its earlier bytes; other commands have none.
pub fn check_word_right(sent: &[u8]) -> bool
    ensures { result ≡ right_word sent.now }
{
    match sent {
        [earlier @ .., high, low] if matches!(earlier, [0x0A..=0x0D, ..]) => {
            check_word(earlier) == u16::from_be_bytes([*high, *low])
        }
        _ => true,
    }
}
