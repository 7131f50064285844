ghost use Rattle.std.specs.Prelude.{◌≡◌, ℕ, List, IfOk};
ghost use Rattle.std.specs.Iterator.{YieldsFirst, item_count};
ghost use Rattle.playback.specs.Input.{first_call, calls_of};

use controller::call::Call;
use std::alloc::{AllocError, Global};
use std::marker::Model;

// The first call of recorded input and the number of its bytes; nothing where the input ends, is cut or says something else.
pub fn first_call(bytes: &[u8]) -> Option<(Call, usize)>
    ensures { result ≡ first_call bytes.now }
{
    match *bytes {
        [0x42, byte, ..] => Some((Call::Line(byte), 2)),
        [0x54, byte, ..] => Some((Call::Tick(byte), 2)),
        [0x53, sign, code, ..] => Some((Call::Report { sign, code }, 3)),
        _ => None,
    }
}

// The calls of recorded input, up to its end, a cut or anything else.
#[derive(Drop)]
pub struct Calls<'a> {
    input: &'a [u8],
}

impl<'a> Model for Calls<'a> {
    ghost Value = { List ℕ };

    ghost view = { λ calls. calls.input.now };
}

impl<'a> Calls<'a> {
    pub fn of(input: &'a [u8]) -> Calls<'a>
        ensures { result ≡ input.now }
    {
        Calls { input }
    }
}

impl<'a> Iterator for Calls<'a> {
    type Item = Call;

    ghost next_gives = { YieldsFirst calls_of };

    ghost remaining = { item_count calls_of };

    fn next(&mut self) -> Option<Call> {
        let (call, length) = first_call(self.input)?;
        self.input = &self.input[length..];
        Some(call)
    }
}

// All calls of recorded input.
pub fn read_calls(heap: Global, bytes: &[u8]) -> Result<Vec<Call>, AllocError>
    ensures { IfOk result (λ v. v.items ≡ calls_of bytes.now) }
{
    Calls::of(bytes).collect(heap)
}
