ghost use Rattle.std.specs.Prelude.{◌≡◌, ℕ, ◌≤◌};
ghost use Rattle.std.specs.List.{flat_map};
ghost use Rattle.octets.specs.Held.{held};
ghost use Rattle.records.specs.Messages.{total_of, held_at, frame_at, pair_of, message_bytes, Example};
ghost use Rattle.records.specs.Writing.{room_for, laid};

use crate::slots::Record;
use crate::writing::lay_command;
use commands::command::Header;
use commands::lists::Span;
use octets::Octets;

// Frames that follow one another, each for its seconds, over and over.
#[derive(Clone, Copy, Debug, PartialEq, Eq)]
pub struct Message {
    pub header: Header,
    pub spans: [Span; 6],
}

fn seconds(span: &Span) -> u32
    ensures value { result ≡ span.now.seconds }
    ensures most { result ≤ 65535 }
{
    u32::from(span.seconds)
}

// The seconds of all spans together.
fn total(spans: &[Span; 6]) -> u32
    ensures { result ≡ total_of spans.now }
{
    spans.iter().map(seconds).sum()
}

// The frame whose span holds a second, counted from the first span's start.
fn held_at(spans: &[Span; 6], second: u32) -> Option<u8>
    ensures { result ≡ held_at spans.now second }
{
    let mut left = second;
    for span in spans {
        if left < seconds(span) {
            return Some(span.frame);
        }
        left -= seconds(span);
    }
    None
}

// The pairs of frame and seconds.
fn pairs(spans: &[Span; 6]) -> Octets<12>
    ensures { held result ≡ flat_map pair_of spans.now }
{
    let mut pairs = Octets::new();
    for span in spans {
        pairs.extend(&[span.frame, (span.seconds % 256) as u8]);
    }
    pairs
}

impl Record for Message {
    ghost header = { λ m. m.header };

    fn header(&self) -> Header {
        self.header
    }
}

impl Message {
    // The frame that the message gives at an age in seconds.
    #[tactic(auto, unfolding(crate::specs::Messages::frame_at))]
    pub fn frame_at(&self, age: u32) -> Option<u8>
        ensures value { result ≡ frame_at self.now.spans age }
        ensures example { Example }
    {
        let second = age.checked_rem(total(&self.spans))?;
        held_at(&self.spans, second)
    }

    // Writes the command that sets the message, if there is room for it.
    #[tactic(auto, unfolding(crate::specs::Messages::message_bytes))]
    pub fn write_command(&self, out: &mut [u8]) -> Option<usize>
        ensures count { result ≡ room_for (message_bytes self.now) out.old }
        ensures bytes { out.new ≡ laid (message_bytes self.now) out.old }
    {
        let Header {
            number,
            revision,
            check,
        } = self.header;
        lay_command(
            &[0x0C, number, revision],
            pairs(&self.spans).as_slice(),
            check,
            out,
        )
    }
}
