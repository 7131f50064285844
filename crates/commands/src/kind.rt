ghost use Rattle.std.specs.Prelude.{◌≡◌};
ghost use Rattle.commands.specs.Kinds.{Requests, listed_kind, listing_number};

use thiserror::Error;

// The kinds of record, by the numbers that a request for a stored record gives them.
#[derive(Clone, Copy, Debug, PartialEq, Eq)]
pub enum RecordKind {
    Frame = 0,
    Message = 1,
    Plan = 2,
}

// A number that is of no kind of record.
#[derive(Clone, Copy, Debug, PartialEq, Eq, Error)]
#[error("no kind of record has the number {0}")]
pub struct UnknownKind(pub u8);

impl TryFrom<u8> for RecordKind {
    type Error = UnknownKind;

    ghost try_from_gives = { Requests };

    fn try_from(number: u8) -> Result<RecordKind, UnknownKind> {
        match number {
            0 => Ok(RecordKind::Frame),
            1 => Ok(RecordKind::Message),
            2 => Ok(RecordKind::Plan),
            _ => Err(UnknownKind(number)),
        }
    }
}

impl RecordKind {
    // The kind that a request for a listing names, one up from the others; 0 asks for the summary of all.
    pub fn listed(kind: u8) -> Option<RecordKind>
        ensures { result ≡ listed_kind kind }
    {
        RecordKind::try_from(kind.checked_sub(1)?).ok()
    }

    // The number by which a listing names the kind.
    pub fn listing_number(self) -> u8
        ensures { result ≡ listing_number self }
    {
        self as u8 + 1
    }
}
