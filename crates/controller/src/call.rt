ghost use Rattle.std.specs.Prelude.{◌≡◌};
ghost use Rattle.controller.specs.Calls.{number};
ghost use Rattle.controller.specs.declared.call.CallRefusal.TheVariants.{ShortMemory, UnfitReading};

use analog::Reading;
use std::error::Error;
use std::fmt;

// One call of the site on its controller in service.
#[derive(Clone, Copy)]
pub enum Call {
    Line(u8),
    Tick(u8),
    Report {
        sign: u8,
        code: u8,
    },
    Reading {
        slot: u8,
        reading: Reading,
        state: u8,
    },
}

// Why a call was not made.
#[derive(Clone, Copy, Debug, PartialEq, Eq)]
pub enum CallRefusal {
    ShortMemory = 0x52,
    NotAttached = 0x53,
    UnfitReading = 0x54,
}

impl From<CallRefusal> for u8 {
    ghost from_gives = { λ refusal n. n ≡ number refusal };

    fn from(refusal: CallRefusal) -> u8 {
        refusal as u8
    }
}

impl From<journal::Refusal> for CallRefusal {
    ghost from_gives = { λ _ refusal. refusal ≡ ShortMemory };

    fn from(_refusal: journal::Refusal) -> CallRefusal {
        CallRefusal::ShortMemory
    }
}

impl From<analog::Refusal> for CallRefusal {
    ghost from_gives = { λ _ refusal. refusal ≡ UnfitReading };

    fn from(_refusal: analog::Refusal) -> CallRefusal {
        CallRefusal::UnfitReading
    }
}

impl fmt::Display for CallRefusal {
    fn fmt<W: fmt::Write>(&self, f: &mut fmt::Formatter<W>) -> fmt::Result {
        f.write_str(match self {
            CallRefusal::ShortMemory => "too little memory is lent",
            CallRefusal::NotAttached => "the sign is not attached",
            CallRefusal::UnfitReading => "the reading does not fit",
        })
    }
}

impl Error for CallRefusal {}
