ghost use Rattle.std.specs.Prelude.{◌≡◌};
ghost use Rattle.rack.specs.Refusals.{number};

use std::error::Error;
use std::fmt;

// Why a rack or a site was not built as asked.
#[derive(Clone, Copy, Debug, PartialEq, Eq)]
pub enum Refusal {
    ThirteenthSign = 0x50,
    Unfit = 0x51,
}

// The refusal's number, as operators and logs know it.
impl From<Refusal> for u8 {
    ghost from_gives = { λ e n. n ≡ number e };

    fn from(refusal: Refusal) -> u8 {
        refusal as u8
    }
}

impl fmt::Display for Refusal {
    fn fmt<W: fmt::Write>(&self, f: &mut fmt::Formatter<W>) -> fmt::Result {
        f.write_str(match self {
            Refusal::ThirteenthSign => "there are twelve signs already",
            Refusal::Unfit => "the value does not fit",
        })
    }
}

impl Error for Refusal {}
