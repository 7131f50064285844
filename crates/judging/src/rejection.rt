ghost use Rattle.std.specs.Prelude.{◌≡◌};
ghost use Rattle.judging.specs.Rejections.{number_of, of_form};

use commands::rejection::Rejection as Formless;
use thiserror::Error;

// Why a message is rejected, by the number that the reply names, in the order in which the grounds are checked.
#[derive(Clone, Copy, Debug, PartialEq, Eq, Error)]
pub enum Rejection {
    #[error("the code is of no command")]
    UnknownCode = 0x08,
    #[error("the length is not that of the code's form")]
    WrongLength = 0x41,
    #[error("the session is not open")]
    NotOpen = 0x40,
    #[error("the password is wrong")]
    BadPassword = 0x42,
    #[error("the check word is wrong")]
    WrongCheckWord = 0x43,
    #[error("a value is unfit")]
    Unfit = 0x44,
    #[error("no such record is stored")]
    NotStored = 0x45,
    #[error("two entries of the plan share a minute")]
    Overlap = 0x46,
}

impl From<Rejection> for u8 {
    ghost from_gives = { λ rejection number. number ≡ number_of rejection };

    fn from(rejection: Rejection) -> u8 {
        rejection as u8
    }
}

impl From<Formless> for Rejection {
    ghost from_gives = { λ formless rejection. rejection ≡ of_form formless };

    fn from(formless: Formless) -> Rejection {
        match formless {
            Formless::UnknownCode => Rejection::UnknownCode,
            Formless::WrongLength => Rejection::WrongLength,
        }
    }
}
