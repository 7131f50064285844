ghost use Rattle.std.specs.Prelude.{◌≡◌};
ghost use Rattle.commands.specs.Rejections.{number};

use thiserror::Error;

// Why a message is no command, by the number that the reply names.
#[derive(Clone, Copy, Debug, PartialEq, Eq, Error)]
pub enum Rejection {
    #[error("the code is of no command")]
    UnknownCode = 0x08,
    #[error("the length is not that of the code's form")]
    WrongLength = 0x41,
}

impl From<Rejection> for u8 {
    ghost from_gives = { λ rejection n. n ≡ number rejection };

    fn from(rejection: Rejection) -> u8 {
        rejection as u8
    }
}
