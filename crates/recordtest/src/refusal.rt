use commands::rejection::Rejection;
use thiserror::Error;

// Why a message sets no record.
#[derive(Clone, Copy, Debug, PartialEq, Eq, Error)]
pub enum Refusal {
    #[error("{0}")]
    NoCommand(#[from] Rejection),
    #[error("the check word is wrong")]
    CheckWord,
    #[error("a value does not fit")]
    Unfit,
    #[error("two entries of a plan share a minute")]
    Overlap,
}

impl From<Refusal> for u8 {
    // The number that the reply names.
    fn from(refusal: Refusal) -> u8 {
        match refusal {
            Refusal::NoCommand(rejection) => u8::from(rejection),
            Refusal::CheckWord => 0x43,
            Refusal::Unfit => 0x44,
            Refusal::Overlap => 0x46,
        }
    }
}
