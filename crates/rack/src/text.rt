ghost use Rattle.std.specs.Prelude.{◌≤◌};

use crate::bank::SignRack;

pub mod signs;

// A sign of one row of characters.
#[derive(Clone, Copy, Debug, PartialEq, Eq)]
pub struct TextSign {
    width: u8,
    ghost few: { width ≤ 128 },
}

// Up to twelve text signs.
pub type TextRack = SignRack<TextSign>;
