ghost use Rattle.std.specs.Prelude.{◌≤◌};

use crate::bank::SignRack;

pub mod signs;

// A sign of rows of pixels.
#[derive(Clone, Copy, Debug, PartialEq, Eq)]
pub struct LaneSign {
    rows: u8,
    columns: u8,
    ghost few_rows: { rows ≤ 32 },
    ghost few_columns: { columns ≤ 32 },
}

// Up to twelve lane signs.
pub type LaneRack = SignRack<LaneSign>;
