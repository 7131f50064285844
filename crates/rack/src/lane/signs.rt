ghost use Rattle.std.specs.Prelude.{◌≡◌, ℕ, ◌+◌, ◌*◌, ◌&&◌, is_ok, if◌then◌else◌, ◌==◌};
ghost use Rattle.rack.specs.declared.look.Shape.{Shape as TheShape};
ghost use Rattle.rack.specs.Bank.{fitting, bank_count, bank_face};
ghost use Rattle.rack.specs.Lane.{lane_takes, lane_sign_takes, lane_rack_takes, lane-small, matrix_fits, row_bytes};
ghost use Rattle.std.proofs.Common.{rules};

use crate::lane::{LaneRack, LaneSign};
use crate::look::{Kind, Shape};
use crate::refusal::Refusal;
use crate::sign::SignKind;

impl LaneSign {
    // The bytes of its picture: its rows, eight pixels to a byte.
    fn picture_bytes(&self) -> usize
        ensures { result ≡ self.now.rows * row_bytes self.now.columns }
    {
        self.rows as usize * (self.columns as usize).div_ceil(8)
    }
}

// A sign of no pixel, for a rack's empty places; by hand, since a ghost field allows no derive.
impl Default for LaneSign {
    ghost is_default = { λ k. (k.rows ≡ 0) × (k.columns ≡ 0) };

    fn default() -> LaneSign {
        LaneSign {
            rows: 0,
            columns: 0,
        }
    }
}

impl SignKind for LaneSign {
    ghost admits = { lane_sign_takes };

    fn takes(&self, shape: Shape) -> bool {
        let taken = Shape {
            kind: Kind::Graphic,
            rows: self.rows,
            columns: self.columns,
            length: self.picture_bytes(),
        };
        shape == taken
    }

    ghost small = { lane-small };
}

impl LaneRack {
    // Fits a sign of 1 to 32 rows and 1 to 32 columns, dark, and gives its number.
    pub fn fit(&mut self, rows: u8, columns: u8) -> Result<u8, Refusal>
        ensures result { result ≡ fitting (bank_count self.old) (matrix_fits rows columns) }
        ensures count { bank_count self.new ≡ (if is_ok result then bank_count self.old + 1 else bank_count self.old) }
        ensures taking { (s : ℕ) (h : TheShape) → lane_rack_takes self.new s h ≡ (if is_ok result && s == bank_count self.new then lane_takes rows columns h else lane_rack_takes self.old s h) }
        ensures faces { (s : ℕ) → bank_face self.new s ≡ bank_face self.old s }
    {
        self.room()?;
        match (rows, columns) {
            (1..=32, 1..=32) => Ok(self.add(LaneSign { rows, columns })),
            _ => Err(Refusal::Unfit),
        }
    }
}
