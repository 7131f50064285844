ghost use Rattle.std.specs.Prelude.{◌≤◌};
ghost use Rattle.arrayvec.specs.ArrayVec.{array_vec_len};

use crate::sign::Sign;
use arrayvec::ArrayVec;

pub mod signs;

// Up to twelve signs of one kind, numbered from 1.
#[derive(Drop)]
pub struct SignRack<K> {
    signs: ArrayVec<Sign<K>, 12>,
    ghost few: { array_vec_len signs ≤ 12 },
}
