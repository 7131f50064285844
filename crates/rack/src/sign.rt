ghost use Rattle.std.specs.Prelude.{◌≡◌, ◌≤◌, Bool, true};
ghost use Rattle.rack.specs.declared.look.Shape.{Shape as TheShape};

use crate::look::Shape;
use crate::panel::Panel;

// A kind of sign: what a sign takes depends on it alone.
pub trait SignKind: Copy + Default {
    // what a sign of this kind takes
    ghost admits: { Self → TheShape → Bool };

    fn takes(&self, shape: Shape) -> bool
        ensures { result ≡ admits self.now shape };

    // what it takes fits a sign's memory
    ghost small: { (k : Self) (h : TheShape) → admits k h ≡ true → h.length ≤ 128 };
}

// One sign: its kind, and the memory that keeps its face.
#[derive(Default, Drop)]
pub(crate) struct Sign<K> {
    pub(crate) kind: K,
    pub(crate) panel: Panel,
}
