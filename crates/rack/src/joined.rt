ghost use Rattle.std.specs.Prelude.{◌≡◌, ℕ};
ghost use Rattle.rack.specs.Joined.{joined_signs, joined_takes, joined_face, side_of};
ghost use Rattle.std.proofs.Common.{rules};

use crate::interface::{Rack, ShowError};
use crate::look::{Look, Shape};

// A sign's rack, with its number there.
#[derive(Clone, Copy)]
enum Side {
    First(u8),
    Second(u8),
}

// One rack's signs, then another's; those past 255 are lacking.
#[derive(Drop)]
pub struct JoinedRack<A, B> {
    pub first: A,
    pub second: B,
}

impl<A: Rack, B: Rack> JoinedRack<A, B> {
    pub fn join(first: A, second: B) -> JoinedRack<A, B>
        ensures first { result.first ≡ first }
        ensures second { result.second ≡ second }
    {
        JoinedRack { first, second }
    }

    // On which side of the seam a sign is.
    fn side(&self, sign: u8) -> Side
        ensures { result ≡ side_of (A.signs self.now.first) sign }
    {
        let seam = self.first.sign_count();
        if sign <= seam {
            Side::First(sign)
        } else {
            Side::Second(sign - seam)
        }
    }
}

impl<A: Rack, B: Rack> Rack for JoinedRack<A, B> {
    ghost signs = { λ r. joined_signs (A.Rack.signs r.first) (B.Rack.signs r.second) };

    ghost takes = { λ r s h. joined_takes (A.Rack.signs r.first) (A.Rack.takes r.first) (B.Rack.takes r.second) s h };

    ghost face = { λ r s. joined_face (A.Rack.signs r.first) (A.Rack.face r.first) (B.Rack.face r.second) s };

    ghost few = { Prim.search rules };

    ghost lacking_takes_nothing = { Prim.search rules };

    ghost lacking_is_dark = { Prim.search rules };

    fn sign_count(&self) -> u8 {
        self.first
            .sign_count()
            .saturating_add(self.second.sign_count())
    }

    fn accepts(&self, sign: u8, shape: Shape) -> bool {
        match self.side(sign) {
            Side::First(sign) => self.first.accepts(sign, shape),
            Side::Second(sign) => self.second.accepts(sign, shape),
        }
    }

    fn look(&self, sign: u8) -> Option<Look> {
        match self.side(sign) {
            Side::First(sign) => self.first.look(sign),
            Side::Second(sign) => self.second.look(sign),
        }
    }

    fn picture(&self, sign: u8) -> &[u8] {
        match self.side(sign) {
            Side::First(sign) => self.first.picture(sign),
            Side::Second(sign) => self.second.picture(sign),
        }
    }

    fn show(&mut self, sign: u8, look: Look, picture: &[u8]) -> Result<(), ShowError> {
        match self.side(sign) {
            Side::First(sign) => self.first.show(sign, look, picture),
            Side::Second(sign) => self.second.show(sign, look, picture),
        }
    }

    fn darken(&mut self, sign: u8) {
        match self.side(sign) {
            Side::First(sign) => self.first.darken(sign),
            Side::Second(sign) => self.second.darken(sign),
        }
    }
}
