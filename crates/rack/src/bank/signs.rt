ghost use Rattle.std.specs.Prelude.{◌≡◌, ℕ, ◌+◌, ◌<◌, ◌≤◌, Ok, Err, cond, length, nat_le, option_map, ◌==◌, if◌then◌else◌};
ghost use Rattle.rack.specs.declared.look.Shape.{Shape as TheShape};
ghost use Rattle.rack.specs.declared.refusal.Refusal.TheVariants.{ThirteenthSign};
ghost use Rattle.rack.specs.Bank.{bank_count, bank_face, bank_takes, numbered};
ghost use Rattle.rack.specs.Face.{lit, Elsewhere, SameTaking};
ghost use Rattle.std.proofs.Common.{rules};

use crate::bank::SignRack;
use crate::interface::{Rack, ShowError};
use crate::look::{Look, Shape};
use crate::panel::Panel;
use crate::refusal::Refusal;
use crate::sign::{Sign, SignKind};
use arrayvec::ArrayVec;

impl<K: SignKind> SignRack<K> {
    // A rack without signs.
    pub fn new() -> SignRack<K>
        ensures { bank_count result ≡ 0 }
    {
        SignRack {
            signs: ArrayVec::new(),
        }
    }

    // Whether one more sign has room.
    pub(crate) fn room(&self) -> Result<(), Refusal>
        ensures { result ≡ (if nat_le 12 (bank_count self.now) then Err ThirteenthSign else Ok tt) }
    {
        if self.signs.is_full() {
            return Err(Refusal::ThirteenthSign);
        }
        Ok(())
    }

    // Adds one sign, dark, and gives its number.
    pub(crate) fn add(&mut self, kind: K) -> u8
        requires { bank_count self.old < 12 }
        ensures result { result ≡ bank_count self.old + 1 }
        ensures count { bank_count self.new ≡ bank_count self.old + 1 }
        ensures taking { (s : ℕ) (h : TheShape) → bank_takes K.admits self.new s h ≡ (if s == bank_count self.new then K.admits kind h else bank_takes K.admits self.old s h) }
        ensures faces { (s : ℕ) → bank_face self.new s ≡ bank_face self.old s }
    {
        let panel = Panel::default();
        self.signs.push(Sign { kind, panel });
        self.sign_count()
    }

    fn sign(&self, number: u8) -> Option<&Sign<K>>
        ensures { option_map (λ s. s.now) result ≡ numbered self.now.signs.items number }
    {
        let place = (number as usize).checked_sub(1)?;
        self.signs.get(place)
    }

    // Writes a picture into the memory of one of the rack's signs.
    fn light(&mut self, sign: u8, look: Look, picture: &[u8])
        requires first { 1 ≤ sign }
        requires last { sign ≤ bank_count self.old }
        requires fits { length picture.now ≤ 128 }
        ensures face { bank_face self.new sign ≡ lit look picture.now }
        ensures others { Elsewhere (bank_face self.old) (bank_face self.new) sign }
        ensures taking { SameTaking (bank_takes K.admits self.old) (bank_takes K.admits self.new) }
        ensures count { bank_count self.new ≡ bank_count self.old }
    {
        self.signs[sign as usize - 1].panel.write(look, picture);
    }
}

impl<K: SignKind> Rack for SignRack<K> {
    ghost signs = { λ r. bank_count r };

    ghost takes = { λ r s h. bank_takes K.admits r s h };

    ghost face = { λ r s. bank_face r s };

    ghost few = { Prim.search rules };

    ghost lacking_takes_nothing = { Prim.search rules };

    ghost lacking_is_dark = { Prim.search rules };

    fn sign_count(&self) -> u8 {
        self.signs.len() as u8
    }

    fn accepts(&self, sign: u8, shape: Shape) -> bool {
        self.sign(sign)
            .is_some_and(|fitted| fitted.kind.takes(shape))
    }

    fn look(&self, sign: u8) -> Option<Look> {
        self.sign(sign)?.panel.look()
    }

    fn picture(&self, sign: u8) -> &[u8] {
        match self.sign(sign) {
            Some(fitted) => fitted.panel.picture(),
            None => &[],
        }
    }

    fn show(&mut self, sign: u8, look: Look, picture: &[u8]) -> Result<(), ShowError> {
        if !self.accepts(sign, Shape::of(look, picture.len())) {
            return Err(ShowError::NotTaken);
        }
        self.light(sign, look, picture);
        Ok(())
    }

    fn darken(&mut self, sign: u8) {
        if sign >= 1 && sign as usize <= self.signs.len() {
            self.signs[sign as usize - 1].panel.blank();
        }
    }
}
