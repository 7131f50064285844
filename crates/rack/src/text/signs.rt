ghost use Rattle.std.specs.Prelude.{◌≡◌, ℕ, ◌+◌, ◌&&◌, is_ok, if◌then◌else◌, ◌==◌};
ghost use Rattle.rack.specs.declared.look.Shape.{Shape as TheShape};
ghost use Rattle.rack.specs.Bank.{fitting, bank_count, bank_face};
ghost use Rattle.rack.specs.Text.{text_takes, text_sign_takes, text_rack_takes, width_fits};
ghost use Rattle.std.proofs.Common.{rules};

use crate::look::{Kind, Shape};
use crate::refusal::Refusal;
use crate::sign::SignKind;
use crate::text::{TextRack, TextSign};

// A sign of no character, for a rack's empty places; by hand, since a ghost field allows no derive.
impl Default for TextSign {
    ghost is_default = { λ k. k.width ≡ 0 };

    fn default() -> TextSign {
        TextSign { width: 0 }
    }
}

impl SignKind for TextSign {
    ghost admits = { text_sign_takes };

    fn takes(&self, shape: Shape) -> bool {
        shape.kind == Kind::Text
            && shape.rows == 1
            && shape.columns as usize == shape.length
            && (1..=self.width).contains(&shape.columns)
    }

    ghost small = { Prim.search rules };
}

impl TextRack {
    // Fits a sign of a width of 1 to 128 characters, dark, and gives its number.
    pub fn fit(&mut self, width: u8) -> Result<u8, Refusal>
        ensures result { result ≡ fitting (bank_count self.old) (width_fits width) }
        ensures count { bank_count self.new ≡ (if is_ok result then bank_count self.old + 1 else bank_count self.old) }
        ensures taking { (s : ℕ) (h : TheShape) → text_rack_takes self.new s h ≡ (if is_ok result && s == bank_count self.new then text_takes width h else text_rack_takes self.old s h) }
        ensures faces { (s : ℕ) → bank_face self.new s ≡ bank_face self.old s }
    {
        self.room()?;
        match width {
            1..=128 => Ok(self.add(TextSign { width })),
            _ => Err(Refusal::Unfit),
        }
    }
}
