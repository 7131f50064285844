ghost use Rattle.std.specs.Prelude.{◌≡◌, ℕ, ◌≤◌, Bool, true, false, length, is_ok, if◌then◌else◌};
ghost use Rattle.rack.specs.declared.look.Shape.{Shape as TheShape};
ghost use Rattle.rack.specs.Face.{Face, dark, lit, shape_of, look_of, picture_of, has, Elsewhere, SameTaking};

use crate::look::{Look, Shape};
use std::error::Error;
use std::fmt;

// Why a sign did not show a picture.
#[derive(Clone, Copy, Debug, PartialEq, Eq)]
pub enum ShowError {
    NotTaken,
}

impl fmt::Display for ShowError {
    fn fmt<W: fmt::Write>(&self, f: &mut fmt::Formatter<W>) -> fmt::Result {
        f.write_str(match self {
            ShowError::NotTaken => "the sign does not take the picture",
        })
    }
}

impl Error for ShowError {}

// Signs numbered from 1, each with a fixed rule for what it takes, and a face.
pub trait Rack {
    // the number of signs
    ghost signs: { Self → ℕ };

    // what each sign takes, fixed for life
    ghost takes: { Self → ℕ → TheShape → Bool };

    // what each sign shows
    ghost face: { Self → ℕ → Face };

    fn sign_count(&self) -> u8
        ensures { result ≡ signs self.now };

    fn accepts(&self, sign: u8, shape: Shape) -> bool
        ensures { result ≡ takes self.now sign shape };

    fn look(&self, sign: u8) -> Option<Look>
        ensures { result ≡ look_of (face self.now sign) };

    fn picture(&self, sign: u8) -> &[u8]
        ensures { result.now ≡ picture_of (face self.now sign) };

    // Shows a picture on one sign, if it takes it; a refusal alters nothing.
    fn show(&mut self, sign: u8, look: Look, picture: &[u8]) -> Result<(), ShowError>
        ensures taken { is_ok result ≡ takes self.old sign (shape_of look (length picture.now)) }
        ensures face { face self.new sign ≡ (if is_ok result then lit look picture.now else face self.old sign) }
        ensures others { Elsewhere (face self.old) (face self.new) sign }
        ensures taking { SameTaking (takes self.old) (takes self.new) }
        ensures count { signs self.new ≡ signs self.old };

    // Darkens one sign.
    fn darken(&mut self, sign: u8)
        ensures face { face self.new sign ≡ dark }
        ensures others { Elsewhere (face self.old) (face self.new) sign }
        ensures taking { SameTaking (takes self.old) (takes self.new) }
        ensures count { signs self.new ≡ signs self.old };

    ghost few: { (r : Self) → signs r ≤ 255 };

    ghost lacking_takes_nothing: { (r : Self) (s : ℕ) (h : TheShape) → has (signs r) s ≡ false → takes r s h ≡ false };

    ghost lacking_is_dark: { (r : Self) (s : ℕ) → has (signs r) s ≡ false → face r s ≡ dark };
}
