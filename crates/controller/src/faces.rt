ghost use Rattle.std.specs.Prelude.{◌≡◌, ℕ};
ghost use Rattle.std.specs.Option.{option_map};
ghost use Rattle.rack.specs.Face.{Face, dark, Elsewhere};
ghost use Rattle.controller.specs.Due.{face_of, shown_by};
ghost use Rattle.controller.specs.Faces.{SameSigns, Settled};

use crate::service::Controller;
use rack::interface::Rack;
use records::frame::Frame;

// Brings one sign to the face that is due to it: the frame, if there is one and the sign takes it, and darkness otherwise.
pub fn refresh<R: Rack>(rack: &mut R, sign: u8, due: Option<&Frame>)
    ensures face { R.face rack.new sign ≡ face_of (shown_by (R.takes rack.old sign) (option_map (λ x. x.now) due.entry)) }
    ensures others { Elsewhere (R.face rack.old) (R.face rack.new) sign }
    ensures same { SameSigns (R.signs rack.old) (R.signs rack.new) (R.takes rack.old) (R.takes rack.new) }
{
    let shown = match due {
        Some(frame) => rack.show(sign, frame.look, frame.picture()).is_ok(),
        None => false,
    };
    if !shown {
        rack.darken(sign);
    }
}

// Brings every attached sign to the face that is due to it.
pub fn settle<R: Rack>(controller: &Controller, rack: &mut R)
    ensures settled { Settled controller.now (R.takes rack.old) (R.face rack.old) (R.face rack.new) }
    ensures same { SameSigns (R.signs rack.old) (R.signs rack.new) (R.takes rack.old) (R.takes rack.new) }
{
    let groups = controller.site.sign_groups.as_slice();
    for (place, group) in groups.iter().enumerate() {
        refresh(rack, place as u8 + 1, controller.frame_due(*group));
    }
}

// Darkens every sign of a rack.
pub fn darken_all<R: Rack>(rack: &mut R)
    ensures dark { (s : ℕ) → R.face rack.new s ≡ dark }
    ensures same { SameSigns (R.signs rack.old) (R.signs rack.new) (R.takes rack.old) (R.takes rack.new) }
{
    for sign in 1..=rack.sign_count() {
        rack.darken(sign);
    }
}
