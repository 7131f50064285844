ghost use Rattle.std.specs.Prelude.{◌≡◌, List, [], ◌∷◌, ◌++◌, length};
ghost use Rattle.controller.specs.declared.call.Call.{Call as AnyCall};
ghost use Rattle.controller.specs.declared.site.Site.{Site as AnySite};
ghost use Rattle.controller.specs.Faces.{SameSigns};
ghost use Rattle.controller.specs.Run.{Acted, made, answer, memory_after, Reached};

use crate::call::{Call, CallRefusal};
use crate::service::Controller;
use rack::interface::Rack;
use replies::FaultEntry;

impl Controller {
    // Acts on one call; faces follow where they may have to move.
    fn act<R: Rack>(
        &mut self,
        rack: &mut R,
        call: Call,
        faults: &mut [FaultEntry],
    ) -> Result<(), CallRefusal>
        ensures result { result ≡ answer self.old.site (length faults.old) call }
        ensures acted { Acted (length faults.old) call self.old self.new (R.takes rack.old) (R.face rack.old) (R.face rack.new) }
        ensures memory { faults.new ≡ memory_after self.old.site self.old.common call faults.old }
        ensures same { SameSigns (R.signs rack.old) (R.signs rack.new) (R.takes rack.old) (R.takes rack.new) }
    {
        match call {
            Call::Line(_) => Ok(()),
            Call::Tick(byte) => {
                self.tick(rack, byte);
                Ok(())
            }
            Call::Report { sign, code } => self.report(sign, code, faults),
            Call::Reading {
                slot,
                reading,
                state,
            } => self.read_in(slot, reading, state),
        }
    }

    // Takes one call. The history of a run grows by a call that is made, whatever it answers. The rack and the memory are
    // the site's own, lent with each call.
    pub fn take<R: Rack>(
        &mut self,
        rack: &mut R,
        call: Call,
        faults: &mut [FaultEntry],
    ) -> Result<(), CallRefusal>
        ensures result { result ≡ answer self.old.site (length faults.old) call }
        ensures acted { Acted (length faults.old) call self.old self.new (R.takes rack.old) (R.face rack.old) (R.face rack.new) }
        ensures memory { faults.new ≡ memory_after self.old.site self.old.common call faults.old }
        ensures same { SameSigns (R.signs rack.old) (R.signs rack.new) (R.takes rack.old) (R.takes rack.new) }
        ensures reached { (s : AnySite) (h : List AnyCall) → Reached s (R.takes rack.old) h self.old (R.face rack.old) → Reached s (R.takes rack.new) (h ++ made (length faults.old) (call ∷ [])) self.new (R.face rack.new) }
    {
        self.act(rack, call, faults)
    }
}
