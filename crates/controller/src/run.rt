ghost use Rattle.std.specs.Prelude.{◌≡◌, ℕ, length};
ghost use Rattle.controller.specs.Faces.{SameSigns};
ghost use Rattle.controller.specs.Run.{made, SignsShowDue, Reached};

use crate::call::Call;
use crate::commissioning::Commissioning;
use crate::service::Controller;
use rack::interface::Rack;
use replies::FaultEntry;

// Opens service and takes a list of calls. Whatever the calls, signs then show what is due.
pub fn serve<R: Rack>(
    commissioning: Commissioning,
    rack: &mut R,
    calls: &[Call],
    faults: &mut [FaultEntry],
) -> Controller
    ensures shows_due { SignsShowDue commissioning.site (R.takes rack.old) (made (length faults.old) calls.now) (R.face rack.new) }
    ensures reached { Reached commissioning.site (R.takes rack.new) (made (length faults.old) calls.now) result (R.face rack.new) }
    ensures same { SameSigns (R.signs rack.old) (R.signs rack.new) (R.takes rack.old) (R.takes rack.new) }
{
    let mut controller = commissioning.close(rack);
    for call in calls {
        let _ = controller.take(rack, *call, faults);
    }
    controller
}
