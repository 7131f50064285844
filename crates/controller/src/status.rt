ghost use Rattle.std.specs.Prelude.{◌≡◌, ◌<◌, length};
ghost use Rattle.std.specs.Option.{option_map};
ghost use Rattle.replies.specs.Reply.{contents};
ghost use Rattle.controller.specs.Due.{sign_group};
ghost use Rattle.controller.specs.Site.{groups_of};
ghost use Rattle.controller.specs.Status.{name_of, row_at, rows_up_to, status_of};

use crate::service::Controller;
use arrayvec::ArrayVec;
use rack::interface::Rack;
use records::frame::Frame;
use replies::{Named, Reply, Row, Status};

// The number and revision of a frame that is shown.
fn named(frame: Option<&Frame>) -> Option<Named>
    ensures { result ≡ name_of (option_map (λ x. x.now) frame.entry) }
{
    frame.map(|frame| Named {
        number: frame.header.number,
        revision: frame.header.revision,
    })
}

impl Controller {
    // The row of the sign at a place, which is of a group.
    fn row<R: Rack>(&self, rack: &R, place: usize, group: u8) -> Row
        requires place { place < 12 }
        requires group { group ≡ sign_group self.now place }
        ensures { result ≡ row_at self.now (R.takes rack.now) place }
    {
        let sign = place as u8 + 1;
        Row {
            sign,
            error_code: self.common.error_codes[place],
            enabled: self.group(group).enabled,
            frame: named(self.frame_shown(rack, sign)),
            message: None,
            plan: None,
        }
    }

    // The rows of all attached signs, from the first on.
    fn rows<R: Rack>(&self, rack: &R) -> ArrayVec<Row, 12>
        ensures { result.items ≡ rows_up_to self.now (R.takes rack.now) (length (groups_of self.now.site)) }
    {
        let mut rows = ArrayVec::new();
        let groups = self.site.sign_groups.as_slice();
        for (place, group) in groups.iter().enumerate() {
            rows.push(self.row(rack, place, *group));
        }
        rows
    }

    // The status, with an application error code.
    pub fn status<R: Rack>(&self, rack: &R, application_error: u8) -> Reply
        ensures { contents result ≡ status_of self.now (R.takes rack.now) application_error }
    {
        let status = Status {
            online: self.common.session.is_open(),
            application_error,
            at: self.common.clock.date_time(),
            checksum: self.common.store.checksum(),
        };
        Reply::status(status, self.rows(rack).as_slice())
    }
}
