ghost use Rattle.std.specs.Prelude.{◌≡◌, ℕ, ◌-◌};
ghost use Rattle.std.specs.Option.{option_map};
ghost use Rattle.controller.specs.Due.{view, group_at, due_number, frame_due, shown_by, sign_group};

use crate::group::GroupRecord;
use crate::service::Controller;
use records::frame::Frame;

impl GroupRecord {
    // The number of the frame that is due to the group.
    pub fn due(&self) -> Option<u8>
        ensures { result ≡ due_number self.now }
    {
        if self.powered && self.enabled {
            self.direct
        } else {
            None
        }
    }
}

impl Controller {
    // The record of a group; one without power where there is no such group.
    pub fn group(&self, number: u8) -> GroupRecord
        ensures { result ≡ group_at self.now.groups number }
    {
        match number {
            1..=12 => self.groups[number as usize - 1],
            _ => GroupRecord {
                direct: None,
                powered: false,
                enabled: false,
            },
        }
    }

    // The stored frame that is due to a group.
    pub fn frame_due(&self, group: u8) -> Option<&Frame>
        ensures { option_map (λ x. x.now) result ≡ frame_due (view group self.now) }
    {
        // a `match`, and no `?`: with it a tick takes a quarter more instructions
        match self.group(group).due() {
            Some(number) => self.common.store.frame(number),
            None => None,
        }
    }
}
