ghost use Rattle.std.specs.Prelude.{◌≡◌};
ghost use Rattle.controller.specs.State.{opening_group};

// What is ordered of one group.
#[derive(Clone, Copy)]
pub struct GroupRecord {
    pub direct: Option<u8>,
    pub powered: bool,
    pub enabled: bool,
}

impl GroupRecord {
    // A group with power, enabled, with nothing ordered.
    pub fn new() -> GroupRecord
        ensures { result ≡ opening_group }
    {
        GroupRecord {
            direct: None,
            powered: true,
            enabled: true,
        }
    }
}
