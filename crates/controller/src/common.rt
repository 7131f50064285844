ghost use Rattle.std.specs.Prelude.{◌≡◌};
ghost use Rattle.controller.specs.State.{opening_common};

use crate::faults::FaultLog;
use analog::Readings;
use calendar::Clock;
use records::store::Store;
use session::Session;

// What every group sees.
#[derive(Drop)]
pub struct Common {
    pub store: Store,
    pub session: Session,
    pub clock: Clock,
    pub tick_byte: u8,
    // a sign's code is any byte, as the sign gave it, and 0 is no error
    pub error_codes: [u8; 12],
    pub readings: Readings,
    pub faults: FaultLog,
}

impl Common {
    // What every group sees as service opens.
    pub fn new() -> Common
        ensures { result ≡ opening_common }
    {
        Common {
            store: Store::new(),
            session: Session::Closed,
            clock: Clock::new(),
            tick_byte: 0,
            error_codes: [0; 12],
            readings: Readings::new(),
            faults: FaultLog::new(),
        }
    }
}
