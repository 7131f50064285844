// A date and time that exists.
ghost use Rattle.std.specs.Prelude.{◌≡◌, true};
ghost use Rattle.calendar.specs.Moments.{dated, timed};

use crate::date_time::DateTime;

pub mod running;

#[derive(Clone, Copy, Debug, PartialEq, Eq)]
pub struct Clock {
    shown: DateTime,
    ghost date: { dated shown ≡ true },
    ghost time: { timed shown ≡ true },
}
