// The calendar clock: a second that exists in the Gregorian calendar, from 1 January of the year 1 to 31 December 9999.
// A clock's value means a count of seconds that is defined by the lengths of years and months alone.
// Promised: a tick is one second later in that count, but for the last second, which stays; a date or time that
// does not exist is refused and leaves the clock; the count tells the clock; the weekday goes by the count of days.
#![tactic(auto)]

mod clock;
mod date_time;
mod dates;
mod weekday;

pub use clock::Clock;
pub use date_time::{DateTime, Unfit};
pub use weekday::Weekday;
