// The days of the week, in the order in which plans number them.
ghost use Rattle.std.specs.Prelude.{◌≡◌, ◌%◌};
ghost use Rattle.calendar.specs.Weekdays.{weekday_number};

use std::fmt;

#[derive(Clone, Copy, Debug, PartialEq, Eq)]
pub enum Weekday {
    Sunday,
    Monday,
    Tuesday,
    Wednesday,
    Thursday,
    Friday,
    Saturday,
}

const WEEK: [Weekday; 7] = [
    Weekday::Sunday,
    Weekday::Monday,
    Weekday::Tuesday,
    Weekday::Wednesday,
    Weekday::Thursday,
    Weekday::Friday,
    Weekday::Saturday,
];

impl Weekday {
    // The weekday of the day with this number, where day 0 is a Sunday.
    pub(crate) fn of_day(days: u32) -> Weekday
        ensures { weekday_number result ≡ days % 7 }
    {
        WEEK[(days % 7) as usize]
    }
}

impl From<Weekday> for u8 {
    ghost from_gives = { λ weekday number. number ≡ weekday_number weekday };

    // 0 for Sunday to 6 for Saturday.
    fn from(weekday: Weekday) -> u8 {
        weekday as u8
    }
}

impl fmt::Display for Weekday {
    fn fmt<W: fmt::Write>(&self, f: &mut fmt::Formatter<W>) -> fmt::Result {
        f.write_str(match self {
            Weekday::Sunday => "Sunday",
            Weekday::Monday => "Monday",
            Weekday::Tuesday => "Tuesday",
            Weekday::Wednesday => "Wednesday",
            Weekday::Thursday => "Thursday",
            Weekday::Friday => "Friday",
            Weekday::Saturday => "Saturday",
        })
    }
}
