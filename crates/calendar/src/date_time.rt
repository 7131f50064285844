// A date and a time of day as they are written: plain numbers, in the order in which replies write them.
ghost use Rattle.std.specs.Prelude.{◌≡◌};
ghost use Rattle.calendar.specs.Moments.{dated, timed, judged, unfit_number, midnight, next_day, next_second};

use crate::dates::month_days;
use std::error::Error;
use std::fmt;

#[derive(Clone, Copy, Debug, PartialEq, Eq)]
pub struct DateTime {
    pub day: u8,
    pub month: u8,
    pub year: u16,
    pub hour: u8,
    pub minute: u8,
    pub second: u8,
}

// Why a clock cannot show a date and time: no such date, or no such time of day.
#[derive(Clone, Copy, Debug, PartialEq, Eq)]
pub enum Unfit {
    Date,
    Time,
}

impl From<Unfit> for u8 {
    ghost from_gives = { λ refusal number. number ≡ unfit_number refusal };

    // The number of the rejection.
    fn from(refusal: Unfit) -> u8 {
        match refusal {
            Unfit::Date | Unfit::Time => 0x44,
        }
    }
}

impl fmt::Display for Unfit {
    fn fmt<W: fmt::Write>(&self, f: &mut fmt::Formatter<W>) -> fmt::Result {
        f.write_str(match self {
            Unfit::Date => "no date",
            Unfit::Time => "no time",
        })
    }
}

impl Error for Unfit {}

impl DateTime {
    // Whether the calendar has the date, in the years 1 to 9999.
    fn has_date(self) -> bool
        ensures { result ≡ dated self }
    {
        matches!(self.year, 1..=9999)
            && matches!(self.month, 1..=12)
            && (1..=month_days(self.year, self.month)).contains(&self.day)
    }

    // Whether a day has the time.
    fn has_time(self) -> bool
        ensures { result ≡ timed self }
    {
        self.hour < 24 && self.minute < 60 && self.second < 60
    }

    // Whether a clock can show it.
    pub fn judge(self) -> Result<(), Unfit>
        ensures { result ≡ judged self }
    {
        if !self.has_date() {
            Err(Unfit::Date)
        } else if !self.has_time() {
            Err(Unfit::Time)
        } else {
            Ok(())
        }
    }

    // The first second of a date.
    fn at_midnight(day: u8, month: u8, year: u16) -> DateTime
        ensures { result ≡ midnight day month year }
    {
        DateTime {
            day,
            month,
            year,
            hour: 0,
            minute: 0,
            second: 0,
        }
    }

    // The first second of the next day; a last day has none and stays.
    fn next_day(self) -> DateTime
        ensures { result ≡ next_day self }
    {
        if self.day < month_days(self.year, self.month) {
            DateTime::at_midnight(self.day + 1, self.month, self.year)
        } else if self.month < 12 {
            DateTime::at_midnight(1, self.month + 1, self.year)
        } else if self.year < 9999 {
            DateTime::at_midnight(1, 1, self.year + 1)
        } else {
            self
        }
    }

    // The next second; a last second has none and stays.
    pub(crate) fn next_second(self) -> DateTime
        ensures { result ≡ next_second self }
    {
        if self.second < 59 {
            DateTime {
                second: self.second + 1,
                ..self
            }
        } else if self.minute < 59 {
            DateTime {
                minute: self.minute + 1,
                second: 0,
                ..self
            }
        } else if self.hour < 23 {
            DateTime {
                hour: self.hour + 1,
                minute: 0,
                second: 0,
                ..self
            }
        } else {
            self.next_day()
        }
    }
}
