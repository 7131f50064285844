// The clock's running: start, tick, setting, and what is read off it.
ghost use Rattle.std.specs.Prelude.{◌≡◌, ◌+◌, ◌*◌, ◌/◌, ◌%◌, min, IfOk, OnErr};
ghost use Rattle.calendar.specs.Clocks.{started, ticked, set_to};
ghost use Rattle.calendar.specs.Moments.{judged, day_number, moment, last_second, last_moment, next_second, minute_of_day, second_of_day, minute_of_week, OnDate};
ghost use Rattle.calendar.specs.Weekdays.{weekday_number};
ghost use Rattle.calendar.specs.declared.clock.Clock.{Clock as AnyClock};

use crate::clock::Clock;
use crate::date_time::{DateTime, Unfit};
use crate::dates::{days_before_month, days_before_year};
use crate::weekday::Weekday;

impl Clock {
    // 00:00:00 on 1 January 2000, a Saturday.
    pub fn new() -> Clock
        ensures start { result ≡ started }
        ensures saturday { day_number result.shown % 7 ≡ 6 }
    {
        Clock {
            shown: DateTime {
                day: 1,
                month: 1,
                year: 2000,
                hour: 0,
                minute: 0,
                second: 0,
            },
        }
    }

    // A second more; the last second of the year 9999 stays.
    pub fn tick(&mut self)
        ensures state { self.new ≡ ticked self.old }
        ensures shows { self.new.shown ≡ next_second self.old.shown }
        ensures later { moment self.new.shown ≡ min (moment self.old.shown + 1) last_moment }
        ensures stays { self.old.shown ≡ last_second → self.new ≡ self.old }
    {
        *self = Clock {
            shown: self.shown.next_second(),
        };
    }

    // Shows what is given, where it exists; else nothing alters.
    pub fn set(&mut self, given: DateTime) -> Result<(), Unfit>
        ensures answer { result ≡ judged given }
        ensures state { self.new ≡ set_to given self.old }
        ensures shows { IfOk result (λ _. self.new.shown ≡ given) }
        ensures kept { OnErr result (self.new ≡ self.old) }
    {
        given.judge()?;
        *self = Clock { shown: given };
        Ok(())
    }

    pub fn date_time(&self) -> DateTime
        ensures { result ≡ self.now.shown }
    {
        self.shown
    }

    pub fn minute_of_day(&self) -> u16
        ensures { result ≡ minute_of_day self.now.shown }
    {
        u16::from(self.shown.hour) * 60 + u16::from(self.shown.minute)
    }

    pub fn second_of_day(&self) -> u32
        ensures { result ≡ second_of_day self.now.shown }
    {
        u32::from(self.minute_of_day()) * 60 + u32::from(self.shown.second)
    }

    // The number of the day; 1 January of the year 1 is day 1.
    pub fn day_number(&self) -> u32
        ensures { result ≡ day_number self.now.shown }
    {
        let DateTime {
            day,
            month,
            year,
            ..
        } = self.shown;
        days_before_year(year) + days_before_month(year, month) + u32::from(day)
    }

    // By the number of the day; 1 January of the year 1 is a Monday.
    pub fn weekday(&self) -> Weekday
        ensures number { weekday_number result ≡ day_number self.now.shown % 7 }
        ensures monday { OnDate 1 1 1 self.now.shown → result ≡ Weekday.Monday }
    {
        Weekday::of_day(self.day_number())
    }

    // Minutes since midnight between Saturday and Sunday.
    pub fn minute_of_week(&self) -> u16
        ensures value { result ≡ minute_of_week self.now.shown }
        ensures counted { result ≡ moment self.now.shown / 60 % 10080 }
    {
        u16::from(u8::from(self.weekday())) * 1440 + self.minute_of_day()
    }

    // Seconds since the beginning of the day before 1 January of the year 1. They tell the clock.
    pub fn count(&self) -> u64
        ensures value { result ≡ moment self.now.shown }
        ensures tells { (other : AnyClock) → moment other.shown ≡ result → other ≡ self.now }
    {
        u64::from(self.day_number()) * 86400 + u64::from(self.second_of_day())
    }
}
