// Weekdays, the second after a day's last, and dates and times that do not exist.
use calendar::{Clock, DateTime};
use std::io;

// Day, month and year.
const DAYS: [(u8, u8, u16); 34] = [
    (1, 1, 1),
    (31, 12, 1),
    (28, 2, 4),
    (29, 2, 4),
    (28, 2, 100),
    (31, 12, 399),
    (28, 2, 400),
    (14, 7, 1789),
    (28, 2, 1900),
    (31, 12, 1999),
    (1, 1, 1970),
    (20, 7, 1969),
    (1, 1, 2000),
    (28, 2, 2000),
    (29, 2, 2000),
    (31, 1, 2023),
    (28, 2, 2023),
    (31, 3, 2023),
    (30, 4, 2023),
    (31, 5, 2023),
    (30, 6, 2023),
    (31, 7, 2023),
    (31, 8, 2023),
    (30, 9, 2023),
    (31, 10, 2023),
    (30, 11, 2023),
    (31, 12, 2023),
    (28, 2, 2024),
    (29, 2, 2024),
    (28, 2, 2100),
    (28, 2, 2400),
    (31, 12, 9998),
    (30, 12, 9999),
    (31, 12, 9999),
];

// Day, month, year, hour, minute and second.
const UNFIT: [(u8, u8, u16, u8, u8, u8); 16] = [
    (29, 2, 1900, 0, 0, 0),
    (29, 2, 2100, 0, 0, 0),
    (29, 2, 2023, 0, 0, 0),
    (30, 2, 2024, 0, 0, 0),
    (31, 4, 2000, 0, 0, 0),
    (31, 11, 2000, 0, 0, 0),
    (32, 1, 2000, 0, 0, 0),
    (0, 1, 2000, 0, 0, 0),
    (1, 0, 2000, 0, 0, 0),
    (1, 13, 2000, 0, 0, 0),
    (1, 1, 0, 0, 0, 0),
    (1, 1, 10000, 0, 0, 0),
    (1, 1, 2000, 24, 0, 0),
    (1, 1, 2000, 23, 60, 0),
    (1, 1, 2000, 23, 59, 60),
    (29, 2, 2000, 255, 255, 255),
];

fn print_clock(rt: &impl Print, clock: &Clock) -> io::Result<()> {
    let DateTime {
        day,
        month,
        year,
        hour,
        minute,
        second,
    } = clock.date_time();
    let weekday = clock.weekday();
    let of_week = clock.minute_of_week();
    println!(rt; "{day}.{month}.{year} {hour}:{minute}:{second} {weekday} {of_week}")
}

// Each day at its last second, and a second later.
pub(crate) fn print_days(rt: &impl Print) -> io::Result<()> {
    for (day, month, year) in DAYS {
        let mut clock = Clock::new();
        let last = DateTime {
            day,
            month,
            year,
            hour: 23,
            minute: 59,
            second: 59,
        };
        if clock.set(last).is_err() {
            println!(rt; "refused")?;
        }
        print_clock(rt, &clock)?;
        clock.tick();
        print_clock(rt, &clock)?;
    }
    Ok(())
}

// Each setting is refused and leaves the clock at its start.
pub(crate) fn print_refusals(rt: &impl Print) -> io::Result<()> {
    for (day, month, year, hour, minute, second) in UNFIT {
        let mut clock = Clock::new();
        let given = DateTime {
            day,
            month,
            year,
            hour,
            minute,
            second,
        };
        let answer = clock.set(given);
        let start = clock == Clock::new();
        match answer {
            Ok(()) => println!(rt; "taken {start}")?,
            Err(unfit) => println!(rt; "{unfit} {start}")?,
        }
    }
    Ok(())
}

// A day of ticks from the start.
pub(crate) fn print_day_of_ticks(rt: &impl Print) -> io::Result<()> {
    let mut clock = Clock::new();
    let before = clock.count();
    for _ in 0..86400u32 {
        clock.tick();
    }
    print_clock(rt, &clock)?;
    let after = clock.count();
    println!(rt; "{before} {after}")
}
