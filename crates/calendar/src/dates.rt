// The lengths of months and years.
ghost use Rattle.std.specs.Prelude.{◌≡◌, ◌-◌, ◌≤◌};
ghost use Rattle.calendar.specs.Dates.{leap, month_days, months_days, years_days};

fn is_leap(year: u16) -> bool
    ensures { result ≡ leap year }
{
    year % 4 == 0 && (year % 100 != 0 || year % 400 == 0)
}

pub(crate) fn month_days(year: u16, month: u8) -> u8
    ensures { result ≡ month_days year month }
{
    match month {
        2 => { if is_leap(year) { 29 } else { 28 } }
        4 | 6 | 9 | 11 => 30,
        _ => 31,
    }
}

// How many days of the year come before the month.
pub(crate) fn days_before_month(year: u16, month: u8) -> u32
    requires { (1 ≤ month) × (month ≤ 12) }
    ensures value { result ≡ months_days year (month - 1) }
    ensures bound { result ≤ 341 }
{
    // A `for`, since a chain's `sum` would need a proof by hand that it fits.
    let mut days = 0;
    for m in 1..month {
        days += u32::from(month_days(year, m));
    }
    days
}

// How many days the years before `year` have, from the year 1.
pub(crate) fn days_before_year(year: u16) -> u32
    requires { 1 ≤ year }
    ensures value { result ≡ years_days (year - 1) }
    ensures bound { result ≤ 30000000 }
{
    let years = u32::from(year) - 1;
    365 * years + years / 4 - years / 100 + years / 400
}
