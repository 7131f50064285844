// Dates, readings and logs at known values; the stored output is written from the rules.
#![tactic(auto)]

mod dates;
mod logs;
mod readings;

use std::io;

fn main(rt: HostRuntime) -> io::Result<()> {
    dates::print_days(&rt)?;
    dates::print_refusals(&rt)?;
    dates::print_day_of_ticks(&rt)?;
    readings::print_volts(&rt)?;
    readings::print_degrees(&rt)?;
    readings::print_slots(&rt)?;
    logs::print_filling(&rt)?;
    logs::print_short(&rt)
}
