// Replies of fixed inputs in hexadecimal; the stored output is written from the layouts.
#![tactic(auto)]

mod lists;
mod logs;
mod simple;
mod status;

use replies::Reply;
use std::io;

// A name and the reply's bytes, each as two digits.
fn print_reply(rt: &impl Print, name: &str, reply: &Reply) -> io::Result<()> {
    print!(rt; "{name} ")?;
    for byte in reply.bytes() {
        print!(rt; "{byte:02X}")?;
    }
    println!(rt)
}

fn main(rt: HostRuntime) -> io::Result<()> {
    simple::print_verdicts(&rt)?;
    simple::print_commands(&rt)?;
    simple::print_readings(&rt)?;
    status::print_short(&rt)?;
    status::print_full(&rt)?;
    logs::print_faults(&rt)?;
    logs::print_orders(&rt)?;
    lists::print_plans(&rt)?;
    lists::print_stored(&rt)?;
    lists::print_summary(&rt)
}
