// Tries what racks, commissioning and service refuse, at each bound and beside it, and prints what each call answers.
#![tactic(auto)]

use analog::Reading;
use controller::call::CallRefusal;
use controller::commissioning::Commissioning;
use controller::service::Controller;
use rack::lane::LaneRack;
use rack::refusal::Refusal;
use rack::text::TextRack;
use std::fmt;

// The number of a sign that was fitted or attached.
#[derive(Clone, Copy)]
struct Numbered(u8);

impl fmt::Display for Numbered {
    fn fmt<W: fmt::Write>(&self, f: &mut fmt::Formatter<W>) -> fmt::Result {
        write!(f, "sign {}", self.0)
    }
}

// Prints what a call answers, or the number of its refusal.
fn print_answer<T, E>(rt: &HostRuntime, what: &str, answer: Result<T, E>) -> anyhow::Result<()>
where
    T: fmt::Display + Drop,
    E: Drop,
    u8: From<E>,
{
    match answer {
        Ok(done) => println!(rt; "{what}: {done}")?,
        Err(refusal) => {
            let number = u8::from(refusal);
            println!(rt; "{what}: refused {number:02X}")?;
        }
    }
    Ok(())
}

fn print_number(rt: &HostRuntime, what: &str, answer: Result<u8, Refusal>) -> anyhow::Result<()> {
    print_answer(rt, what, answer.map(Numbered))
}

fn print_set(rt: &HostRuntime, what: &str, answer: Result<(), Refusal>) -> anyhow::Result<()> {
    print_answer(rt, what, answer.map(|()| "set"))
}

fn print_report(
    rt: &HostRuntime,
    what: &str,
    answer: Result<(), CallRefusal>,
) -> anyhow::Result<()> {
    print_answer(rt, what, answer.map(|()| "taken"))
}

fn text_signs(rt: &HostRuntime) -> anyhow::Result<()> {
    let mut rack = TextRack::new();
    print_number(rt, "text sign of width 0", rack.fit(0))?;
    print_number(rt, "text sign of width 1", rack.fit(1))?;
    print_number(rt, "text sign of width 128", rack.fit(128))?;
    print_number(rt, "text sign of width 129", rack.fit(129))?;
    for _ in 0..10u8 {
        let _ = rack.fit(16);
    }
    print_number(rt, "thirteenth text sign", rack.fit(16))?;
    print_number(rt, "thirteenth text sign of width 0", rack.fit(0))
}

fn lane_signs(rt: &HostRuntime) -> anyhow::Result<()> {
    let mut rack = LaneRack::new();
    print_number(rt, "lane sign of 0 by 8", rack.fit(0, 8))?;
    print_number(rt, "lane sign of 8 by 0", rack.fit(8, 0))?;
    print_number(rt, "lane sign of 33 by 8", rack.fit(33, 8))?;
    print_number(rt, "lane sign of 8 by 33", rack.fit(8, 33))?;
    print_number(rt, "lane sign of 1 by 1", rack.fit(1, 1))?;
    print_number(rt, "lane sign of 32 by 32", rack.fit(32, 32))
}

fn numbers(rt: &HostRuntime, site: &mut Commissioning) -> anyhow::Result<()> {
    print_set(rt, "address 0", site.set_address(0))?;
    print_set(rt, "address 1", site.set_address(1))?;
    print_set(rt, "address 255", site.set_address(255))?;
    print_set(rt, "silence limit 0", site.set_silence_limit(0))?;
    print_set(rt, "silence limit 1", site.set_silence_limit(1))?;
    print_set(rt, "silence limit 3600", site.set_silence_limit(3600))?;
    print_set(rt, "silence limit 3601", site.set_silence_limit(3601))
}

fn signs(rt: &HostRuntime, site: &mut Commissioning) -> anyhow::Result<()> {
    print_number(rt, "sign of group 0", site.attach(0))?;
    print_number(rt, "sign of group 1", site.attach(1))?;
    print_number(rt, "sign of group 12", site.attach(12))?;
    print_number(rt, "sign of group 13", site.attach(13))
}

fn readings(rt: &HostRuntime, controller: &mut Controller) -> anyhow::Result<()> {
    print_report(
        rt,
        "volts in slot 0",
        controller.read_in(0, Reading::Volts(12.0), 0),
    )?;
    print_report(
        rt,
        "volts in slot 1",
        controller.read_in(1, Reading::Volts(12.0), 0x40),
    )?;
    print_report(
        rt,
        "volts in slot 3",
        controller.read_in(3, Reading::Volts(12.0), 0),
    )?;
    print_report(
        rt,
        "degrees in slot 3",
        controller.read_in(3, Reading::Celsius(20.0), 0x80),
    )?;
    print_report(
        rt,
        "degrees in slot 2",
        controller.read_in(2, Reading::Celsius(20.0), 0),
    )?;
    print_report(
        rt,
        "absent in slot 2 with state C0",
        controller.read_in(2, Reading::Absent, 0xC0),
    )?;
    print_report(
        rt,
        "absent in slot 4",
        controller.read_in(4, Reading::Absent, 0),
    )
}

fn main(rt: HostRuntime) -> anyhow::Result<()> {
    text_signs(&rt)?;
    lane_signs(&rt)?;
    let mut site = Commissioning::new();
    numbers(&rt, &mut site)?;
    signs(&rt, &mut site)?;
    let mut rack = TextRack::new();
    let mut controller = site.close(&mut rack);
    let mut faults = playback::site::fault_memory();
    print_report(
        &rt,
        "report with memory for 19 faults",
        controller.report(2, 7, &mut faults[0..19]),
    )?;
    print_report(
        &rt,
        "report of sign 0 with memory for 19 faults",
        controller.report(0, 7, &mut faults[0..19]),
    )?;
    print_report(
        &rt,
        "report of sign 0",
        controller.report(0, 7, &mut faults),
    )?;
    print_report(
        &rt,
        "report of sign 2",
        controller.report(2, 7, &mut faults),
    )?;
    print_report(
        &rt,
        "report of sign 3",
        controller.report(3, 7, &mut faults),
    )?;
    readings(&rt, &mut controller)
}
