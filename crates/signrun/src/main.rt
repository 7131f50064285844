// Runs recorded input on a site of two text signs, and prints what each sign then shows.
#![tactic(auto)]

use controller::run;
use controller::service::Controller;
use playback::lines::SignLine;
use playback::{input, site};
use rack::text::TextRack;
use std::io::Read;

fn main(rt: HostRuntime) -> anyhow::Result<()> {
    let mut bytes = Vec::new(rt.alloc());
    rt.stdin().read_to_end(&mut bytes)?;
    let calls = input::read_calls(rt.alloc(), bytes.as_slice())?;
    let mut rack = site::text_rack();
    let mut faults = site::fault_memory();
    let controller = run::serve(
        site::commissioning(),
        &mut rack,
        calls.as_slice(),
        &mut faults,
    );
    print_signs(&rt, &controller, &rack)
}

// Prints a line for each attached sign.
fn print_signs(rt: &HostRuntime, controller: &Controller, rack: &TextRack) -> anyhow::Result<()> {
    let groups = controller.site.sign_groups.as_slice();
    for (place, group) in groups.iter().enumerate() {
        let sign = place as u8 + 1;
        let line = SignLine {
            sign,
            group: *group,
            shown: controller.frame_shown(rack, sign),
        };
        println!(rt; "{line}")?;
    }
    Ok(())
}
