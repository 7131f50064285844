// Enabled plans, and what is stored: empty, short, and longer than a reply lists.
use crate::print_reply;
use commands::kind::RecordKind;
use replies::{EnabledPlan, Listed, Reply};
use std::{array, io};

pub(crate) fn print_plans(rt: &impl Print) -> io::Result<()> {
    let plan = EnabledPlan { group: 1, plan: 2 };
    print_reply(rt, "plans", &Reply::enabled_plans(&[]))?;
    print_reply(rt, "plans", &Reply::enabled_plans(&[plan]))?;
    let plans: [EnabledPlan; 98] = array::from_fn(|i| EnabledPlan {
        group: i as u8 / 8 + 1,
        plan: 2 * i as u8,
    });
    print_reply(rt, "plans", &Reply::enabled_plans(plans.split_at(96).0))?;
    print_reply(rt, "plans", &Reply::enabled_plans(&plans))
}

pub(crate) fn print_stored(rt: &impl Print) -> io::Result<()> {
    let one = Listed {
        number: 5,
        check: 0x31C3,
    };
    print_reply(rt, "frames", &Reply::stored_list(RecordKind::Frame, &[]))?;
    print_reply(
        rt,
        "messages",
        &Reply::stored_list(RecordKind::Message, &[one]),
    )?;
    print_reply(
        rt,
        "plans",
        &Reply::stored_list(RecordKind::Plan, &[one, one]),
    )?;
    let listed: [Listed; 257] = array::from_fn(|i| Listed {
        number: (i % 256) as u8,
        check: (i * 251) as u16,
    });
    print_reply(
        rt,
        "full",
        &Reply::stored_list(RecordKind::Frame, &listed[1..256]),
    )?;
    print_reply(rt, "cut", &Reply::stored_list(RecordKind::Plan, &listed))
}

pub(crate) fn print_summary(rt: &impl Print) -> io::Result<()> {
    let bits = array::from_fn(|i| 159 - i as u8);
    print_reply(rt, "summary", &Reply::stored_summary(&bits))
}
