// Fault and order logs: empty, short, and longer than a reply lists.
use crate::print_reply;
use calendar::DateTime;
use replies::{FaultEntry, FaultEvent, OrderEntry, Reply};
use std::{array, io};

pub(crate) fn print_faults(rt: &impl Print) -> io::Result<()> {
    let at = DateTime {
        day: 29,
        month: 2,
        year: 2024,
        hour: 12,
        minute: 34,
        second: 56,
    };
    let onset = FaultEntry {
        sign: 7,
        entry: 255,
        at,
        code: 0x0D,
        event: FaultEvent::Onset,
    };
    let clearance = FaultEntry {
        entry: 254,
        event: FaultEvent::Clearance,
        ..onset
    };
    print_reply(rt, "faults", &Reply::fault_log(&[]))?;
    print_reply(rt, "faults", &Reply::fault_log(&[onset, clearance]))?;
    let entries: [FaultEntry; 22] = array::from_fn(|i| FaultEntry {
        sign: i as u8 + 1,
        entry: 200 - i as u8,
        ..onset
    });
    print_reply(rt, "faults", &Reply::fault_log(entries.split_at(20).0))?;
    print_reply(rt, "faults", &Reply::fault_log(&entries))
}

pub(crate) fn print_orders(rt: &impl Print) -> io::Result<()> {
    let order = OrderEntry {
        code: 0x0E,
        group: 3,
        operand: 200,
    };
    print_reply(rt, "orders", &Reply::order_log(&[]))?;
    print_reply(rt, "orders", &Reply::order_log(&[order]))?;
    let entries: [OrderEntry; 66] = array::from_fn(|i| OrderEntry {
        code: 0x10,
        group: i as u8,
        operand: 255 - i as u8,
    });
    print_reply(rt, "orders", &Reply::order_log(entries.split_at(64).0))?;
    print_reply(rt, "orders", &Reply::order_log(&entries))
}
