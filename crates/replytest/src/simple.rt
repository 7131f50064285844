// Verdicts, commands as they are given back, and readings.
use crate::print_reply;
use analog::{Reading, Readings};
use replies::Reply;
use std::{array, io};

pub(crate) fn print_verdicts(rt: &impl Print) -> io::Result<()> {
    print_reply(rt, "empty", &Reply::new())?;
    print_reply(rt, "acknowledgement", &Reply::acknowledgement(0x0E))?;
    print_reply(rt, "rejection", &Reply::rejection(0x0A, 0x43))?;
    print_reply(rt, "seed", &Reply::seed(0xA7))
}

// A short command, one that fills a reply, and one that is cut.
pub(crate) fn print_commands(rt: &impl Print) -> io::Result<()> {
    let bytes: [u8; 770] = array::from_fn(|i| (i % 251) as u8);
    print_reply(rt, "command", &Reply::command(bytes.split_at(17).0))?;
    print_reply(rt, "command", &Reply::command(bytes.split_at(768).0))?;
    print_reply(rt, "command", &Reply::command(&bytes))?;
    let mut parts = Reply::command(bytes.split_at(765).0);
    parts.push(0xAA);
    parts.push_word(0x1234);
    parts.push(0xBB);
    parts.extend(&[0xCC, 0xDD]);
    print_reply(rt, "parts", &parts)?;
    let mut cut = Reply::command(bytes.split_at(767).0);
    cut.push_word(0x1234);
    print_reply(rt, "cut", &cut)
}

pub(crate) fn print_readings(rt: &impl Print) -> io::Result<()> {
    let mut readings = Readings::new();
    print_reply(rt, "readings", &Reply::readings(&readings))?;
    let _ = readings.set(1, Reading::Volts(12.5), 0x40);
    let _ = readings.set(2, Reading::Volts(25.5), 0x00);
    let _ = readings.set(3, Reading::Celsius(21.0), 0x80);
    print_reply(rt, "readings", &Reply::readings(&readings))
}
