// A log that is filled past its bound, emptied and lent too little memory.
use journal::Journal;
use std::io;

fn print_log(rt: &impl Print, log: &Journal<4>, memory: &[u8]) -> io::Result<()> {
    let len = log.len();
    match log.entries(memory) {
        Ok(entries) => println!(rt; "{len} {entries:?}")?,
        Err(_) => println!(rt; "{len} refused")?,
    }
    for age in 0..5 {
        match log.get(memory, age) {
            Some(entry) => print!(rt; "{entry} ")?,
            None => print!(rt; "- ")?,
        }
    }
    println!(rt; "in {memory:?}")
}

fn append(rt: &impl Print, log: &mut Journal<4>, memory: &mut [u8], entry: u8) -> io::Result<()> {
    let ok = log.append(memory, entry).is_ok();
    println!(rt; "{ok}")?;
    print_log(rt, log, memory)
}

fn append_six(rt: &impl Print, log: &mut Journal<4>, memory: &mut [u8]) -> io::Result<()> {
    for entry in 1..7u8 {
        append(rt, log, memory, entry)?;
    }
    Ok(())
}

// Six entries in a log of four, over a memory of six, and an emptying.
pub(crate) fn print_filling(rt: &impl Print) -> io::Result<()> {
    let mut memory = [90, 91, 92, 93, 94, 95];
    let mut log = Journal::<4>::new();
    append_six(rt, &mut log, &mut memory)?;
    log.clear();
    print_log(rt, &log, &memory)?;
    append(rt, &mut log, &mut memory, 7)
}

// One place too few.
pub(crate) fn print_short(rt: &impl Print) -> io::Result<()> {
    let mut memory = [90, 91, 92];
    let mut log = Journal::<4>::new();
    append(rt, &mut log, &mut memory, 1)
}
