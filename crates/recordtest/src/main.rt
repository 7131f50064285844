// Plays messages, one a line in hex, into an empty store; the stored output is written from the rules by other means.
//
// A message prints what it sets, given back as its command, or the number of its refusal. Lines that begin with a code
// of no command ask: E0 message age, E1 plan weekday minute, E2 plan plan, E3 for the checksum, E4 for the store's size.
#![tactic(auto)]

mod digits;
mod refusal;

use commands::command::Command;
use commands::kind::RecordKind;
use commands::parsing::parse;
use digits::{read_hex, show_hex};
use fitness::judging::fits;
use fitness::soundness::check_word_right;
use records::any_record::AnyRecord;
use records::plan::{Entry, Shows};
use records::store::Store;
use refusal::Refusal;
use std::io;

// The record that a message sets; none for a message that sets nothing.
fn judge(message: &[u8]) -> Result<Option<AnyRecord>, Refusal> {
    let command = parse(message)?;
    if !check_word_right(message) {
        return Err(Refusal::CheckWord);
    }
    if !fits(&command) {
        return Err(Refusal::Unfit);
    }
    match AnyRecord::of(&command) {
        Some(AnyRecord::Plan(plan)) if plan.overlaps_itself() => Err(Refusal::Overlap),
        kept => Ok(kept),
    }
}

// Writes what a request for a listing draws.
fn list(store: &Store, kind: u8, out: &mut [u8]) -> Option<usize> {
    match RecordKind::listed(kind) {
        Some(kind) => store.list(kind, out),
        None => store.summary(out),
    }
}

// Writes the command of a stored record.
fn stored(store: &Store, kind: u8, number: u8, out: &mut [u8]) -> Option<usize> {
    let kind = RecordKind::try_from(kind).ok()?;
    store.record_at(kind, number)?.write_command(out)
}

// Writes what a message that sets nothing draws.
fn answered(store: &Store, message: &[u8], out: &mut [u8]) -> Option<usize> {
    match parse(message) {
        Ok(Command::ListStored { kind }) => list(store, kind, out),
        Ok(Command::StoredRecord { kind, number }) => stored(store, kind, number, out),
        _ => Some(0),
    }
}

fn play(rt: &impl Print, store: &mut Store, message: &[u8]) -> io::Result<()> {
    let mut out = [0; 800];
    match judge(message) {
        Err(refusal) => println!(rt; "rejected {}", u8::from(refusal)),
        Ok(Some(kept)) => {
            store.put(kept);
            let count = kept.write_command(&mut out);
            match count.and_then(|count| out.get(..count)) {
                Some(command) => show_hex(rt, "set", command),
                None => println!(rt; "no room"),
            }
        }
        Ok(None) => {
            let count = answered(store, message, &mut out);
            match count.and_then(|count| out.get(..count)) {
                Some(reply) => show_hex(rt, "accepted", reply),
                None => println!(rt; "not stored"),
            }
        }
    }
}

fn ask_age(rt: &impl Print, store: &Store, number: u8, age: u32) -> io::Result<()> {
    let frame = store
        .message(number)
        .and_then(|message| message.frame_at(age));
    println!(rt; "frame {}", frame.unwrap_or(0))
}

fn ask_entry(
    rt: &impl Print,
    store: &Store,
    number: u8,
    weekday: u8,
    minute: u16,
) -> io::Result<()> {
    let entry = store
        .plan(number)
        .and_then(|plan| plan.entry_at(weekday, minute));
    match entry {
        Some(Entry { shows, start, .. }) => match shows {
            Shows::Frame(n) => println!(rt; "frame {n} from {start}"),
            Shows::Message(n) => println!(rt; "message {n} from {start}"),
        },
        None => println!(rt; "no entry"),
    }
}

fn ask_share(rt: &impl Print, store: &Store, one: u8, other: u8) -> io::Result<()> {
    match (store.plan(one), store.plan(other)) {
        (Some(one), Some(other)) => println!(rt; "{}", one.shares_minute(other)),
        _ => println!(rt; "not stored"),
    }
}

fn answer(rt: &impl Print, store: &mut Store, message: &[u8]) -> io::Result<()> {
    match *message {
        [0xE0, number, a, b, c, d] => ask_age(rt, store, number, u32::from_be_bytes([a, b, c, d])),
        [0xE1, number, weekday, high, low] => {
            let minute = u16::from_be_bytes([high, low]);
            ask_entry(rt, store, number, weekday, minute)
        }
        [0xE2, one, other] => ask_share(rt, store, one, other),
        [0xE3] => println!(rt; "checksum {}", store.checksum()),
        [0xE4] => println!(rt; "small {}", size_of::<Store>() <= 59 * 1024),
        _ => play(rt, store, message),
    }
}

fn main(rt: HostRuntime) -> io::Result<()> {
    let mut store = Store::new();
    for line in rt.lines(rt.alloc()) {
        let text = line?;
        let message = read_hex(text.as_str());
        answer(&rt, &mut store, message.as_slice())?;
    }
    store.empty();
    println!(rt; "emptied {}", store.checksum())
}
