// Plays messages to the judge, one conversation; the stored output is written from the rules.
//
// A line has the verdict on a message, the session that it leaves and the application error code. The seed is 10h, the
// offsets are 05h and 0100h, so the password is 1615h.
#![tactic(auto)]

use judging::effects::{error_after, session_after};
use judging::verdict::Judge;
use records::any_record::AnyRecord;
use records::store::Store;
use session::{Offsets, Session};
use std::io;

const OFFSETS: Offsets = Offsets {
    seed: 0x05,
    password: 0x0100,
};

#[derive(Drop)]
struct Desk {
    session: Session,
    error: u8,
}

fn say(rt: &HostRuntime, desk: &mut Desk, store: &mut Store, message: &[u8]) -> io::Result<()> {
    let judge = Judge {
        session: desk.session,
        offsets: OFFSETS,
        store,
    };
    let verdict = judge.judge(message);
    desk.session = session_after(desk.session, 0x10, &verdict);
    desk.error = error_after(desk.error, &verdict);
    let session = desk.session;
    let error = desk.error;
    match verdict {
        Ok(command) => {
            if let Some(kept) = AnyRecord::of(&command) {
                store.put(kept);
            }
            println!(rt; "accepted, {session}, error {error}")
        }
        Err(rejection) => {
            let number = u8::from(rejection);
            println!(rt; "rejected {number}, {session}, error {error}")
        }
    }
}

fn play(
    rt: &HostRuntime,
    desk: &mut Desk,
    store: &mut Store,
    messages: &[&[u8]],
) -> io::Result<()> {
    for message in messages {
        say(rt, desk, store, message)?;
    }
    Ok(())
}

// From a closed session to an open one.
const OPENING: [&[u8]; 15] = [
    &[0x03],
    &[0x0E, 0x01, 0x01],
    &[0x0E],
    &[],
    &[0x02, 0x00],
    &[0x07],
    &[0x18, 0x00],
    &[0x04, 0x16, 0x15],
    &[0x05],
    &[0x02],
    &[0x07],
    &[0x04, 0x16],
    &[0x04, 0x16, 0x14],
    &[0x02],
    &[0x04, 0x16, 0x15],
];

// Requests and times in an open session.
const VALUES: [&[u8]; 13] = [
    &[0x04, 0x16, 0x15],
    &[0x05],
    &[0x12],
    &[0x09, 0x1D, 0x02, 0x07, 0xD0, 0x17, 0x3B, 0x3B],
    &[0x09, 0x1D, 0x02, 0x07, 0x6C, 0x00, 0x00, 0x00],
    &[0x09, 0x01, 0x01, 0x07, 0xD0, 0x18, 0x00, 0x00],
    &[0x17, 0x00, 0x01],
    &[0x17, 0x03, 0x01],
    &[0x17, 0x00, 0x00],
    &[0xFF, 0x00],
    &[0xFF, 0x04],
    &[0xFF],
    &[0x16, 0x01, 0x01],
];

// Records: check words before values, values before overlaps.
const STORING: [&[u8]; 13] = [
    b"\x0A\x01\x00\x01\x02\x00\x04\x53\x4C\x4F\x57\x72\x86",
    b"\x0A\x00\x00\x01\x02\x00\x04\x53\x4C\x4F\x57\x1D\xC1",
    b"\x0A\x00\x00\x01\x02\x00\x04\x53\x4C\x4F\x57\x1D\xC0",
    b"\x0A\x01\x00\x01\x02\x00\x04\x53\x4C\x4F\x57\x72",
    b"\x0A\x01\x00\x01\x02\x00\x04\x53\x4C\x4F\x57\x72\x85",
    &[0x17, 0x00, 0x01],
    &[0x17, 0x01, 0x01],
    &[0x17, 0x00, 0x02],
    b"\x0D\x03\x01\x7F\x01\x01\x08\x00\x09\x00\x02\x07\x09\x00\x18\x00\x00\x00\x00\x00\x00\x00\x00\x00\x00\x00\x00\x00\x00\x00\x00\x00\x00\x00\x00\x00\x00\x00\x00\x00\x13\xC7",
    b"\x0D\x03\x01\x7F\x01\x01\x08\x00\x09\x00\x01\x02\x08\x1E\x0A\x00\x00\x00\x00\x00\x00\x00\x00\x00\x00\x00\x00\x00\x00\x00\x00\x00\x00\x00\x00\x00\x00\x00\x00\x00\x92\xF3",
    b"\x0D\x03\x01\x7F\x01\x01\x08\x00\x09\x00\x01\x02\x08\x1E\x0A\x00\x00\x00\x00\x00\x00\x00\x00\x00\x00\x00\x00\x00\x00\x00\x00\x00\x00\x00\x00\x00\x00\x00\x00\x00\x92\xF4",
    b"\x0D\x03\x01\x7F\x01\x01\x08\x00\x09\x00\x01\x02\x08\x1E\x0A\x00\x01\x01\x0B\x00\x0C\x00\x01\x01\x0C\x00\x0D\x00\x01\x01\x0D\x00\x0E\x00\x03\x01\x0F\x00\x10\x00\x21\x54",
    &[0x17, 0x02, 0x03],
];

// From the open session to a closed one, and a new start.
const CLOSING: [&[u8]; 8] = [
    &[0x07],
    b"\x0A\x01\x00\x01\x02\x00\x04\x53\x4C\x4F\x57\x72\x86",
    &[0x17, 0x03, 0x01],
    &[0xF4],
    &[0xFB],
    &[0x05, 0x05],
    &[0x02],
    &[0x1A],
];

fn main(rt: HostRuntime) -> io::Result<()> {
    let mut desk = Desk {
        session: Session::Closed,
        error: 0,
    };
    let mut store = Store::new();
    play(&rt, &mut desk, &mut store, &OPENING)?;
    play(&rt, &mut desk, &mut store, &VALUES)?;
    play(&rt, &mut desk, &mut store, &STORING)?;
    play(&rt, &mut desk, &mut store, &CLOSING)
}
