// Codes at and beside the marks, and which readings a slot takes.
use analog::{Reading, Readings};
use std::io;

const VOLTS: [f32; 30] = [
    0.0,
    -0.0,
    1.0e-45,
    -1.0e-45,
    1.1754944e-38,
    0.05,
    0.049999997,
    0.050000004,
    0.15,
    0.25,
    0.24999999,
    0.35,
    1.25,
    12.34,
    12.449999,
    12.45,
    25.35,
    25.349998,
    25.375,
    25.449999,
    25.45,
    25.450003,
    25.5,
    1.0e30,
    3.0e38,
    -12.0,
    -3.0e38,
    f32::INFINITY,
    f32::NEG_INFINITY,
    f32::NAN,
];

const DEGREES: [f32; 24] = [
    0.0,
    -0.0,
    1.0e-45,
    -1.0e-45,
    -0.5,
    -0.50000006,
    -0.49999997,
    0.5,
    0.49999997,
    -19.5,
    -19.500002,
    -19.499998,
    -20.0,
    -40.0,
    21.4,
    79.5,
    79.49999,
    79.50001,
    80.0,
    3.0e38,
    -3.0e38,
    f32::INFINITY,
    f32::NEG_INFINITY,
    f32::NAN,
];

const STATES: [u8; 5] = [0, 0x40, 0x80, 0xC0, 1];

pub(crate) fn print_volts(rt: &impl Print) -> io::Result<()> {
    for volts in VOLTS {
        let code = Reading::Volts(volts).code();
        println!(rt; "volts {code}")?;
    }
    Ok(())
}

pub(crate) fn print_degrees(rt: &impl Print) -> io::Result<()> {
    for degrees in DEGREES {
        let code = Reading::Celsius(degrees).code();
        println!(rt; "degrees {code}")?;
    }
    Ok(())
}

fn print_reading(rt: &impl Print, slot: u8, reading: Reading, state: u8) -> io::Result<()> {
    let mut readings = Readings::new();
    let answer = readings.set(slot, reading, state);
    let bytes = readings.bytes();
    match answer {
        Ok(()) => println!(rt; "{slot} {state} kept {bytes:?}"),
        Err(refusal) => println!(rt; "{slot} {state} {refusal} {bytes:?}"),
    }
}

// Every slot from 0 to 4 with every kind and each state.
pub(crate) fn print_slots(rt: &impl Print) -> io::Result<()> {
    for slot in 0..5u8 {
        for state in STATES {
            print_reading(rt, slot, Reading::Volts(12.0), state)?;
            print_reading(rt, slot, Reading::Celsius(12.0), state)?;
            print_reading(rt, slot, Reading::Absent, state)?;
        }
    }
    Ok(())
}
