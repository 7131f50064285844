// The slots of a site's readings, their states, and what each holds.
ghost use Rattle.std.specs.Prelude.{◌≡◌, [], ◌∷◌, ok_or};
ghost use Rattle.analog.specs.Codes.{code_of};
ghost use Rattle.analog.specs.Slots.{slot_of, slot_takes, state_of, state_byte, refusal_number, held, placed, setting, set_to, at_first, entry_bytes, report_bytes};
ghost use Rattle.analog.specs.declared.slots.Refusal.TheVariants.{NoSlot, NoState};

use crate::reading::Reading;
use std::error::Error;
use std::fmt;

#[derive(Clone, Copy, Debug, PartialEq, Eq)]
pub enum Slot {
    Mains,
    Battery,
    Temperature,
}

#[derive(Clone, Copy, Debug, PartialEq, Eq)]
pub enum State {
    Normal = 0,
    Warning = 0x40,
    Alarm = 0x80,
}

// Why a reading is not kept.
#[derive(Clone, Copy, Debug, PartialEq, Eq)]
pub enum Refusal {
    NoSlot,
    OtherKind,
    NoState,
}

// The newest reading of a slot.
#[derive(Clone, Copy, Debug, PartialEq)]
pub struct Entry {
    pub reading: Reading,
    pub state: State,
}

#[derive(Clone, Copy, Debug, PartialEq)]
pub struct Readings {
    mains: Entry,
    battery: Entry,
    temperature: Entry,
}

impl TryFrom<u8> for Slot {
    type Error = Refusal;

    ghost try_from_gives = { λ number result. result ≡ ok_or (slot_of number) NoSlot };

    fn try_from(number: u8) -> Result<Slot, Refusal> {
        match number {
            1 => Ok(Slot::Mains),
            2 => Ok(Slot::Battery),
            3 => Ok(Slot::Temperature),
            _ => Err(Refusal::NoSlot),
        }
    }
}

impl Slot {
    // Mains and battery take volts, temperature takes degrees, and each takes absent.
    pub fn takes(self, reading: Reading) -> bool
        ensures { result ≡ slot_takes self reading }
    {
        matches!(
            (self, reading),
            (Slot::Mains | Slot::Battery, Reading::Volts(_))
                | (Slot::Temperature, Reading::Celsius(_))
                | (_, Reading::Absent)
        )
    }
}

impl TryFrom<u8> for State {
    type Error = Refusal;

    ghost try_from_gives = { λ byte result. result ≡ ok_or (state_of byte) NoState };

    fn try_from(byte: u8) -> Result<State, Refusal> {
        match byte {
            0 => Ok(State::Normal),
            0x40 => Ok(State::Warning),
            0x80 => Ok(State::Alarm),
            _ => Err(Refusal::NoState),
        }
    }
}

impl From<State> for u8 {
    ghost from_gives = { λ state byte. byte ≡ state_byte state };

    fn from(state: State) -> u8 {
        state as u8
    }
}

impl From<Refusal> for u8 {
    ghost from_gives = { λ refusal number. number ≡ refusal_number refusal };

    // The number of the rejection.
    fn from(refusal: Refusal) -> u8 {
        match refusal {
            Refusal::NoSlot | Refusal::OtherKind | Refusal::NoState => 0x54,
        }
    }
}

impl fmt::Display for Refusal {
    fn fmt<W: fmt::Write>(&self, f: &mut fmt::Formatter<W>) -> fmt::Result {
        f.write_str(match self {
            Refusal::NoSlot => "no slot",
            Refusal::OtherKind => "other kind",
            Refusal::NoState => "no state",
        })
    }
}

impl Error for Refusal {}

impl Entry {
    // The state and the code, as a reply has them.
    pub fn bytes(self) -> [u8; 2]
        ensures { result ≡ entry_bytes self }
    {
        [u8::from(self.state), self.reading.code()]
    }
}

impl Readings {
    // All are absent, with no fault.
    pub fn new() -> Readings
        ensures { result ≡ at_first }
    {
        let none = Entry {
            reading: Reading::Absent,
            state: State::Normal,
        };
        Readings {
            mains: none,
            battery: none,
            temperature: none,
        }
    }

    pub fn get(&self, slot: Slot) -> Entry
        ensures { result ≡ held slot self.now }
    {
        match slot {
            Slot::Mains => self.mains,
            Slot::Battery => self.battery,
            Slot::Temperature => self.temperature,
        }
    }

    fn place(&mut self, slot: Slot, entry: Entry)
        ensures { self.new ≡ placed slot entry self.old }
    {
        match slot {
            Slot::Mains => self.mains = entry,
            Slot::Battery => self.battery = entry,
            Slot::Temperature => self.temperature = entry,
        }
    }

    // Keeps a reading that fits; else nothing alters.
    pub fn set(&mut self, slot: u8, reading: Reading, state: u8) -> Result<(), Refusal>
        ensures answer { result ≡ setting (slot_of slot) reading (state_of state) }
        ensures state { self.new ≡ set_to (slot_of slot) reading (state_of state) self.old }
    {
        let slot = Slot::try_from(slot)?;
        if !slot.takes(reading) {
            return Err(Refusal::OtherKind);
        }
        let state = State::try_from(state)?;
        self.place(slot, Entry { reading, state });
        Ok(())
    }

    // State and code of mains, battery and temperature.
    pub fn bytes(&self) -> [u8; 6]
        ensures { result ≡ report_bytes self.now }
    {
        let [mains_state, mains] = self.mains.bytes();
        let [battery_state, battery] = self.battery.bytes();
        let [temperature_state, temperature] = self.temperature.bytes();
        [
            mains_state,
            mains,
            battery_state,
            battery,
            temperature_state,
            temperature,
        ]
    }
}
