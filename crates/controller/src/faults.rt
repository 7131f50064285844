ghost use Rattle.std.specs.Prelude.{◌≡◌, ℕ, ◌≤◌, length};
ghost use Rattle.controller.specs.Faults.{no_faults, counted, entered, counted_change, entered_change};

use calendar::DateTime;
use journal::Journal;
use replies::{FaultEntry, FaultEvent};

// The fault log's bookkeeping, and the number of its next entry.
#[derive(Clone, Copy)]
pub struct FaultLog {
    pub journal: Journal<20>,
    pub next_entry: u8,
}

impl FaultLog {
    pub fn new() -> FaultLog
        ensures { result ≡ no_faults }
    {
        FaultLog {
            journal: Journal::new(),
            next_entry: 0,
        }
    }

    // Puts one entry into the log.
    fn note(
        &mut self,
        memory: &mut [FaultEntry],
        sign: u8,
        at: DateTime,
        code: u8,
        event: FaultEvent,
    )
        requires { 20 ≤ length memory.old }
        ensures log { self.new ≡ counted self.old }
        ensures memory { memory.new ≡ entered sign at code event self.old memory.old }
    {
        let entry = FaultEntry {
            sign,
            entry: self.next_entry,
            at,
            code,
            event,
        };
        let _ = self.journal.append(memory, entry);
        self.next_entry = self.next_entry.wrapping_add(1);
    }

    // Logs that a sign's error code changed: the old one is cleared, then the new one begins; 0 is none.
    pub(crate) fn change(
        &mut self,
        memory: &mut [FaultEntry],
        sign: u8,
        at: DateTime,
        old: u8,
        new: u8,
    )
        requires { 20 ≤ length memory.old }
        ensures log { self.new ≡ counted_change old new self.old }
        ensures memory { memory.new ≡ entered_change sign at old new self.old memory.old }
    {
        if old == new {
            return;
        }
        if old != 0 {
            self.note(memory, sign, at, old, FaultEvent::Clearance);
        }
        if new != 0 {
            self.note(memory, sign, at, new, FaultEvent::Onset);
        }
    }
}
