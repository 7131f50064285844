ghost use Rattle.std.specs.Prelude.{◌≡◌, ℕ, Decides};
ghost use Rattle.std.specs.List.{flat_map};
ghost use Rattle.octets.specs.Held.{held};
ghost use Rattle.records.specs.Plans.{entry_of, covers, meets, runs_on, covering, entry_at, meets_any, clashing, both_run, common_day, any_meet, shares, Overlapping, SharesMinute, line_of, plan_of, plan_bytes};
ghost use Rattle.records.specs.Writing.{room_for, laid};

use crate::slots::Record;
use crate::writing::lay_command;
use commands::command::Header;
use commands::lists::Line;
use octets::Octets;

// What an entry of a plan shows.
#[derive(Clone, Copy, Debug, PartialEq, Eq)]
pub enum Shows {
    Frame(u8),
    Message(u8),
}

// What is shown from a minute of the day up to another, which is outside.
#[derive(Clone, Copy, Debug, PartialEq, Eq)]
pub struct Entry {
    pub shows: Shows,
    pub start: u16,
    pub stop: u16,
}

// What is shown at which minutes of which weekdays; bit 0 of `days` is Sunday.
#[derive(Clone, Copy, Debug, PartialEq, Eq)]
pub struct Plan {
    pub header: Header,
    pub days: u8,
    pub entries: [Option<Entry>; 6],
}

impl Entry {
    // The entry of a line that is filled; none of any other. No `TryFrom`, since an empty line is no error.
    pub fn read(line: Line) -> Option<Entry>
        ensures { result ≡ entry_of line }
    {
        let shows = match line.kind {
            1 => Shows::Frame(line.number),
            2 => Shows::Message(line.number),
            _ => return None,
        };
        Some(Entry {
            shows,
            start: line.start.minute_of_day(),
            stop: line.stop.minute_of_day(),
        })
    }

    pub fn covers(&self, minute: u16) -> bool
        ensures { result ≡ covers self.now minute }
    {
        self.start <= minute && minute < self.stop
    }

    // Whether two entries share a minute; those that only touch do not.
    pub fn meets(&self, other: &Entry) -> bool
        ensures { result ≡ meets self.now other.now }
    {
        self.start.max(other.start) < self.stop.min(other.stop)
    }
}

// The six bytes of an entry's line.
fn line_of(entry: Option<Entry>) -> [u8; 6]
    ensures { result ≡ line_of entry }
{
    let Some(Entry { shows, start, stop }) = entry else {
        return [0; 6];
    };
    let (kind, number) = match shows {
        Shows::Frame(number) => (1, number),
        Shows::Message(number) => (2, number),
    };
    [
        kind,
        number,
        (start / 60 % 256) as u8,
        (start % 60) as u8,
        (stop / 60 % 256) as u8,
        (stop % 60) as u8,
    ]
}

#[tactic(auto, using(crate::proofs::Lines::lines_more))]
fn lines(entries: &[Option<Entry>; 6]) -> Octets<36>
    ensures { held result ≡ flat_map line_of entries.now }
{
    let mut lines = Octets::new();
    for entry in entries {
        lines.extend(&line_of(*entry));
    }
    lines
}

// The first of several entries that covers a minute.
fn covering(entries: &[Option<Entry>], minute: u16) -> Option<Entry>
    ensures { result ≡ covering entries.now minute }
{
    entries
        .iter()
        .flatten()
        .find(|entry| entry.covers(minute))
        .copied()
}

// Whether an entry shares a minute with one of several.
fn meets_any(one: &Entry, others: &[Option<Entry>]) -> bool
    ensures { result ≡ meets_any one.now others.now }
{
    others.iter().flatten().any(|other| one.meets(other))
}

// Whether any of several entries shares a minute with one of several others.
fn any_meet(entries: &[Option<Entry>], others: &[Option<Entry>]) -> bool
    ensures { result ≡ any_meet others.now entries.now }
{
    entries
        .iter()
        .flatten()
        .any(|entry| meets_any(entry, others))
}

// Whether two entries of a list share a minute.
fn clashing(entries: &[Option<Entry>]) -> bool
    ensures { result ≡ clashing entries.now }
{
    for (place, entry) in entries.iter().enumerate() {
        if entry.is_some_and(|entry| meets_any(&entry, &entries[place + 1..])) {
            return true;
        }
    }
    false
}

fn runs_on(days: u8, weekday: u8) -> bool
    ensures { result ≡ runs_on days weekday }
{
    weekday < 7 && (days >> weekday) % 2 == 1
}

fn both_run(days: u8, others: u8, weekday: u8) -> bool
    ensures { result ≡ both_run days others weekday }
{
    runs_on(days, weekday) && runs_on(others, weekday)
}

// Whether some weekday is in both.
fn common_day(days: u8, others: u8) -> bool
    ensures { result ≡ common_day days others }
{
    (0..7u8).any(|weekday| both_run(days, others, weekday))
}

impl Record for Plan {
    ghost header = { λ p. p.header };

    fn header(&self) -> Header {
        self.header
    }
}

impl Plan {
    #[tactic(auto, unfolding(crate::specs::Plans::plan_of))]
    pub fn new(header: Header, days: u8, lines: [Line; 6]) -> Plan
        ensures { result ≡ plan_of header days lines }
    {
        Plan {
            header,
            days,
            entries: lines.map(Entry::read),
        }
    }

    // The entry that covers a minute of a weekday, Sunday being 0.
    #[tactic(auto, unfolding(crate::specs::Plans::entry_at))]
    pub fn entry_at(&self, weekday: u8, minute: u16) -> Option<Entry>
        ensures { result ≡ entry_at self.now weekday minute }
    {
        if runs_on(self.days, weekday) {
            covering(&self.entries, minute)
        } else {
            None
        }
    }

    // Whether two entries of the plan share a minute.
    #[tactic(auto, using(crate::proofs::Sharing::clashing_meaning))]
    pub fn overlaps_itself(&self) -> bool
        ensures value { result ≡ clashing self.now.entries }
        ensures meaning { Decides result (Overlapping self.now.entries) }
    {
        clashing(&self.entries)
    }

    // Whether two plans share a minute of a weekday.
    #[tactic(auto, unfolding(crate::specs::Plans::shares))]
    pub fn shares_minute(&self, other: &Plan) -> bool
        ensures value { result ≡ shares self.now other.now }
        ensures meaning { Decides result (SharesMinute self.now other.now) }
    {
        common_day(self.days, other.days) && any_meet(&self.entries, &other.entries)
    }

    // Writes the command that sets the plan, if there is room for it.
    #[tactic(auto, using(crate::proofs::Lines::lines_long), unfolding(crate::specs::Plans::plan_bytes))]
    pub fn write_command(&self, out: &mut [u8]) -> Option<usize>
        ensures count { result ≡ room_for (plan_bytes self.now) out.old }
        ensures bytes { out.new ≡ laid (plan_bytes self.now) out.old }
    {
        let Header {
            number,
            revision,
            check,
        } = self.header;
        lay_command(
            &[0x0D, number, revision, self.days],
            lines(&self.entries).as_slice(),
            check,
            out,
        )
    }
}
