// A bounded log over memory that is lent with each call, for entries of any kind.
// The log's entries stand newest first at the front of the memory, so that what it means is the memory's first
// entries. Promised: the newest comes first and retires the oldest when the log is full; what stands behind the log
// in the memory keeps its contents; memory that is shorter than the bound is refused, and nothing alters.
#![tactic(auto)]

ghost use Rattle.std.specs.Prelude.{◌≡◌, ◌≤◌, ◌∷◌, length, take, if◌then◌else◌, slice_get, Err, MatchResult, nat_le};

use std::error::Error;
use std::fmt;

// Why a call on a log is not made.
#[derive(Clone, Copy, Debug, PartialEq, Eq)]
pub enum Refusal {
    ShortMemory = 0x52,
}

impl From<Refusal> for u8 {
    ghost use Rattle.journal.specs.Logs.{refusal_number};

    ghost from_gives = { λ refusal number. number ≡ refusal_number refusal };

    fn from(refusal: Refusal) -> u8 {
        refusal as u8
    }
}

impl fmt::Display for Refusal {
    fn fmt<W: fmt::Write>(&self, f: &mut fmt::Formatter<W>) -> fmt::Result {
        f.write_str(match self {
            Refusal::ShortMemory => "short memory",
        })
    }
}

impl Error for Refusal {}

// The bookkeeping of a log of at most BOUND entries.
#[derive(Clone, Copy, Debug, PartialEq, Eq)]
pub struct Journal<const BOUND: usize> {
    count: usize,
    ghost few: { count ≤ BOUND },
}

// Puts an entry before the others of a part; the last one leaves it.
fn push_front<T: Copy>(part: &mut [T], newest: T)
    ensures { part.new ≡ take (length part.old) (newest ∷ part.old) }
{
    if let Some(last) = part.last_mut() {
        *last = newest;
        part.rotate_right(1);
    }
}

impl<const BOUND: usize> Journal<BOUND> {
    ghost use Rattle.journal.specs.Logs.{Alike, empty, kept, grown, listed, written, judged};

    // An empty log.
    pub fn new() -> Journal<BOUND>
        ensures log { result ≡ empty }
        ensures alike { Alike BOUND }
    {
        Journal { count: 0 }
    }

    // Whether the memory suffices for the log.
    pub fn judge<T: Copy>(memory: &[T]) -> Result<(), Refusal>
        ensures { result ≡ judged BOUND (length memory.now) }
    {
        if memory.len() < BOUND {
            Err(Refusal::ShortMemory)
        } else {
            Ok(())
        }
    }

    // How many entries the log has.
    pub fn len(&self) -> usize
        ensures count { result ≡ kept self.now }
        ensures bound { result ≤ BOUND }
    {
        self.count
    }

    // Forgets all entries.
    pub fn clear(&mut self)
        ensures { self.new ≡ empty }
    {
        *self = Journal::new();
    }

    // Puts an entry into the log.
    pub fn append<T: Copy>(&mut self, memory: &mut [T], newest: T) -> Result<(), Refusal>
        ensures answer { result ≡ judged BOUND (length memory.old) }
        ensures book { self.new ≡ (if nat_le BOUND (length memory.old) then grown self.old else self.old) }
        ensures memory { memory.new ≡ (if nat_le BOUND (length memory.old) then written self.old newest memory.old else memory.old) }
        ensures log { BOUND ≤ length memory.old → listed self.new memory.new ≡ take BOUND (newest ∷ listed self.old memory.old) }
    {
        Self::judge(memory)?;
        let room = self.len().saturating_add(1).min(BOUND);
        push_front(&mut memory[..room], newest);
        *self = Journal { count: room };
        Ok(())
    }

    // The entries, newest first.
    pub fn entries<'a, T: Copy>(&self, memory: &'a [T]) -> Result<&'a [T], Refusal>
        ensures { MatchResult result (λ part. (BOUND ≤ length memory.now) × (kept self.now ≤ BOUND) × (part.now ≡ listed self.now memory.now)) (λ e. judged BOUND (length memory.now) ≡ Err e) }
    {
        Self::judge(memory)?;
        Ok(&memory[..self.len()])
    }

    // The entry that has `age` newer ones.
    pub fn get<T: Copy>(&self, memory: &[T], age: usize) -> Option<T>
        ensures bound { kept self.now ≤ BOUND }
        ensures entry { result ≡ slice_get (listed self.now memory.now) age }
    {
        if age < self.len() {
            memory.get(age).copied()
        } else {
            None
        }
    }
}
