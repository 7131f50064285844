ghost use Rattle.std.specs.Prelude.{◌≡◌};
ghost use Rattle.std.specs.Option.{option_map};
ghost use Rattle.groups.specs.Apart.{AnyOrder};
ghost use Rattle.groups.specs.Due.{wanted, ordered, moment_of, slot_due, first_due, wanted_of, is_kept, due_of, frame_of, message_of, plan_of};

use crate::group::{Direct, GroupRecord};
use crate::plans::EnabledPlans;
use calendar::Clock;
use records::frame::Frame;
use records::message::Message;
use records::plan::{Plan, Shows};
use records::store::Store;

// A frame, or a message at an age in seconds.
#[derive(Clone, Copy, Debug, PartialEq, Eq)]
pub enum Wanted {
    Frame(u8),
    Message { number: u8, age: u32 },
}

// What is due to a group, and the plan that has it so, if a plan has.
#[derive(Clone, Copy, Debug, PartialEq, Eq)]
pub struct Due {
    pub wanted: Wanted,
    pub plan: Option<u8>,
}

// What plans go by: the minute of a weekday, Sunday being 0, and the second of the day.
#[derive(Clone, Copy)]
struct Moment {
    weekday: u8,
    minute: u16,
    second: u32,
}

impl Wanted {
    // What is shown, if since so many seconds.
    fn shown(shows: Shows, age: u32) -> Wanted
        ensures { result ≡ wanted shows age }
    {
        match shows {
            Shows::Frame(number) => Wanted::Frame(number),
            Shows::Message(number) => Wanted::Message { number, age },
        }
    }
}

impl From<Direct> for Due {
    ghost from_gives = { λ direct due. due ≡ ordered direct };

    fn from(direct: Direct) -> Due {
        Due {
            wanted: Wanted::shown(direct.shows, direct.age),
            plan: None,
        }
    }
}

impl Moment {
    fn of(clock: &Clock) -> Moment
        ensures { result ≡ moment_of clock.now.shown }
    {
        Moment {
            weekday: u8::from(clock.weekday()),
            minute: clock.minute_of_day(),
            second: clock.second_of_day(),
        }
    }

    // What the plan of a slot has due; a message's age counts from the entry's start.
    fn slot_due(self, store: &Store, slot: Option<u8>) -> Option<Due>
        ensures { result ≡ slot_due store.now self slot }
    {
        let number = slot?;
        let entry = store.plan(number)?.entry_at(self.weekday, self.minute)?;
        let age = self.second.saturating_sub(60 * u32::from(entry.start));
        Some(Due {
            wanted: Wanted::shown(entry.shows, age),
            plan: Some(number),
        })
    }

    // What the first plan that covers the minute has due.
    fn first_due(self, store: &Store, plans: &EnabledPlans) -> Option<Due>
        ensures { result ≡ first_due store.now self plans.now.slots }
    {
        for slot in &plans.slots {
            if let Some(due) = self.slot_due(store, *slot) {
                return Some(due);
            }
        }
        None
    }
}

impl GroupRecord {
    // What the direct order asks for, or else the enabled plans, stored or not.
    #[tactic(auto, unfolding(crate::specs::Due::planned))]
    fn wanted(&self, store: &Store, clock: &Clock) -> Option<Due>
        ensures { result ≡ wanted_of store.now clock.now.shown self.now }
    {
        match self.direct {
            Some(direct) => Some(Due::from(direct)),
            None => Moment::of(clock).first_due(store, &self.plans),
        }
    }

    // What is due to the group: something stored, and only while it is powered and enabled.
    #[tactic(auto, unfolding(crate::specs::Due::due_of))]
    pub fn due(&self, store: &Store, clock: &Clock) -> Option<Due>
        ensures value { result ≡ due_of store.now clock.now.shown self.now }
        ensures order { AnyOrder store.now clock.now.shown self.now result }
    {
        if !self.powered || !self.enabled {
            return None;
        }
        self.wanted(store, clock).filter(|due| due.is_kept(store))
    }
}

impl Due {
    // Whether the frame or message that is named is stored.
    fn is_kept(&self, store: &Store) -> bool
        ensures { result ≡ is_kept store.now self.now.wanted }
    {
        match self.wanted {
            Wanted::Frame(number) => store.frame(number).is_some(),
            Wanted::Message { number, .. } => store.message(number).is_some(),
        }
    }

    // The stored frame that is to be shown.
    pub fn frame<'a>(&self, store: &'a Store) -> Option<&'a Frame>
        ensures { option_map (λ x. x.now) result ≡ frame_of store.now self.now }
    {
        match self.wanted {
            Wanted::Frame(number) => store.frame(number),
            Wanted::Message { number, age } => store.frame(store.message(number)?.frame_at(age)?),
        }
    }

    // The stored message that is due, if one is.
    pub fn message<'a>(&self, store: &'a Store) -> Option<&'a Message>
        ensures { option_map (λ x. x.now) result ≡ message_of store.now self.now }
    {
        match self.wanted {
            Wanted::Frame(_) => None,
            Wanted::Message { number, .. } => store.message(number),
        }
    }

    // The stored plan that has it due, if a plan has.
    pub fn plan<'a>(&self, store: &'a Store) -> Option<&'a Plan>
        ensures { option_map (λ x. x.now) result ≡ plan_of store.now self.now }
    {
        store.plan(self.plan?)
    }
}
