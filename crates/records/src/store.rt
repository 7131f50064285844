ghost use Rattle.std.specs.Prelude.{◌≡◌, ℕ, ◌≤◌, true, Some};
ghost use Rattle.std.specs.Option.{option_map};
ghost use Rattle.records.specs.Slots.{slot_of};
ghost use Rattle.records.specs.Stores.{empty_store, stored, record_at, number_of, kind_of, Untouched, Lawful, listing_count, listing_written, RisingAt, checksum_of, summary_of};
ghost use Rattle.records.specs.Writing.{room_for, laid};

use crate::any_record::AnyRecord;
use crate::frame::Frame;
use crate::message::Message;
use crate::plan::Plan;
use crate::slots::{clear, find, list, list_behind, replace, summary};
use crate::writing::lay_parts;
use commands::kind::RecordKind;
use wire::check_word;

// The frames, messages and plans that are kept, each kind numbered from 1 to 255: fixed tables, for nothing allocates here.
// No invariant says that each stands under its number, since it would bind whoever writes these public fields.
#[derive(Drop)]
pub struct Store {
    pub frames: [Option<Frame>; 255],
    pub messages: [Option<Message>; 255],
    pub plans: [Option<Plan>; 255],
}

impl Store {
    pub fn new() -> Store
        ensures value { result ≡ empty_store }
        ensures lawful { Lawful result }
    {
        Store {
            frames: [None; 255],
            messages: [None; 255],
            plans: [None; 255],
        }
    }

    pub fn empty(&mut self)
        ensures after { self.new ≡ empty_store }
        ensures lawful { Lawful self.new }
    {
        clear(&mut self.frames[..]);
        clear(&mut self.messages[..]);
        clear(&mut self.plans[..]);
    }

    pub fn frame(&self, number: u8) -> Option<&Frame>
        ensures { option_map (λ x. x.now) result ≡ slot_of self.now.frames number }
    {
        find(&self.frames[..], number)
    }

    pub fn message(&self, number: u8) -> Option<&Message>
        ensures { option_map (λ x. x.now) result ≡ slot_of self.now.messages number }
    {
        find(&self.messages[..], number)
    }

    pub fn plan(&self, number: u8) -> Option<&Plan>
        ensures { option_map (λ x. x.now) result ≡ slot_of self.now.plans number }
    {
        find(&self.plans[..], number)
    }

    // The record of a kind and a number.
    pub fn record_at(&self, kind: RecordKind, number: u8) -> Option<AnyRecord>
        ensures { result ≡ record_at self.now kind number }
    {
        match kind {
            RecordKind::Frame => self.frame(number).copied().map(AnyRecord::Frame),
            RecordKind::Message => self.message(number).copied().map(AnyRecord::Message),
            RecordKind::Plan => self.plan(number).copied().map(AnyRecord::Plan),
        }
    }

    // Keeps a record under its number, in place of one that had it; number 0 is kept nowhere.
    pub fn put(&mut self, kept: AnyRecord)
        ensures after { self.new ≡ stored self.old kept }
        ensures found { 1 ≤ number_of kept → number_of kept ≤ 255 → record_at self.new (kind_of kept) (number_of kept) ≡ Some kept }
        ensures others { Untouched self.old self.new (kind_of kept) (number_of kept) }
        ensures lawful { Lawful self.old → Lawful self.new }
    {
        match kept {
            AnyRecord::Frame(frame) => {
                let _ = replace(&mut self.frames[..], frame);
            }
            AnyRecord::Message(message) => {
                let _ = replace(&mut self.messages[..], message);
            }
            AnyRecord::Plan(plan) => {
                let _ = replace(&mut self.plans[..], plan);
            }
        }
    }

    // Writes number and check word of each record of a kind, numbers rising, if 765 bytes are lent.
    pub fn list(&self, kind: RecordKind, out: &mut [u8]) -> Option<usize>
        ensures count { result ≡ listing_count self.now kind out.old }
        ensures bytes { out.new ≡ listing_written self.now kind out.old }
        ensures rising { Lawful self.now → RisingAt self.now kind }
    {
        match kind {
            RecordKind::Frame => list(&self.frames[..], out),
            RecordKind::Message => list(&self.messages[..], out),
            RecordKind::Plan => list(&self.plans[..], out),
        }
    }

    // The check word over number and check word of all frames, then messages, then plans, numbers rising.
    #[tactic(auto, unfolding(crate::specs::Stores::checksum_of))]
    pub fn checksum(&self) -> u16
        ensures { result ≡ checksum_of self.now }
    {
        let mut listed = [0; 2295];
        let frames = list_behind(&self.frames, &mut listed, 0);
        let messages = list_behind(&self.messages, &mut listed, frames);
        let end = list_behind(&self.plans, &mut listed, messages);
        check_word(&listed[..end])
    }

    // Writes a bit for each number from 0 to 255 of frames, messages and plans, if 96 bytes are lent.
    pub fn summary(&self, out: &mut [u8]) -> Option<usize>
        ensures count { result ≡ room_for (summary_of self.now) out.old }
        ensures bytes { out.new ≡ laid (summary_of self.now) out.old }
    {
        lay_parts(
            &summary(&self.frames[..]),
            &summary(&self.messages[..]),
            &summary(&self.plans[..]),
            out,
        )
    }
}
