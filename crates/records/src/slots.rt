ghost use Rattle.std.specs.Prelude.{◌≡◌, ℕ, ◌+◌, ◌*◌, ◌≤◌, true, ◌++◌, length, take, drop, replicate, Some, None};
ghost use Rattle.std.specs.Option.{option_map};
ghost use Rattle.records.specs.Slots.{slot_of, placed, has_slot, Numbered, Elsewhere, entry_bytes, listing, listing_room, listing_laid, Rising, bit_of, bits_of, summary_bits};
ghost use Rattle.commands.specs.declared.command.Header.{Header};

use commands::command::Header;
use std::array;

// What every kind of record has.
pub trait Record {
    ghost header: { Self → Header };

    fn header(&self) -> Header
        ensures { result ≡ header self.now };
}

// The record of a number, which stands one slot below its number.
pub fn find<R: Record>(slots: &[Option<R>], number: u8) -> Option<&R>
    ensures { option_map (λ x. x.now) result ≡ slot_of slots.now number }
{
    let place = usize::from(number).checked_sub(1)?;
    slots.get(place)?.as_ref()
}

// Puts a record into the slot of its number; answers whether there is such a slot.
pub fn replace<R: Record + Drop>(slots: &mut [Option<R>], kept: R) -> bool
    ensures after { slots.new ≡ placed slots.old (R.Record.header kept).number kept }
    ensures test { result ≡ has_slot slots.old (R.Record.header kept).number }
    ensures found { result ≡ true → slot_of slots.new (R.Record.header kept).number ≡ Some kept }
    ensures others { Elsewhere slots.old slots.new (R.Record.header kept).number }
    ensures lawful { Numbered R.Record.header slots.old → Numbered R.Record.header slots.new }
{
    let number = usize::from(kept.header().number);
    if number == 0 || number > slots.len() {
        return false;
    }
    slots[number - 1] = Some(kept);
    true
}

// Empties every slot in place.
pub fn clear<R: Record + Drop>(slots: &mut [Option<R>])
    ensures { slots.new ≡ replicate (length slots.old) None }
{
    slots.fill_with(|| None);
}

// Writes the number and the check word of a record, behind those of `place` others.
fn write_entry(header: Header, place: usize, out: &mut [u8])
    requires { 3 * (place + 1) ≤ length out.old }
    ensures front { take (3 * (place + 1)) out.new ≡ take (3 * place) out.old ++ entry_bytes header }
    ensures rest { drop (3 * (place + 1)) out.new ≡ drop (3 * (place + 1)) out.old }
{
    let [high, low] = header.check.to_be_bytes();
    out[3 * place..3 * place + 3].copy_from_slice(&[header.number, high, low]);
}

// Writes number and check word of each record from the start, if a full store's would have room.
pub fn list<R: Record>(slots: &[Option<R>], out: &mut [u8]) -> Option<usize>
    ensures count { result ≡ listing_room R.Record.header slots.now out.old }
    ensures bytes { out.new ≡ listing_laid R.Record.header slots.now out.old }
    ensures rising { Numbered R.Record.header slots.now → Rising R.Record.header slots.now }
{
    if out.len() / 3 < slots.len() {
        return None;
    }
    // a `for` that counts, and no chain: of 255 slots a chain takes 1.4 times as long
    let mut count = 0;
    for slot in slots {
        if let Some(kept) = slot {
            write_entry(kept.header(), count, out);
            count += 1;
        }
    }
    Some(3 * count)
}

// Writes the listing of a full store's slots behind what stands before `from`, and answers where it ends.
pub(crate) fn list_behind<R: Record>(slots: &[Option<R>; 255], out: &mut [u8], from: usize) -> usize
    requires { from + 765 ≤ length out.old }
    ensures most { result ≤ from + 765 }
    ensures front { take result out.new ≡ take from out.old ++ listing R.Record.header slots.now }
    ensures long { length out.new ≡ length out.old }
{
    from + list(slots, &mut out[from..]).unwrap_or(0)
}

// 1 for a number that is stored, and for number 0, which every summary names.
fn bit<R: Record>(slots: &[Option<R>], number: u8) -> u8
    ensures value { result ≡ bit_of slots.now number }
    ensures most { result ≤ 1 }
{
    u8::from(number == 0 || find(slots, number).is_some())
}

// The bits of eight numbers, the first in bit 0.
#[tactic(auto, unfolding(crate::specs::Slots::bits_of))]
fn bits<R: Record>(slots: &[Option<R>], first: u8) -> u8
    requires { first ≤ 248 }
    ensures { result ≡ bits_of slots.now first }
{
    bit(slots, first)
        + 2 * bit(slots, first + 1)
        + 4 * bit(slots, first + 2)
        + 8 * bit(slots, first + 3)
        + 16 * bit(slots, first + 4)
        + 32 * bit(slots, first + 5)
        + 64 * bit(slots, first + 6)
        + 128 * bit(slots, first + 7)
}

// A bit for each number from 0 to 255.
pub fn summary<R: Record>(slots: &[Option<R>]) -> [u8; 32]
    ensures { result ≡ summary_bits slots.now }
{
    array::from_fn(|place| bits(slots, place as u8 * 8))
}
