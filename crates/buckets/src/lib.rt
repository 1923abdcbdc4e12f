// Buckets of slots, over lent words: a slot's prefix, then its mark. What only reads takes the words as they are
// lent, as words or as bytes. That a slot lies inside them is the bound of an index, and stays a clause.
#![tactic(auto)]

ghost use Rattle.std.specs.Prelude.{◌≡◌, ◌<◌, length, set};
ghost use Rattle.rules.specs.Table.{slot_number, mark_word, default_word, mark_at, prefix_at, default_mark, with_slot, set_bits, search, first_mark, own, occupied, mark_of};
ghost use Rattle.rules.specs.Ready.{Slots};
ghost use Rattle.rules.specs.Meaning.{bucket_place};
ghost use Rattle.rules.specs.Numbers.{party_number};
ghost use Rattle.buckets.specs.Turns.{Turned, holding};

use hashes::bucket_of;
use prefixes::prefix_of;
use rules::{Party, Place, Settings};
use settings::{InRange, Length, Table};
use words::Cell;

// What a table has stored, where it is only read: its slots, and the settings by which they are read.
#[derive(Drop)]
pub struct Stored<'a, T: Cell> {
    pub settings: &'a InRange,
    pub slots: &'a [T],
    pub ghost sized: { Slots settings.now.all (T.words slots.now) },
}

// What a table has stored, read while it is not written.
pub fn stored_of<'a>(table: &'a Table) -> Stored<'a, u32>
    ensures settings { result.settings.now ≡ table.now.settings }
    ensures slots { result.slots.now ≡ table.now.slots.now }
{
    Stored {
        settings: &table.settings,
        slots: table.slots,
    }
}

// One length's part in a search of buckets.
#[derive(Clone, Copy)]
pub struct Turn {
    pub p: u32,
    pub length: u32,
    pub first: usize,
    pub left: u32,
}

// The first of a party's marks.
#[tactic(auto, unfolding(rules::specs::Table::first_mark))]
pub fn first_mark(party: Party) -> u32
    ensures { result ≡ first_mark (party_number party) }
{
    65536 * party.number() + 1
}

// The party's mark of a hop.
#[tactic(auto, using(rules::proofs::Numbers::party_low), unfolding(rules::specs::Table::first_mark, rules::specs::Table::mark_of))]
pub fn mark_of(party: Party, hop: u16) -> u32
    ensures { result ≡ mark_of (party_number party) hop }
{
    first_mark(party) + u32::from(hop)
}

// Whether a mark is the party's.
pub fn is_own(party: Party, mark: u32) -> bool
    ensures { result ≡ own (party_number party) mark }
{
    let first = first_mark(party);
    (first..=first + 65535).contains(&mark)
}

// Whether a mark, of either party, means that its slot is occupied.
fn is_occupied(mark: u32) -> bool
    ensures { result ≡ occupied mark }
{
    (1..=131072).contains(&mark)
}

// The number of the first slot of a prefix's bucket at a length.
pub fn first_slot(settings: &InRange, p: u32, length: Length) -> usize
    ensures { result ≡ slot_number settings.now.all p length.number 0 }
{
    let bucket = bucket_of(settings.all, p) as usize;
    let earlier = ((length.number - 1) as usize) << (settings.all.e as usize);
    (earlier + bucket) * (settings.all.s as usize)
}

// The prefix of a slot, by its number.
// This and `mark_at` read one word each, which the rules name apart.
#[tactic(auto, unfolding(rules::specs::Table::prefix_at, rules::specs::Table::prefix_word, rules::specs::Table::mark_word))]
pub fn prefix_at<T: Cell>(slots: &[T], slot: usize) -> u32
    requires { mark_word slot < length (T.words slots.now) }
    ensures { result ≡ prefix_at (T.words slots.now) slot }
{
    T::word_at(slots, 2 * slot)
}

// The mark of a slot, by its number.
#[tactic(auto, unfolding(rules::specs::Table::mark_at, rules::specs::Table::mark_word))]
pub fn mark_at<T: Cell>(slots: &[T], slot: usize) -> u32
    requires { mark_word slot < length (T.words slots.now) }
    ensures { result ≡ mark_at (T.words slots.now) slot }
{
    T::word_at(slots, 2 * slot + 1)
}

// The mark in the word of a party's default route: the last word but one, or the last.
// It asks only that the slots are of their size, and not that the settings are in range, so it takes no `Stored`.
pub fn default_mark<T: Cell>(settings: Settings, slots: &[T], party: Party) -> u32
    requires { Slots settings (T.words slots.now) }
    ensures { result ≡ default_mark settings (T.words slots.now) (party_number party) }
{
    T::word_at(slots, T::word_count(slots) - 2 + party.number() as usize)
}

// Gives a party's default route a mark.
// As of `default_mark`, that the slots are of their size is all that it asks.
pub fn put_default(settings: Settings, slots: &mut [u32], party: Party, mark: u32)
    requires { Slots settings slots.old }
    ensures { slots.new ≡ set slots.old (default_word settings (party_number party)) mark }
{
    let word = slots.len() - 2 + party.number() as usize;
    slots[word] = mark;
}

// Gives a slot, by its number, a prefix and a mark.
#[tactic(auto, unfolding(rules::specs::Table::with_slot, rules::specs::Table::prefix_word, rules::specs::Table::mark_word))]
pub fn put_slot(slots: &mut [u32], slot: usize, p: u32, mark: u32)
    requires { mark_word slot < length slots.old }
    ensures { slots.new ≡ with_slot slots.old slot p mark }
{
    slots[2 * slot] = p;
    slots[2 * slot + 1] = mark;
}

// Whether a slot, by its number, is the party's and holds a prefix.
fn holds_at<T: Cell>(slots: &[T], party: Party, slot: usize, p: u32) -> bool
    requires { mark_word slot < length (T.words slots.now) }
    ensures { result ≡ holding (T.words slots.now) (party_number party) slot p }
{
    prefix_at(slots, slot) == p && is_own(party, mark_at(slots, slot))
}

// A turn of a search: the longest length that is left, the address's prefix of it, the first slot of
// that prefix's bucket, and the lengths that are left after it.
pub fn turn_of(settings: &InRange, address: u32, lengths: u32) -> Turn
    requires { lengths ≡ 0 → ⊥ }
    ensures { Turned settings.now.all address lengths result }
{
    let length = 32 - lengths.leading_zeros();
    let p = prefix_of(address, length);
    let first = first_slot(settings, p, Length { number: length });
    let left = lengths - (1 << (length - 1));
    Turn {
        p,
        length,
        first,
        left,
    }
}

impl<T: Cell> Stored<'_, T> {
    // Searches the buckets of an address at the lengths whose bits are set in `lengths`, from the
    // longest down, each from its lowest slot up, for a slot that is the party's and holds the prefix. Nested loops,
    // left by a label with what was found, are a form that was asked for.
    pub fn search_buckets(&self, party: Party, address: u32, lengths: u32) -> Place
        ensures { result ≡ search self.now.settings.now.all (T.words self.now.slots.now) (party_number party) address 0 (set_bits lengths) }
    {
        let settings = self.settings;
        let mut found = Place::Absent(None);
        let mut left = lengths;
        let mut probes: u32 = 0;
        'lengths: while left != 0 {
            let turn = turn_of(settings, address, left);
            probes += 1;
            for s in 0..settings.all.s {
                let slot = turn.first + s as usize;
                if holds_at(self.slots, party, slot, turn.p) {
                    found = Place::At {
                        slot,
                        length: turn.length,
                        probes,
                    };
                    break 'lengths;
                }
            }
            left = turn.left;
        }
        found
    }

    // Searches a prefix's own bucket at a length, from the lowest slot up to the one that is the party's and
    // holds the prefix, and keeps the first free slot on the way.
    pub fn search_bucket(&self, party: Party, p: u32, length: Length) -> Place
        ensures { result ≡ bucket_place self.now.settings.now.all (T.words self.now.slots.now) (party_number party) p length.number }
    {
        let settings = self.settings;
        let slots = self.slots;
        let first = first_slot(settings, p, length);
        let mut vacancy = None;
        for s in 0..settings.all.s {
            let slot = first + s as usize;
            if holds_at(slots, party, slot, p) {
                return Place::At {
                    slot,
                    length: length.number,
                    probes: 1,
                };
            }
            if !is_occupied(mark_at(slots, slot)) {
                vacancy = vacancy.or(Some(slot));
            }
        }
        Place::Absent(vacancy)
    }
}
