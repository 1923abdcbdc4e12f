// The next prefix that a table has at a length, found by one pass over the slots of that length, lent as words or
// as bytes. Nothing is kept between two passes but the prefix from which the next one goes on.
#![tactic(auto)]

ghost use Rattle.std.specs.Prelude.{◌≡◌, ◌*◌, ◌^◌, ◌≤◌, ◌<◌, leb, length as count_of, Some, MatchOption};
ghost use Rattle.rules.specs.Table.{mark_word, prefix_at, mark_at};
ghost use Rattle.rules.specs.Numbers.{party_number};
ghost use Rattle.difference_rules.specs.Comparing.{told, has};
ghost use Rattle.difference_search.specs.Next.{Tells, slot_tells, closer_of, lying, Lies};

use buckets::{Stored, default_mark, first_mark, first_slot, is_own, mark_at, prefix_at};
use prefixes::prefix_of;
use rules::Party;
use settings::{InRange, Length};
use words::Cell;

// A prefix that lies ahead, and the mark that the table has there, as it is told.
#[derive(Clone, Copy, Debug, PartialEq, Eq)]
pub struct Ahead {
    pub prefix: u32,
    pub mark: u32,
}

// A mark as it is told: that of party 0 with the same hop; none where the mark is not the party's.
#[tactic(auto, using(rules::proofs::Numbers::party_low), unfolding(difference_rules::specs::Comparing::told, rules::specs::Table::own, rules::specs::Table::hop_of, rules::specs::Table::mark_of, rules::specs::Table::first_mark, rules::specs::Tools::within))]
fn told(party: Party, mark: u32) -> Option<u32>
    ensures { Tells (told (party_number party) mark) result }
{
    if !is_own(party, mark) {
        return None;
    }
    Some(mark - first_mark(party) + 1)
}

// How many slots so many lengths have. `slots_asked` of the settings counts words, for all lengths.
#[tactic(auto, using(rules::proofs::Placing::ranges, crate::proofs::Slots::buckets_whole, crate::proofs::Slots::slots_small))]
fn slots_of(settings: &InRange, lengths: u32) -> usize
    requires { lengths ≤ 32 }
    ensures { result ≡ lengths * 2 ^ settings.now.all.e * settings.now.all.s }
{
    ((lengths as usize) << (settings.all.e as usize)) * (settings.all.s as usize)
}

// Whether what lies ahead is not beyond a prefix.
fn lies_by(ahead: Option<Ahead>, prefix: u32) -> bool
    ensures { result ≡ leb (lying ahead).prefix prefix }
{
    ahead.is_some_and(|nearer| nearer.prefix <= prefix)
}

// What a slot, by its number, tells of the prefix and the mark that it holds: nothing where the prefix has a bit
// set after the length, or where the slot is not of the prefix's own bucket.
#[tactic(auto, using(rules::proofs::Placing::ranges, settings::proofs::Readiness::ready, buckets::proofs::Slots::first_small), unfolding(crate::specs::Next::slot_tells, crate::specs::Next::own_slot, rules::specs::Table::loose, rules::specs::Table::slot_number))]
fn slot_tells(
    settings: &InRange,
    party: Party,
    p: u32,
    length: Length,
    slot: usize,
    mark: u32,
) -> Option<u32>
    ensures { Tells (slot_tells settings.now.all (party_number party) p length.number slot mark) result }
{
    if prefix_of(p, length.number) != p {
        return None;
    }
    let first = first_slot(settings, p, length);
    if !(first..first + settings.all.s as usize).contains(&slot) {
        return None;
    }
    told(party, mark)
}

// What a slot holds, if that is a route of the party's, not before `from`, and nearer than what lies ahead; of equals
// what was there first stays.
#[tactic(auto, using(crate::proofs::Passing::passed_over), unfolding(crate::specs::Next::closer_of))]
fn closer<T: Cell>(
    stored: &Stored<T>,
    party: Party,
    length: Length,
    from: u64,
    ahead: Option<Ahead>,
    slot: usize,
) -> Option<Ahead>
    requires { mark_word slot < count_of (T.words stored.now.slots.now) }
    ensures nearer { let p = prefix_at (T.words stored.now.slots.now) slot in let next = closer_of from ahead p (slot_tells stored.now.settings.now.all (party_number party) p length.number slot (mark_at (T.words stored.now.slots.now) slot)) in MatchOption result (ahead ≡ next) (λ nearer. Some nearer ≡ next) }
    ensures prefix_bound { prefix_at (T.words stored.now.slots.now) slot < 2 ^ 32 }
{
    let prefix = prefix_at(stored.slots, slot);
    let mark = mark_at(stored.slots, slot);
    if u64::from(prefix) < from || lies_by(ahead, prefix) || !is_own(party, mark) {
        return None;
    }
    let mark = slot_tells(stored.settings, party, prefix, length, slot, mark)?;
    Some(Ahead { prefix, mark })
}

// The default, which is the one route of length 0, if it is not before `from`.
fn default_from<T: Cell>(stored: &Stored<T>, party: Party, from: u64) -> Option<Ahead>
    requires { from ≤ 2 ^ 32 }
    ensures { Lies (λ p. has stored.now.settings.now.all (T.words stored.now.slots.now) (party_number party) p 0) from result }
{
    if from > 0 {
        return None;
    }
    let held = default_mark(stored.settings.all, stored.slots, party);
    let mark = told(party, held)?;
    Some(Ahead { prefix: 0, mark })
}

// The next prefix that the party has stored at a length, from a number on: at 2^32 no prefix is left. Where tables are
// small a comparison is mostly its calls, some four for each length.
#[tactic(auto, using(settings::proofs::Readiness::ready, crate::proofs::Slots::slot_lent, crate::proofs::Passing::passed_none, crate::proofs::Passing::passed_one, crate::proofs::Passing::passed_all))]
#[inline(always)]
pub fn next_prefix<T: Cell>(
    stored: &Stored<T>,
    party: Party,
    length: u32,
    from: u64,
) -> Option<Ahead>
    requires length_bound { length ≤ 32 }
    requires from_bound { from ≤ 2 ^ 32 }
    ensures { Lies (λ p. has stored.now.settings.now.all (T.words stored.now.slots.now) (party_number party) p length) from result }
{
    if length == 0 {
        return default_from(stored, party, from);
    }
    let settings = stored.settings;
    let length = Length { number: length };
    let mut ahead = None;
    // By number: those of a length lie one after the other, and each is two words.
    for slot in slots_of(settings, length.number - 1)..slots_of(settings, length.number) {
        if let Some(nearer) = closer(stored, party, length, from, ahead, slot) {
            ahead = Some(nearer);
        }
    }
    ahead
}
