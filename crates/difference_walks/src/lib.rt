// A walk over two tables, for a party: the prefixes at which they differ, by rising length and then rising prefix, with
// what each table has there. Both tables are only read.
#![tactic(auto)]

ghost use Rattle.std.specs.Prelude.{◌≡◌, ◌+◌, ◌≤◌};
ghost use Rattle.std.specs.Iterator.{YieldsFirst, item_count};
ghost use Rattle.rules.specs.Numbers.{party_number};
ghost use Rattle.difference_rules.specs.Comparing.{has, between};
ghost use Rattle.difference_steps.specs.Walking.{Walking, Passed, Underway, nearest_of, left};

use buckets::Stored;
use difference_rules::Difference;
use difference_search::{Ahead, next_prefix};
use difference_steps::Walk;
use rules::Party;
use words::Cell;

// What lies ahead in a table once a prefix is passed, which is not beyond what lay ahead.
fn pass<T: Cell>(
    table: &Stored<T>,
    party: Party,
    length: u32,
    prefix: u32,
    ahead: Option<Ahead>,
) -> Option<Ahead>
    requires { length ≤ 32 }
    ensures { Passed (λ p. has table.now.settings.now.all (T.words table.now.slots.now) (party_number party) p length) prefix ahead result }
{
    match ahead {
        Some(met) if met.prefix == prefix => {
            next_prefix(table, party, length, u64::from(prefix) + 1)
        }
        _ => ahead,
    }
}

// What lies ahead in two tables at a length, from its first prefix on.
fn begin<T: Cell>(first: &Stored<T>, second: &Stored<T>, party: Party, length: u32) -> Walk
    requires { length ≤ 32 }
    ensures { Walking (has first.now.settings.now.all (T.words first.now.slots.now) (party_number party)) (has second.now.settings.now.all (T.words second.now.slots.now) (party_number party)) length 0 result }
{
    Walk {
        first: next_prefix(first, party, length, 0),
        second: next_prefix(second, party, length, 0),
    }
}

// The differences of two tables that are still to come: those from a length on, and there from what lies ahead.
#[derive(Drop)]
pub struct Differences<'a, T: Cell> {
    pub first: &'a Stored<'a, T>,
    pub second: &'a Stored<'a, T>,
    pub party: Party,
    pub length: u32,
    pub walk: Walk,
}

impl<'a, T: Cell> Differences<'a, T> {
    // All differences, the default's first.
    #[tactic(auto, using(crate::proofs::Walking::left_begun), unfolding(difference_rules::specs::Comparing::between))]
    pub fn new(first: &'a Stored<'a, T>, second: &'a Stored<'a, T>, party: Party) -> Self
        ensures tables { (result.first.now ≡ first.now) × (result.second.now ≡ second.now) × (result.party ≡ party) }
        ensures underway { Underway (has first.now.settings.now.all (T.words first.now.slots.now) (party_number party)) (has second.now.settings.now.all (T.words second.now.slots.now) (party_number party)) result.length result.walk }
        ensures all { left (has first.now.settings.now.all (T.words first.now.slots.now) (party_number party)) (has second.now.settings.now.all (T.words second.now.slots.now) (party_number party)) result.length result.walk ≡ between first.now.settings.now.all (T.words first.now.slots.now) second.now.settings.now.all (T.words second.now.slots.now) (party_number party) }
    {
        Differences {
            first,
            second,
            party,
            length: 0,
            walk: begin(first, second, party, 0),
        }
    }

    // What lies ahead in both tables once the nearer prefix is passed.
    fn passed(&self, prefix: u32) -> Walk
        requires underway { Underway (has self.now.first.now.settings.now.all (T.words self.now.first.now.slots.now) (party_number self.now.party)) (has self.now.second.now.settings.now.all (T.words self.now.second.now.slots.now) (party_number self.now.party)) self.now.length self.now.walk }
        requires nearer { prefix ≡ nearest_of self.now.walk }
        ensures { Walking (has self.now.first.now.settings.now.all (T.words self.now.first.now.slots.now) (party_number self.now.party)) (has self.now.second.now.settings.now.all (T.words self.now.second.now.slots.now) (party_number self.now.party)) self.now.length (nearest_of self.now.walk + 1) result }
    {
        let (party, length) = (self.party, self.length);
        Walk {
            first: pass(self.first, party, length, prefix, self.walk.first),
            second: pass(self.second, party, length, prefix, self.walk.second),
        }
    }
}

impl<'a, T: Cell> Iterator for Differences<'a, T> {
    type Item = Difference;

    ghost can_next = { λ s. Underway (has s.first.now.settings.now.all (T.words s.first.now.slots.now) (party_number s.party)) (has s.second.now.settings.now.all (T.words s.second.now.slots.now) (party_number s.party)) s.length s.walk };

    ghost next_gives = { YieldsFirst (λ s. left (has s.first.now.settings.now.all (T.words s.first.now.slots.now) (party_number s.party)) (has s.second.now.settings.now.all (T.words s.second.now.slots.now) (party_number s.party)) s.length s.walk) };

    ghost remaining = { item_count (λ s. left (has s.first.now.settings.now.all (T.words s.first.now.slots.now) (party_number s.party)) (has s.second.now.settings.now.all (T.words s.second.now.slots.now) (party_number s.party)) s.length s.walk) };

    fn next(&mut self) -> Option<Difference> {
        loop {
            match self.walk.nearest() {
                Some(prefix) => {
                    let found = self.walk.met(prefix, self.length);
                    self.walk = self.passed(prefix);
                    if found.first != found.second {
                        return Some(found);
                    }
                }
                None if self.length < 32 => {
                    self.length += 1;
                    self.walk = begin(self.first, self.second, self.party, self.length);
                }
                None => return None,
            }
        }
    }
}
