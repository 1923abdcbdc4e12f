// One step of a walk over two tables: the nearer of the prefixes that lie ahead, what both tables have there, and how that
// is put into a list, which is lent as words or as bytes.
#![tactic(auto)]

ghost use Rattle.std.specs.Prelude.{◌≡◌, [], ◌∷◌, ◌+◌, ◌*◌, ◌^◌, ◌≤◌, ◌<◌, length, MatchOption};
ghost use Rattle.std.proofs.lemmas.List.Edits.{sets};
ghost use Rattle.difference_rules.specs.Comparing.{difference_words};
ghost use Rattle.difference_steps.specs.Walking.{nearest_of, mark_there, met};

use difference_rules::Difference;
use difference_search::Ahead;
use words::{Cell, put_words};

// What lies ahead in each table, at one length.
#[derive(Clone, Copy, Debug, PartialEq, Eq)]
pub struct Walk {
    pub first: Option<Ahead>,
    pub second: Option<Ahead>,
}

// The mark that a table has at a prefix, which is not beyond what lies ahead in it: 0 is no route.
#[tactic(auto, unfolding(crate::specs::Walking::mark_there))]
fn mark_there(ahead: Option<Ahead>, prefix: u32) -> u32
    ensures { result ≡ mark_there ahead prefix }
{
    match ahead {
        Some(met) if met.prefix == prefix => met.mark,
        _ => 0,
    }
}

impl Walk {
    // The nearer of the two prefixes, if a table has one.
    pub fn nearest(self) -> Option<u32>
        ensures { MatchOption result (nearest_of self ≡ 2 ^ 32) (λ prefix. prefix ≡ nearest_of self) }
    {
        match (self.first, self.second) {
            (Some(first), Some(second)) => Some(first.prefix.min(second.prefix)),
            (Some(ahead), None) | (None, Some(ahead)) => Some(ahead.prefix),
            (None, None) => None,
        }
    }

    // What the two tables have at the nearer prefix.
    pub fn met(self, prefix: u32, length: u32) -> Difference
        requires { prefix ≡ nearest_of self }
        ensures met { result ≡ met self length }
        ensures prefix_bound { prefix < 2 ^ 32 }
    {
        Difference {
            length,
            prefix,
            first: mark_there(self.first, prefix),
            second: mark_there(self.second, prefix),
        }
    }
}

// Puts the four words of a difference from a place on.
#[tactic(auto, unfolding(difference_rules::specs::Comparing::difference_words))]
pub fn put<T: Cell>(list: &mut [T], at: usize, found: Difference)
    requires { at + 4 * T.WIDE ≤ length list.old }
    ensures { list.new ≡ sets list.old at (T.cells (difference_words (found ∷ []))) }
{
    put_words(
        list,
        at,
        &[found.length, found.prefix, found.first, found.second],
    );
}
