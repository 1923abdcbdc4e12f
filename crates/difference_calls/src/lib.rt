// Two tables compared for a party. The differences are counted first, since a list that is too short gets none of
// them. No call requires anything: bad input gets its number and changes nothing.
#![tactic(auto)]

ghost use Rattle.std.specs.Prelude.{◌≡◌, ◌*◌, ◌≤◌, length, IfOk, MatchResult};
ghost use Rattle.rules.specs.Table.{lent, memory_refusal, party_refusal};
ghost use Rattle.rules.specs.Numbers.{party_number, number_given};
ghost use Rattle.difference_rules.specs.Comparing.{between, difference_words, over, differences_given, difference_refusal, compared, difference, c_difference};

use buckets::Stored;
use difference_steps::put;
use difference_walks::Differences;
use rules::{Party, Refusal, Settings};
use settings::{InRange, refuse_party_sizes, refuse_sizes};
use words::Cell;

// 1 and 2 of both tables and 15; or the party.
fn refuse_tables<T: Cell>(
    first: Settings,
    counters: &[u8],
    slots: &[T],
    second: Settings,
    counters2: &[u8],
    slots2: &[T],
    party: u32,
) -> Result<Party, Refusal>
    ensures refusal { number_given result ≡ memory_refusal first (lent counters.now (T.words slots.now)) (party_refusal second (lent counters2.now (T.words slots2.now)) party 0) }
    ensures known { IfOk result (λ whose. party_number whose ≡ party) }
{
    refuse_sizes(first, counters.len(), T::word_count(slots))?;
    refuse_party_sizes(second, counters2.len(), T::word_count(slots2), party)
}

// Counts the differences of two tables, and puts those that a list has room for into it, from its front on.
// Each by its place, not by chunks_exact_mut: of chunks that come back a proof knows the lengths alone. That whoever calls
// this runs the same code, and holds no copy of it, is for speed where tables are small.
#[inline(never)]
fn list_differences<T: Cell>(
    first: &Stored<T>,
    second: &Stored<T>,
    party: Party,
    list: &mut [T],
) -> u32
    ensures count { result ≡ length (between first.now.settings.now.all (T.words first.now.slots.now) second.now.settings.now.all (T.words second.now.slots.now) (party_number party)) }
    ensures listed { let ds = between first.now.settings.now.all (T.words first.now.slots.now) second.now.settings.now.all (T.words second.now.slots.now) (party_number party) in 4 * T.WIDE * length ds ≤ length list.old → list.new ≡ over (T.cells (difference_words ds)) list.old }
{
    let room = list.len() / (4 * T::WIDE);
    let mut i = 0;
    for found in Differences::new(first, second, party) {
        if i < room {
            put(list, 4 * T::WIDE * i, found);
        }
        i += 1;
    }
    i as u32
}

// How many prefixes two tables differ at.
fn count_differences<T: Cell>(first: &Stored<T>, second: &Stored<T>, party: Party) -> u32
    ensures { result ≡ length (between first.now.settings.now.all (T.words first.now.slots.now) second.now.settings.now.all (T.words second.now.slots.now) (party_number party)) }
{
    list_differences(first, second, party, &mut [])
}

// Counts the prefixes at which two tables differ, and lists them where the list has room for all of them.
// Eight parameters: C's interface names each of them, and a struct over them before the checks would say nothing.
fn compare<T: Cell>(
    first: Settings,
    counters: &[u8],
    slots: &[T],
    second: Settings,
    counters2: &[u8],
    slots2: &[T],
    party: u32,
    list: &mut [T],
) -> Result<u32, Refusal>
    ensures refusal { let ds = between first (T.words slots.now) second (T.words slots2.now) party in number_given result ≡ difference_refusal first (lent counters.now (T.words slots.now)) second (lent counters2.now (T.words slots2.now)) party (4 * T.WIDE * length ds) (length list.old) }
    ensures listed { let ds = between first (T.words slots.now) second (T.words slots2.now) party in MatchResult result (λ count. (count ≡ length ds) × (list.new ≡ over (T.cells (difference_words ds)) list.old)) (λ _. list.new ≡ list.old) }
{
    let party = refuse_tables(first, counters, slots, second, counters2, slots2, party)?;
    let first = InRange { all: first };
    let second = InRange { all: second };
    let first = Stored {
        settings: &first,
        slots,
    };
    let second = Stored {
        settings: &second,
        slots: slots2,
    };
    let count = count_differences(&first, &second, party);
    if list.len() < 4 * T::WIDE * count as usize {
        return Err(Refusal::BadRoom);
    }
    list_differences(&first, &second, party, list);
    Ok(count)
}

// Lists the prefixes at which two tables differ for a party: four words to a difference, which are its length, its
// prefix, and what the first table and the second have there.
pub fn difference(
    first: Settings,
    counters: &[u8],
    slots: &[u32],
    second: Settings,
    counters2: &[u8],
    slots2: &[u32],
    party: u32,
    list: &mut [u32],
) -> Result<u32, Refusal>
    ensures { difference first (lent counters.now slots.now) second (lent counters2.now slots2.now) party list.old ≡ compared (differences_given result) list.new }
{
    compare(
        first, counters, slots, second, counters2, slots2, party, list,
    )
}

// As `difference`, where slots and list are lent as bytes, four to a word, the low byte first.
// Both are one call of `compare`: `difference_determined` and `difference_in_bytes_determined` speak of each.
pub fn difference_in_bytes(
    first: Settings,
    counters: &[u8],
    slots: &[u8],
    second: Settings,
    counters2: &[u8],
    slots2: &[u8],
    party: u32,
    list: &mut [u8],
) -> Result<u32, Refusal>
    ensures { c_difference first counters.now slots.now second counters2.now slots2.now party list.old ≡ compared (differences_given result) list.new }
{
    compare(
        first, counters, slots, second, counters2, slots2, party, list,
    )
}
