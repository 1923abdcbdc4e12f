// Lookups and match vectors, of slots that are lent as words or as bytes: an address's own, and a list's, with four
// results to an address.
#![tactic(auto)]

ghost use Rattle.std.specs.Prelude.{◌≡◌, ◌*◌, length};
ghost use Rattle.rules.specs.Table.{lent, set_bits, search, place_answer, answer_words, list_words, lookup, match_vector};
ghost use Rattle.rules.specs.Ready.{Slots};
ghost use Rattle.rules.specs.Numbers.{party_number, lookup_answer, answer_given, vector_given};

use buckets::{Stored, default_mark, mark_at};
use filters::Filters;
use lookup_answers::{answer_default, answer_route};
use rules::{Lookup, Party, Place, Refusal, Settings};
use settings::{InRange, refuse_party_sizes, refuse_sizes};
use vectors::vector_of;
use words::{Cell, put_words};

// The answer to an address whose claimed lengths are the set bits of `claimed`: the place in which
// the search of them ends, or else the default.
pub fn answer_address<T: Cell>(
    stored: &Stored<T>,
    party: Party,
    address: u32,
    claimed: u32,
) -> Lookup
    ensures { lookup_answer result.route result.probes ≡ place_answer stored.now.settings.now.all (T.words stored.now.slots.now) (party_number party) (length (set_bits claimed)) (search stored.now.settings.now.all (T.words stored.now.slots.now) (party_number party) address 0 (set_bits claimed)) }
{
    match stored.search_buckets(party, address, claimed) {
        Place::At {
            slot,
            length,
            probes,
        } => answer_route(party, mark_at(stored.slots, slot), length, probes),
        Place::Absent(_) => {
            answer_default(
                party,
                default_mark(stored.settings.all, stored.slots, party),
                claimed.count_ones(),
            )
        }
    }
}

// A party's lookup of an address.
pub fn lookup<T: Cell>(
    settings: &Settings,
    counters: &[u8],
    slots: &[T],
    party: u32,
    address: u32,
) -> Result<Lookup, Refusal>
    ensures { answer_given result ≡ lookup settings.now (lent counters.now (T.words slots.now)) party address }
{
    let whose = refuse_party_sizes(*settings, counters.len(), T::word_count(slots), party)?;
    let settings = &InRange { all: *settings };
    let claimed = vector_of(&Filters { settings, counters }, address);
    let stored = Stored { settings, slots };
    Ok(answer_address(&stored, whose, address, claimed))
}

// The match vector of an address.
pub fn match_vector<T: Cell>(
    settings: &Settings,
    counters: &[u8],
    slots: &[T],
    address: u32,
) -> Result<u32, Refusal>
    ensures { vector_given result ≡ match_vector settings.now (lent counters.now (T.words slots.now)) address }
{
    refuse_sizes(*settings, counters.len(), T::word_count(slots))?;
    let settings = &InRange { all: *settings };
    Ok(vector_of(&Filters { settings, counters }, address))
}

// The four words of an answer: found as 1 or 0, hop, length and probes.
fn words_of(answer: Lookup) -> [u32; 4]
    ensures { result ≡ answer_words (lookup_answer answer.route answer.probes) }
{
    match answer.route {
        Some(route) => [1, route.hop, route.length, answer.probes],
        None => [0, 0, 0, answer.probes],
    }
}

// Answers each address in its place of the results.
// The size of the slots is a clause: a `Stored` beside the filters would have settings of its own, which might be
// others.
pub fn answer_list<T: Cell>(
    filters: &Filters,
    slots: &[T],
    party: Party,
    addresses: &[T],
    results: &mut [T],
)
    requires slots { Slots filters.now.settings.now.all (T.words slots.now) }
    requires whole { T.WIDE * length (T.words addresses.now) ≡ length addresses.now }
    requires results_len { length results.old ≡ 4 * length addresses.now }
    ensures { results.new ≡ T.cells (list_words filters.now.settings.now.all (lent filters.now.counters.now (T.words slots.now)) (party_number party) (T.words addresses.now)) }
{
    let stored = Stored {
        settings: filters.settings,
        slots,
    };
    // Each by its place: an address is one word or four bytes.
    for i in 0..T::word_count(addresses) {
        let address = T::word_at(addresses, i);
        let claimed = vector_of(filters, address);
        let answer = answer_address(&stored, party, address, claimed);
        put_words(results, 4 * T::WIDE * i, &words_of(answer));
    }
}
