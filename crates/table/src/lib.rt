// The gateway table: seven calls over lent memory. Nothing is kept between calls but what is lent.
// No call requires anything: bad input gets its number and changes nothing.
// The calls look alike, for each is its own checks and then its own step: theorems name each of them, as
// `add_ensures`, `withdraw_ensures`, `change_ensures`, `lookup_ensures` and `match_vector_ensures`.
#![tactic(auto)]

ghost use Rattle.std.specs.Prelude.{◌≡◌};
ghost use Rattle.rules.specs.Numbers.{number_given, vector_given, answer_given};
ghost use Rattle.rules.specs.Table.{lent, left, clear, add, withdraw, change, match_vector, lookup, lookup_list, answered};

use filters::Filters;
use lookups::answer_list;
use refusals::{refuse_add, refuse_hop, refuse_list, refuse_route};
use rules::{Lookup, Refusal, Settings};
use settings::{InRange, Table, refuse_memory};
use updates::{add_checked, change_checked, withdraw_checked};

// Empties the table of both parties' routes: writes zero to every byte and word.
pub fn clear(settings: Settings, counters: &mut [u8], slots: &mut [u32]) -> Result<(), Refusal>
    ensures { clear settings (lent counters.old slots.old) ≡ left (number_given result) counters.new slots.new }
{
    refuse_memory(settings, counters, slots)?;
    counters.fill(0);
    slots.fill(0);
    Ok(())
}

// Stores a route for a party: prefix p of a length, with its next hop. One that the party has stored keeps its
// slot and gets the new hop.
pub fn add(
    settings: Settings,
    counters: &mut [u8],
    slots: &mut [u32],
    party: u32,
    p: u32,
    length: u32,
    hop: u32,
) -> Result<(), Refusal>
    ensures { add settings (lent counters.old slots.old) party p length hop ≡ left (number_given result) counters.new slots.new }
{
    let (party, hop) = refuse_add(settings, counters, slots, party, p, length, hop)?;
    let settings = InRange { all: settings };
    let mut table = Table {
        settings,
        counters,
        slots,
    };
    add_checked(&mut table, party, p, length, hop)
}

// Takes a stored route of a party's out.
pub fn withdraw(
    settings: Settings,
    counters: &mut [u8],
    slots: &mut [u32],
    party: u32,
    p: u32,
    length: u32,
) -> Result<(), Refusal>
    ensures { withdraw settings (lent counters.old slots.old) party p length ≡ left (number_given result) counters.new slots.new }
{
    let party = refuse_route(settings, counters, slots, party, p, length)?;
    let settings = InRange { all: settings };
    let mut table = Table {
        settings,
        counters,
        slots,
    };
    withdraw_checked(&mut table, party, p, length)
}

// Gives a stored route of a party's a new next hop.
pub fn change(
    settings: Settings,
    counters: &mut [u8],
    slots: &mut [u32],
    party: u32,
    p: u32,
    length: u32,
    hop: u32,
) -> Result<(), Refusal>
    ensures { change settings (lent counters.old slots.old) party p length hop ≡ left (number_given result) counters.new slots.new }
{
    let (party, hop) = refuse_hop(settings, counters, slots, party, p, length, hop)?;
    let settings = InRange { all: settings };
    change_checked(&settings, counters, slots, party, p, length, hop)
}

// Which lengths' filters claim an address, whichever party's routes they hold: bit L - 1 for length L.
pub fn match_vector(
    settings: Settings,
    counters: &[u8],
    slots: &[u32],
    address: u32,
) -> Result<u32, Refusal>
    ensures { vector_given result ≡ match_vector settings (lent counters.now slots.now) address }
{
    lookups::match_vector(&settings, counters, slots, address)
}

// The next hop of the longest route stored for a party that matches an address, with its length and the
// buckets that were searched for it.
pub fn lookup(
    settings: Settings,
    counters: &[u8],
    slots: &[u32],
    party: u32,
    address: u32,
) -> Result<Lookup, Refusal>
    ensures { answer_given result ≡ lookup settings (lent counters.now slots.now) party address }
{
    lookups::lookup(&settings, counters, slots, party, address)
}

// A party's lookup of each address of a list, in its order: found as 1 or 0, hop, length and probes, four
// results to an address.
pub fn lookup_list(
    settings: Settings,
    counters: &[u8],
    slots: &[u32],
    party: u32,
    addresses: &[u32],
    results: &mut [u32],
) -> Result<(), Refusal>
    ensures { lookup_list settings (lent counters.now slots.now) party addresses.now results.old ≡ answered (number_given result) results.new }
{
    let party = refuse_list(
        settings,
        counters.len(),
        slots.len(),
        party,
        addresses.len(),
        results.len(),
    )?;
    let settings = &InRange { all: settings };
    let filters = Filters { settings, counters };
    answer_list(&filters, slots, party, addresses, results);
    Ok(())
}
