// The settings that C lends as numbers and a list, and a list of addresses over what it lends as bytes, four to a
// word, the low byte first. What C gets back is packed in crates/gateway.
#![tactic(auto)]

ghost use Rattle.std.specs.Prelude.{◌≡◌};
ghost use Rattle.rules.specs.Table.{answered, c_lookup_list};
ghost use Rattle.rules.specs.Numbers.{number_given};
ghost use Rattle.c_calls.specs.Lent.{settings_of, whole};

use filters::Filters;
use lookups::answer_list;
use refusals::refuse_list;
use rules::{Refusal, Settings};
use settings::InRange;
use words::Cell;

// The settings of a call. A list of another count than 32 gives settings that every call refuses as 1.
pub fn settings_of(k: u32, d: &[u8], e: u32, s: u32, a: u32, b: u32, c: u32) -> Settings
    ensures { result ≡ settings_of k (whole d.now) e s a b c }
{
    Settings {
        k,
        d: d.try_into().unwrap_or([0; 32]),
        e,
        s,
        a,
        b,
        c,
    }
}

// The answers to a party's list of addresses, where addresses and results are bytes as the slots are. Bytes can be no
// whole number of words, so this has a check that `lookup_list` of the table has not.
pub fn lookup_list(
    settings: &Settings,
    counters: &[u8],
    slots: &[u8],
    party: u32,
    addresses: &[u8],
    results: &mut [u8],
) -> Result<(), Refusal>
    ensures { c_lookup_list settings.now counters.now slots.now party addresses.now results.old ≡ answered (number_given result) results.new }
{
    let whose = refuse_list(
        *settings,
        counters.len(),
        u8::word_count(slots),
        party,
        addresses.len(),
        results.len(),
    )?;
    if addresses.len() % 4 != 0 {
        return Err(Refusal::BadRoom);
    }
    let settings = &InRange { all: *settings };
    let filters = Filters { settings, counters };
    answer_list(&filters, slots, whose, addresses, results);
    Ok(())
}
