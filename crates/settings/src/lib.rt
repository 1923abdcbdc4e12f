// What every call checks first: settings in their ranges, and lent memory of exactly their sizes; and then the
// party of a call that names one. Types hold what was checked: settings in range, a length, a table.
#![tactic(auto)]

ghost use Rattle.std.specs.Prelude.{◌≡◌, ◌≤◌, true, length, IfOk};
ghost use Rattle.std.specs.Bool.{then_some};
ghost use Rattle.rules.specs.Table.{Memory, lent, list_in_range, in_range, counters_size, slots_size, memory_refusal, party_refusal};
ghost use Rattle.rules.specs.Numbers.{party_number, number_given};
ghost use Rattle.rules.specs.Ready.{Counters, Slots};

use rules::{Party, Refusal, Settings};

// Settings that are in their ranges.
#[derive(Clone, Copy)]
pub struct InRange {
    pub all: Settings,
    pub ghost range: { in_range all ≡ true },
}

// A table: its settings, which are in their ranges, and the memory that is lent for it, of exactly the size that
// they ask. A literal makes one, and whoever writes it proves the facts: a function would only pass them on.
#[derive(Drop)]
pub struct Table<'a> {
    pub settings: InRange,
    pub counters: &'a mut [u8],
    pub slots: &'a mut [u32],
    pub ghost counters_fit: { Counters settings.all counters.now },
    pub ghost slots_fit: { Slots settings.all slots.now },
}

// A length that has a filter and buckets: 1 to 32.
#[derive(Clone, Copy)]
pub struct Length {
    pub number: u32,
    pub ghost low: { 1 ≤ number },
    pub ghost high: { number ≤ 32 },
}

// How many counters the filters ask, if each D of the list is in its range. One pass over the list with no way out of
// it, which compiles to a few steps over many values at once; what it counts is of no use where a D is out of its range.
fn filters_asked(settings: Settings) -> Option<usize>
    ensures { result ≡ then_some (list_in_range settings.d) (counters_size settings) }
{
    let mut good = true;
    let mut counters: u32 = 0;
    for d in &settings.d {
        good = good & (4..=11).contains(d);
        counters += 1 << (d % 16);
    }
    good.then_some(counters as usize)
}

// Whether K, E and S are each in its range.
fn is_in_range(settings: Settings) -> bool
    requires { list_in_range settings.d ≡ true }
    ensures { result ≡ in_range settings }
{
    (1..=8).contains(&settings.k) && settings.e <= 8 && (1..=8).contains(&settings.s)
}

// How many words of slots the settings ask. `slots_of` of the comparisons has the slots of some lengths alone.
fn slots_asked(settings: &InRange) -> usize
    ensures { result ≡ slots_size settings.now.all }
{
    (64 << settings.all.e) * (settings.all.s as usize) + 2
}

// 1 or 2 for memory of these many counters and words, where it is not what the settings ask.
pub fn refuse_sizes(settings: Settings, counters: usize, slots: usize) -> Result<(), Refusal>
    ensures { (m : Memory) → length m.counters ≡ counters → length m.slots ≡ slots → number_given result ≡ memory_refusal settings m 0 }
{
    let asked = filters_asked(settings).ok_or(Refusal::BadSettings)?;
    if !is_in_range(settings) {
        return Err(Refusal::BadSettings);
    }
    let settings = InRange { all: settings };
    if counters != asked || slots != slots_asked(&settings) {
        return Err(Refusal::BadSizes);
    }
    Ok(())
}

// 1 or 2, where the settings and the memory do not fit.
// This and `refuse_party` count two lists for two checks: of a call that names no party, and of one that does.
pub fn refuse_memory(settings: Settings, counters: &[u8], slots: &[u32]) -> Result<(), Refusal>
    ensures { number_given result ≡ memory_refusal settings (lent counters.now slots.now) 0 }
{
    refuse_sizes(settings, counters.len(), slots.len())
}

// 1, 2 or 15 for a call that names its party, by how many counters and words its memory has; or the party.
pub fn refuse_party_sizes(
    settings: Settings,
    counters: usize,
    slots: usize,
    party: u32,
) -> Result<Party, Refusal>
    ensures refusal { (m : Memory) → length m.counters ≡ counters → length m.slots ≡ slots → number_given result ≡ party_refusal settings m party 0 }
    ensures known { IfOk result (λ whose. party_number whose ≡ party) }
{
    refuse_sizes(settings, counters, slots)?;
    Party::try_from(party)
}

// 1, 2 or 15, or the party where the settings and the memory fit and it is one of the two.
pub fn refuse_party(
    settings: Settings,
    counters: &[u8],
    slots: &[u32],
    party: u32,
) -> Result<Party, Refusal>
    ensures refusal { number_given result ≡ party_refusal settings (lent counters.now slots.now) party 0 }
    ensures known { IfOk result (λ whose. party_number whose ≡ party) }
{
    refuse_party_sizes(settings, counters.len(), slots.len(), party)
}
