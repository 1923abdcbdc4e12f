// One counting filter per length, over lent bytes. An update hashes its prefix once, into places.
#![tactic(auto)]

ghost use Rattle.std.specs.Prelude.{◌≡◌, ◌+◌, ◌*◌, ◌%◌, ◌^◌, ◌<◌, ◌≤◌, false, length, take, All, OnOk, OnErr};
ghost use Rattle.rules.specs.Table.{wrap, filter_start, counter_places, refuse, claims, step_each};
ghost use Rattle.rules.specs.Tools.{count};
ghost use Rattle.rules.specs.Ready.{Counters};
ghost use Rattle.rules.specs.Numbers.{refusal_number, number_given};
ghost use Rattle.filters.specs.Visits.{Placed, cannot, stepped, some_cannot, cannot_step, step_number};

use hashes::{product, top_bits};
use rules::{Refusal, Settings};
use settings::{InRange, Length};

// The filters of a table that is only read: its counters, and the settings by which they are read.
#[derive(Drop)]
pub struct Filters<'a> {
    pub settings: &'a InRange,
    pub counters: &'a [u8],
    pub ghost sized: { Counters settings.now.all counters.now },
}

// Where the K counters of a prefix lie, in the order of the steps; the rest is 0 and is not read.
type Places = [usize; 8];

// What an update does to the counter at each of its places.
#[derive(Clone, Copy, Debug, PartialEq, Eq)]
pub enum Step {
    Raise,
    Lower,
}

impl Step {
    // Whether a counter cannot take so many steps: it would pass 15, or it is less than they are.
    fn cannot_take(self, counter: u8, hits: u32) -> bool
        requires { hits ≤ 8 }
        ensures { result ≡ cannot self counter hits }
    {
        match self {
            Step::Raise => 15 < u32::from(counter) + hits,
            Step::Lower => u32::from(counter) < hits,
        }
    }

    // Why an update is refused whose counters cannot take their hits.
    fn refusal(self) -> Refusal
        ensures { refusal_number result ≡ step_number self }
    {
        match self {
            Step::Raise => Refusal::Above,
            Step::Lower => Refusal::Below,
        }
    }

    // A counter after one step that it can take.
    fn stepped(self, counter: u8) -> u8
        requires { cannot self counter 1 ≡ false }
        ensures { result ≡ stepped self counter }
    {
        match self {
            Step::Raise => counter + 1,
            Step::Lower => counter - 1,
        }
    }
}

// How many counters a filter has that so many bits number.
pub fn filter_size(bits: u32) -> u32
    requires { bits ≤ 11 }
    ensures { result ≡ 2 ^ bits }
{
    1 << bits
}

// Where the filter of a length begins among the counters: after those of the shorter lengths.
fn start_of(settings: &InRange, length: Length) -> usize
    ensures { result ≡ filter_start settings.now.all length.number }
{
    let shorter = &settings.all.d[..(length.number - 1) as usize];
    shorter
        .iter()
        .map(|&bits| filter_size(u32::from(bits)))
        .sum::<u32>() as usize
}

// Where the counter that g numbers lies, in the filter of a length that begins at start.
fn place_of(settings: &InRange, length: Length, start: usize, g: u32) -> usize
    requires { start ≡ filter_start settings.now.all length.number }
    ensures { Placed settings.now.all length.number g result }
{
    let bits = u32::from(settings.all.d[(length.number - 1) as usize]);
    start + top_bits(g, bits) as usize
}

// What g grows by at each step of a prefix.
fn growth_of(settings: &Settings, p: u32) -> u32
    ensures { result ≡ wrap (settings.now.b * p) }
{
    product(settings.b, p)
}

// The number after g in the double hashing of a prefix: the sum wraps at 2^32 on purpose.
fn grow(g: u32, growth: u32) -> u32
    ensures { result ≡ (g + growth) % 2 ^ 32 }
{
    g.wrapping_add(growth)
}

impl Filters<'_> {
    // Whether the filter of a length, which begins at start, claims a prefix: all its K counters are nonzero. The
    // first of them is zero more often than not, and then the rest is not even hashed.
    pub fn claims_prefix(&self, p: u32, length: Length, start: usize) -> bool
        requires { start ≡ filter_start self.now.settings.now.all length.number }
        ensures { result ≡ claims self.now.settings.now.all self.now.counters.now p length.number }
    {
        let settings = self.settings;
        let counters = self.counters;
        let once = product(settings.all.a, p);
        let first = place_of(settings, length, start, once);
        if counters[first] == 0 {
            return false;
        }
        let growth = growth_of(&settings.all, p);
        let mut g = grow(once, growth);
        // That the loop breaks at a zero counter is a form that was asked for.
        let mut claimed = true;
        for _ in 1..settings.all.k {
            let place = place_of(settings, length, start, g);
            if counters[place] == 0 {
                claimed = false;
                break;
            }
            g = grow(g, growth);
        }
        claimed
    }
}

// Where the counters of a prefix lie.
fn places_of(settings: &InRange, p: u32, length: Length) -> Places
    ensures { take settings.now.all.k result ≡ counter_places settings.now.all p length.number }
{
    let start = start_of(settings, length);
    let growth = growth_of(&settings.all, p);
    let mut g = product(settings.all.a, p);
    let mut places = [0; 8];
    for place in &mut places[..settings.all.k as usize] {
        *place = place_of(settings, length, start, g);
        g = grow(g, growth);
    }
    places
}

// How many of these places are a place.
#[tactic(auto, using(crate::proofs::Visits::counts))]
fn hits_at(places: &[usize], place: usize) -> u32
    requires { length places.now ≤ 8 }
    ensures { result ≡ count place places.now }
{
    places.iter().map(|&at| u32::from(at == place)).sum()
}

impl Step {
    // Refuses a step where some counter at these places cannot take its hits.
    fn refuse_step(self, counters: &[u8], places: &[usize]) -> Result<(), Refusal>
        requires few { length places.now ≤ 8 }
        requires inside { All (λ i. i < length counters.now) places.now }
        ensures { number_given result ≡ refuse (some_cannot self counters.now places.now) (step_number self) 0 }
    {
        for &place in places {
            let hits = hits_at(places, place);
            if self.cannot_take(counters[place], hits) {
                return Err(self.refusal());
            }
        }
        Ok(())
    }

    // Each of these places has its counter stepped, where each counter can take its hits.
    fn step_each(self, counters: &mut [u8], places: &[usize])
        requires inside { All (λ i. i < length counters.old) places.now }
        requires places_value { some_cannot self counters.old places.now ≡ false }
        ensures { counters.new ≡ step_each (stepped self) counters.old places.now }
    {
        for &place in places {
            counters[place] = self.stepped(counters[place]);
        }
    }
}

// Steps the K counters of a prefix, a counter once for each of its hits, if every one of them can take them; if not,
// it says why, and none is stepped.
// The step is handed over as a value: it says three things of a counter, which would be three closures.
// That the counters are of their size stays a clause: a `Table` would bring slots too.
pub fn step_counters(
    settings: &InRange,
    counters: &mut [u8],
    p: u32,
    length: Length,
    step: Step,
) -> Result<(), Refusal>
    requires { Counters settings.now.all counters.old }
    ensures refusal { number_given result ≡ refuse (cannot_step step settings.now.all counters.old p length.number) (step_number step) 0 }
    ensures ok { OnOk result (counters.new ≡ step_each (stepped step) counters.old (counter_places settings.now.all p length.number)) }
    ensures err { OnErr result (counters.new ≡ counters.old) }
{
    let all = places_of(settings, p, length);
    let places = &all[..settings.all.k as usize];
    step.refuse_step(counters, places)?;
    step.step_each(counters, places);
    Ok(())
}
