// Lists of addresses, asked of the table and from C. A line has a case and, if that asks, what either
// call gives back and leaves in the results: the words that were lent and one more, byte by byte. The
// file stdout comes from the rules alone: tests/cases works it out.
#![tactic(auto)]

use cases::Case;
use gateway::gateway_lookup_list;
use rules::{Settings, number_given};
use std::io;

// What a case does, a number in hex whose first digit says it.
#[derive(Clone, Copy)]
enum Kind {
    // A prefix, a length and a hop follow.
    Add,
    // A word, and its place among the slots.
    Damage,
    // A D and its length, and how many values of D are lent to C, and counters to an add.
    Filter,
    // K, where the rest is settings T but for what was set, how many bytes C lends of addresses, results and
    // counters, the party, and how many bytes C lends of slots. The table is lent the whole words of them.
    Ask,
}

const CASES: [u64; 61] = [
    // With 10.0.0.0/8 stored: no address, one, and those of P4 to P7.
    0x1_0a000000_08_00007,
    0x3_02_000_000_200_0_408,
    0x3_02_004_010_200_0_408,
    0x3_02_010_040_200_0_408,
    // With 10.1.0.0/16 too.
    0x1_0a010000_10_00009,
    0x3_02_010_040_200_0_408,
    // With the default too, and then with 10.1.2.3 asked twice.
    0x1_00000000_00_00003,
    0x3_02_010_040_200_0_408,
    0x3_02_014_050_200_0_408,
    // Results a word, a byte or an answer off, none, and some for no address.
    0x3_02_010_03c_200_0_408,
    0x3_02_010_044_200_0_408,
    0x3_02_004_00f_200_0_408,
    0x3_02_004_011_200_0_408,
    0x3_02_008_010_200_0_408,
    0x3_02_008_030_200_0_408,
    0x3_02_010_000_200_0_408,
    0x3_02_000_010_200_0_408,
    0x3_02_000_001_200_0_408,
    // Stray bytes of addresses: with no results, with four times as many, with those of whole words.
    0x3_02_001_000_200_0_408,
    0x3_02_002_000_200_0_408,
    0x3_02_003_000_200_0_408,
    0x3_02_003_00c_200_0_408,
    0x3_02_005_014_200_0_408,
    0x3_02_006_018_200_0_408,
    0x3_02_005_010_200_0_408,
    // 1 before 2 before 18.
    0x3_09_010_03c_1ff_0_408,
    0x3_02_010_03c_1ff_0_408,
    0x3_02_001_000_1ff_0_408,
    // Slots that are no whole words.
    0x3_02_004_010_200_0_409,
    0x3_02_004_00c_200_0_40b,
    // Hop 258 for 10.1.0.0/16, hop 65,535 for the default, and the mark 65,537 for 10.0.0.0/8.
    0x2_00000103_00_00079,
    0x2_00010000_00_00100,
    0x2_00010001_00_00039,
    0x3_02_010_040_200_0_408,
    // That mark is party 1's, hop 0: its list; with 10.1.0.0/16 and a default of its own too; and party 0's again.
    0x3_02_010_040_200_1_408,
    0x1_0a010000_10_20004,
    0x1_00000000_00_2ffff,
    0x3_02_010_040_200_1_408,
    0x3_02_010_040_200_0_408,
    // 15 for party 2: before 18, and after 1 and 2.
    0x3_02_004_010_200_2_408,
    0x3_02_010_03c_200_2_408,
    0x3_02_010_03c_1ff_2_408,
    0x3_09_010_03c_200_2_408,
    // With D 6 at length 24, and routes there and at length 32; then over the counters of 32 equal values.
    0x4_06_18_20_000000230,
    0x1_0a020200_18_00005,
    0x1_0a010203_20_00006,
    0x3_02_014_050_230_0_408,
    0x3_02_004_010_200_0_408,
    // From C with 31 values and with 33, each over the counters of 32 and over its own; then with none.
    0x4_06_18_1f_000000230,
    0x3_02_004_010_230_0_408,
    0x3_02_004_010_220_0_408,
    0x4_06_18_21_000000230,
    0x3_02_004_010_230_0_408,
    0x3_02_004_010_240_0_408,
    0x4_06_18_00_000000230,
    0x3_02_000_000_000_0_408,
    // A D of 3 at length 1, and of 12 at length 32, before sizes and results.
    0x4_03_01_20_000000230,
    0x3_02_004_00c_230_0_408,
    0x4_04_01_20_000000230,
    0x4_0c_20_20_000000230,
    0x3_02_004_00c_230_0_408,
];

// The first of them are those of P4 to P7: 8.1.2.3, 10.1.2.3, 10.2.2.3 and 11.0.0.1.
const ADDRESSES: [u32; 5] = [0x08010203, 0x0a010203, 0x0a020203, 0x0b000001, 0x0a010203];

// How much is lent: values of D to C, and counters to an add.
#[derive(Clone, Copy)]
struct Lent {
    values: usize,
    counters: usize,
}

// What a case that asks has: the party, and how many bytes are lent of addresses, results and slots.
#[derive(Clone, Copy)]
struct Asked {
    party: u32,
    addresses: usize,
    results: usize,
    slots: usize,
}

fn kind_of(case: Case) -> Kind {
    match case.digit() {
        1 => Kind::Add,
        2 => Kind::Damage,
        4 => Kind::Filter,
        _ => Kind::Ask,
    }
}

// The settings after a case of a filter.
fn set(t: Settings, case: Case) -> Settings {
    let length = (case.0 / 0x1000_0000_0000 % 0x100) as u32;
    cases::set_d(t, length, (case.0 / 0x10_0000_0000_0000 % 0x100) as u8)
}

// What is lent after it.
fn lend(case: Case) -> Lent {
    Lent {
        values: (case.0 / 0x10_0000_0000 % 0x100) as usize,
        counters: (case.0 % 0x10_0000_0000) as usize,
    }
}

// Asks the table, which is lent the whole words of so many bytes of slots and addresses.
fn ask_words(
    rt: &impl Print,
    t: Settings,
    counters: &[u8],
    slots: &[u32],
    asked: Asked,
) -> io::Result<()> {
    let mut results = [0xaaaaaaaau32; 24];
    let outcome = table::lookup_list(
        t,
        counters,
        cases::front(asked.slots / 4, slots),
        asked.party,
        cases::front(asked.addresses / 4, &ADDRESSES),
        cases::front_mut(asked.results / 4, &mut results),
    );
    cases::digits(rt, number_given(outcome))?;
    let mut bytes = [0u8; 96];
    cases::copy_words(&results, &mut bytes);
    cases::hex_words(rt, &bytes, asked.results)
}

// Asks as C does, with so many bytes of slots and addresses.
fn ask_bytes(
    rt: &impl Print,
    t: Settings,
    d: &[u8],
    counters: &[u8],
    slots: &[u32],
    asked: Asked,
) -> io::Result<()> {
    let mut bytes = [0u8; 1036];
    cases::copy_words(slots, &mut bytes);
    let mut list = [0u8; 20];
    cases::copy_words(&ADDRESSES, &mut list);
    let mut results = [0xaau8; 96];
    let refusal = gateway_lookup_list(
        t.k,
        d,
        t.e,
        t.s,
        t.a,
        t.b,
        t.c,
        counters,
        cases::front(asked.slots, &bytes),
        asked.party,
        cases::front(asked.addresses, &list),
        cases::front_mut(asked.results, &mut results),
    );
    cases::digits(rt, refusal)?;
    cases::hex_words(rt, &results, asked.results)
}

// Asks both ways, with so many values of D to C.
fn ask(
    rt: &impl Print,
    settings: Settings,
    values: usize,
    counters: &[u8],
    slots: &[u32],
    case: Case,
) -> io::Result<()> {
    let t = Settings {
        k: (case.0 / 0x10_0000_0000_0000 % 0x100) as u32,
        ..settings
    };
    let asked = Asked {
        party: (case.0 / 0x1000 % 0x10) as u32,
        addresses: (case.0 / 0x100_0000_0000 % 0x1000) as usize,
        results: (case.0 / 0x1000_0000 % 0x1000) as usize,
        slots: (case.0 % 0x1000) as usize,
    };
    let lent = cases::front((case.0 / 0x1_0000 % 0x1000) as usize, counters);
    let list = cases::list_of(t);
    ask_words(rt, t, lent, slots, asked)?;
    ask_bytes(rt, t, cases::front(values, &list), lent, slots, asked)
}

fn run(rt: &impl Print, numbers: &[u64], counters: &mut [u8], slots: &mut [u32]) -> io::Result<()> {
    let mut t = cases::small(2, 2);
    let mut lent = Lent {
        values: 32,
        counters: 512,
    };
    for number in numbers {
        let case = Case(*number);
        cases::begin(rt, case)?;
        match kind_of(case) {
            Kind::Add => cases::add(
                rt,
                t,
                cases::front_mut(lent.counters, counters),
                slots,
                case,
            )?,
            Kind::Damage => cases::put(slots, case.place(), case.prefix()),
            Kind::Filter => {
                t = set(t, case);
                lent = lend(case);
            }
            Kind::Ask => ask(rt, t, lent.values, counters, slots, case)?,
        }
        cases::end(rt)?;
    }
    Ok(())
}

fn main(rt: HostRuntime) -> io::Result<()> {
    let mut counters = [0u8; 576];
    let mut slots = [0u32; 258];
    run(&rt, &CASES, &mut counters, &mut slots)
}
