// Two tables compared for a party, from C and by words. A line has a case and what an add gives back, or what either
// comparison gives back and leaves in the list: the words that were lent and one more, byte by byte. The file stdout comes
// from the rules alone: tests/cases works it out.
#![tactic(auto)]

use cases::Case;
use gateway::gateway_list_differences;
use rules::Settings;
use std::io;

// What a case does, a number in hex whose first digit says it.
#[derive(Clone, Copy)]
enum Kind {
    // To a table, by a prefix, a length and a hop.
    Add(Which),
    // To a word, which stands first, and its place among the table's slots.
    Damage(Which),
    // Of the two in this order: K of either, how many times 256 counters are lent of either, and how many bytes of
    // slots of either; then the party, and how many bytes of the list. By words all that is whole in these bytes
    // is lent.
    Compare(Which, Which),
}

// One of the two tables.
#[derive(Clone, Copy)]
enum Which {
    First,
    Second,
}

// A table, or what of it is lent.
#[derive(Clone, Copy)]
struct Table<'a> {
    settings: Settings,
    counters: &'a [u8],
    slots: &'a [u32],
}

// What a comparison has: how many bytes of slots are lent of either table, the party, and how many bytes of the list.
#[derive(Clone, Copy)]
struct Asked {
    slots: usize,
    other_slots: usize,
    party: u32,
    list: usize,
}

const CASES: [u64; 95] = [
    // The same routes in both: one, the last prefix of length 32, and the default.
    0x1_0a000000_08_00007,
    0x3_0a000000_08_00007,
    0x1_ffffffff_20_0ffff,
    0x3_ffffffff_20_0ffff,
    0x1_00000000_00_00003,
    0x3_00000000_00_00003,
    0x5_2_3_2_4_408_808_00_000,
    // Another default, and at length 1 a route of each alone.
    0x3_00000000_00_00004,
    0x1_00000000_01_00000,
    0x3_80000000_01_0ffff,
    // At length 16 slots in another order than their prefixes: 10.3.0.0 has another hop, 192.0.0.0 the same.
    0x1_28000000_10_00001,
    0x1_0a030000_10_00002,
    0x1_c8010000_10_00003,
    0x1_c0000000_10_00004,
    0x3_d0010000_10_00005,
    0x3_0a030000_10_00006,
    0x3_50000000_10_00007,
    0x3_20000000_10_00008,
    0x3_c0000000_10_00004,
    // At length 32 the first prefix, and prefixes that follow on one another: in the last slots of the first table, and in
    // two buckets of the second.
    0x1_fffffffe_20_00009,
    0x3_00000000_20_0000a,
    0x3_0ccccccd_20_0000b,
    0x3_0ccccccc_20_0000c,
    // Just room enough for the list, a byte too little, none, a word and a byte too much; and a table and itself.
    0x5_2_3_2_4_408_808_00_0d0,
    0x5_2_3_2_4_408_808_00_0cf,
    0x5_2_3_2_4_408_808_00_000,
    0x6_3_2_4_2_808_408_00_0d5,
    0x7_2_2_2_2_408_408_00_010,
    // 1 of the first before 2 of it and of the second.
    0x5_9_3_1_4_408_808_00_010,
    0x5_0_3_2_3_408_808_02_010,
    // 2 of the first, of counters and of slots, before 1 of the second.
    0x5_2_9_1_4_408_808_00_010,
    0x5_2_0_2_4_404_808_00_010,
    // 1 of the second, and then 2, of counters and of slots, before 15; 15 before 18.
    0x5_2_9_2_3_408_808_02_010,
    0x5_2_0_2_4_408_804_02_010,
    0x5_2_3_2_3_408_808_02_010,
    0x5_2_3_2_4_408_804_02_010,
    0x5_2_3_2_4_408_808_02_000,
    0x6_3_2_4_2_808_408_ff_010,
    // To C slots of either that are no whole words.
    0x5_2_3_2_4_409_808_00_0d1,
    0x5_2_3_2_4_408_809_00_0d3,
    // Party 1: a default and 10.0.0.0/8 in the first alone, 20.0.0.0/8 in the second, and at length 2 another hop and the same.
    0x1_00000000_00_20000,
    0x1_0a000000_08_20005,
    0x3_14000000_08_20006,
    0x1_40000000_02_20001,
    0x3_40000000_02_20002,
    0x1_c0000000_02_2ffff,
    0x3_c0000000_02_2ffff,
    0x1_00000000_20_20009,
    0x5_2_3_2_4_408_808_01_050,
    // At length 24 in the first: a bit set after the length, 192.0.0.0 just before its bucket and in it, 10.0.0.0 just after its own.
    0x2_0a010203_00_000b8,
    0x2_00000008_00_000b9,
    0x2_c0000000_00_000ba,
    0x2_00000005_00_000bb,
    0x2_0a000000_00_000bc,
    0x2_00000006_00_000bd,
    0x2_c0000000_00_000be,
    0x2_00000007_00_000bf,
    // In the second: 64.0.0.0 just before its bucket, 20.0.0.0 just after, a bit after the length, and 192.0.0.0 in its bucket.
    0x4_40000000_00_00172,
    0x4_00000005_00_00173,
    0x4_14000000_00_00178,
    0x4_00000006_00_00179,
    0x4_20000001_00_0017a,
    0x4_00000007_00_0017b,
    0x4_c0000000_00_0017c,
    0x4_00000005_00_0017d,
    // At length 25 10.0.0.0 twice in its bucket, of which the higher has the second's hop.
    0x2_0a000000_00_000c0,
    0x2_00000005_00_000c1,
    0x2_0a000000_00_000c2,
    0x2_00000009_00_000c3,
    0x3_0a000000_19_00008,
    // At length 26 party 1's, below party 0's.
    0x2_0a000000_00_000c8,
    0x2_00010005_00_000c9,
    0x2_0a000000_00_000ca,
    0x2_00000005_00_000cb,
    0x3_0a000000_1a_20004,
    // The marks 0, 1, 65,536 and 65,537 at length 27, and 131,072 and 131,073 at length 28.
    0x2_20000000_00_000d0,
    0x2_40000000_00_000d2,
    0x2_00000001_00_000d3,
    0x2_a0000000_00_000d4,
    0x2_00010000_00_000d5,
    0x2_c0000000_00_000d6,
    0x2_00010001_00_000d7,
    0x2_20000000_00_000d8,
    0x2_00020000_00_000d9,
    0x2_40000000_00_000da,
    0x2_00020001_00_000db,
    // Marks of the other party's, or no one's, in the words of defaults; and no mark in the last slot of the second.
    0x2_00010001_00_00100,
    0x2_00010000_00_00101,
    0x4_00020001_00_00201,
    0x4_00000000_00_001ff,
    // Each party's list, and with the tables exchanged.
    0x5_2_3_2_4_408_808_00_130,
    0x5_2_3_2_4_408_808_01_061,
    0x5_2_3_2_4_408_808_01_05f,
    0x6_3_2_4_2_808_408_00_130,
    0x6_3_2_4_2_808_408_01_064,
];

fn kind_of(case: Case) -> Kind {
    match case.digit() {
        1 => Kind::Add(Which::First),
        2 => Kind::Damage(Which::First),
        3 => Kind::Add(Which::Second),
        4 => Kind::Damage(Which::Second),
        6 => Kind::Compare(Which::Second, Which::First),
        7 => Kind::Compare(Which::First, Which::First),
        _ => Kind::Compare(Which::First, Which::Second),
    }
}

// The settings of a table, but for K. Those of the first are settings T.
fn settings_of(which: Which, k: u32) -> Settings {
    match which {
        Which::First => cases::small(k, 2),
        Which::Second => Settings {
            k,
            d: [5; 32],
            e: 3,
            s: 1,
            a: 7,
            b: 3,
            c: 5,
        },
    }
}

// Compares as C does.
fn from_c(rt: &impl Print, one: Table<'_>, other: Table<'_>, asked: Asked) -> io::Result<()> {
    let mut slots = [0u8; 2060];
    cases::copy_words(one.slots, &mut slots);
    let mut other_slots = [0u8; 2060];
    cases::copy_words(other.slots, &mut other_slots);
    let mut list = [0xaau8; 312];
    let t = one.settings;
    let u = other.settings;
    let answer = gateway_list_differences(
        t.k,
        &t.d,
        t.e,
        t.s,
        t.a,
        t.b,
        t.c,
        one.counters,
        cases::front(asked.slots, &slots),
        u.k,
        &u.d,
        u.e,
        u.s,
        u.a,
        u.b,
        u.c,
        other.counters,
        cases::front(asked.other_slots, &other_slots),
        asked.party,
        cases::front_mut(asked.list, &mut list),
    );
    cases::digits(rt, answer)?;
    cases::hex_words(rt, &list, asked.list)
}

// Compares by the whole words of the bytes that are lent to C.
fn by_words(rt: &impl Print, one: Table<'_>, other: Table<'_>, asked: Asked) -> io::Result<()> {
    let mut list = [0xaaaaaaaau32; 78];
    let outcome = difference_calls::difference(
        one.settings,
        one.counters,
        cases::front(asked.slots / 4, one.slots),
        other.settings,
        other.counters,
        cases::front(asked.other_slots / 4, other.slots),
        asked.party,
        cases::front_mut(asked.list / 4, &mut list),
    );
    match outcome {
        Ok(count) => print!(rt; " 0 {count:x}")?,
        Err(refusal) => print!(rt; " {:x} 0", refusal.number())?,
    }
    let mut written = [0u8; 312];
    cases::copy_words(&list, &mut written);
    cases::hex_words(rt, &written, asked.list)
}

// Compares two tables both ways, each with the counters that are lent.
fn compare(rt: &impl Print, one: Table<'_>, other: Table<'_>, case: Case) -> io::Result<()> {
    let many = (case.0 / 0x1_0000_0000_0000 % 0x10 * 256) as usize;
    let other_many = (case.0 / 0x1000_0000_0000 % 0x10 * 256) as usize;
    let one = Table {
        counters: cases::front(many, one.counters),
        ..one
    };
    let other = Table {
        counters: cases::front(other_many, other.counters),
        ..other
    };
    let asked = Asked {
        slots: (case.0 / 0x1_0000_0000 % 0x1000) as usize,
        other_slots: (case.0 / 0x10_0000 % 0x1000) as usize,
        party: (case.0 / 0x1000 % 0x100) as u32,
        list: (case.0 % 0x1000) as usize,
    };
    from_c(rt, one, other, asked)?;
    by_words(rt, one, other, asked)
}

// One of the two tables, with K.
fn pick<'a>(
    which: Which,
    k: u32,
    counters: &'a [u8],
    slots: &'a [u32],
    counters2: &'a [u8],
    slots2: &'a [u32],
) -> Table<'a> {
    let settings = settings_of(which, k);
    match which {
        Which::First => Table {
            settings,
            counters,
            slots,
        },
        Which::Second => Table {
            settings,
            counters: counters2,
            slots: slots2,
        },
    }
}

// A case, and what it writes.
fn line(
    rt: &impl Print,
    counters: &mut [u8],
    slots: &mut [u32],
    counters2: &mut [u8],
    slots2: &mut [u32],
    case: Case,
) -> io::Result<()> {
    match kind_of(case) {
        Kind::Add(Which::First) => cases::add(
            rt,
            settings_of(Which::First, 2),
            counters,
            slots,
            case,
        )?,
        Kind::Add(Which::Second) => cases::add(
            rt,
            settings_of(Which::Second, 3),
            counters2,
            slots2,
            case,
        )?,
        Kind::Damage(Which::First) => cases::put(slots, case.place(), case.prefix()),
        Kind::Damage(Which::Second) => cases::put(slots2, case.place(), case.prefix()),
        Kind::Compare(one, other) => {
            let k = (case.0 / 0x100_0000_0000_0000 % 0x10) as u32;
            let other_k = (case.0 / 0x10_0000_0000_0000 % 0x10) as u32;
            compare(
                rt,
                pick(one, k, counters, slots, counters2, slots2),
                pick(other, other_k, counters, slots, counters2, slots2),
                case,
            )?;
        }
    }
    Ok(())
}

fn run(
    rt: &impl Print,
    numbers: &[u64],
    counters: &mut [u8],
    slots: &mut [u32],
    counters2: &mut [u8],
    slots2: &mut [u32],
) -> io::Result<()> {
    for number in numbers {
        let case = Case(*number);
        cases::begin(rt, case)?;
        line(rt, counters, slots, counters2, slots2, case)?;
        cases::end(rt)?;
    }
    Ok(())
}

fn main(rt: HostRuntime) -> io::Result<()> {
    let mut counters = [0u8; 512];
    let mut slots = [0u32; 258];
    let mut counters2 = [0u8; 1024];
    let mut slots2 = [0u32; 514];
    run(
        &rt,
        &CASES,
        &mut counters,
        &mut slots,
        &mut counters2,
        &mut slots2,
    )
}
