// The worked cases of docs/TABLE.md, the refusals at their limits and damaged memory, run over the
// calls. Each line has a case and what its call gives back; what can be asked from C too is asked both
// ways, and after a call that writes two sums show what the lent memory holds. The file stdout comes
// from the rules alone: tests/cases works it out, and has no code of the crates.
#![tactic(auto)]

use cases::{Case, Lent};
use rules::{Lookup, Settings};
use std::io;

// What a case does, beside what crates/cases sets up for all. For Find and Vector the address stands in the
// prefix's place.
#[derive(Clone, Copy)]
enum Call {
    Update(Update),
    Find,
    Vector,
    // A place among the counters.
    Counter,
    // A place among the words.
    Word,
}

// A call that writes.
#[derive(Clone, Copy)]
enum Update {
    Clear,
    Add,
    Withdraw,
    Change,
}

const CASES: [u64; 553] = [
    // Settings T, and memory that was never cleared: every slot holds 0.0.0.7 with the mark 7, and
    // every counter is 7.
    0xa_02040102_00_00000,
    0xb_00000001_00_00000,
    0xc_00000002_00_00000,
    0xd_00000001_00_00000,
    0xe_00000200_00_00020,
    0xf_00000102_00_00408,
    0x4_00000007_00_00000,
    0x4_00000008_00_00000,
    0x5_00000008_00_00000,
    0x2_00000007_20_00000,
    0x4_00000007_00_00000,
    0x0_00000000_00_00000,
    // P3.
    0x1_00000000_08_00007,
    0x6_00000070_00_00000,
    0x2_00000000_08_00000,
    // P4.
    0x1_0a000000_08_00007,
    0x4_08010203_00_00000,
    0x5_08010203_00_00000,
    // P5 and P6.
    0x1_0a010000_10_00009,
    0x4_0a010203_00_00000,
    0x4_0a020203_00_00000,
    0x5_0a020203_00_00000,
    // P7.
    0x4_0b000001_00_00000,
    0x1_00000000_00_00003,
    0x4_0b000001_00_00000,
    // The default is added again, changed, withdrawn, and then not stored.
    0x1_00000000_00_00004,
    0x4_0b000001_00_00000,
    0x1_00000000_00_10000,
    0x3_00000000_00_00005,
    0x4_0b000001_00_00000,
    0x2_00000000_00_00000,
    0x4_0b000001_00_00000,
    0x2_00000000_00_00000,
    0x3_00000000_00_00005,
    // P8.
    0x0_00000000_00_00000,
    0x1_0a000000_08_00007,
    0x1_08000000_08_00005,
    0x1_09000000_08_00006,
    0x2_08000000_08_00000,
    0x4_0a020203_00_00000,
    0x1_09000000_08_00006,
    0x7_0000003a_00_00000,
    // The other slot of the bucket is used again too.
    0x2_0a000000_08_00000,
    0x1_0b000000_08_00004,
    0x7_00000038_00_00000,
    0x4_0b000001_00_00000,
    // The refusals at their limits, each before the next one in order.
    0x0_00000000_00_00000,
    0x1_0a000001_20_00007,
    0x1_0a000000_21_00007,
    0x1_0a000001_21_10000,
    0x1_0a000001_08_10000,
    0x1_00000001_00_00007,
    0x1_0a000000_08_0ffff,
    0x1_0c000000_08_10000,
    0x1_0a000000_08_10000,
    0x1_0a000000_08_00007,
    0x2_0a000000_21_00000,
    0x2_0a000001_08_00000,
    0x2_0b000000_08_00000,
    0x3_0a000000_21_00007,
    0x3_0a000001_08_10000,
    0x3_0b000000_08_10000,
    0x3_0b000000_08_00007,
    0x3_0a000000_08_00004,
    0x4_0a090909_00_00000,
    // Odd prefixes: what lies wholly in 127.0.0.0/8 or in 224.0.0.0/4 gets 11.
    0x0_00000000_00_00000,
    0x1_7f000000_08_00007,
    0x1_7f000000_09_00007,
    0x1_7f800000_09_00007,
    0x1_7f000000_20_00007,
    0x1_7f000001_20_00007,
    0x1_7fffffff_20_00007,
    0x1_e0000000_04_00007,
    0x1_e0000000_05_00007,
    0x1_e8000000_05_00007,
    0x1_ef000000_08_00007,
    0x1_e0000000_20_00007,
    0x1_efffffff_20_00007,
    // What only contains them passes.
    0x1_7e000000_07_00007,
    0x1_7c000000_06_00007,
    0x1_e0000000_03_00007,
    0x1_c0000000_02_00007,
    0x1_80000000_01_00007,
    0x1_00000000_01_00007,
    0x1_00000000_00_00007,
    // So do their neighbours.
    0x1_7e000000_08_00007,
    0x1_80000000_08_00007,
    0x1_7effffff_20_00007,
    0x1_80000000_20_00007,
    0x1_d0000000_04_00007,
    0x1_f0000000_04_00007,
    0x1_dfffffff_20_00007,
    0x0_00000000_00_00000,
    0x1_f0000000_20_00007,
    0x1_ffffffff_20_00007,
    // 2, 3 and 4 before 11, and 11 before 5, and before 8 in a full bucket.
    0xe_000001ff_00_00020,
    0x1_7f000000_08_00007,
    0xe_00000200_00_00020,
    0x1_7f000000_21_10000,
    0x1_7f000001_08_10000,
    0x1_e0000001_04_10000,
    0x1_7f000000_08_10000,
    0x1_e0000000_04_10000,
    0x1_0a000000_08_00007,
    0x1_08000000_08_00005,
    0x1_7f000000_08_00006,
    // 127.0.0.0/8 stands there from before: an add changes nothing, and it is found, changed and withdrawn.
    0x0_00000000_00_00000,
    0x9_7f000000_00_00038,
    0x9_00000008_00_00039,
    0x8_00000002_00_00077,
    0x4_7f000001_00_00000,
    0x1_7f000000_08_00009,
    0x4_7f000001_00_00000,
    0x3_7f000000_08_10000,
    0x3_7f000000_08_00009,
    0x4_7f000001_00_00000,
    0x2_7f000000_08_00000,
    0x4_7f000001_00_00000,
    0x2_7f000000_08_00000,
    0x3_7f000000_08_00009,
    0x1_7f000000_08_00009,
    // Lengths 1, 31 and 32.
    0x0_00000000_00_00000,
    0x1_40000000_01_00001,
    0x1_80000000_01_00001,
    0x1_0a000003_1f_00002,
    0x1_0a000002_1f_00002,
    0x1_0a000003_20_00003,
    0x4_c8010101_00_00000,
    0x4_0a000002_00_00000,
    0x5_0a000002_00_00000,
    0x4_0a000003_00_00000,
    0x5_0a000003_00_00000,
    0x3_0a000003_20_00000,
    0x4_0a000003_00_00000,
    // A mark of 131,073 means free, one of 65,536 is hop 65,535, and 0 means free beside any prefix.
    0x0_00000000_00_00000,
    0x9_0a000000_00_00038,
    0x9_00020001_00_00039,
    0x8_00000001_00_00070,
    0x8_00000001_00_00071,
    0x4_0a000001_00_00000,
    0x2_0a000000_08_00000,
    0x3_0a000000_08_00005,
    0x1_0a000000_08_00005,
    0x4_0a000001_00_00000,
    0x9_00010000_00_00039,
    0x4_0a000001_00_00000,
    0x9_00000000_00_00039,
    0x4_0a000001_00_00000,
    0x9_ffffffff_00_00039,
    0x4_0a000001_00_00000,
    0x9_00020001_00_00100,
    0x4_0b000001_00_00000,
    0x9_00010000_00_00100,
    0x4_0b000001_00_00000,
    0x9_ffffffff_00_00100,
    0x1_00000000_00_00008,
    // The same prefix twice in its bucket: the lower slot answers, is changed and is withdrawn first.
    0x0_00000000_00_00000,
    0x1_0a000000_08_00007,
    0x9_0a000000_00_0003a,
    0x9_00000009_00_0003b,
    0x8_00000002_00_00070,
    0x8_00000002_00_00071,
    0x4_0a000001_00_00000,
    0x3_0a000000_08_00014,
    0x2_0a000000_08_00000,
    0x4_0a000001_00_00000,
    0x2_0a000000_08_00000,
    0x4_0a000001_00_00000,
    // An add of what is stored gives its slot the new mark and leaves all else: one slot of the bucket is
    // free, then none is, and another prefix gets 8.
    0x0_00000000_00_00000,
    0x1_0a000000_08_00007,
    0x1_0a000000_08_00009,
    0x4_0a010203_00_00000,
    0x1_08000000_08_00005,
    0x1_08000000_08_00006,
    0x1_0a000000_08_0000a,
    0x1_0a000000_08_10000,
    0x1_09000000_08_00006,
    0x4_08010203_00_00000,
    0x4_0a010203_00_00000,
    // The free slot stands before the one that holds it.
    0x2_0a000000_08_00000,
    0x1_08000000_08_00007,
    0x7_00000038_00_00000,
    // Its counters are at 15, and another prefix gets 9.
    0x8_0000000f_00_00070,
    0x8_0000000f_00_00071,
    0x1_08000000_08_00001,
    0x4_08010203_00_00000,
    0x1_09000000_08_00006,
    // Its counters are at zero: it is not found after.
    0x8_00000000_00_00070,
    0x8_00000000_00_00071,
    0x1_08000000_08_00002,
    0x4_08010203_00_00000,
    // It stands twice in its bucket: the lower slot is written. With a mark of 131,073 that slot is free,
    // and the other one is written.
    0x9_08000000_00_00038,
    0x9_00000004_00_00039,
    0x1_08000000_08_00010,
    0x7_00000039_00_00000,
    0x9_00020001_00_00039,
    0x1_08000000_08_00011,
    0x7_0000003b_00_00000,
    // A prefix in another bucket than its own is not stored.
    0x0_00000000_00_00000,
    0x9_0a000000_00_0003c,
    0x9_00000005_00_0003d,
    0x2_0a000000_08_00000,
    0x1_0a000000_08_00007,
    // A stored route whose counters are too low: it is not found, and its withdrawal is refused.
    0x0_00000000_00_00000,
    0x1_0a000000_08_00007,
    0x8_00000000_00_00070,
    0x4_0a000001_00_00000,
    0x2_0a000000_08_00000,
    0x8_00000001_00_00070,
    0x8_00000000_00_00071,
    0x2_0a000000_08_00000,
    0x1_00000000_08_00006,
    0x8_00000001_00_00070,
    0x2_00000000_08_00000,
    0x8_00000002_00_00070,
    0x2_00000000_08_00000,
    // Counters at 14, 15, 16 and 255.
    0x0_00000000_00_00000,
    0x8_0000000e_00_00071,
    0x1_0a000000_08_00007,
    0x6_00000071_00_00000,
    0x1_08000000_08_00007,
    0x2_0a000000_08_00000,
    0x6_00000071_00_00000,
    0x8_0000000f_00_00071,
    0x1_0a000000_08_00007,
    0x8_00000010_00_00071,
    0x1_0a000000_08_00007,
    0x8_000000ff_00_00071,
    0x1_0a000000_08_00007,
    0x8_0000000d_00_00070,
    0x1_00000000_08_00007,
    0x2_00000000_08_00000,
    0x8_0000000e_00_00070,
    0x1_00000000_08_00007,
    0x8_000000ff_00_00070,
    0x9_0a000000_00_00038,
    0x9_00000003_00_00039,
    0x4_0a000001_00_00000,
    0x2_0a000000_08_00000,
    // Two parties: each has 10.0.0.0/8 once, with hops 7 and 9, in slots 0 and 1 of its bucket, and finds its own.
    // The counters count both.
    0x0_00000000_00_00000,
    0x1_0a000000_08_00007,
    0x1_0a000000_08_20009,
    0x7_00000038_00_00000,
    0x7_00000039_00_00000,
    0x7_0000003a_00_00000,
    0x7_0000003b_00_00000,
    0x6_00000071_00_00000,
    0x4_0a010203_00_00000,
    0x4_0a010203_00_20000,
    // The bucket is full for either, but for what it has stored: party 1's hop 65,535 is the mark 131,072, its hop
    // 65,536 gets 5, and its hop 0 is the mark 65,537.
    0x1_08000000_08_00005,
    0x1_08000000_08_20005,
    0x1_0a000000_08_2ffff,
    0x7_0000003b_00_00000,
    0x4_0a010203_00_20000,
    0x1_0a000000_08_30000,
    0x3_0a000000_08_20000,
    0x7_0000003b_00_00000,
    0x4_0a010203_00_20000,
    // What party 1 withdraws is its own alone, and then it has none. Its 8.0.0.0/8 is not party 0's.
    0x2_0a000000_08_20000,
    0x6_00000071_00_00000,
    0x2_0a000000_08_20000,
    0x3_0a000000_08_20009,
    0x4_0a010203_00_20000,
    0x4_0a010203_00_00000,
    0x1_08000000_08_20005,
    0x4_08010203_00_00000,
    // Each party's default has a word of its own.
    0x1_00000000_00_00003,
    0x1_00000000_00_20004,
    0x7_00000100_00_00000,
    0x7_00000101_00_00000,
    0x4_0b000001_00_00000,
    0x4_0b000001_00_20000,
    0x2_00000000_00_20000,
    0x4_0b000001_00_00000,
    // There a mark of the other party counts for nothing, and an add overwrites it; so does 131,073.
    0x9_00010005_00_00100,
    0x4_0b000001_00_00000,
    0x2_00000000_00_00000,
    0x3_00000000_00_00008,
    0x1_00000000_00_00008,
    0x7_00000100_00_00000,
    0x9_00010000_00_00101,
    0x4_0b000001_00_20000,
    0x2_00000000_00_20000,
    0x3_00000000_00_20008,
    0x1_00000000_00_20008,
    0x7_00000101_00_00000,
    0x9_00020000_00_00101,
    0x4_0b000001_00_20000,
    0x9_00020001_00_00101,
    0x4_0b000001_00_20000,
    // 15 for a party above 1: before 3 and after 2. The match vector names none.
    0x1_0a000001_21_50000,
    0x2_0a000001_21_40000,
    0x3_0a000001_21_50000,
    0x4_0a010203_00_40000,
    0x5_0a010203_00_40000,
    0xe_000001ff_00_00020,
    0x1_0a000000_08_40007,
    0x4_0a010203_00_40000,
    0xe_00000200_00_00020,
    // Clear empties both. Slots with marks of 65,537 are taken for party 0 too.
    0x0_00000000_00_00000,
    0x9_00010001_00_00039,
    0x9_00010001_00_0003b,
    0x1_0a000000_08_00007,
    // Number 9 is asked of the prefix: 240.0.0.0/4 has positions 15 and 13.
    0x0_00000000_00_00000,
    0x8_0000000f_00_0003d,
    0x1_f0000000_04_00007,
    0x8_00000000_00_0003d,
    0x8_0000000f_00_00030,
    0x1_f0000000_04_00007,
    // Settings out of range, before sizes: every call, then each range on both sides of its ends.
    0xa_09040102_00_00000,
    0x0_00000000_00_00000,
    0x1_0a000000_08_00007,
    0x2_f0000000_04_00000,
    0x3_f0000000_04_00008,
    0x4_f0000001_00_00000,
    0x5_f0000001_00_00000,
    0xa_00040102_00_00000,
    0x0_00000000_00_00000,
    0xa_02030102_00_00000,
    0x4_f0000001_00_00000,
    0xa_020c0102_00_00000,
    0x5_f0000001_00_00000,
    0xa_02040902_00_00000,
    0x4_f0000001_00_00000,
    0xa_02040100_00_00000,
    0x0_00000000_00_00000,
    0xa_02040109_00_00000,
    0x5_f0000001_00_00000,
    0xa_020b0102_00_00000,
    0x4_f0000001_00_00000,
    0xa_02040802_00_00000,
    0x5_f0000001_00_00000,
    0xa_02040108_00_00000,
    0x4_f0000001_00_00000,
    0xa_01040102_00_00000,
    0x4_f0000001_00_00000,
    0xa_08040102_00_00000,
    0x4_f0000001_00_00000,
    0xa_02040102_00_00000,
    // Sizes, before lengths: one too few and one too many of each, and bytes that are no whole words.
    0xe_000001ff_00_00020,
    0x0_00000000_00_00000,
    0x4_f0000001_00_00000,
    0x5_f0000001_00_00000,
    0xe_00000201_00_00020,
    0x1_0a000000_21_00007,
    0x2_f0000000_04_00000,
    0x4_f0000001_00_00000,
    0xe_00000200_00_00020,
    0xf_00000101_00_00404,
    0x0_00000000_00_00000,
    0x3_f0000000_04_00008,
    0x4_f0000001_00_00000,
    0x5_f0000001_00_00000,
    0xf_00000103_00_0040c,
    0x0_00000000_00_00000,
    0x4_f0000001_00_00000,
    0x5_f0000001_00_00000,
    0xf_00000102_00_00407,
    0x4_f0000001_00_00000,
    0xf_00000102_00_0040a,
    0x4_f0000001_00_00000,
    0x5_f0000001_00_00000,
    0xf_00000102_00_00408,
    0x4_f0000001_00_00000,
    // Settings U and W1.
    0xa_03060302_00_00000,
    0xb_9e3779b1_00_00000,
    0xc_85ebca77_00_00000,
    0xd_c2b2ae3d_00_00000,
    0xe_00000800_00_00020,
    0xf_00000402_00_01008,
    0x0_00000000_00_00000,
    0x1_0a000000_08_00007,
    0x1_0a010000_10_00009,
    0x1_0a030000_10_00004,
    0x6_000003d8_00_00000,
    0x4_0a010203_00_00000,
    0x4_0a030203_00_00000,
    // W2.
    0x4_1c690001_00_00000,
    0x5_1c690001_00_00000,
    0x2_0a030000_10_00000,
    0x6_000003d8_00_00000,
    0x4_0a010203_00_00000,
    0x4_0a030203_00_00000,
    0x4_1c690001_00_00000,
    // W3.
    0x1_0a1b0000_10_00001,
    0x1_0a0c0000_10_00002,
    0x6_000003f0_00_00000,
    0x2_0a1b0000_10_00000,
    0x6_000003f0_00_00000,
    0x6_000003ef_00_00000,
    // Settings X: 32 values of D, of which 5 is at lengths 1 and 16, 7 at 24, 6 at 32 and 4 at the rest. W10
    // to W12.
    0xa_03040102_00_00000,
    0xa_03050102_01_00000,
    0xa_03050102_10_00000,
    0xa_03070102_18_00000,
    0xa_03060102_20_00000,
    0xe_000002c0_00_00020,
    0xf_00000102_00_00408,
    0x0_00000000_00_00000,
    0x1_80000000_01_00002,
    0x1_0a000000_08_00007,
    0x1_0a010000_10_00009,
    0x1_0a010200_18_00005,
    0x1_0a010202_1f_00004,
    0x1_0a010203_20_00006,
    0x6_00000010_00_00000,
    0x6_000001f9_00_00000,
    0x6_0000019d_00_00000,
    0x6_000001c1_00_00000,
    0x6_00000270_00_00000,
    0x6_000002ab_00_00000,
    0x4_0a010203_00_00000,
    0x5_0a010203_00_00000,
    0x4_0a010202_00_00000,
    0x4_0a010209_00_00000,
    0x4_0a010901_00_00000,
    0x4_0a03bb01_00_00000,
    0x4_c0000001_00_00000,
    0x3_0a010200_18_00008,
    0x4_0a010209_00_00000,
    0x2_0a010200_18_00000,
    0x6_000001f9_00_00000,
    0x4_0a010209_00_00000,
    // A D out of its range, at the first length, at the last and between them.
    0xa_03030102_01_00000,
    0x0_00000000_00_00000,
    0xa_030c0102_01_00000,
    0x1_0a010200_18_00005,
    0xa_03050102_01_00000,
    0xa_03030102_20_00000,
    0x2_0a010203_20_00000,
    0xa_030c0102_20_00000,
    0x4_0a010203_00_00000,
    0xa_03060102_20_00000,
    0xa_03000102_10_00000,
    0x5_0a010203_00_00000,
    0xa_03ff0102_10_00000,
    0x3_0a010203_20_00001,
    0xa_03050102_10_00000,
    // Counters that are not the sum of the powers: one power is another or left out, a byte is short or over.
    0xa_03060102_18_00000,
    0x4_0a010203_00_00000,
    0xa_03070102_18_00000,
    0xe_00000280_00_00020,
    0x5_0a010203_00_00000,
    0xe_000002bf_00_00020,
    0x0_00000000_00_00000,
    0xe_000002c1_00_00020,
    0x4_0a010203_00_00000,
    // From C with 31 values and with 33, each over as many counters as it asks, and with none; then with 31 and
    // 33 over those of 32, and with 32 again.
    0xe_00000280_00_0001f,
    0x0_00000000_00_00000,
    0x1_0a010200_18_00005,
    0x2_0a010203_20_00000,
    0x3_0a010203_20_00001,
    0x4_0a010203_00_00000,
    0x5_0a010203_00_00000,
    0xe_000002d0_00_00021,
    0x0_00000000_00_00000,
    0x1_0a010200_18_00005,
    0x2_0a010203_20_00000,
    0x3_0a010203_20_00001,
    0x4_0a010203_00_00000,
    0x5_0a010203_00_00000,
    0xe_00000000_00_00000,
    0x0_00000000_00_00000,
    0x4_0a010203_00_00000,
    0xe_000002c0_00_0001f,
    0x4_0a010203_00_00000,
    0xe_000002c0_00_00021,
    0x4_0a010203_00_00000,
    0xe_000002c0_00_00020,
    0x4_0a010203_00_00000,
    // D 11 at length 1 alone, so that the filter of length 2 begins at byte 2,048; then at length 32 alone, whose
    // filter has the last counter.
    0xa_02040102_00_00000,
    0xa_020b0102_01_00000,
    0xb_00000001_00_00000,
    0xc_00000002_00_00000,
    0xd_00000001_00_00000,
    0xe_000009f0_00_00020,
    0x0_00000000_00_00000,
    0x1_40000000_02_00002,
    0x6_00000804_00_00000,
    0xa_02040102_01_00000,
    0xa_020b0102_20_00000,
    0x1_ffffffff_20_00003,
    0x6_000009ef_00_00000,
    0x4_ffffffff_00_00000,
    // D 11 at every length, over what was never cleared, in which the last counter is now zero.
    0xa_020b0102_00_00000,
    0xe_00010000_00_00020,
    0x5_ffffffff_00_00000,
    0x8_00000000_00_0ffff,
    0x5_ffffffff_00_00000,
    // K 8 with unlike multipliers, one slot to a bucket.
    0xa_08050201_00_00000,
    0xb_9e3779b1_00_00000,
    0xc_7feb352d_00_00000,
    0xd_846ca68b_00_00000,
    0xe_00000400_00_00020,
    0xf_00000102_00_00408,
    0x0_00000000_00_00000,
    0x1_c0a80000_10_00001,
    0x1_c0a80100_18_00002,
    0x1_c0a80101_20_00003,
    0x1_ac100000_0c_00004,
    0x4_c0a80101_00_00000,
    0x4_c0a80102_00_00000,
    0x4_c0a8ff01_00_00000,
    0x5_c0a80101_00_00000,
    0x4_ac1f0001_00_00000,
    0x1_c0a90000_10_00005,
    0x1_c0ab0000_10_00005,
    0x1_c0ad0000_10_00005,
    0x2_c0a80100_18_00000,
    0x4_c0a80101_00_00000,
    0x4_c0a80102_00_00000,
    // K 8 and B 0: all steps on one position. E 0, with a multiplier C that is not 0.
    0xa_08040003_00_00000,
    0xb_9e3779b1_00_00000,
    0xc_00000000_00_00000,
    0xd_c2b2ae3d_00_00000,
    0xe_00000200_00_00020,
    0xf_000000c2_00_00308,
    0x0_00000000_00_00000,
    0x1_c0000000_08_00001,
    0x1_8c000000_08_00002,
    0x1_c1000000_08_00002,
    0x1_d0000000_08_00003,
    0x1_d1000000_08_00004,
    0x1_d3000000_08_00005,
    0x4_c0000001_00_00000,
    0x4_d1000001_00_00000,
    0x2_d0000000_08_00000,
    0x1_d3000000_08_00005,
    0x1_f0000000_08_00005,
    // P9.
    0xa_05040004_00_00000,
    0xb_00000000_00_00000,
    0xc_00000000_00_00000,
    0xd_00000000_00_00000,
    0xe_00000200_00_00020,
    0xf_00000102_00_00408,
    0x0_00000000_00_00000,
    0x1_00000001_20_00001,
    0x1_00000002_20_00001,
    0x1_00000003_20_00001,
    0x6_000001f0_00_00000,
    0x1_00000004_20_00001,
    // One of the three is added again.
    0x1_00000002_20_00004,
    0x4_00000002_00_00000,
    // P10, with S 2 and then with S 1.
    0xa_08040002_00_00000,
    0xf_00000082_00_00208,
    0x0_00000000_00_00000,
    0x1_00000001_20_00001,
    0x1_00000002_20_00001,
    0xa_08040001_00_00000,
    0xf_00000042_00_00108,
    0x0_00000000_00_00000,
    0x1_00000001_20_00001,
    0x1_00000002_20_00001,
    // The stored one is added again, where the bucket is full and its counter plus its hits passes 15.
    0x1_00000001_20_00004,
];

// What a case does; none where crates/cases does it.
fn call_of(case: Case) -> Option<Call> {
    match case.digit() {
        0 => Some(Call::Update(Update::Clear)),
        1 => Some(Call::Update(Update::Add)),
        2 => Some(Call::Update(Update::Withdraw)),
        3 => Some(Call::Update(Update::Change)),
        4 => Some(Call::Find),
        5 => Some(Call::Vector),
        6 => Some(Call::Counter),
        7 => Some(Call::Word),
        _ => None,
    }
}

// Asks the table for a route, by its call and as C does.
fn find(
    rt: &impl Print,
    t: Settings,
    d: &[u8],
    counters: &[u8],
    slots: &[u32],
    bytes: &[u8],
    case: Case,
) -> io::Result<()> {
    let party = case.party();
    let address = case.prefix();
    match table::lookup(t, counters, slots, party, address) {
        Ok(
            Lookup {
                route: Some(route),
                probes,
            },
        ) => {
            print!(rt; " 0 1 {} {} {probes}", route.hop, route.length)?;
        }
        Ok(
            Lookup {
                route: None,
                probes,
            },
        ) => print!(rt; " 0 0 0 0 {probes}")?,
        Err(refusal) => print!(rt; " {} 0 0 0 0", refusal.number())?,
    }
    let from_c = gateway::gateway_lookup(
        t.k, d, t.e, t.s, t.a, t.b, t.c, counters, bytes, party, address,
    );
    cases::digits(rt, from_c)
}

// Asks it for a match vector.
fn vector(
    rt: &impl Print,
    t: Settings,
    d: &[u8],
    counters: &[u8],
    slots: &[u32],
    bytes: &[u8],
    address: u32,
) -> io::Result<()> {
    match table::match_vector(t, counters, slots, address) {
        Ok(vector) => print!(rt; " 0 {vector}")?,
        Err(refusal) => print!(rt; " {} 0", refusal.number())?,
    }
    let from_c = gateway::gateway_match_vector(
        t.k, d, t.e, t.s, t.a, t.b, t.c, counters, bytes, address,
    );
    cases::digits(rt, from_c)
}

// Makes a call that writes, and gives back what C gets from it.
fn act(
    t: Settings,
    d: &[u8],
    counters: &mut [u8],
    slots: &mut [u32],
    update: Update,
    case: Case,
) -> u64 {
    let party = case.party();
    let p = case.prefix();
    let length = case.length();
    let hop = case.hop();
    match update {
        Update::Clear => gateway::gateway_clear(t.k, d, t.e, t.s, t.a, t.b, t.c, counters, slots),
        Update::Add => gateway::gateway_add(
            t.k, d, t.e, t.s, t.a, t.b, t.c, counters, slots, party, p, length, hop,
        ),
        Update::Withdraw => gateway::gateway_withdraw(
            t.k, d, t.e, t.s, t.a, t.b, t.c, counters, slots, party, p, length,
        ),
        Update::Change => gateway::gateway_change(
            t.k, d, t.e, t.s, t.a, t.b, t.c, counters, slots, party, p, length, hop,
        ),
    }
}

// A case over the memory that is lent for it, to C with so many values of D: a call, or a place of the memory
// read or damaged.
fn make(
    rt: &impl Print,
    t: Settings,
    values: usize,
    counters: &mut [u8],
    slots: &mut [u32],
    bytes: &mut [u8],
    case: Case,
) -> io::Result<()> {
    let list = cases::list_of(t);
    let d = cases::front(values, &list);
    let place = case.prefix() as usize;
    match call_of(case) {
        Some(Call::Update(update)) => {
            cases::digits(rt, act(t, d, counters, slots, update, case))?;
            cases::sums(rt, counters, slots)?;
        }
        Some(Call::Find) => {
            cases::copy_words(slots, bytes);
            find(rt, t, d, counters, slots, bytes, case)?;
        }
        Some(Call::Vector) => vector(rt, t, d, counters, slots, bytes, case.prefix())?,
        Some(Call::Counter) => {
            if let Some(counter) = counters.get(place) {
                print!(rt; " {counter}")?;
            }
        }
        Some(Call::Word) => {
            if let Some(word) = slots.get(place) {
                print!(rt; " {word}")?;
            }
        }
        None => cases::damage(counters, slots, case),
    }
    Ok(())
}

// A case over as much of the memory as is lent, and what it writes.
fn line(
    rt: &impl Print,
    t: Settings,
    lent: Lent,
    counters: &mut [u8],
    slots: &mut [u32],
    bytes: &mut [u8],
    case: Case,
) -> io::Result<()> {
    cases::begin(rt, case)?;
    make(
        rt,
        t,
        lent.values,
        cases::front_mut(lent.counters, counters),
        cases::front_mut(lent.words, slots),
        cases::front_mut(lent.bytes, bytes),
        case,
    )?;
    cases::end(rt)
}

// The cases of a list, one after the other over the same memory.
fn run(
    rt: &impl Print,
    numbers: &[u64],
    counters: &mut [u8],
    slots: &mut [u32],
    bytes: &mut [u8],
) -> io::Result<()> {
    let mut t = cases::none_set();
    let mut lent = Lent::default();
    for number in numbers {
        let case = Case(*number);
        t = cases::set(t, case);
        lent = cases::lend(lent, case);
        line(rt, t, lent, counters, slots, bytes, case)?;
    }
    Ok(())
}

fn main(rt: HostRuntime) -> io::Result<()> {
    // Before the first clear the memory holds something else than zeros.
    let mut counters = [7u8; 65536];
    let mut slots = [7u32; 1026];
    let mut bytes = [7u8; 4104];
    run(&rt, &CASES, &mut counters, &mut slots, &mut bytes)
}
