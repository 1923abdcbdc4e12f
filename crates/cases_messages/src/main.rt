// Messages read and withdrawals written, by the crates' own calls and then as C calls them. A line has a case
// and what its call gives back, and sums of what the lent memory then holds. The file stdout comes from the
// rules alone: tests/cases works it out.
#![tactic(auto)]

use cases::{Case, Lent};
use rules::{Settings, number_given};
use std::io;

// What a case does, beside what crates/cases sets up for all.
#[derive(Clone, Copy)]
enum Kind {
    Clear,
    Add,
    // Four bytes of the message, and their place where the hop stands.
    Bytes,
    // A place of the message and a byte that it has for this time, how many bytes are lent, and how many next
    // hops, with the party where a hop has it.
    Read,
    // The withdrawal of a prefix, into so many bytes; what they then hold is read.
    Write,
    // A next hop, and its place in the list.
    Hop,
    // Sums of so many bytes of the message and, where the hop stands, so many next hops: no call changes them.
    Lists,
    // From here on the calls are C's.
    FromC,
}

const CASES: [u64; 406] = [
    // K 3, D 4, E 1, S 2 and unlike multipliers, over memory that was never cleared.
    0xa_03040102_00_00000,
    0xb_9e3779b1_00_00000,
    0xc_85ebca77_00_00000,
    0xd_c2b2ae3d_00_00000,
    0xe_00000200_00_00020,
    0xf_00000102_00_00000,
    // The marker, and a list in which 10.9.9.1 has places 1 and 2, and 10.7.9.1 place 3.
    0x2_ffffffff_00_00000,
    0x2_ffffffff_00_00004,
    0x2_ffffffff_00_00008,
    0x2_ffffffff_00_0000c,
    0x5_0a090902_00_00000,
    0x5_0a090901_00_00001,
    0x5_0a090901_00_00002,
    0x5_0a070901_00_00003,
    // The worked message: it withdraws 10.1.0.0/16, and announces 192.0.2.0/24 and the default with NEXT_HOP
    // 10.9.9.1. On that memory; on a table that holds nothing, twice; and on one that holds 10.1.0.0/16.
    0x2_002d0200_00_00010,
    0x2_03100a01_00_00014,
    0x2_000e4001_00_00018,
    0x2_01004002_00_0001c,
    0x2_00400304_00_00020,
    0x2_0a090901_00_00024,
    0x2_18c00002_00_00028,
    0x3_00_ff_0002d_000003,
    0x0_00000000_00_00000,
    0x3_00_ff_0002d_000003,
    0x3_00_ff_0002d_000003,
    0x1_0a010000_10_00009,
    0x3_00_ff_0002d_000003,
    // For party 1, which adds its own beside party 0's: it cannot withdraw 10.1.0.0/16, which is party 0's, and then
    // one of its own. After it party 0 can withdraw.
    0x1_0a010000_10_00009,
    0x3_00_ff_0002d_020003,
    0x1_0a010000_10_20009,
    0x3_00_ff_0002d_020003,
    0x3_00_ff_0002d_000003,
    // 15 for party 2: before 12, and after 2.
    0x3_00_fe_0002d_040003,
    0xe_000001ff_00_00020,
    0x3_00_fe_0002d_040003,
    0xe_00000200_00_00020,
    // The first announced prefix is odd, 127.0.2.0/24, 224.0.2.0/24 or 239.0.2.0/24: it is refused, and the default after
    // it is not. Those before and after them pass, and 127.1.0.0/16 is withdrawn as any other. Then the message as it was.
    0x0_00000000_00_00000,
    0x3_29_7e_0002d_000003,
    0x3_29_7f_0002d_000003,
    0x3_29_80_0002d_000003,
    0x0_00000000_00_00000,
    0x3_29_df_0002d_000003,
    0x3_29_e0_0002d_000003,
    0x3_29_ef_0002d_000003,
    0x3_29_f0_0002d_000003,
    0x3_16_7f_0002d_000003,
    0x0_00000000_00_00000,
    0x3_00_ff_0002d_000003,
    // What is damaged comes upon a table that holds 10.1.0.0/16 again: its withdrawal would be seen.
    0x1_0a010000_10_00009,
    // The marker's first byte, one within and its last.
    0x3_00_fe_0002d_000003,
    0x3_07_00_0002d_000003,
    0x3_0f_7f_0002d_000003,
    // The length field, one less, one more and 256 more; the lent length, one less and one more.
    0x3_11_2c_0002d_000003,
    0x3_11_2e_0002d_000003,
    0x3_10_01_0002d_000003,
    0x3_00_ff_0002c_000003,
    0x3_00_ff_0002e_000003,
    // No byte, and 16 to 22, with the right length field where there is one.
    0x3_00_ff_00000_000003,
    0x3_00_ff_00010_000003,
    0x3_11_12_00012_000003,
    0x3_11_13_00013_000003,
    0x3_11_15_00015_000003,
    0x3_11_16_00016_000003,
    // Types that are no UPDATE.
    0x3_12_00_0002d_000003,
    0x3_12_01_0002d_000003,
    0x3_12_03_0002d_000003,
    0x3_12_04_0002d_000003,
    0x3_12_82_0002d_000003,
    // The length of the withdrawn routes: one that cuts the prefix, none, one more, 256 more; and so long that
    // they leave two bytes, one, none, or run past the end.
    0x3_14_02_0002d_000003,
    0x3_14_00_0002d_000003,
    0x3_14_04_0002d_000003,
    0x3_13_01_0002d_000003,
    0x3_14_16_0002d_000003,
    0x3_14_17_0002d_000003,
    0x3_14_18_0002d_000003,
    0x3_14_19_0002d_000003,
    // The withdrawn prefix's length: 33, 32, 17, 8 and 255.
    0x3_15_21_0002d_000003,
    0x3_15_20_0002d_000003,
    0x3_15_11_0002d_000003,
    0x3_15_08_0002d_000003,
    0x3_15_ff_0002d_000003,
    // The length of the attributes: one that cuts NEXT_HOP, one that ends before it, none, one more, to the end
    // of the message, past it, and 256 more.
    0x3_19_0d_0002d_000003,
    0x3_19_07_0002d_000003,
    0x3_19_00_0002d_000003,
    0x3_19_0f_0002d_000003,
    0x3_19_13_0002d_000003,
    0x3_19_14_0002d_000003,
    0x3_18_01_0002d_000003,
    // ORIGIN or AS_PATH as another NEXT_HOP.
    0x3_1b_03_0002d_000003,
    0x3_1f_03_0002d_000003,
    // Attributes that overrun: by extended length, by their value.
    0x3_1a_50_0002d_000003,
    0x3_21_50_0002d_000003,
    0x3_1c_02_0002d_000003,
    0x3_1c_ff_0002d_000003,
    0x3_23_03_0002d_000003,
    0x3_23_05_0002d_000003,
    // The announced prefixes' lengths: 33, none and then 192, a last prefix that is cut, and 33 at the end.
    0x3_28_21_0002d_000003,
    0x3_28_00_0002d_000003,
    0x3_2c_01_0002d_000003,
    0x3_2c_21_0002d_000003,
    // 13: NEXT_HOP is missing, is not in the list, or the list ends before it.
    0x3_22_04_0002d_000003,
    0x3_22_02_0002d_000003,
    0x3_27_03_0002d_000003,
    0x3_24_0b_0002d_000003,
    0x3_00_ff_0002d_000000,
    0x3_00_ff_0002d_000001,
    // 1 before 2 before 12 before 13.
    0xe_000001ff_00_00020,
    0xa_09040102_00_00000,
    0x3_12_04_0002d_000000,
    0xa_03040102_00_00000,
    0x3_12_04_0002d_000000,
    0xe_00000201_00_00020,
    0x3_00_ff_0002d_000003,
    0xe_00000200_00_00020,
    0xf_00000101_00_00000,
    0x3_00_ff_0002d_000003,
    0xf_00000103_00_00000,
    0x3_12_04_0002d_000000,
    0xf_00000102_00_00000,
    0x3_12_04_0002d_000000,
    0x3_2c_21_0002d_000000,
    0xa_03040002_00_00000,
    0x3_00_ff_0002d_000003,
    0xa_00040102_00_00000,
    0x3_00_ff_0002d_000003,
    0xa_03040102_00_00000,
    // Flags and their low bits decide nothing else; NEXT_HOP at places 0 and 3; the list ends at place 1.
    0x3_21_ef_0002d_000003,
    0x3_1e_00_0002d_000003,
    0x3_27_02_0002d_000003,
    0x3_25_07_0002d_000004,
    0x3_00_ff_0002d_000002,
    // Other lengths of the prefixes: bits after them are cleared, and the bytes part otherwise.
    0x3_15_0f_0002d_000003,
    0x3_15_09_0002d_000003,
    0x3_28_16_0002d_000003,
    0x3_28_19_0002d_000003,
    0x3_28_20_0002d_000003,
    0x3_28_10_0002d_000003,
    // The message ends after its first announced prefix, within it, and before it: then nothing is announced,
    // and the list may be empty.
    0x3_11_2c_0002c_000003,
    0x3_11_2b_0002b_000003,
    0x1_0a010000_10_00009,
    0x3_11_28_00028_000000,
    // Two NEXT_HOPs, with nothing announced and with the default announced; then the one or the other is of
    // another type, and nothing is announced.
    0x1_0a010000_10_00009,
    0x2_00280200_00_00010,
    0x2_03100a01_00_00014,
    0x2_000e4003_00_00018,
    0x2_040a0909_00_0001c,
    0x2_01400304_00_00020,
    0x2_0a090902_00_00024,
    0x2_00000000_00_00028,
    0x3_00_ff_00028_000003,
    0x3_11_29_00029_000003,
    0x3_22_04_00028_000000,
    0x3_1b_05_00028_000000,
    // The default is announced with the first, and with the second.
    0x2_00290200_00_00010,
    0x3_22_04_00029_000003,
    0x3_1b_05_00029_000003,
    // NEXT_HOP of three bytes, with the default announced and with nothing; with its fourth among the announced
    // ones, in either kind of length. Then one of five bytes.
    0x1_0a010000_10_00009,
    0x2_001f0200_00_00010,
    0x2_00000640_00_00014,
    0x2_03030a09_00_00018,
    0x2_09000000_00_0001c,
    0x3_00_ff_0001f_000003,
    0x3_11_1d_0001d_000003,
    0x3_19_04_0001f_000003,
    0x2_00000750_00_00014,
    0x2_0300040a_00_00018,
    0x2_09090000_00_0001c,
    0x3_00_ff_0001f_000003,
    0x2_00000840_00_00014,
    0x2_03050a09_00_00018,
    0x2_09010000_00_0001c,
    0x3_00_ff_0001f_000003,
    0x3_11_20_00020_000003,
    // 23 bytes that do nothing; 22; attributes that are cut after one byte, two and, of extended length, three.
    0x2_00170200_00_00010,
    0x2_00000000_00_00014,
    0x3_00_ff_00017_000003,
    0x3_11_16_00016_000003,
    0x2_00000140_00_00014,
    0x2_02000000_00_00018,
    0x3_11_18_00018_000003,
    0x3_11_1b_0001b_000003,
    0x2_00000240_00_00014,
    0x3_11_19_00019_000003,
    0x3_11_1b_0001b_000003,
    0x2_00000350_00_00014,
    0x3_11_1a_0001a_000003,
    0x3_11_1b_0001b_000003,
    // The last of them is good where it is not of extended length, and where its fourth byte belongs to it.
    0x2_001a0200_00_00010,
    0x3_17_40_0001a_000000,
    0x2_001b0200_00_00010,
    0x3_16_04_0001b_000000,
    // Only withdrawals: 10.1.0.0/16 twice, the default, 10.0.0.0/7 with a bit set after it; then once more.
    0x1_0a010000_10_00009,
    0x1_0a000000_07_00009,
    0x2_00200200_00_00010,
    0x2_09100a01_00_00014,
    0x2_100a0100_00_00018,
    0x2_070b0000_00_0001c,
    0x3_00_ff_00020_000000,
    0x3_00_ff_00020_000000,
    // NEXT_HOP of extended length, with the default announced; its size and its flags otherwise.
    0x2_00000850_00_00014,
    0x2_0300040a_00_00018,
    0x2_09090100_00_0001c,
    0x3_00_ff_00020_000003,
    0x3_17_ff_00020_000003,
    0x3_17_40_00020_000003,
    0x3_19_01_00020_000003,
    0x3_1a_03_00020_000003,
    0x3_1a_05_00020_000003,
    0x3_1e_02_00020_000003,
    // An AS_PATH of 256 bytes before NEXT_HOP; then its length without the high byte, or with another.
    0x2_01230200_00_00010,
    0x2_00010b50_00_00014,
    0x2_02010000_00_00018,
    0x2_40030400_00_0011b,
    0x2_0a090901_00_0011e,
    0x3_00_ff_00123_000003,
    0x3_19_00_00123_000003,
    0x3_19_02_00123_000003,
    0x3_10_00_00123_000003,
    // 10.1.0.0/16 is withdrawn twice and announced: it is stored after, with the hop of the message.
    0x1_0a010000_10_00009,
    0x2_00270200_00_00010,
    0x2_06100a01_00_00014,
    0x2_100a0100_00_00018,
    0x2_07400304_00_0001c,
    0x2_0a090901_00_00020,
    0x2_100a0100_00_00024,
    0x3_00_ff_00027_000003,
    // All sizes of prefixes, with bits after the length: /1, /9, /17, /25, /32 and /31; then cut.
    0x2_00350200_00_00010,
    0x2_00000740_00_00014,
    0x2_03040a09_00_00018,
    0x2_090101ff_00_0001c,
    0x2_090aff11_00_00020,
    0x2_0a01ff19_00_00024,
    0x2_0a0102ff_00_00028,
    0x2_200a0102_00_0002c,
    0x2_031f0a01_00_00030,
    0x2_02030000_00_00034,
    0x3_11_36_00036_000003,
    0x3_00_ff_00035_000003,
    // Length 33 with bytes enough, so that the rest could be read.
    0x3_2c_21_00035_000003,
    // Six routes of length 8 for four slots, and 192.0.2.0/24 after them: a refused one is skipped.
    0x2_002e0200_00_00010,
    0x2_0901080a_00_0001c,
    0x2_08080809_00_00020,
    0x2_08c0080b_00_00024,
    0x2_080c18c0_00_00028,
    0x2_00020000_00_0002c,
    0x3_00_ff_0002e_000003,
    0x3_1d_02_0002e_000003,
    // Damage: 192.0.2.0/24 cannot be added where a counter is full, nor 10.1.0.0/16 withdrawn where one is empty;
    // and where that stands twice, the lower slot is emptied first.
    0x0_00000000_00_00000,
    0x8_0000000f_00_00174,
    0x3_00_ff_0002e_000003,
    0x1_0a010000_10_00009,
    0x8_00000000_00_000fd,
    0x2_001a0200_00_00010,
    0x2_03100a01_00_00014,
    0x2_00000000_00_00018,
    0x3_00_ff_0001a_000003,
    0x8_00000002_00_000f4,
    0x8_00000002_00_000f6,
    0x8_00000002_00_000fd,
    0x9_0a010000_00_0007a,
    0x9_00001000_00_0007b,
    0x3_00_ff_0001a_000003,
    0x3_00_ff_0001a_000003,
    0x3_00_ff_0001a_000003,
    // 300 withdrawals of the default, of which the first is accepted.
    0x1_00000000_00_00007,
    0x2_01430201_00_00010,
    0x2_2c000000_00_00014,
    0x2_00000000_00_0001c,
    0x2_00000000_00_00020,
    0x2_00000000_00_00024,
    0x2_00000000_00_00028,
    0x2_00000000_00_0002c,
    0x2_00000000_00_00030,
    0x2_00000000_00_00034,
    0x2_00000000_00_0011b,
    0x2_00000000_00_0011e,
    0x3_00_ff_00143_000000,
    // 4,096 bytes, which are one attribute, do nothing; 4,097 are too many.
    0x2_10000200_00_00010,
    0x2_000fe950_00_00014,
    0x2_020fe500_00_00018,
    0x3_00_ff_01000_000003,
    0x3_11_01_01001_000003,
    0x3_00_ff_01001_000003,
    // Place 65,535 of the list is a hop and 65,536 is none; the lowest place counts, and only in what is lent.
    0x5_0a090905_00_0ffff,
    0x5_0a090906_00_10000,
    0x2_00230200_00_00010,
    0x2_00000740_00_00014,
    0x2_03040a09_00_00018,
    0x2_090518c0_00_0001c,
    0x2_00020000_00_00020,
    0x3_00_ff_00023_010001,
    0x3_1d_06_00023_010001,
    0x5_0a090906_00_00102,
    0x3_1d_06_00023_010002,
    0x3_1d_06_00023_000103,
    0x3_1d_06_00023_000102,
    0x6_00001002_00_00103,
    // K 8, D 4, E 0, S 2 and multipliers 0: all steps are on one counter, and a second /32 would pass 15.
    0xa_08040002_00_00000,
    0xb_00000000_00_00000,
    0xc_00000000_00_00000,
    0xd_00000000_00_00000,
    0xe_00000200_00_00020,
    0xf_00000082_00_00000,
    0x0_00000000_00_00000,
    0x2_00290200_00_00010,
    0x2_0901200a_00_0001c,
    0x2_01020320_00_00020,
    0x2_0a010204_00_00024,
    0x2_00000000_00_00028,
    0x3_00_ff_00029_000003,
    // K 2, D 5, E 2, S 1 with unlike multipliers.
    0xa_02050201_00_00000,
    0xb_7feb352d_00_00000,
    0xc_9e3779b1_00_00000,
    0xd_846ca68b_00_00000,
    0xe_00000400_00_00020,
    0xf_00000102_00_00000,
    0x0_00000000_00_00000,
    0x3_00_ff_00029_000003,
    0x3_1d_02_00029_000003,
    // Withdrawals written and read: 10.0.0.0/8, for party 1, which has none, for party 0, and again; then all sizes.
    0x1_0a000000_08_00007,
    0x4_0a000000_08_20019,
    0x4_0a000000_08_00019,
    0x4_0a000000_08_00019,
    0x1_00000000_00_00007,
    0x4_00000000_00_00018,
    0x1_80000000_01_00007,
    0x4_80000000_01_00019,
    0x1_fe000000_07_00007,
    0x4_fe000000_07_00019,
    0x1_0a800000_09_00007,
    0x4_0a800000_09_0001a,
    0x1_c0a80000_10_00007,
    0x4_c0a80000_10_0001a,
    0x1_c0a88000_11_00007,
    0x4_c0a88000_11_0001b,
    0x1_c0000200_18_00007,
    0x4_c0000200_18_0001b,
    0x1_c0000280_19_00007,
    0x4_c0000280_19_0001c,
    0x1_fedcba98_20_00007,
    0x4_fedcba98_20_0001c,
    0x4_00ffffff_20_0001c,
    // Room of a byte too few or too many, and none.
    0x4_0a000000_08_00018,
    0x4_0a000000_08_0001a,
    0x4_00000000_00_00017,
    0x4_00000000_00_00019,
    0x4_fedcba98_20_0001b,
    0x4_fedcba98_20_0001d,
    0x4_0a800000_09_00019,
    0x4_0a000000_08_00000,
    // 3 before 4 before 18.
    0x4_0a000001_21_00000,
    0x4_0a000000_21_0001d,
    0x4_0a000001_08_00000,
    0x4_0a000001_08_00019,
    0x4_00000001_00_00018,
    0x4_0a800000_08_00019,
    0x4_fedcba99_1f_0001c,
    // As C calls them: a withdrawal of each kind of answer, with what it then reads.
    0x7_00000000_00_00000,
    0x1_0a000000_08_00007,
    0x4_0a000000_08_00019,
    0x4_0a000000_08_00018,
    0x4_0a000001_08_00000,
    0x4_0a000000_21_00019,
    0x4_fedcba98_20_0001c,
    // A message with the hop of its list, one with none in it, one of a wrong type, and the six routes again.
    0x3_00_ff_00029_000003,
    0x3_1d_02_00029_000003,
    0x3_00_ff_00029_000001,
    0x3_12_01_00029_000003,
    0x2_002e0200_00_00010,
    0x2_0901080a_00_0001c,
    0x2_08080809_00_00020,
    0x2_08c0080b_00_00024,
    0x2_080c18c0_00_00028,
    0x2_00020000_00_0002c,
    0x3_00_ff_0002e_000003,
    // For party 1 the slots are taken; 15 for party 2, before 12.
    0x3_00_ff_0002e_020003,
    0x3_12_01_0002e_040003,
    // The first of them is 127.0.0.0/8, and the fourth 224.0.0.0/8.
    0x3_1f_7f_0002e_000003,
    0x3_25_e0_0002e_000003,
    // Settings and sizes that are refused; a withdrawal is written all the same.
    0xe_000003ff_00_00020,
    0x3_00_ff_0002e_000003,
    0x4_0a000000_08_00019,
    0xa_02050901_00_00000,
    0x3_00_ff_0002e_000003,
    0x4_0a000000_08_00019,
    // Unequal filters, D 4 at length 8, 7 at 24 and 5 at the rest: the six routes and 192.0.2.0/24, which is then
    // withdrawn.
    0xa_02050201_00_00000,
    0xa_02040201_08_00000,
    0xa_02070201_18_00000,
    0xe_00000450_00_00020,
    0x0_00000000_00_00000,
    0x3_00_ff_0002e_000003,
    0x4_c0000200_18_0001b,
    // 31 values and 33, each over as many counters as it asks; a D of 3 and of 12; the counters of equal filters.
    0xe_00000430_00_0001f,
    0x3_00_ff_0002e_000003,
    0xe_00000460_00_00021,
    0x3_00_ff_0002e_000003,
    0xe_00000450_00_00020,
    0xa_02030201_01_00000,
    0x3_00_ff_0002e_000003,
    0xa_02050201_01_00000,
    0xa_020c0201_20_00000,
    0x3_00_ff_0002e_000003,
    0xa_02050201_20_00000,
    0xe_00000400_00_00020,
    0x3_00_ff_0002e_000003,
    0x6_00001002_00_00103,
];

// What a case does; none where crates/cases does it.
fn kind_of(case: Case) -> Option<Kind> {
    match case.digit() {
        0 => Some(Kind::Clear),
        1 => Some(Kind::Add),
        2 => Some(Kind::Bytes),
        3 => Some(Kind::Read),
        4 => Some(Kind::Write),
        5 => Some(Kind::Hop),
        6 => Some(Kind::Lists),
        7 => Some(Kind::FromC),
        _ => None,
    }
}

// Reads a message, by the crates' own call or as C does.
fn update(
    rt: &impl Print,
    t: Settings,
    lent: Lent,
    counters: &mut [u8],
    slots: &mut [u32],
    message: &[u8],
    hops: &[u32],
) -> io::Result<()> {
    let party = lent.party;
    if lent.from_c {
        let list = cases::list_of(t);
        let d = cases::front(lent.values, &list);
        let answer = gateway::gateway_update(
            t.k, d, t.e, t.s, t.a, t.b, t.c, counters, slots, party, message, hops,
        );
        return cases::digits(rt, answer);
    }
    match message_calls::apply_message(t, counters, slots, party, message, hops) {
        Ok(report) => print!(rt; " 0 {:x} {:x}", report.accepted, report.refused),
        Err(refusal) => print!(rt; " {:x} 0 0", refusal.number()),
    }
}

// Reads a message, and shows what that gives back and what the memory then holds.
fn read(
    rt: &impl Print,
    t: Settings,
    lent: Lent,
    counters: &mut [u8],
    slots: &mut [u32],
    message: &[u8],
    hops: &[u32],
) -> io::Result<()> {
    update(rt, t, lent, counters, slots, message, hops)?;
    cases::sums(rt, counters, slots)
}

// Writes a withdrawal, and reads as many bytes of it as were lent.
fn write(
    rt: &impl Print,
    t: Settings,
    lent: Lent,
    counters: &mut [u8],
    slots: &mut [u32],
    case: Case,
) -> io::Result<()> {
    let mut room = [0xaau8; 32];
    let size = case.place();
    let p = case.prefix();
    let length = case.length();
    if lent.from_c {
        let number = gateway::gateway_write_withdrawal(
            p,
            length,
            cases::front_mut(size, &mut room),
        );
        cases::digits(rt, number)?;
    } else {
        let outcome = message_writers::write_withdrawal(
            p,
            length,
            cases::front_mut(size, &mut room),
        );
        cases::digits(rt, number_given(outcome))?;
    }
    cases::hex(rt, &room)?;
    read(rt, t, lent, counters, slots, cases::front(size, &room), &[])
}

// Reads so much of the message, in which one byte is otherwise for this time, with so many next hops.
fn read_patched(
    rt: &impl Print,
    t: Settings,
    lent: Lent,
    counters: &mut [u8],
    slots: &mut [u32],
    message: &mut [u8],
    hops: &[u32],
    case: Case,
) -> io::Result<()> {
    let place = (case.0 / 0x10_0000_0000_0000 % 0x100) as usize;
    let before = message.get(place).copied().unwrap_or(0);
    cases::put(message, place, (case.0 / 0x1000_0000_0000 % 0x100) as u8);
    let size = (case.0 / 0x100_0000 % 0x10_0000) as usize;
    read(
        rt,
        t,
        lent,
        counters,
        slots,
        cases::front(size, message),
        cases::front(case.place(), hops),
    )?;
    cases::put(message, place, before);
    Ok(())
}

// A case over the memory that is lent for it.
fn make(
    rt: &impl Print,
    t: Settings,
    lent: Lent,
    counters: &mut [u8],
    slots: &mut [u32],
    message: &mut [u8],
    hops: &mut [u32],
    case: Case,
) -> io::Result<()> {
    let p = case.prefix();
    match kind_of(case) {
        Some(Kind::Clear) => {
            let outcome = table::clear(t, counters, slots);
            cases::digits(rt, number_given(outcome))?;
        }
        Some(Kind::Add) => {
            let outcome = table::add(
                t,
                counters,
                slots,
                case.party(),
                p,
                case.length(),
                case.hop(),
            );
            cases::digits(rt, number_given(outcome))?;
        }
        Some(Kind::Bytes) => {
            if let Some(rest) = message.get_mut(case.place()..) {
                cases::fill(rest, &p.to_be_bytes());
            }
        }
        Some(Kind::Read) => read_patched(rt, t, lent, counters, slots, message, hops, case)?,
        Some(Kind::Write) => write(rt, t, lent, counters, slots, case)?,
        Some(Kind::Hop) => cases::put(hops, case.place(), p),
        Some(Kind::Lists) => cases::sums(
            rt,
            cases::front(p as usize, message),
            cases::front(case.place(), hops),
        )?,
        Some(Kind::FromC) => {}
        None => cases::damage(counters, slots, case),
    }
    Ok(())
}

// The cases of a list, one after the other over the same memory.
fn run(
    rt: &impl Print,
    numbers: &[u64],
    counters: &mut [u8],
    slots: &mut [u32],
    message: &mut [u8],
    hops: &mut [u32],
) -> io::Result<()> {
    let mut t = cases::none_set();
    let mut lent = Lent::default();
    for number in numbers {
        let case = Case(*number);
        t = cases::set(t, case);
        lent = cases::lend(lent, case);
        lent.from_c = lent.from_c || matches!(kind_of(case), Some(Kind::FromC));
        cases::begin(rt, case)?;
        make(
            rt,
            t,
            lent,
            cases::front_mut(lent.counters, counters),
            cases::front_mut(lent.words, slots),
            message,
            hops,
            case,
        )?;
        cases::end(rt)?;
    }
    Ok(())
}

// Each program of cases has a main of its own, which sets up the memory that its cases need.
fn main(rt: HostRuntime) -> io::Result<()> {
    // Before the first clear the memory holds something else than zeros.
    let mut counters = [7u8; 2048];
    let mut slots = [7u32; 1026];
    let mut message = [0u8; 4098];
    let mut hops = [0u32; 65538];
    run(
        &rt,
        &CASES,
        &mut counters,
        &mut slots,
        &mut message,
        &mut hops,
    )
}
