// Dumps imported in chunks, by the crates' own calls and then as C calls them, over a table of settings T. A
// line has a case and, if that is a chunk or an end, what the call gives back and what is lent then holds. The
// file stdout comes from the rules alone: tests/cases works it out.
#![tactic(auto)]

use cases::Case;
use rules::number_given;
use std::io;

// What a case does, a number in hex whose first digit says it.
#[derive(Clone, Copy)]
enum Kind {
    // Zeros for the stream's words and the counts, and a table that is cleared.
    Begin,
    // The bytes of the dump from a place on and, where the hop stands, how many, for a party.
    Chunk,
    End,
    // A number for one of the stream's words, for a count or for a next hop, and its place where the hop stands.
    Word,
    Count,
    Hop,
    // From here on the calls are C's.
    FromC,
    // A byte for the room, and its place where the hop stands.
    Room,
    // How many counters are lent, K and, where the hop stands, how many words are lent.
    Lend,
}

// The dump begins with these records, and goes on with zeros. Where they start:
//   0: A record of peers.
//   17: 10.0.0.0/8, with ORIGIN, AS_PATH and NEXT_HOP 10.9.9.1.
//   59: 10.1.0.0/16 in three entries: 10.9.9.7, 10.9.9.4 and 10.9.9.1.
//   125: 10.255/9, a bit after whose length is set, with no NEXT_HOP, no attributes, and 10.9.9.8.
//   181: 11.0.0.0/8 by 10.9.9.1, and prefix length 33.
//   255: It, and a NEXT_HOP of three bytes.
//   324: It, and a count of one with two entries.
//   409: It, and a count of two with one entry.
//   479: It, and a byte too many.
//   550: It, and a byte too few.
//   619: It, and a body of no bytes.
//   666: It, and one of four bytes.
//   717: It, and one of six bytes.
//   770: It, and the default with no entries, which is well-formed.
//   824: It, and two NEXT_HOPs in an entry.
//   901: It, and two in the second entry.
//   993: It, and a second entry whose attributes overrun.
//   1077: It, and one NEXT_HOP in each of two entries, which is well-formed.
//   1163: 11.0.0.0/8 by 10.9.9.1 and by 10.9.9.4, 10.0.0.0/8 and 9.0.0.0/8, the default, 10.0.0.1/32, 12.0.0.0/8
//     with no entry, and a record of no hop.
//   1451: Kinds 13/4, 12/2, 16/2, 269/2, 13/3 and 13/258, 11.0.0.0/8, and kind 16/4 with a body of 2^32 - 1 bytes.
//   1582: 11.0.0.0/8, and a header with a body of 65,537 bytes.
//   1629: It, and such a header of another kind.
//   1676: 127.0.0.0/8, 239.255.255.255/32 and 224.0.0.0/4, which are odd, and 126.0.0.0/7, 224.0.0.0/3, 240.0.0.0/4
//     and 126.255.255.255/32, which are not, all by 10.9.9.1.
//   1927: The front of a record of 65,548 bytes: 10.0.0.0/8 by 10.9.9.1, and an AS_PATH of 65,510 bytes. Zeros
//     follow.
const RECORDS: [u8; 1966] = *b"\x65\x00\x00\x00\x00\x0d\x00\x01\x00\x00\x00\x05\x01\x02\x03\x04\x05\
    \x65\x00\x00\x00\x00\x0d\x00\x02\x00\x00\x00\x1e\x00\x00\x00\x00\x08\x0a\x00\x01\x00\x01\x00\x00\x00\x09\x00\
    \x0e\x40\x01\x01\x00\x40\x02\x00\x40\x03\x04\x0a\x09\x09\x01\
    \x65\x00\x00\x00\x00\x0d\x00\x02\x00\x00\x00\x36\x00\x00\x00\x00\x10\x0a\x01\x00\x03\x00\x01\x00\x00\x00\x09\
    \x00\x07\x40\x03\x04\x0a\x09\x09\x07\x00\x01\x00\x00\x00\x09\x00\x07\x40\x03\x04\x0a\x09\x09\x04\x00\x01\x00\
    \x00\x00\x09\x00\x07\x40\x03\x04\x0a\x09\x09\x01\
    \x65\x00\x00\x00\x00\x0d\x00\x02\x00\x00\x00\x2c\x00\x00\x00\x00\x09\x0a\xff\x00\x03\x00\x01\x00\x00\x00\x09\
    \x00\x04\x40\x01\x01\x00\x00\x01\x00\x00\x00\x09\x00\x00\x00\x01\x00\x00\x00\x09\x00\x07\x40\x03\x04\x0a\x09\
    \x09\x08\
    \x65\x00\x00\x00\x00\x0d\x00\x02\x00\x00\x00\x17\x00\x00\x00\x00\x08\x0b\x00\x01\x00\x01\x00\x00\x00\x09\x00\
    \x07\x40\x03\x04\x0a\x09\x09\x01\x65\x00\x00\x00\x00\x0d\x00\x02\x00\x00\x00\x1b\x00\x00\x00\x00\x21\x0a\x00\
    \x00\x00\x00\x00\x01\x00\x01\x00\x00\x00\x09\x00\x07\x40\x03\x04\x0a\x09\x09\x01\
    \x65\x00\x00\x00\x00\x0d\x00\x02\x00\x00\x00\x17\x00\x00\x00\x00\x08\x0b\x00\x01\x00\x01\x00\x00\x00\x09\x00\
    \x07\x40\x03\x04\x0a\x09\x09\x01\x65\x00\x00\x00\x00\x0d\x00\x02\x00\x00\x00\x16\x00\x00\x00\x00\x08\x0a\x00\
    \x01\x00\x01\x00\x00\x00\x09\x00\x06\x40\x03\x03\x0a\x09\x09\
    \x65\x00\x00\x00\x00\x0d\x00\x02\x00\x00\x00\x17\x00\x00\x00\x00\x08\x0b\x00\x01\x00\x01\x00\x00\x00\x09\x00\
    \x07\x40\x03\x04\x0a\x09\x09\x01\x65\x00\x00\x00\x00\x0d\x00\x02\x00\x00\x00\x26\x00\x00\x00\x00\x08\x0a\x00\
    \x01\x00\x01\x00\x00\x00\x09\x00\x07\x40\x03\x04\x0a\x09\x09\x01\x00\x01\x00\x00\x00\x09\x00\x07\x40\x03\x04\
    \x0a\x09\x09\x04\
    \x65\x00\x00\x00\x00\x0d\x00\x02\x00\x00\x00\x17\x00\x00\x00\x00\x08\x0b\x00\x01\x00\x01\x00\x00\x00\x09\x00\
    \x07\x40\x03\x04\x0a\x09\x09\x01\x65\x00\x00\x00\x00\x0d\x00\x02\x00\x00\x00\x17\x00\x00\x00\x00\x08\x0a\x00\
    \x02\x00\x01\x00\x00\x00\x09\x00\x07\x40\x03\x04\x0a\x09\x09\x01\
    \x65\x00\x00\x00\x00\x0d\x00\x02\x00\x00\x00\x17\x00\x00\x00\x00\x08\x0b\x00\x01\x00\x01\x00\x00\x00\x09\x00\
    \x07\x40\x03\x04\x0a\x09\x09\x01\x65\x00\x00\x00\x00\x0d\x00\x02\x00\x00\x00\x18\x00\x00\x00\x00\x08\x0a\x00\
    \x01\x00\x01\x00\x00\x00\x09\x00\x07\x40\x03\x04\x0a\x09\x09\x01\x00\
    \x65\x00\x00\x00\x00\x0d\x00\x02\x00\x00\x00\x17\x00\x00\x00\x00\x08\x0b\x00\x01\x00\x01\x00\x00\x00\x09\x00\
    \x07\x40\x03\x04\x0a\x09\x09\x01\x65\x00\x00\x00\x00\x0d\x00\x02\x00\x00\x00\x16\x00\x00\x00\x00\x08\x0a\x00\
    \x01\x00\x01\x00\x00\x00\x09\x00\x07\x40\x03\x04\x0a\x09\x09\
    \x65\x00\x00\x00\x00\x0d\x00\x02\x00\x00\x00\x17\x00\x00\x00\x00\x08\x0b\x00\x01\x00\x01\x00\x00\x00\x09\x00\
    \x07\x40\x03\x04\x0a\x09\x09\x01\x65\x00\x00\x00\x00\x0d\x00\x02\x00\x00\x00\x00\
    \x65\x00\x00\x00\x00\x0d\x00\x02\x00\x00\x00\x17\x00\x00\x00\x00\x08\x0b\x00\x01\x00\x01\x00\x00\x00\x09\x00\
    \x07\x40\x03\x04\x0a\x09\x09\x01\x65\x00\x00\x00\x00\x0d\x00\x02\x00\x00\x00\x04\x00\x00\x00\x00\
    \x65\x00\x00\x00\x00\x0d\x00\x02\x00\x00\x00\x17\x00\x00\x00\x00\x08\x0b\x00\x01\x00\x01\x00\x00\x00\x09\x00\
    \x07\x40\x03\x04\x0a\x09\x09\x01\x65\x00\x00\x00\x00\x0d\x00\x02\x00\x00\x00\x06\x00\x00\x00\x00\x00\x00\
    \x65\x00\x00\x00\x00\x0d\x00\x02\x00\x00\x00\x17\x00\x00\x00\x00\x08\x0b\x00\x01\x00\x01\x00\x00\x00\x09\x00\
    \x07\x40\x03\x04\x0a\x09\x09\x01\x65\x00\x00\x00\x00\x0d\x00\x02\x00\x00\x00\x07\x00\x00\x00\x00\x00\x00\x00\
    \x65\x00\x00\x00\x00\x0d\x00\x02\x00\x00\x00\x17\x00\x00\x00\x00\x08\x0b\x00\x01\x00\x01\x00\x00\x00\x09\x00\
    \x07\x40\x03\x04\x0a\x09\x09\x01\x65\x00\x00\x00\x00\x0d\x00\x02\x00\x00\x00\x1e\x00\x00\x00\x00\x08\x0a\x00\
    \x01\x00\x01\x00\x00\x00\x09\x00\x0e\x40\x03\x04\x0a\x09\x09\x01\x40\x03\x04\x0a\x09\x09\x01\
    \x65\x00\x00\x00\x00\x0d\x00\x02\x00\x00\x00\x17\x00\x00\x00\x00\x08\x0b\x00\x01\x00\x01\x00\x00\x00\x09\x00\
    \x07\x40\x03\x04\x0a\x09\x09\x01\x65\x00\x00\x00\x00\x0d\x00\x02\x00\x00\x00\x2d\x00\x00\x00\x00\x08\x0a\x00\
    \x02\x00\x01\x00\x00\x00\x09\x00\x07\x40\x03\x04\x0a\x09\x09\x01\x00\x01\x00\x00\x00\x09\x00\x0e\x40\x03\x04\
    \x0a\x09\x09\x04\x40\x03\x04\x0a\x09\x09\x04\
    \x65\x00\x00\x00\x00\x0d\x00\x02\x00\x00\x00\x17\x00\x00\x00\x00\x08\x0b\x00\x01\x00\x01\x00\x00\x00\x09\x00\
    \x07\x40\x03\x04\x0a\x09\x09\x01\x65\x00\x00\x00\x00\x0d\x00\x02\x00\x00\x00\x25\x00\x00\x00\x00\x08\x0a\x00\
    \x02\x00\x01\x00\x00\x00\x09\x00\x07\x40\x03\x04\x0a\x09\x09\x01\x00\x01\x00\x00\x00\x09\x00\x06\x40\x03\x04\
    \x0a\x09\x09\
    \x65\x00\x00\x00\x00\x0d\x00\x02\x00\x00\x00\x17\x00\x00\x00\x00\x08\x0b\x00\x01\x00\x01\x00\x00\x00\x09\x00\
    \x07\x40\x03\x04\x0a\x09\x09\x01\x65\x00\x00\x00\x00\x0d\x00\x02\x00\x00\x00\x27\x00\x00\x00\x00\x08\x0a\x00\
    \x02\x00\x01\x00\x00\x00\x09\x00\x07\x40\x03\x04\x0a\x09\x09\x01\x00\x01\x00\x00\x00\x09\x00\x08\x50\x03\x00\
    \x04\x0a\x09\x09\x04\
    \x65\x00\x00\x00\x00\x0d\x00\x02\x00\x00\x00\x17\x00\x00\x00\x00\x08\x0b\x00\x01\x00\x01\x00\x00\x00\x09\x00\
    \x07\x40\x03\x04\x0a\x09\x09\x01\x65\x00\x00\x00\x00\x0d\x00\x02\x00\x00\x00\x17\x00\x00\x00\x00\x08\x0b\x00\
    \x01\x00\x01\x00\x00\x00\x09\x00\x07\x40\x03\x04\x0a\x09\x09\x04\x65\x00\x00\x00\x00\x0d\x00\x02\x00\x00\x00\
    \x17\x00\x00\x00\x00\x08\x0a\x00\x01\x00\x01\x00\x00\x00\x09\x00\x07\x40\x03\x04\x0a\x09\x09\x04\x65\x00\x00\
    \x00\x00\x0d\x00\x02\x00\x00\x00\x17\x00\x00\x00\x00\x08\x09\x00\x01\x00\x01\x00\x00\x00\x09\x00\x07\x40\x03\
    \x04\x0a\x09\x09\x04\x65\x00\x00\x00\x00\x0d\x00\x02\x00\x00\x00\x16\x00\x00\x00\x00\x00\x00\x01\x00\x01\x00\
    \x00\x00\x09\x00\x07\x40\x03\x04\x0a\x09\x09\x01\x65\x00\x00\x00\x00\x0d\x00\x02\x00\x00\x00\x1a\x00\x00\x00\
    \x00\x20\x0a\x00\x00\x01\x00\x01\x00\x01\x00\x00\x00\x09\x00\x07\x40\x03\x04\x0a\x09\x09\x01\x65\x00\x00\x00\
    \x00\x0d\x00\x02\x00\x00\x00\x08\x00\x00\x00\x00\x08\x0c\x00\x00\x65\x00\x00\x00\x00\x0d\x00\x02\x00\x00\x00\
    \x2c\x00\x00\x00\x00\x09\x0a\xff\x00\x03\x00\x01\x00\x00\x00\x09\x00\x04\x40\x01\x01\x00\x00\x01\x00\x00\x00\
    \x09\x00\x00\x00\x01\x00\x00\x00\x09\x00\x07\x40\x03\x04\x0a\x09\x09\x08\
    \x65\x00\x00\x00\x00\x0d\x00\x04\x00\x00\x00\x00\x65\x00\x00\x00\x00\x0c\x00\x02\x00\x00\x00\x01\x01\x65\x00\
    \x00\x00\x00\x10\x00\x02\x00\x00\x00\x02\x01\x02\x65\x00\x00\x00\x01\x0d\x00\x02\x00\x00\x00\x03\x01\x02\x03\
    \x65\x00\x00\x00\x00\x0d\x00\x03\x00\x00\x00\x01\x01\x65\x00\x00\x00\x00\x0d\x01\x02\x00\x00\x00\x01\x01\x65\
    \x00\x00\x00\x00\x0d\x00\x02\x00\x00\x00\x17\x00\x00\x00\x00\x08\x0b\x00\x01\x00\x01\x00\x00\x00\x09\x00\x07\
    \x40\x03\x04\x0a\x09\x09\x01\x65\x00\x00\x00\x00\x10\x00\x04\xff\xff\xff\xff\x01\x02\x03\x04\
    \x65\x00\x00\x00\x00\x0d\x00\x02\x00\x00\x00\x17\x00\x00\x00\x00\x08\x0b\x00\x01\x00\x01\x00\x00\x00\x09\x00\
    \x07\x40\x03\x04\x0a\x09\x09\x01\x65\x00\x00\x00\x00\x0d\x00\x02\x00\x01\x00\x01\
    \x65\x00\x00\x00\x00\x0d\x00\x02\x00\x00\x00\x17\x00\x00\x00\x00\x08\x0b\x00\x01\x00\x01\x00\x00\x00\x09\x00\
    \x07\x40\x03\x04\x0a\x09\x09\x01\x65\x00\x00\x00\x00\x0d\x00\x01\x00\x01\x00\x01\
    \x65\x00\x00\x00\x00\x0d\x00\x02\x00\x00\x00\x17\x00\x00\x00\x00\x08\x7f\x00\x01\x00\x01\x00\x00\x00\x09\x00\
    \x07\x40\x03\x04\x0a\x09\x09\x01\x65\x00\x00\x00\x00\x0d\x00\x02\x00\x00\x00\x1a\x00\x00\x00\x00\x20\xef\xff\
    \xff\xff\x00\x01\x00\x01\x00\x00\x00\x09\x00\x07\x40\x03\x04\x0a\x09\x09\x01\x65\x00\x00\x00\x00\x0d\x00\x02\
    \x00\x00\x00\x17\x00\x00\x00\x00\x04\xe0\x00\x01\x00\x01\x00\x00\x00\x09\x00\x07\x40\x03\x04\x0a\x09\x09\x01\
    \x65\x00\x00\x00\x00\x0d\x00\x02\x00\x00\x00\x17\x00\x00\x00\x00\x07\x7e\x00\x01\x00\x01\x00\x00\x00\x09\x00\
    \x07\x40\x03\x04\x0a\x09\x09\x01\x65\x00\x00\x00\x00\x0d\x00\x02\x00\x00\x00\x17\x00\x00\x00\x00\x03\xe0\x00\
    \x01\x00\x01\x00\x00\x00\x09\x00\x07\x40\x03\x04\x0a\x09\x09\x01\x65\x00\x00\x00\x00\x0d\x00\x02\x00\x00\x00\
    \x17\x00\x00\x00\x00\x04\xf0\x00\x01\x00\x01\x00\x00\x00\x09\x00\x07\x40\x03\x04\x0a\x09\x09\x01\x65\x00\x00\
    \x00\x00\x0d\x00\x02\x00\x00\x00\x1a\x00\x00\x00\x00\x20\x7e\xff\xff\xff\x00\x01\x00\x01\x00\x00\x00\x09\x00\
    \x07\x40\x03\x04\x0a\x09\x09\x01\
    \x65\x00\x00\x00\x00\x0d\x00\x02\x00\x01\x00\x00\x00\x00\x00\x00\x08\x0a\x00\x01\x00\x01\x00\x00\x00\x09\xff\
    \xf1\x40\x03\x04\x0a\x09\x09\x01\x50\x02\xff\xe6";

const CASES: [u64; 473] = [
    // A list in which 10.9.9.1 has places 1 and 3, and 10.9.9.4 place 2.
    0x6_0a090909_00_00000,
    0x6_0a090901_00_00001,
    0x6_0a090904_00_00002,
    0x6_0a090901_00_00003,
    // The first four records in one chunk, an end twice, and then a chunk; and in one chunk twice.
    0x0_00000000_00_00000,
    0x2_00000000_00_000b5,
    0x3_00000000_00_00000,
    0x3_00000000_00_00000,
    0x2_00000000_00_000b5,
    0x0_00000000_00_00000,
    0x2_00000000_00_000b5,
    0x2_00000000_00_000b5,
    // Cut: no byte; within the first header, after it, within its body and after that; within a header and
    // after it; within a body, before its last byte and after that.
    0x0_00000000_00_00000,
    0x2_00000000_00_00000,
    0x2_00000000_00_00005,
    0x2_00000005_00_00000,
    0x2_00000005_00_00007,
    0x2_0000000c_00_00002,
    0x2_0000000e_00_00003,
    0x2_00000011_00_00003,
    0x2_00000014_00_00009,
    0x2_0000001d_00_00001,
    0x2_0000001e_00_0001c,
    0x2_0000003a_00_00001,
    0x2_0000003b_00_0000c,
    0x2_00000047_00_0006d,
    0x2_000000b4_00_00001,
    0x3_00000000_00_00000,
    0x2_00000000_00_00001,
    // The end inside a header, a body that is stepped over, a header again, and a body that is read; each once
    // more, and then a chunk.
    0x0_00000000_00_00000,
    0x2_00000000_00_00001,
    0x3_00000000_00_00000,
    0x3_00000000_00_00000,
    0x2_00000001_00_00001,
    0x0_00000000_00_00000,
    0x2_00000000_00_0000b,
    0x3_00000000_00_00000,
    0x3_00000000_00_00000,
    0x2_0000000b_00_00001,
    0x0_00000000_00_00000,
    0x2_00000000_00_0000c,
    0x3_00000000_00_00000,
    0x3_00000000_00_00000,
    0x2_0000000c_00_00001,
    0x0_00000000_00_00000,
    0x2_00000000_00_00010,
    0x3_00000000_00_00000,
    0x3_00000000_00_00000,
    0x2_00000010_00_00001,
    0x0_00000000_00_00000,
    0x2_00000000_00_00012,
    0x3_00000000_00_00000,
    0x3_00000000_00_00000,
    0x2_00000012_00_00001,
    0x0_00000000_00_00000,
    0x2_00000000_00_0001d,
    0x3_00000000_00_00000,
    0x3_00000000_00_00000,
    0x2_0000001d_00_00001,
    0x0_00000000_00_00000,
    0x2_00000000_00_0003a,
    0x3_00000000_00_00000,
    0x3_00000000_00_00000,
    0x2_0000003a_00_00001,
    // A good record and then one that is not: the good one stands, and the import has ended. Prefix length 33;
    // a NEXT_HOP of three bytes; an entry less than there are, and one more; a byte more, and one less; bodies
    // of 0, 4, 6 and 7 bytes; two NEXT_HOPs in an entry, in the second of two entries too; attributes that
    // overrun.
    0x0_00000000_00_00000,
    0x2_000000b5_00_0004a,
    0x2_000000b5_00_00003,
    0x3_00000000_00_00000,
    0x0_00000000_00_00000,
    0x2_000000ff_00_00045,
    0x2_000000ff_00_00003,
    0x3_00000000_00_00000,
    0x0_00000000_00_00000,
    0x2_00000144_00_00055,
    0x2_00000144_00_00003,
    0x3_00000000_00_00000,
    0x0_00000000_00_00000,
    0x2_00000199_00_00046,
    0x2_00000199_00_00003,
    0x3_00000000_00_00000,
    0x0_00000000_00_00000,
    0x2_000001df_00_00047,
    0x2_000001df_00_00003,
    0x3_00000000_00_00000,
    0x0_00000000_00_00000,
    0x2_00000226_00_00045,
    0x2_00000226_00_00003,
    0x3_00000000_00_00000,
    0x0_00000000_00_00000,
    0x2_0000026b_00_0002f,
    0x2_0000026b_00_00003,
    0x3_00000000_00_00000,
    0x0_00000000_00_00000,
    0x2_0000029a_00_00033,
    0x2_0000029a_00_00003,
    0x3_00000000_00_00000,
    0x0_00000000_00_00000,
    0x2_000002cd_00_00035,
    0x2_000002cd_00_00003,
    0x3_00000000_00_00000,
    0x0_00000000_00_00000,
    0x2_00000302_00_00036,
    0x2_00000302_00_00003,
    0x3_00000000_00_00000,
    0x0_00000000_00_00000,
    0x2_00000338_00_0004d,
    0x2_00000338_00_00003,
    0x3_00000000_00_00000,
    0x0_00000000_00_00000,
    0x2_00000385_00_0005c,
    0x2_00000385_00_00003,
    0x3_00000000_00_00000,
    0x0_00000000_00_00000,
    0x2_000003e1_00_00054,
    0x2_000003e1_00_00003,
    0x3_00000000_00_00000,
    0x0_00000000_00_00000,
    0x2_00000435_00_00056,
    0x2_00000435_00_00003,
    0x3_00000000_00_00000,
    // The same route with another hop; routes of one bucket, of which the table refuses the third; the
    // default; 10.0.0.1/32; no entries; and the record of no hop.
    0x0_00000000_00_00000,
    0x2_0000048b_00_00120,
    0x3_00000000_00_00000,
    // Other kinds: types 12, 16 and 269, subtypes 1, 3 and 258, bodies of no bytes and more; and one of 2^32 -
    // 1 bytes.
    0x0_00000000_00_00000,
    0x2_000005ab_00_00083,
    0x2_00000000_00_10000,
    0x3_00000000_00_00000,
    // A body of 65,537 bytes, as soon as its header is read; of another kind it is stepped over.
    0x0_00000000_00_00000,
    0x2_0000062e_00_0002e,
    0x2_0000065c_00_00001,
    0x2_00000000_00_00001,
    0x3_00000000_00_00000,
    0x0_00000000_00_00000,
    0x2_0000065d_00_0002f,
    0x2_00000000_00_10000,
    0x2_00000000_00_00001,
    0x3_00000000_00_00000,
    // Odd prefixes are refused, and the records after them are done; in one chunk, and cut.
    0x0_00000000_00_00000,
    0x2_0000068c_00_000fb,
    0x3_00000000_00_00000,
    0x0_00000000_00_00000,
    0x2_0000068c_00_00023,
    0x2_000006af_00_00025,
    0x2_000006d4_00_00001,
    0x2_000006d5_00_000b2,
    0x3_00000000_00_00000,
    // A body of 65,536 bytes, in two chunks.
    0x0_00000000_00_00000,
    0x2_00000787_00_10000,
    0x2_00010787_00_0000c,
    0x3_00000000_00_00000,
    // 19 for a chunk of 65,537 bytes and for a count above 4,000,000,000; counts just below go on.
    0x0_00000000_00_00000,
    0x2_00000787_00_10001,
    0x5_ee6b2801_00_00000,
    0x2_00000000_00_00000,
    0x5_ee6b2800_00_00000,
    0x2_00000000_00_00000,
    0x5_ee6b2801_00_00001,
    0x2_00000000_00_00000,
    0x5_ee6b2800_00_00001,
    0x2_00000000_00_00000,
    0x5_ee6b2801_00_00002,
    0x2_00000000_00_00000,
    0x5_ee6b2800_00_00002,
    0x2_00000000_00_00000,
    0x2_0000048b_00_00120,
    // 19 comes before 1, 1 before 2, and the number that ended it before all of them.
    0x0_00000000_00_00000,
    0x9_00000200_00_00102,
    0x2_00000000_00_10001,
    0x2_00000000_00_000b5,
    0x9_000001ff_09_00101,
    0x2_00000000_00_000b5,
    0x9_000001ff_02_00102,
    0x2_00000000_00_10001,
    0x2_00000000_00_00000,
    0x9_00000200_02_00101,
    0x2_00000000_00_000b5,
    0x4_0000000d_00_00000,
    0x2_00000000_00_10001,
    0x3_00000000_00_00000,
    0x9_00000200_02_00102,
    0x2_00000000_00_00001,
    // The first four records for party 0, and then for party 1.
    0x0_00000000_00_00000,
    0x2_00000000_00_000b5,
    0x2_00000000_00_200b5,
    // 15 for party 2: after 19, 1 and 2, and after the number that ended the import.
    0x2_00000000_00_50001,
    0x9_00000200_09_00101,
    0x2_00000000_00_40001,
    0x9_00000200_02_00101,
    0x2_00000000_00_40001,
    0x9_00000200_02_00102,
    0x2_00000000_00_400b5,
    0x3_00000000_00_00000,
    0x2_00000000_00_400b5,
    // Words of any contents: ended by any number; a header of 12 bytes and up; bodies that have no room, or
    // whose header is of another kind.
    0x0_00000000_00_00000,
    0x4_00000001_00_00000,
    0x2_00000000_00_10001,
    0x3_00000000_00_00000,
    0x3_00000000_00_00000,
    0x0_00000000_00_00000,
    0x4_0000000d_00_00000,
    0x4_00000005_00_00001,
    0x4_00000005_00_00002,
    0x2_00000000_00_10001,
    0x3_00000000_00_00000,
    0x3_00000000_00_00000,
    0x0_00000000_00_00000,
    0x4_00010000_00_00000,
    0x4_00000001_00_00001,
    0x4_00000001_00_00002,
    0x2_00000000_00_10001,
    0x3_00000000_00_00000,
    0x3_00000000_00_00000,
    0x0_00000000_00_00000,
    0x4_00010001_00_00000,
    0x2_00000000_00_10001,
    0x3_00000000_00_00000,
    0x3_00000000_00_00000,
    0x0_00000000_00_00000,
    0x4_ffffffff_00_00000,
    0x2_00000000_00_10001,
    0x3_00000000_00_00000,
    0x3_00000000_00_00000,
    0x8_00000065_00_00000,
    0x8_00000000_00_00001,
    0x8_00000000_00_00002,
    0x8_00000000_00_00003,
    0x8_00000000_00_00004,
    0x8_0000000d_00_00005,
    0x8_00000000_00_00006,
    0x8_00000002_00_00007,
    0x8_00000000_00_00008,
    0x8_00000000_00_00009,
    0x8_00000000_00_0000a,
    0x8_00000007_00_0000b,
    0x4_00000000_00_00000,
    0x4_0000000b_00_00001,
    0x4_00000000_00_00002,
    0x2_00000000_00_00000,
    0x2_0000000d_00_00006,
    0x4_00000000_00_00000,
    0x4_0000000b_00_00001,
    0x4_00000000_00_00002,
    0x3_00000000_00_00000,
    0x0_00000000_00_00000,
    0x4_00000000_00_00000,
    0x4_0000000c_00_00001,
    0x4_00000000_00_00002,
    0x2_00000000_00_00000,
    0x2_0000000d_00_00006,
    0x4_00000000_00_00000,
    0x4_0000000c_00_00001,
    0x4_00000000_00_00002,
    0x3_00000000_00_00000,
    0x0_00000000_00_00000,
    0x4_00000000_00_00000,
    0x4_ffffffff_00_00001,
    0x4_00000000_00_00002,
    0x2_00000000_00_00000,
    0x2_0000000d_00_00006,
    0x4_00000000_00_00000,
    0x4_ffffffff_00_00001,
    0x4_00000000_00_00002,
    0x3_00000000_00_00000,
    0x0_00000000_00_00000,
    0x4_00000000_00_00000,
    0x4_0000000b_00_00001,
    0x4_00000003_00_00002,
    0x2_00000000_00_00000,
    0x2_0000000d_00_00006,
    0x4_00000000_00_00000,
    0x4_0000000b_00_00001,
    0x4_00000003_00_00002,
    0x3_00000000_00_00000,
    0x0_00000000_00_00000,
    0x4_00000000_00_00000,
    0x4_0000000c_00_00001,
    0x4_00000003_00_00002,
    0x2_00000000_00_00000,
    0x2_0000000d_00_00006,
    0x4_00000000_00_00000,
    0x4_0000000c_00_00001,
    0x4_00000003_00_00002,
    0x3_00000000_00_00000,
    0x0_00000000_00_00000,
    0x4_00000000_00_00000,
    0x4_00010007_00_00001,
    0x4_00000005_00_00002,
    0x2_00000000_00_00000,
    0x2_0000000d_00_00006,
    0x4_00000000_00_00000,
    0x4_00010007_00_00001,
    0x4_00000005_00_00002,
    0x3_00000000_00_00000,
    0x0_00000000_00_00000,
    0x4_00000000_00_00000,
    0x4_00010008_00_00001,
    0x4_00000005_00_00002,
    0x2_00000000_00_00000,
    0x2_0000000d_00_00006,
    0x4_00000000_00_00000,
    0x4_00010008_00_00001,
    0x4_00000005_00_00002,
    0x3_00000000_00_00000,
    0x0_00000000_00_00000,
    0x4_00000000_00_00000,
    0x4_0001000b_00_00001,
    0x4_00000001_00_00002,
    0x2_00000000_00_00000,
    0x2_0000000d_00_00006,
    0x4_00000000_00_00000,
    0x4_0001000b_00_00001,
    0x4_00000001_00_00002,
    0x3_00000000_00_00000,
    0x0_00000000_00_00000,
    0x4_00000000_00_00000,
    0x4_fffffffe_00_00001,
    0x4_00000003_00_00002,
    0x2_00000000_00_00000,
    0x2_0000000d_00_00006,
    0x4_00000000_00_00000,
    0x4_fffffffe_00_00001,
    0x4_00000003_00_00002,
    0x3_00000000_00_00000,
    0x0_00000000_00_00000,
    0x4_00000000_00_00000,
    0x4_ffffffff_00_00001,
    0x4_ffffffff_00_00002,
    0x2_00000000_00_00000,
    0x2_0000000d_00_00006,
    0x4_00000000_00_00000,
    0x4_ffffffff_00_00001,
    0x4_ffffffff_00_00002,
    0x3_00000000_00_00000,
    0x0_00000000_00_00000,
    0x8_00000004_00_00007,
    0x4_00000000_00_00000,
    0x4_0000000b_00_00001,
    0x4_00000000_00_00002,
    0x2_00000000_00_00000,
    0x2_0000000d_00_00006,
    0x4_00000000_00_00000,
    0x4_0000000b_00_00001,
    0x4_00000000_00_00002,
    0x3_00000000_00_00000,
    0x0_00000000_00_00000,
    0x4_00000000_00_00000,
    0x4_0000000c_00_00001,
    0x4_00000000_00_00002,
    0x2_00000000_00_00000,
    0x2_0000000d_00_00006,
    0x4_00000000_00_00000,
    0x4_0000000c_00_00001,
    0x4_00000000_00_00002,
    0x3_00000000_00_00000,
    0x0_00000000_00_00000,
    0x4_00000000_00_00000,
    0x4_ffffffff_00_00001,
    0x4_00000000_00_00002,
    0x2_00000000_00_00000,
    0x2_0000000d_00_00006,
    0x4_00000000_00_00000,
    0x4_ffffffff_00_00001,
    0x4_00000000_00_00002,
    0x3_00000000_00_00000,
    0x0_00000000_00_00000,
    0x4_00000000_00_00000,
    0x4_0000000b_00_00001,
    0x4_00000003_00_00002,
    0x2_00000000_00_00000,
    0x2_0000000d_00_00006,
    0x4_00000000_00_00000,
    0x4_0000000b_00_00001,
    0x4_00000003_00_00002,
    0x3_00000000_00_00000,
    0x0_00000000_00_00000,
    0x4_00000000_00_00000,
    0x4_0000000c_00_00001,
    0x4_00000003_00_00002,
    0x2_00000000_00_00000,
    0x2_0000000d_00_00006,
    0x4_00000000_00_00000,
    0x4_0000000c_00_00001,
    0x4_00000003_00_00002,
    0x3_00000000_00_00000,
    0x0_00000000_00_00000,
    0x4_00000000_00_00000,
    0x4_00010007_00_00001,
    0x4_00000005_00_00002,
    0x2_00000000_00_00000,
    0x2_0000000d_00_00006,
    0x4_00000000_00_00000,
    0x4_00010007_00_00001,
    0x4_00000005_00_00002,
    0x3_00000000_00_00000,
    0x0_00000000_00_00000,
    0x4_00000000_00_00000,
    0x4_00010008_00_00001,
    0x4_00000005_00_00002,
    0x2_00000000_00_00000,
    0x2_0000000d_00_00006,
    0x4_00000000_00_00000,
    0x4_00010008_00_00001,
    0x4_00000005_00_00002,
    0x3_00000000_00_00000,
    0x0_00000000_00_00000,
    0x4_00000000_00_00000,
    0x4_0001000b_00_00001,
    0x4_00000001_00_00002,
    0x2_00000000_00_00000,
    0x2_0000000d_00_00006,
    0x4_00000000_00_00000,
    0x4_0001000b_00_00001,
    0x4_00000001_00_00002,
    0x3_00000000_00_00000,
    0x0_00000000_00_00000,
    0x4_00000000_00_00000,
    0x4_fffffffe_00_00001,
    0x4_00000003_00_00002,
    0x2_00000000_00_00000,
    0x2_0000000d_00_00006,
    0x4_00000000_00_00000,
    0x4_fffffffe_00_00001,
    0x4_00000003_00_00002,
    0x3_00000000_00_00000,
    0x0_00000000_00_00000,
    0x4_00000000_00_00000,
    0x4_ffffffff_00_00001,
    0x4_ffffffff_00_00002,
    0x2_00000000_00_00000,
    0x2_0000000d_00_00006,
    0x4_00000000_00_00000,
    0x4_ffffffff_00_00001,
    0x4_ffffffff_00_00002,
    0x3_00000000_00_00000,
    0x0_00000000_00_00000,
    // As C calls them: the first four records, cut; a spoilt one; 19, 1 and 2, which change nothing; and an
    // end inside a record.
    0x7_00000000_00_00000,
    0x0_00000000_00_00000,
    0x2_00000000_00_00000,
    0x2_00000000_00_00005,
    0x2_00000005_00_00000,
    0x2_00000005_00_00007,
    0x2_0000000c_00_00002,
    0x2_0000000e_00_00003,
    0x2_00000011_00_00003,
    0x2_00000014_00_00009,
    0x2_0000001d_00_00001,
    0x2_0000001e_00_0001c,
    0x2_0000003a_00_00001,
    0x2_0000003b_00_0000c,
    0x2_00000047_00_0006d,
    0x2_000000b4_00_00001,
    0x3_00000000_00_00000,
    0x2_00000000_00_00001,
    0x0_00000000_00_00000,
    0x2_0000062e_00_0002f,
    0x3_00000000_00_00000,
    0x0_00000000_00_00000,
    0x2_0000048b_00_00028,
    0x2_00000000_00_10001,
    0x9_00000200_09_00102,
    0x2_00000000_00_00001,
    0x9_00000200_02_00101,
    0x2_00000000_00_00001,
    0x9_00000200_02_00102,
    0x3_00000000_00_00000,
    0x3_00000000_00_00000,
    0x2_00000000_00_00001,
    // Party 1, and 15 for party 2.
    0x0_00000000_00_00000,
    0x2_00000000_00_200b5,
    0x2_00000000_00_400b5,
    // Odd prefixes.
    0x0_00000000_00_00000,
    0x2_0000068c_00_000fb,
    0x3_00000000_00_00000,
];

// K, how much is lent to a chunk, whether it is C that calls, and for which party.
#[derive(Clone, Copy)]
struct Lent {
    k: u32,
    counters: usize,
    slots: usize,
    from_c: bool,
    party: u32,
}

// What a case does; none where its digit stands for nothing.
fn kind_of(case: Case) -> Option<Kind> {
    match case.digit() {
        0 => Some(Kind::Begin),
        2 => Some(Kind::Chunk),
        3 => Some(Kind::End),
        4 => Some(Kind::Word),
        5 => Some(Kind::Count),
        6 => Some(Kind::Hop),
        7 => Some(Kind::FromC),
        8 => Some(Kind::Room),
        9 => Some(Kind::Lend),
        _ => None,
    }
}

// What is lent after a case.
fn lend(lent: Lent, case: Case) -> Lent {
    let next = Lent {
        party: case.party(),
        ..lent
    };
    match kind_of(case) {
        Some(Kind::Lend) => Lent {
            k: case.length(),
            counters: case.prefix() as usize,
            slots: case.place(),
            ..next
        },
        Some(Kind::FromC) => Lent {
            from_c: true,
            ..next
        },
        _ => next,
    }
}

// A chunk, by the crates' own call or as C calls it.
fn take(
    rt: &impl Print,
    lent: Lent,
    counters: &mut [u8],
    slots: &mut [u32],
    hops: &[u32],
    counts: &mut [u32; 3],
    words: &mut [u32; 3],
    room: &mut [u8; 65548],
    chunk: &[u8],
) -> io::Result<()> {
    if lent.from_c {
        let d = [4u8; 32];
        let number = gateway::gateway_import(
            lent.k, &d, 1, 2, 1, 2, 1, counters, slots, lent.party, hops, counts, words, room,
            chunk,
        );
        cases::digits(rt, number)
    } else {
        let t = cases::small(lent.k, 2);
        let number = import_calls::import_chunk(
            t, counters, slots, lent.party, hops, counts, words, room, chunk,
        );
        cases::digits(rt, number)
    }
}

// So many bytes of the dump from a place on, over as much of the table as is lent.
fn chunk(
    rt: &impl Print,
    lent: Lent,
    counters: &mut [u8],
    slots: &mut [u32],
    hops: &[u32],
    counts: &mut [u32; 3],
    words: &mut [u32; 3],
    room: &mut [u8; 65548],
    dump: &[u8],
    case: Case,
) -> io::Result<()> {
    let from = cases::up_to(case.prefix() as usize, dump);
    take(
        rt,
        lent,
        cases::front_mut(lent.counters, counters),
        cases::front_mut(lent.slots, slots),
        hops,
        counts,
        words,
        room,
        cases::front(case.place(), &dump[from..]),
    )?;
    cases::show(rt, counters, slots, room)
}

fn end(rt: &impl Print, from_c: bool, words: &mut [u32; 3]) -> io::Result<()> {
    if from_c {
        cases::digits(rt, gateway::gateway_end_stream(words))
    } else {
        cases::digits(rt, stream_records::end_stream(words))
    }
}

// A case, and what it writes.
fn line(
    rt: &impl Print,
    lent: Lent,
    counters: &mut [u8; 512],
    slots: &mut [u32; 258],
    hops: &mut [u32; 8],
    counts: &mut [u32; 3],
    words: &mut [u32; 3],
    room: &mut [u8; 65548],
    dump: &[u8],
    case: Case,
) -> io::Result<()> {
    let n = case.prefix();
    let place = case.place();
    cases::begin(rt, case)?;
    match kind_of(case) {
        Some(Kind::Begin) => {
            let outcome = table::clear(cases::small(2, 2), counters, slots);
            cases::digits(rt, number_given(outcome))?;
            *counts = [0; 3];
            *words = [0; 3];
        }
        Some(Kind::Chunk) => chunk(
            rt, lent, counters, slots, hops, counts, words, room, dump, case,
        )?,
        Some(Kind::End) => end(rt, lent.from_c, words)?,
        Some(Kind::Word) => cases::put(words, place, n),
        Some(Kind::Count) => cases::put(counts, place, n),
        Some(Kind::Hop) => cases::put(hops, place, n),
        Some(Kind::Room) => cases::put(room, place, case.byte()),
        Some(Kind::FromC) | Some(Kind::Lend) | None => {}
    }
    cases::finish(rt, counts, words)
}

// The cases of a list, one after the other over the same memory.
fn run(
    rt: &impl Print,
    numbers: &[u64],
    counters: &mut [u8; 512],
    slots: &mut [u32; 258],
    hops: &mut [u32; 8],
    counts: &mut [u32; 3],
    words: &mut [u32; 3],
    room: &mut [u8; 65548],
    dump: &[u8],
) -> io::Result<()> {
    let mut lent = Lent {
        k: 2,
        counters: 512,
        slots: 258,
        from_c: false,
        party: 0,
    };
    for number in numbers {
        let case = Case(*number);
        lent = lend(lent, case);
        line(
            rt, lent, counters, slots, hops, counts, words, room, dump, case,
        )?;
    }
    Ok(())
}

fn main(rt: HostRuntime) -> io::Result<()> {
    let mut counters = [7u8; 512];
    let mut slots = [7u32; 258];
    let mut hops = [0u32; 8];
    let mut counts = [0u32; 3];
    let mut words = [0u32; 3];
    let mut room = [0xaau8; 65548];
    let mut dump = [0u8; 131108];
    cases::fill(&mut dump, &RECORDS);
    run(
        &rt,
        &CASES,
        &mut counters,
        &mut slots,
        &mut hops,
        &mut counts,
        &mut words,
        &mut room,
        &dump,
    )
}
