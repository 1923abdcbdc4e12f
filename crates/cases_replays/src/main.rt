// A recorded day replayed in chunks, by the crates' own calls and then as C calls them, over a table of settings
// T. A line has a case, what it gives back if that is a call, and what is lent then holds: after a chunk sums of
// the table and of the room's front, and in every line the tally and the stream's words. The file stdout comes from
// the rules alone: tests/cases works it out.
#![tactic(auto)]

use cases::Case;
use rules::number_given;
use std::io;

// What a case does, beside the damage of crates/cases, whose words are here those of the tally.
#[derive(Clone, Copy)]
enum Kind {
    // All begins anew: a cleared table, zeros for the stream's words, the tally FIGURES, and the day but for a
    // byte, whose place stands where the hop does. Byte 0x65 at place 0 is the day's own.
    Begin,
    // The bytes of the day from a place on, K and S where the length stands and, where the hop does, how many,
    // for a party.
    Chunk(Caller),
    End(Caller),
}

// Who calls.
#[derive(Clone, Copy)]
enum Caller {
    Rattle,
    C,
}

// What a tally begins with. What is counted is added to the last digit, in hex.
const FIGURES: [u32; 23] = [
    0x10, 0x20, 0x30, 0x40, 0x50, 0x60, 0x70, 0x80, 0x90, 0xa0, 0xb0, 0xc0, 0xd0, 0xe0, 0xf0,
    0x100, 0x110, 0x120, 0x130, 0x140, 0x150, 0x160, 0x170,
];

// The next hops: 10.9.9.1 has places 1 and 3.
const HOPS: [u32; 4] = [0x0a090909, 0x0a090901, 0x0a090904, 0x0a090901];

// The day begins with these records, and goes on with zeros. Where they start:
//   0: Subtype 1: an UPDATE that announces 10.0.0.0/8 and 9.0.0.0/8 by 10.9.9.1.
//   62: Subtype 4: an UPDATE that withdraws 9.0.0.0/8 and 11.0.0.0/8, and announces 10.0.0.0/8, 8.0.0.0/8,
//     12.0.0.0/8 and 127.0.0.0/8 by 10.9.9.4. Its message starts at 94.
//   136: Subtype 4: a KEEPALIVE. Its message starts at 168.
//   187: Subtype 1: an UPDATE of 23 bytes, which does nothing.
//   238: Subtype 4: IPv6, with a body that is a byte too short for IPv4.
//   288: Subtype 5, with a body of eight bytes.
//   308: Subtype 4, with a body of 65,536 bytes, which are zeros.
const RECORDS: [u8; 320] = *b"\
    \x65\x00\x00\x00\x00\x10\x00\x01\x00\x00\x00\x32\xfb\xf4\x00\x01\x00\x00\x00\x01\x0a\x09\x09\x01\x0a\x09\x09\
    \x02\xff\xff\xff\xff\xff\xff\xff\xff\xff\xff\xff\xff\xff\xff\xff\xff\x00\x22\x02\x00\x00\x00\x07\x40\x03\x04\
    \x0a\x09\x09\x01\x08\x0a\x08\x09\
    \x65\x00\x00\x00\x00\x10\x00\x04\x00\x00\x00\x3e\x00\x00\xfb\xf4\x00\x00\x00\x01\x00\x00\x00\x01\x0a\x09\x09\
    \x01\x0a\x09\x09\x02\xff\xff\xff\xff\xff\xff\xff\xff\xff\xff\xff\xff\xff\xff\xff\xff\x00\x2a\x02\x00\x04\x08\
    \x09\x08\x0b\x00\x07\x40\x03\x04\x0a\x09\x09\x04\x08\x0a\x08\x08\x08\x0c\x08\x7f\
    \x65\x00\x00\x00\x00\x10\x00\x04\x00\x00\x00\x27\x00\x00\xfb\xf4\x00\x00\x00\x01\x00\x00\x00\x01\x0a\x09\x09\
    \x01\x0a\x09\x09\x02\xff\xff\xff\xff\xff\xff\xff\xff\xff\xff\xff\xff\xff\xff\xff\xff\x00\x13\x04\
    \x65\x00\x00\x00\x00\x10\x00\x01\x00\x00\x00\x27\xfb\xf4\x00\x01\x00\x00\x00\x01\x0a\x09\x09\x01\x0a\x09\x09\
    \x02\xff\xff\xff\xff\xff\xff\xff\xff\xff\xff\xff\xff\xff\xff\xff\xff\x00\x17\x02\x00\x00\x00\x00\
    \x65\x00\x00\x00\x00\x10\x00\x04\x00\x00\x00\x26\x00\x00\xfb\xf4\x00\x00\x00\x01\x00\x00\x00\x02\x01\x02\x03\
    \x04\x05\x06\x07\x08\x09\x0a\x0b\x0c\x0d\x0e\x0f\x10\x11\x12\x13\x14\x15\x16\x17\x18\x19\x1a\
    \x65\x00\x00\x00\x00\x10\x00\x05\x00\x00\x00\x08\xfb\xf4\x00\x01\x00\x00\x00\x02\
    \x65\x00\x00\x00\x00\x10\x00\x04\x00\x01\x00\x00";

const CASES: [u64; 246] = [
    // The first six records in one chunk; the end twice, and a chunk after it. The six once more, on the table
    // that they left.
    0x0_00000065_00_00000,
    0x1_00000000_22_00134,
    0x2_00000000_00_00000,
    0x2_00000000_00_00000,
    0x1_00000000_22_00134,
    0x0_00000065_00_00000,
    0x1_00000000_22_00134,
    0x1_00000000_22_00134,
    // Cut: no byte; within a header, no byte again, and after it; within the body and before its last byte;
    // within and after the next header; and so on, up to a body that is stepped over.
    0x0_00000065_00_00000,
    0x1_00000000_22_00000,
    0x1_00000000_22_00005,
    0x1_00000005_22_00000,
    0x1_00000005_22_00007,
    0x1_0000000c_22_0001c,
    0x1_00000028_22_00015,
    0x1_0000003d_22_00001,
    0x1_0000003e_22_00003,
    0x1_00000041_22_00009,
    0x1_0000004a_22_00001,
    0x1_0000004b_22_0003c,
    0x1_00000087_22_00001,
    0x1_00000088_22_0000b,
    0x1_00000093_22_00034,
    0x1_000000c7_22_00027,
    0x1_000000ee_22_00032,
    0x1_00000120_22_0000b,
    0x1_0000012b_22_00001,
    0x1_0000012c_22_00001,
    0x1_0000012d_22_00007,
    0x2_00000000_00_00000,
    0x1_00000000_22_00001,
    // The end inside a header, a body that is read, and one that is stepped over; then a chunk.
    0x0_00000065_00_00000,
    0x1_00000000_22_00001,
    0x2_00000000_00_00000,
    0x0_00000065_00_00000,
    0x1_00000000_22_0000b,
    0x2_00000000_00_00000,
    0x0_00000065_00_00000,
    0x1_00000000_22_0000c,
    0x2_00000000_00_00000,
    0x0_00000065_00_00000,
    0x1_00000000_22_0003d,
    0x2_00000000_00_00000,
    0x0_00000065_00_00000,
    0x1_00000120_22_0000c,
    0x2_00000000_00_00000,
    0x0_00000065_00_00000,
    0x1_00000120_22_00013,
    0x2_00000000_00_00000,
    0x2_00000000_00_00000,
    0x1_00000000_22_00134,
    // The first three records, with one byte otherwise. The second is of a kind that is stepped over: types 13,
    // 15, 17 and 272, subtypes 0, 5, 6, 7 and 260. It is of subtype 1, or the first of subtype 4: then the
    // family stands elsewhere, and each is only seen.
    0x0_0000000d_00_00043,
    0x1_00000000_22_000bb,
    0x0_0000000f_00_00043,
    0x1_00000000_22_000bb,
    0x0_00000011_00_00043,
    0x1_00000000_22_000bb,
    0x0_00000001_00_00042,
    0x1_00000000_22_000bb,
    0x0_00000000_00_00045,
    0x1_00000000_22_000bb,
    0x0_00000005_00_00045,
    0x1_00000000_22_000bb,
    0x0_00000006_00_00045,
    0x1_00000000_22_000bb,
    0x0_00000007_00_00045,
    0x1_00000000_22_000bb,
    0x0_00000001_00_00044,
    0x1_00000000_22_000bb,
    0x0_00000001_00_00045,
    0x1_00000000_22_000bb,
    0x0_00000004_00_00007,
    0x1_00000000_22_000bb,
    // The second is only seen: its family is 2, 0 or 257; its message is an OPEN, a NOTIFICATION, a KEEPALIVE
    // or of type 0.
    0x0_00000002_00_00055,
    0x1_00000000_22_000bb,
    0x0_00000000_00_00055,
    0x1_00000000_22_000bb,
    0x0_00000001_00_00054,
    0x1_00000000_22_000bb,
    0x0_00000001_00_00070,
    0x1_00000000_22_000bb,
    0x0_00000003_00_00070,
    0x1_00000000_22_000bb,
    0x0_00000004_00_00070,
    0x1_00000000_22_000bb,
    0x0_00000000_00_00070,
    0x1_00000000_22_000bb,
    // Its NEXT_HOP is not in the list, or is missing: it is only seen. NEXT_HOP stands at place 0, and at
    // places 1 and 3.
    0x0_00000007_00_0007f,
    0x1_00000000_22_000bb,
    0x0_00000005_00_0007a,
    0x1_00000000_22_000bb,
    0x0_00000009_00_0007f,
    0x1_00000000_22_000bb,
    0x0_00000001_00_0007f,
    0x1_00000000_22_000bb,
    // It gets 12, and the first stays applied and counted: the first and the last byte of the marker; a length
    // one less and one more; withdrawn routes that are cut; a first and a last prefix of length 33; attributes
    // that are cut. Then nothing is done any more.
    0x0_00000000_00_0005e,
    0x1_00000000_22_000bb,
    0x0_00000000_00_0006d,
    0x1_00000000_22_000bb,
    0x0_00000029_00_0006f,
    0x1_00000000_22_000bb,
    0x0_0000002b_00_0006f,
    0x1_00000000_22_000bb,
    0x0_00000003_00_00072,
    0x1_00000000_22_000bb,
    0x0_00000021_00_00073,
    0x1_00000000_22_000bb,
    0x0_00000021_00_00086,
    0x1_00000000_22_000bb,
    0x0_00000006_00_00078,
    0x1_00000000_22_000bb,
    0x1_00000088_22_00033,
    0x2_00000000_00_00000,
    // 14 for a body of 65,598 bytes, with the last byte of its header, and then nothing is done any more; in
    // one chunk; and for IPv6.
    0x0_00000001_00_00047,
    0x1_00000000_22_00049,
    0x1_00000049_22_00001,
    0x1_00000088_22_00033,
    0x2_00000000_00_00000,
    0x0_00000001_00_00047,
    0x1_00000000_22_000bb,
    0x0_00000001_00_000f7,
    0x1_000000ee_22_00032,
    // A KEEPALIVE with a bad marker, with a bad length, as an OPEN; and as an UPDATE, which is too short.
    0x0_00000000_00_000a8,
    0x1_00000088_22_00033,
    0x0_00000000_00_000b9,
    0x1_00000088_22_00033,
    0x0_00000001_00_000ba,
    0x1_00000088_22_00033,
    0x0_00000002_00_000ba,
    0x1_00000088_22_00033,
    // 12 in subtype 4: the body ends before the family does, right after it, before the addresses do, and
    // before the header of the message does; or it has no bytes. The same in subtype 1, where the last but one
    // ends with that header.
    0x0_0000000b_00_00093,
    0x1_00000088_22_00017,
    0x0_0000000c_00_00093,
    0x1_00000088_22_00018,
    0x0_00000013_00_00093,
    0x1_00000088_22_0001f,
    0x0_00000026_00_00093,
    0x1_00000088_22_00032,
    0x0_00000000_00_00093,
    0x1_00000088_22_0000c,
    0x0_00000007_00_000c6,
    0x1_000000bb_22_00013,
    0x0_00000008_00_000c6,
    0x1_000000bb_22_00014,
    0x0_0000000f_00_000c6,
    0x1_000000bb_22_0001b,
    0x0_00000022_00_000c6,
    0x1_000000bb_22_0002e,
    0x0_00000023_00_000c6,
    0x1_000000bb_22_0002f,
    0x0_00000000_00_000c6,
    0x1_000000bb_22_0000c,
    // IPv6 as it is, and up to its family; 12 for a byte less, and where the family is IPv4.
    0x0_00000065_00_00000,
    0x1_000000ee_22_00032,
    0x0_0000000c_00_000f9,
    0x1_000000ee_22_00018,
    0x0_0000000b_00_000f9,
    0x1_000000ee_22_00017,
    0x0_00000001_00_00105,
    0x1_000000ee_22_00032,
    // The sixth record in subtype 1 ends with its family, which is that of IPv6; 12 in subtype 4. With no body
    // it is stepped over.
    0x0_00000001_00_00127,
    0x1_00000120_22_00014,
    0x0_00000004_00_00127,
    0x1_00000120_22_00014,
    0x0_00000000_00_0012b,
    0x1_00000120_22_0000c,
    // A body of 65,536 bytes in two chunks, one that is read and one that is stepped over; and 19 for a chunk
    // of 65,537 bytes.
    0x0_00000065_00_00000,
    0x1_00000134_22_10000,
    0x1_00000140_22_0000c,
    0x0_00000002_00_0013b,
    0x1_00000134_22_10001,
    0x1_00000134_22_10000,
    0x1_00000140_22_0000c,
    0x2_00000000_00_00000,
    // 9 and 10: a counter that is full, and one that is empty.
    0x0_00000065_00_00000,
    0x8_0000000f_00_00071,
    0x1_00000000_22_00088,
    0x0_00000065_00_00000,
    0x1_00000000_22_0003e,
    0x8_00000000_00_00071,
    0x1_0000003e_22_0004a,
    // 19 for a figure above 4,000,000,000: the first four, one within and the last. At 4,000,000,000 the replay
    // goes on, once.
    0x0_00000065_00_00000,
    0x9_ee6b2801_00_00000,
    0x1_00000000_22_00088,
    0x9_ee6b2800_00_00000,
    0x9_ee6b2801_00_00001,
    0x1_00000000_22_00088,
    0x9_ee6b2800_00_00001,
    0x9_ee6b2801_00_00002,
    0x1_00000000_22_00088,
    0x9_ee6b2800_00_00002,
    0x9_ee6b2801_00_00003,
    0x1_00000000_22_00088,
    0x9_ee6b2800_00_00003,
    0x9_ee6b2801_00_0000c,
    0x1_00000000_22_00088,
    0x9_ee6b2800_00_0000c,
    0x9_ee6b2801_00_00016,
    0x1_00000000_22_00088,
    0x9_ee6b2800_00_00016,
    0x1_00000000_22_00088,
    0x1_00000000_22_00000,
    // 19 comes before 1, 1 before 2, and the number that ended the replay before all of them.
    0x0_00000065_00_00000,
    0x1_00000000_22_00014,
    0x1_00000134_91_10001,
    0x1_00000014_91_00074,
    0x1_00000014_21_00074,
    0x1_00000014_23_00074,
    0x1_00000014_22_00074,
    0x2_00000000_00_00000,
    0x9_ee6b2801_00_00000,
    0x1_00000134_91_10001,
    // The six records for party 1 alone; and upon those of party 0, where the bucket is full.
    0x0_00000065_00_00000,
    0x1_00000000_22_20134,
    0x0_00000065_00_00000,
    0x1_00000000_22_00134,
    0x1_00000000_22_20134,
    // 15 for party 2, after 19, 1 and 2: party 1's replay is as it was, and goes on. Once it has ended it gives its
    // number.
    0x0_00000065_00_00000,
    0x1_00000000_22_20014,
    0x1_00000134_22_50001,
    0x1_00000014_91_40074,
    0x1_00000014_23_40074,
    0x1_00000014_22_40074,
    0x1_00000014_22_20120,
    0x2_00000000_00_00000,
    0x1_00000000_22_40001,
    // As C calls them: the first six records, cut; for party 1, whose routes are refused; 12; 14; 19, 1, 2 and 15; and
    // an end inside a record.
    0x0_00000065_00_00000,
    0x3_00000000_22_00064,
    0x3_00000064_22_000d0,
    0x3_00000000_22_20134,
    0x4_00000000_00_00000,
    0x3_00000000_22_00001,
    0x0_00000000_00_0005e,
    0x3_00000000_22_000bb,
    0x3_00000088_22_00033,
    0x4_00000000_00_00000,
    0x0_00000001_00_00047,
    0x3_00000000_22_000bb,
    0x0_00000065_00_00000,
    0x3_00000000_22_00014,
    0x3_00000134_22_10001,
    0x3_00000000_91_00001,
    0x3_00000000_23_00001,
    0x3_00000000_22_40001,
    0x4_00000000_00_00000,
    0x3_00000000_22_00001,
];

// What a case does; none where it is damage.
fn kind_of(case: Case) -> Option<Kind> {
    match case.digit() {
        0 => Some(Kind::Begin),
        1 => Some(Kind::Chunk(Caller::Rattle)),
        2 => Some(Kind::End(Caller::Rattle)),
        3 => Some(Kind::Chunk(Caller::C)),
        4 => Some(Kind::End(Caller::C)),
        _ => None,
    }
}

// All begins anew, but for a byte of the day.
fn begin(
    rt: &impl Print,
    counters: &mut [u8],
    slots: &mut [u32],
    tally: &mut [u32; 23],
    words: &mut [u32; 3],
    day: &mut [u8],
    case: Case,
) -> io::Result<()> {
    let outcome = table::clear(cases::small(2, 2), counters, slots);
    cases::digits(rt, number_given(outcome))?;
    *tally = FIGURES;
    *words = [0; 3];
    cases::fill_but(day, &RECORDS, case);
    Ok(())
}

// A chunk, by the crates' own call or as C calls it.
fn chunk(
    rt: &impl Print,
    caller: Caller,
    counters: &mut [u8; 512],
    slots: &mut [u32; 258],
    tally: &mut [u32; 23],
    words: &mut [u32; 3],
    room: &mut [u8; 65548],
    day: &[u8],
    case: Case,
) -> io::Result<()> {
    let from = cases::up_to(case.prefix() as usize, day);
    let lent = cases::front(case.place(), &day[from..]);
    let shape = case.length();
    let t = cases::small(shape / 0x10, shape % 0x10);
    let party = case.party();
    match caller {
        Caller::Rattle => {
            let number = replay_calls::replay_chunk(
                t, counters, slots, party, &HOPS, tally, words, room, lent,
            );
            cases::digits(rt, number)?;
        }
        Caller::C => {
            let number = gateway::gateway_replay(
                t.k, &t.d, t.e, t.s, t.a, t.b, t.c, counters, slots, party, &HOPS, tally, words,
                room, lent,
            );
            cases::digits(rt, number)?;
        }
    }
    cases::show(rt, counters, slots, room)
}

fn end(rt: &impl Print, caller: Caller, words: &mut [u32; 3]) -> io::Result<()> {
    match caller {
        Caller::Rattle => cases::digits(rt, stream_records::end_stream(words)),
        Caller::C => cases::digits(rt, gateway::gateway_end_stream(words)),
    }
}

// A case, and what it writes.
fn line(
    rt: &impl Print,
    counters: &mut [u8; 512],
    slots: &mut [u32; 258],
    tally: &mut [u32; 23],
    words: &mut [u32; 3],
    room: &mut [u8; 65548],
    day: &mut [u8; 66048],
    case: Case,
) -> io::Result<()> {
    cases::begin(rt, case)?;
    match kind_of(case) {
        Some(Kind::Begin) => begin(rt, counters, slots, tally, words, day, case)?,
        Some(Kind::Chunk(caller)) => {
            chunk(rt, caller, counters, slots, tally, words, room, day, case)?;
        }
        Some(Kind::End(caller)) => end(rt, caller, words)?,
        None => cases::damage(counters, tally, case),
    }
    cases::finish(rt, tally, words)
}

fn main(rt: HostRuntime) -> io::Result<()> {
    let mut counters = [7u8; 512];
    let mut slots = [7u32; 258];
    let mut tally = [0u32; 23];
    let mut words = [0u32; 3];
    let mut room = [0xaau8; 65548];
    let mut day = [0u8; 66048];
    for number in &CASES {
        line(
            &rt,
            &mut counters,
            &mut slots,
            &mut tally,
            &mut words,
            &mut room,
            &mut day,
            Case(*number),
        )?;
    }
    Ok(())
}
