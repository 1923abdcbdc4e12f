// The gateway table for C: thirteen calls on numbers and lent memory, which crates/gateway_c exports. No call
// requires anything, keeps anything or copies the memory. Questions read the slots as bytes, four to a word, the
// low byte first; the updates write them as words of the machine. What a C program may rely on is
// proved in crates/c_promises.
// The settings stand in each call as seven arguments, and each answer is one number, as the C header has them.
#![tactic(auto)]

ghost use Rattle.std.specs.Prelude.{◌≡◌};
ghost use Rattle.rules.specs.Table.{lent, c_lookup, c_match_vector, c_lookup_list, clear, add, withdraw, change};
ghost use Rattle.message_format.specs.Reading.{apply_message};
ghost use Rattle.message_format.specs.Writing.{write_withdrawal};
ghost use Rattle.stream_format.specs.Kept.{end_stream};
ghost use Rattle.import_format.specs.Importing.{import_chunk};
ghost use Rattle.replay_format.specs.Replaying.{replay_chunk};
ghost use Rattle.difference_rules.specs.Comparing.{c_difference};
ghost use Rattle.c_calls.specs.Lent.{settings_of};
ghost use Rattle.gateway.specs.Crossing.{Crossed, ListCrossed, ComparisonCrossed, MessageCrossed, ChunkCrossed, EndCrossed};

use c_calls::settings_of;
use c_numbers::{
    number_of_answer, number_of_outcome, number_of_report, number_of_word, refusal_part,
};
use difference_calls::difference_in_bytes;
use import_calls::import_chunk;
use replay_calls::replay_chunk;

// Empties the table of both parties' routes: zero in every byte and word.
pub fn gateway_clear(
    k: u32,
    d: &[u8],
    e: u32,
    s: u32,
    a: u32,
    b: u32,
    c: u32,
    counters: &mut [u8],
    slots: &mut [u32],
) -> u64
    ensures { Crossed (clear (settings_of k d.now e s a b c) (lent counters.old slots.old)) result counters.new slots.new }
{
    number_of_outcome(table::clear(settings_of(k, d, e, s, a, b, c), counters, slots))
}

// Stores a route for a party, 0 or 1. One that it has stored keeps its slot and gets the new hop.
pub fn gateway_add(
    k: u32,
    d: &[u8],
    e: u32,
    s: u32,
    a: u32,
    b: u32,
    c: u32,
    counters: &mut [u8],
    slots: &mut [u32],
    party: u32,
    prefix: u32,
    length: u32,
    hop: u32,
) -> u64
    ensures { Crossed (add (settings_of k d.now e s a b c) (lent counters.old slots.old) party prefix length hop) result counters.new slots.new }
{
    let settings = settings_of(k, d, e, s, a, b, c);
    number_of_outcome(table::add(settings, counters, slots, party, prefix, length, hop))
}

// Takes a stored route of the party's out.
pub fn gateway_withdraw(
    k: u32,
    d: &[u8],
    e: u32,
    s: u32,
    a: u32,
    b: u32,
    c: u32,
    counters: &mut [u8],
    slots: &mut [u32],
    party: u32,
    prefix: u32,
    length: u32,
) -> u64
    ensures { Crossed (withdraw (settings_of k d.now e s a b c) (lent counters.old slots.old) party prefix length) result counters.new slots.new }
{
    let settings = settings_of(k, d, e, s, a, b, c);
    number_of_outcome(table::withdraw(settings, counters, slots, party, prefix, length))
}

// Gives a stored route of the party's a new next hop.
pub fn gateway_change(
    k: u32,
    d: &[u8],
    e: u32,
    s: u32,
    a: u32,
    b: u32,
    c: u32,
    counters: &mut [u8],
    slots: &mut [u32],
    party: u32,
    prefix: u32,
    length: u32,
    hop: u32,
) -> u64
    ensures { Crossed (change (settings_of k d.now e s a b c) (lent counters.old slots.old) party prefix length hop) result counters.new slots.new }
{
    let settings = settings_of(k, d, e, s, a, b, c);
    number_of_outcome(table::change(settings, counters, slots, party, prefix, length, hop))
}

// Which lengths' filters claim an address, bit L - 1 for length L: refusal·2^48 + vector.
pub fn gateway_match_vector(
    k: u32,
    d: &[u8],
    e: u32,
    s: u32,
    a: u32,
    b: u32,
    c: u32,
    counters: &[u8],
    slots: &[u8],
    address: u32,
) -> u64
    ensures { result ≡ c_match_vector (settings_of k d.now e s a b c) counters.now slots.now address }
{
    let settings = settings_of(k, d, e, s, a, b, c);
    number_of_word(lookups::match_vector(&settings, counters, slots, address))
}

// The longest route stored for the party that matches an address:
// refusal·2^48 + found·2^40 + hop·2^16 + length·2^8 + probes.
pub fn gateway_lookup(
    k: u32,
    d: &[u8],
    e: u32,
    s: u32,
    a: u32,
    b: u32,
    c: u32,
    counters: &[u8],
    slots: &[u8],
    party: u32,
    address: u32,
) -> u64
    ensures { result ≡ c_lookup (settings_of k d.now e s a b c) counters.now slots.now party address }
{
    let settings = settings_of(k, d, e, s, a, b, c);
    number_of_answer(lookups::lookup(&settings, counters, slots, party, address))
}

// The party's lookup of each address of a list, in its order: found as 1 or 0, hop, length and probes, four
// words to an address. Slots, addresses and results are bytes, four to a word.
pub fn gateway_lookup_list(
    k: u32,
    d: &[u8],
    e: u32,
    s: u32,
    a: u32,
    b: u32,
    c: u32,
    counters: &[u8],
    slots: &[u8],
    party: u32,
    addresses: &[u8],
    results: &mut [u8],
) -> u64
    ensures { ListCrossed (c_lookup_list (settings_of k d.now e s a b c) counters.now slots.now party addresses.now results.old) result results.new }
{
    let settings = settings_of(k, d, e, s, a, b, c);
    number_of_outcome(c_calls::lookup_list(&settings, counters, slots, party, addresses, results))
}

// Lists the prefixes at which two tables differ for a party, by rising length and then rising prefix: length, prefix, and
// what the first table and the second have there, four words to a difference. Slots and list are bytes, four to a word:
// refusal·2^48 + count.
pub fn gateway_list_differences(
    k: u32,
    d: &[u8],
    e: u32,
    s: u32,
    a: u32,
    b: u32,
    c: u32,
    counters: &[u8],
    slots: &[u8],
    k2: u32,
    d2: &[u8],
    e2: u32,
    s2: u32,
    a2: u32,
    b2: u32,
    c2: u32,
    counters2: &[u8],
    slots2: &[u8],
    party: u32,
    list: &mut [u8],
) -> u64
    ensures { ComparisonCrossed (c_difference (settings_of k d.now e s a b c) counters.now slots.now (settings_of k2 d2.now e2 s2 a2 b2 c2) counters2.now slots2.now party list.old) result list.new }
{
    let first = settings_of(k, d, e, s, a, b, c);
    let second = settings_of(k2, d2, e2, s2, a2, b2, c2);
    number_of_word(difference_in_bytes(
        first, counters, slots, second, counters2, slots2, party, list,
    ))
}

// Applies one message of a neighbour for a party: refusal·2^48 + refused·2^12 + accepted.
pub fn gateway_update(
    k: u32,
    d: &[u8],
    e: u32,
    s: u32,
    a: u32,
    b: u32,
    c: u32,
    counters: &mut [u8],
    slots: &mut [u32],
    party: u32,
    message: &[u8],
    hops: &[u32],
) -> u64
    ensures { MessageCrossed (apply_message (settings_of k d.now e s a b c) (lent counters.old slots.old) party message.now hops.now) result counters.new slots.new }
{
    let settings = settings_of(k, d, e, s, a, b, c);
    number_of_report(message_calls::apply_message(settings, counters, slots, party, message, hops))
}

// Writes the message that withdraws a route, into room of exactly its size.
pub fn gateway_write_withdrawal(prefix: u32, length: u32, room: &mut [u8]) -> u64
    ensures { ListCrossed (write_withdrawal prefix length room.old) result room.new }
{
    number_of_outcome(message_writers::write_withdrawal(prefix, length, room))
}

// Takes one chunk of a dump: adds for the party the route of each record that is complete with it, and counts. What
// is kept of the stream between two chunks lies in three words and in room for one record.
pub fn gateway_import(
    k: u32,
    d: &[u8],
    e: u32,
    s: u32,
    a: u32,
    b: u32,
    c: u32,
    counters: &mut [u8],
    slots: &mut [u32],
    party: u32,
    hops: &[u32],
    counts: &mut [u32; 3],
    words: &mut [u32; 3],
    room: &mut [u8; 65548],
    chunk: &[u8],
) -> u64
    ensures { ChunkCrossed (import_chunk (settings_of k d.now e s a b c) (lent counters.old slots.old) party hops.now counts.old words.old room.old chunk.now) result counts.new words.new room.new counters.new slots.new }
{
    let t = settings_of(k, d, e, s, a, b, c);
    let number = import_chunk(t, counters, slots, party, hops, counts, words, room, chunk);
    refusal_part(number)
}

// Takes one chunk of a recorded day: applies for the party the UPDATE of each record that is complete with it, and
// tallies the record in 23 words, which are seen, applied, accepted and refused[0] to refused[19].
pub fn gateway_replay(
    k: u32,
    d: &[u8],
    e: u32,
    s: u32,
    a: u32,
    b: u32,
    c: u32,
    counters: &mut [u8],
    slots: &mut [u32],
    party: u32,
    hops: &[u32],
    tally: &mut [u32; 23],
    words: &mut [u32; 3],
    room: &mut [u8; 65548],
    chunk: &[u8],
) -> u64
    ensures { ChunkCrossed (replay_chunk (settings_of k d.now e s a b c) (lent counters.old slots.old) party hops.now tally.old words.old room.old chunk.now) result tally.new words.new room.new counters.new slots.new }
{
    let t = settings_of(k, d, e, s, a, b, c);
    let number = replay_chunk(t, counters, slots, party, hops, tally, words, room, chunk);
    refusal_part(number)
}

// Ends a stream of records: 17 inside a record.
pub fn gateway_end_stream(words: &mut [u32; 3]) -> u64
    ensures { EndCrossed (end_stream words.old) result words.new }
{
    refusal_part(stream_records::end_stream(words))
}
