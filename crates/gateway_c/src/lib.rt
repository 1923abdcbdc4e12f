// What C links: each call of crates/gateway under its own name, with the same clauses. It stands here once more,
// since a crate that C links is no library for other crates.
#![tactic(auto)]

ghost use Rattle.std.specs.Prelude.{◌≡◌};
ghost use Rattle.rules.specs.Table.{lent, c_lookup, c_match_vector, c_lookup_list, clear, add, withdraw, change};
ghost use Rattle.message_format.specs.Reading.{apply_message};
ghost use Rattle.message_format.specs.Writing.{write_withdrawal};
ghost use Rattle.stream_format.specs.Kept.{end_stream};
ghost use Rattle.import_format.specs.Importing.{import_chunk};
ghost use Rattle.replay_format.specs.Replaying.{replay_chunk};
ghost use Rattle.difference_rules.specs.Comparing.{c_difference};
ghost use Rattle.c_calls.specs.Lent.{settings_of};
ghost use Rattle.gateway.specs.Crossing.{Crossed, ListCrossed, ComparisonCrossed, MessageCrossed, ChunkCrossed, EndCrossed};

// Empties the table of both parties' routes: zero in every byte and word.
#[unsafe(no_mangle)]
pub extern "C" fn gateway_clear(
    k: u32,
    d: &[u8],
    e: u32,
    s: u32,
    a: u32,
    b: u32,
    c: u32,
    counters: &mut [u8],
    slots: &mut [u32],
) -> u64
    ensures { Crossed (clear (settings_of k d.now e s a b c) (lent counters.old slots.old)) result counters.new slots.new }
{
    gateway::gateway_clear(k, d, e, s, a, b, c, counters, slots)
}

// Stores a route for a party, 0 or 1. One that it has stored keeps its slot and gets the new hop.
#[unsafe(no_mangle)]
pub extern "C" fn gateway_add(
    k: u32,
    d: &[u8],
    e: u32,
    s: u32,
    a: u32,
    b: u32,
    c: u32,
    counters: &mut [u8],
    slots: &mut [u32],
    party: u32,
    prefix: u32,
    length: u32,
    hop: u32,
) -> u64
    ensures { Crossed (add (settings_of k d.now e s a b c) (lent counters.old slots.old) party prefix length hop) result counters.new slots.new }
{
    gateway::gateway_add(
        k, d, e, s, a, b, c, counters, slots, party, prefix, length, hop,
    )
}

// Takes a stored route of the party's out.
#[unsafe(no_mangle)]
pub extern "C" fn gateway_withdraw(
    k: u32,
    d: &[u8],
    e: u32,
    s: u32,
    a: u32,
    b: u32,
    c: u32,
    counters: &mut [u8],
    slots: &mut [u32],
    party: u32,
    prefix: u32,
    length: u32,
) -> u64
    ensures { Crossed (withdraw (settings_of k d.now e s a b c) (lent counters.old slots.old) party prefix length) result counters.new slots.new }
{
    gateway::gateway_withdraw(k, d, e, s, a, b, c, counters, slots, party, prefix, length)
}

// Gives a stored route of the party's a new next hop.
#[unsafe(no_mangle)]
pub extern "C" fn gateway_change(
    k: u32,
    d: &[u8],
    e: u32,
    s: u32,
    a: u32,
    b: u32,
    c: u32,
    counters: &mut [u8],
    slots: &mut [u32],
    party: u32,
    prefix: u32,
    length: u32,
    hop: u32,
) -> u64
    ensures { Crossed (change (settings_of k d.now e s a b c) (lent counters.old slots.old) party prefix length hop) result counters.new slots.new }
{
    gateway::gateway_change(
        k, d, e, s, a, b, c, counters, slots, party, prefix, length, hop,
    )
}

// Which lengths' filters claim an address, bit L - 1 for length L: refusal·2^48 + vector.
#[unsafe(no_mangle)]
pub extern "C" fn gateway_match_vector(
    k: u32,
    d: &[u8],
    e: u32,
    s: u32,
    a: u32,
    b: u32,
    c: u32,
    counters: &[u8],
    slots: &[u8],
    address: u32,
) -> u64
    ensures { result ≡ c_match_vector (settings_of k d.now e s a b c) counters.now slots.now address }
{
    gateway::gateway_match_vector(k, d, e, s, a, b, c, counters, slots, address)
}

// The longest route stored for the party that matches an address:
// refusal·2^48 + found·2^40 + hop·2^16 + length·2^8 + probes.
#[unsafe(no_mangle)]
pub extern "C" fn gateway_lookup(
    k: u32,
    d: &[u8],
    e: u32,
    s: u32,
    a: u32,
    b: u32,
    c: u32,
    counters: &[u8],
    slots: &[u8],
    party: u32,
    address: u32,
) -> u64
    ensures { result ≡ c_lookup (settings_of k d.now e s a b c) counters.now slots.now party address }
{
    gateway::gateway_lookup(k, d, e, s, a, b, c, counters, slots, party, address)
}

// The party's lookup of each address of a list, in its order: found as 1 or 0, hop, length and probes, four
// words to an address. Slots, addresses and results are bytes, four to a word.
#[unsafe(no_mangle)]
pub extern "C" fn gateway_lookup_list(
    k: u32,
    d: &[u8],
    e: u32,
    s: u32,
    a: u32,
    b: u32,
    c: u32,
    counters: &[u8],
    slots: &[u8],
    party: u32,
    addresses: &[u8],
    results: &mut [u8],
) -> u64
    ensures { ListCrossed (c_lookup_list (settings_of k d.now e s a b c) counters.now slots.now party addresses.now results.old) result results.new }
{
    gateway::gateway_lookup_list(
        k, d, e, s, a, b, c, counters, slots, party, addresses, results,
    )
}

// Lists the prefixes at which two tables differ for a party, by rising length and then rising prefix: length, prefix, and
// what the first table and the second have there, four words to a difference. Slots and list are bytes, four to a word:
// refusal·2^48 + count.
#[unsafe(no_mangle)]
pub extern "C" fn gateway_list_differences(
    k: u32,
    d: &[u8],
    e: u32,
    s: u32,
    a: u32,
    b: u32,
    c: u32,
    counters: &[u8],
    slots: &[u8],
    k2: u32,
    d2: &[u8],
    e2: u32,
    s2: u32,
    a2: u32,
    b2: u32,
    c2: u32,
    counters2: &[u8],
    slots2: &[u8],
    party: u32,
    list: &mut [u8],
) -> u64
    ensures { ComparisonCrossed (c_difference (settings_of k d.now e s a b c) counters.now slots.now (settings_of k2 d2.now e2 s2 a2 b2 c2) counters2.now slots2.now party list.old) result list.new }
{
    gateway::gateway_list_differences(
        k, d, e, s, a, b, c, counters, slots, k2, d2, e2, s2, a2, b2, c2, counters2, slots2, party,
        list,
    )
}

// Applies one message of a neighbour for a party: refusal·2^48 + refused·2^12 + accepted.
#[unsafe(no_mangle)]
pub extern "C" fn gateway_update(
    k: u32,
    d: &[u8],
    e: u32,
    s: u32,
    a: u32,
    b: u32,
    c: u32,
    counters: &mut [u8],
    slots: &mut [u32],
    party: u32,
    message: &[u8],
    hops: &[u32],
) -> u64
    ensures { MessageCrossed (apply_message (settings_of k d.now e s a b c) (lent counters.old slots.old) party message.now hops.now) result counters.new slots.new }
{
    gateway::gateway_update(k, d, e, s, a, b, c, counters, slots, party, message, hops)
}

// Writes the message that withdraws a route, into room of exactly its size.
#[unsafe(no_mangle)]
pub extern "C" fn gateway_write_withdrawal(prefix: u32, length: u32, room: &mut [u8]) -> u64
    ensures { ListCrossed (write_withdrawal prefix length room.old) result room.new }
{
    gateway::gateway_write_withdrawal(prefix, length, room)
}

// Takes one chunk of a dump: adds for the party the route of each record that is complete with it, and counts. What
// is kept of the stream between two chunks lies in three words and in room for one record.
#[unsafe(no_mangle)]
pub extern "C" fn gateway_import(
    k: u32,
    d: &[u8],
    e: u32,
    s: u32,
    a: u32,
    b: u32,
    c: u32,
    counters: &mut [u8],
    slots: &mut [u32],
    party: u32,
    hops: &[u32],
    counts: &mut [u32; 3],
    words: &mut [u32; 3],
    room: &mut [u8; 65548],
    chunk: &[u8],
) -> u64
    ensures { ChunkCrossed (import_chunk (settings_of k d.now e s a b c) (lent counters.old slots.old) party hops.now counts.old words.old room.old chunk.now) result counts.new words.new room.new counters.new slots.new }
{
    gateway::gateway_import(
        k, d, e, s, a, b, c, counters, slots, party, hops, counts, words, room, chunk,
    )
}

// Takes one chunk of a recorded day: applies for the party the UPDATE of each record that is complete with it, and
// tallies the record in 23 words, which are seen, applied, accepted and refused[0] to refused[19].
#[unsafe(no_mangle)]
pub extern "C" fn gateway_replay(
    k: u32,
    d: &[u8],
    e: u32,
    s: u32,
    a: u32,
    b: u32,
    c: u32,
    counters: &mut [u8],
    slots: &mut [u32],
    party: u32,
    hops: &[u32],
    tally: &mut [u32; 23],
    words: &mut [u32; 3],
    room: &mut [u8; 65548],
    chunk: &[u8],
) -> u64
    ensures { ChunkCrossed (replay_chunk (settings_of k d.now e s a b c) (lent counters.old slots.old) party hops.now tally.old words.old room.old chunk.now) result tally.new words.new room.new counters.new slots.new }
{
    gateway::gateway_replay(
        k, d, e, s, a, b, c, counters, slots, party, hops, tally, words, room, chunk,
    )
}

// Ends a stream of records: 17 inside a record.
#[unsafe(no_mangle)]
pub extern "C" fn gateway_end_stream(words: &mut [u32; 3]) -> u64
    ensures { EndCrossed (end_stream words.old) result words.new }
{
    gateway::gateway_end_stream(words)
}
