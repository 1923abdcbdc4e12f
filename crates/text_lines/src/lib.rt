// Answers lines of the text program by the table's calls, one by one or out of a stream that is
// cut anywhere. No call requires anything: one that lacks room is refused and changes nothing.
//
// Between two chunks the first bytes of the unfinished line lie in lent memory, so that no byte
// that comes in costs a copy of those before it; how many they are goes by value. 65 are kept: a
// line above 64 is unreadable whatever follows, so the rest of it is not needed.
#![tactic(auto)]

ghost use Rattle.std.specs.Prelude.{◌+◌, ◌≤◌, ◌≡◌, length, Some};
ghost use Rattle.rules.specs.Table.{lent};
ghost use Rattle.text_lines.specs.Lines.{line_reply, going, feed, not_refused, answer_fits, roomy, answer_line, feed_chunk, finish_input, next_told, fed_told, Replied, Told, Room, Lies};

use rules::Settings;
use text_answers::{put_found, put_outcome, put_unreadable};
use text_requests::{Request, read_request};

// What a call on the stream gives back: how many bytes of the unfinished line are kept, and how many bytes of
// answers were written.
#[derive(Clone, Copy)]
pub struct Fed {
    pub count: usize,
    pub written: usize,
}

// Whether an answer fits in at a position.
fn has_room_at(out: &[u8], at: usize) -> bool
    ensures { result ≡ answer_fits at out.now }
{
    out.len().saturating_sub(at) >= 33
}

// Whether there is room for the unfinished line and for the answers to so many lines.
// What is kept of the line is counted beside it, here and below: memory is fixed and lent, so no list grows.
fn has_room(line: &[u8], kept: usize, ends: usize, out: &[u8]) -> bool
    ensures { result ≡ roomy line.now kept ends out.now }
{
    line.len() >= 65 && kept <= 65 && ends <= out.len() / 33
}

// Answers a line that there is room for.
fn answer_into(
    settings: Settings,
    counters: &mut [u8],
    slots: &mut [u32],
    line: &[u8],
    out: &mut [u8],
    at: usize,
) -> usize
    requires { at + 33 ≤ length out.old }
    ensures { Replied (line_reply settings (lent counters.old slots.old) line.now) (lent counters.new slots.new) out.old at out.new result }
{
    match read_request(line) {
        Some(
            Request::Add {
                prefix,
                length,
                hop,
            },
        ) => {
            let outcome = table::add(settings, counters, slots, 0, prefix, length, hop);
            put_outcome(out, at, outcome)
        }
        Some(Request::Drop { prefix, length }) => {
            let outcome = table::withdraw(settings, counters, slots, 0, prefix, length);
            put_outcome(out, at, outcome)
        }
        Some(
            Request::Move {
                prefix,
                length,
                hop,
            },
        ) => {
            let outcome = table::change(settings, counters, slots, 0, prefix, length, hop);
            put_outcome(out, at, outcome)
        }
        Some(Request::Find { address }) => {
            let found = table::lookup(settings, counters, slots, 0, address);
            put_found(out, at, found)
        }
        None => put_unreadable(out, at),
    }
}

// Answers one line: the call that it asks for is made, and what it gives back is written at a
// position. Gives back where the next answer goes; none, which is refused, without room for 33 bytes there.
pub fn answer_line(
    settings: Settings,
    counters: &mut [u8],
    slots: &mut [u32],
    line: &[u8],
    out: &mut [u8],
    at: usize,
) -> Option<usize>
    ensures { Told (answer_line settings (lent counters.old slots.old) line.now at out.old) (lent counters.new slots.new) out.old at out.new (next_told at result) }
{
    if !has_room_at(out, at) {
        return None;
    }
    Some(answer_into(settings, counters, slots, line, out, at))
}

// Takes a chunk that there is room for.
fn feed_into(
    settings: Settings,
    counters: &mut [u8],
    slots: &mut [u32],
    line: &mut [u8],
    kept: usize,
    chunk: &[u8],
    out: &mut [u8],
) -> Fed
    requires { Room line.old kept (length chunk.now) out.old }
    ensures { Lies (not_refused (feed settings (going (lent counters.old slots.old) line.old kept) chunk.now)) (lent counters.new slots.new) line.new out.old out.new (fed_told kept (Some result)) }
{
    let mut count = kept;
    let mut written = 0;
    for &b in chunk {
        if b == b'\n' {
            written = answer_into(settings, counters, slots, &line[..count], out, written);
            count = 0;
        } else if count < 65 {
            line[count] = b;
            count += 1;
        }
    }
    Fed { count, written }
}

// Takes a chunk of the input: answers each line that ends in it, and keeps what follows the last.
// Refused, with none, without 65 bytes for the line, with more than 65 kept, or without 33 bytes of out for
// each byte of the chunk.
pub fn feed_chunk(
    settings: Settings,
    counters: &mut [u8],
    slots: &mut [u32],
    line: &mut [u8],
    kept: usize,
    chunk: &[u8],
    out: &mut [u8],
) -> Option<Fed>
    ensures { Lies (feed_chunk settings (going (lent counters.old slots.old) line.old kept) chunk.now out.old) (lent counters.new slots.new) line.new out.old out.new (fed_told kept result) }
{
    if !has_room(line, kept, chunk.len(), out) {
        return None;
    }
    Some(feed_into(settings, counters, slots, line, kept, chunk, out))
}

// Ends the input: what is kept of an unfinished line is the last line. Refused, with none, as a chunk of one
// byte would be.
pub fn finish_input(
    settings: Settings,
    counters: &mut [u8],
    slots: &mut [u32],
    line: &[u8],
    kept: usize,
    out: &mut [u8],
) -> Option<Fed>
    ensures { Lies (finish_input settings (going (lent counters.old slots.old) line.now kept) out.old) (lent counters.new slots.new) line.now out.old out.new (fed_told kept result) }
{
    if !has_room(line, kept, 1, out) {
        return None;
    }
    let mut written = 0;
    let unfinished = kept > 0;
    if unfinished {
        written = answer_into(settings, counters, slots, &line[..kept], out, 0);
    }
    Some(Fed { count: 0, written })
}
