// Writes answers of the text program as bytes into lent memory, each from a position on, and says
// where the next one goes. An answer is a line of at most 33 bytes, for which there must be room.
#![tactic(auto)]

ghost use Rattle.std.specs.Prelude.{◌+◌, ◌≤◌, length};
ghost use Rattle.rules.specs.Numbers.{number_given, answer_given};
ghost use Rattle.text_answers.specs.Texts.{decimal, update_text, lookup_text, unreadable, Put, PutWithin};

use rules::{Lookup, Refusal, Route};

// Puts bytes at a position.
fn put(out: &mut [u8], at: usize, bytes: &[u8]) -> usize
    requires { at + length bytes.now ≤ length out.old }
    ensures { Put out.old at bytes.now out.new result }
{
    let end = at + bytes.len();
    out[at..end].copy_from_slice(bytes);
    end
}

// Puts a number's decimal digits at a position.
fn put_number(out: &mut [u8], at: usize, n: u32) -> usize
    requires { at + 10 ≤ length out.old }
    ensures { PutWithin 10 out.old at (decimal n) out.new result }
{
    let one_digit = n < 10;
    let last = if one_digit {
        at
    } else {
        put_number(out, at, n / 10)
    };
    out[last] = b'0' + (n % 10) as u8;
    last + 1
}

// Puts what an update answers by the number that it gave back: ok, or the number of its refusal. Memory is fixed and
// lent, so the place stands beside it, here and below, with a clause that there is room: `text_lines` asks for it once.
pub fn put_refusal(out: &mut [u8], at: usize, refusal: u32) -> usize
    requires { at + 33 ≤ length out.old }
    ensures { PutWithin 33 out.old at (update_text refusal) out.new result }
{
    if refusal == 0 {
        return put(out, at, b"ok\n");
    }
    let digits = put(out, at, b"refused ");
    let end = put_number(out, digits, refusal);
    put(out, end, b"\n")
}

// Puts what an update answers.
pub fn put_outcome(out: &mut [u8], at: usize, outcome: Result<(), Refusal>) -> usize
    requires { at + 33 ≤ length out.old }
    ensures { PutWithin 33 out.old at (update_text (number_given outcome)) out.new result }
{
    match outcome {
        Ok(()) => put_refusal(out, at, 0),
        Err(refusal) => put_refusal(out, at, refusal.number()),
    }
}

// Puts what a lookup answers by the numbers that it gave back: hop, length and probes, or none and its probes, or the
// number of its refusal. Hop and length stand in a route, which is not read where none was found.
pub fn put_answer(
    out: &mut [u8],
    at: usize,
    refusal: u32,
    found: bool,
    route: Route,
    probes: u32,
) -> usize
    requires { at + 33 ≤ length out.old }
    ensures { PutWithin 33 out.old at (lookup_text (record { refusal = refusal; found = found; hop = route.hop; length = route.length; probes = probes })) out.new result }
{
    if refusal != 0 {
        return put_refusal(out, at, refusal);
    }
    if found {
        let gap = put_number(out, at, route.hop);
        let length = put(out, gap, b" ");
        let second_gap = put_number(out, length, route.length);
        let digits = put(out, second_gap, b" ");
        let end = put_number(out, digits, probes);
        return put(out, end, b"\n");
    }
    let digits = put(out, at, b"none ");
    let end = put_number(out, digits, probes);
    put(out, end, b"\n")
}

// Puts what a lookup answers.
pub fn put_found(out: &mut [u8], at: usize, found: Result<Lookup, Refusal>) -> usize
    requires { at + 33 ≤ length out.old }
    ensures { PutWithin 33 out.old at (lookup_text (answer_given found)) out.new result }
{
    match found {
        Ok(lookup) => match lookup.route {
            Some(route) => put_answer(out, at, 0, true, route, lookup.probes),
            None => put_answer(
                out,
                at,
                0,
                false,
                Route { hop: 0, length: 0 },
                lookup.probes,
            ),
        },
        Err(refusal) => put_outcome(out, at, Err(refusal)),
    }
}

// Puts what a line of another shape answers.
pub fn put_unreadable(out: &mut [u8], at: usize) -> usize
    requires { at + 33 ≤ length out.old }
    ensures { PutWithin 33 out.old at unreadable out.new result }
{
    put(out, at, b"unreadable\n")
}
