// Reads a whole message before anything is done with it: whether it is well-formed, where its parts lie,
// its NEXT_HOP, and the place of that in a list of next hops.
#![tactic(auto)]

ghost use Rattle.std.specs.Prelude.{◌≡◌, ◌≤◌, ◌==◌, length, take, position};
ghost use Rattle.message_format.specs.Format.{all_ones, header_good};
ghost use Rattle.message_readers.specs.Readings.{prefixes_read, hop_read, hop_found, hop_due, message_read};

use message_cursors::{Cursor, four_bytes, two_bytes};
use rules::Refusal;

// A message: where the withdrawn routes end and the announced ones begin, and its NEXT_HOP.
#[derive(Clone, Copy)]
pub struct Message {
    pub withdrawn_to: usize,
    pub announced_from: usize,
    pub next_hop: Option<u32>,
}

// Reads the prefixes of a part, every one of them to its end.
#[tactic(auto, using(crate::proofs::Parts::all_read, crate::proofs::Parts::one_unfit, crate::proofs::Parts::goes_less), unfolding(crate::specs::Readings::prefixes_read))]
fn read_prefixes(bytes: &[u8], from: usize, to: usize) -> Result<(), Refusal>
    requires { to ≤ length bytes.now }
    ensures { result ≡ prefixes_read bytes.now from to }
{
    let mut rest = Cursor { at: from, end: to };
    while let Some(read) = rest.next_prefix(bytes)? {
        rest = read.rest;
    }
    Ok(())
}

// The NEXT_HOP of a part's attributes, all of which are read.
#[tactic(auto, using(crate::proofs::Parts::none_left, crate::proofs::Parts::one_broken, crate::proofs::Parts::looks_less, crate::proofs::Parts::four_inside, crate::proofs::Parts::wrong_size, crate::proofs::Parts::another_hop), unfolding(crate::proofs::Parts::hop_from))]
pub fn read_hop(bytes: &[u8], from: usize, to: usize) -> Result<Option<u32>, Refusal>
    requires { to ≤ length bytes.now }
    ensures { result ≡ hop_read bytes.now from to }
{
    let mut rest = Cursor { at: from, end: to };
    let mut found = None;
    while let Some(read) = rest.next_attribute(bytes)? {
        if read.kind == 3 {
            if read.size != 4 || found.is_some() {
                return Err(Refusal::Malformed);
            }
            found = Some(four_bytes(bytes, read.from));
        }
        rest = read.rest;
    }
    Ok(found)
}

// The lowest place of an address in a list. Within the loop over a record's entries it would have too few registers,
// and take half as long again.
#[inline(never)]
fn first_place(hops: &[u32], address: u32) -> Option<usize>
    ensures { result ≡ position (λ hop. hop == address) hops.now }
{
    hops.iter().position(|hop| *hop == address)
}

// The lowest place of an address among the first 65,536 of the list. They are a part of it, since `take` counts
// beside the search and takes a third longer.
fn place_of(hops: &[u32], address: u32) -> Option<usize>
    ensures { result ≡ position (λ hop. hop == address) (take 65536 hops.now) }
{
    let near = if hops.len() > 65536 {
        &hops[..65536]
    } else {
        hops
    };
    first_place(near, address)
}

// The hop number of an address: its lowest place in the list, where it has one up to 65,535.
#[tactic(auto, using(crate::proofs::Places::found_at))]
fn find_hop(hops: &[u32], address: u32) -> Option<u16>
    ensures { result ≡ hop_found hops.now address }
{
    let place = place_of(hops, address)?;
    // The cast loses nothing: no place above 65,535 is looked at.
    Some(place as u16)
}

// The hop of what a message announces; where that is nothing, no hop is wanted, and 0 will do, as `hop_due` has it.
#[tactic(auto, unfolding(crate::specs::Readings::hop_due))]
pub fn hop_due(announces: bool, next_hop: Option<u32>, hops: &[u32]) -> Option<u16>
    ensures { result ≡ hop_due announces next_hop hops.now }
{
    if !announces {
        return Some(0);
    }
    find_hop(hops, next_hop?)
}

// Whether all bytes are ones. Nearly always they are, so each is looked at, whatever those before it are, which the
// compiler can do at once.
#[tactic(auto, unfolding(message_format::specs::Format::all_ones, message_format::specs::Format::byte))]
fn all_ones(bytes: &[u8]) -> bool
    ensures { result ≡ all_ones bytes.now (length bytes.now) }
{
    let mut ones = true;
    for byte in bytes {
        ones &= *byte == 255;
    }
    ones
}

// Whether marker, length and type are those of an UPDATE of as many bytes as are lent.
#[tactic(auto, using(std::proofs::lemmas::Bool::Decides::nat_tests), unfolding(message_format::specs::Format::header_good, message_format::specs::Format::byte, rules::specs::Tools::within))]
fn header_good(message: &[u8]) -> bool
    ensures { result ≡ header_good message.now }
{
    if !(23..=4096).contains(&message.len()) || !all_ones(&message[..16]) {
        return false;
    }
    two_bytes(message, 16) as usize == message.len() && message[18] == 2
}

// Reads a message from end to end.
#[tactic(auto, using(crate::proofs::Headers::header_size, std::proofs::lemmas::Bool::Decides::nat_tests), unfolding(crate::specs::Readings::message_read, crate::specs::Readings::hop_read, crate::specs::Readings::prefixes_read, message_format::specs::Format::well_formed, message_format::specs::Format::parts_fit, message_format::specs::Format::contents_good, message_format::specs::Format::withdrawn_to, message_format::specs::Format::attributes_from, message_format::specs::Format::announced_from, message_format::specs::Format::message_hop))]
pub fn read_message(message: &[u8]) -> Result<Message, Refusal>
    ensures { result ≡ message_read message.now }
{
    if !header_good(message) {
        return Err(Refusal::Malformed);
    }
    let withdrawn_to = 21 + two_bytes(message, 19) as usize;
    if withdrawn_to + 2 > message.len() {
        return Err(Refusal::Malformed);
    }
    let announced_from = withdrawn_to + 2 + two_bytes(message, withdrawn_to) as usize;
    if announced_from > message.len() {
        return Err(Refusal::Malformed);
    }
    read_prefixes(message, 21, withdrawn_to)?;
    let next_hop = read_hop(message, withdrawn_to + 2, announced_from)?;
    read_prefixes(message, announced_from, message.len())?;
    Ok(Message {
        withdrawn_to,
        announced_from,
        next_hop,
    })
}
