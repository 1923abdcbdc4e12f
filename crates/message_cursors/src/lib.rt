// Reads prefixes and path attributes one by one, out of any part of any bytes. A cursor goes in by value
// and what it reads comes back with the moved cursor; no byte outside the part is looked at.
#![tactic(auto)]

ghost use Rattle.std.specs.Prelude.{◌≡◌, ◌+◌, ◌≤◌, ◌<◌, ◌↔◌, length, slice_index, MatchResult, IsTrue};
ghost use Rattle.message_format.specs.Format.{two_bytes, four_bytes, address_at, bytes_for, extended, value_from, value_size};
ghost use Rattle.message_cursors.specs.Steps.{next_prefix, next_attribute};

use prefixes::prefix_of;
use rules::Refusal;

// Where the next prefix or attribute of a part starts, and where the part ends. The two are places in all of the bytes,
// and no slice, as the definitions of a message go by places.
#[derive(Clone, Copy)]
pub struct Cursor {
    pub at: usize,
    pub end: usize,
}

// A prefix that was read, with the cursor moved past it.
#[derive(Clone, Copy)]
pub struct PrefixRead {
    pub prefix: u32,
    pub length: u32,
    pub rest: Cursor,
}

// An attribute that was read: its type, where its value starts and how many bytes that has; with the cursor moved
// past it.
#[derive(Clone, Copy)]
pub struct AttributeRead {
    pub kind: u8,
    pub from: usize,
    pub size: usize,
    pub rest: Cursor,
}

// The number in two bytes. This and `four_bytes` are a definition each, and std has one function for each width.
#[tactic(auto, unfolding(message_format::specs::Format::two_bytes, message_format::specs::Format::from_octets, message_format::specs::Format::byte))]
pub fn two_bytes(bytes: &[u8], at: usize) -> u32
    requires { at + 2 ≤ length bytes.now }
    ensures { result ≡ two_bytes bytes.now at }
{
    u32::from(u16::from_be_bytes([bytes[at], bytes[at + 1]]))
}

// The number in four bytes.
#[tactic(auto, unfolding(message_format::specs::Format::four_bytes, message_format::specs::Format::from_octets, message_format::specs::Format::byte))]
pub fn four_bytes(bytes: &[u8], at: usize) -> u32
    requires { at + 4 ≤ length bytes.now }
    ensures { result ≡ four_bytes bytes.now at }
{
    u32::from_be_bytes([bytes[at], bytes[at + 1], bytes[at + 2], bytes[at + 3]])
}

// How many bytes hold so many bits.
#[tactic(auto, unfolding(message_format::specs::Format::bytes_for))]
pub fn bytes_for(bits: u8) -> usize
    ensures { result ≡ bytes_for bits }
{
    usize::from(bits).div_ceil(8)
}

// An octet of a prefix's address, of its own bytes; one that it has no byte for is zero.
fn octet(own: &[u8], i: usize) -> u8
    ensures { result ≡ slice_index own.now i }
{
    own.get(i).copied().unwrap_or(0)
}

// The address of a prefix's bytes. Octet by octet, since a copy of so few bytes is a call, and a route took 8% longer.
fn address_at(bytes: &[u8], at: usize, bits: u8) -> u32
    requires { at + bytes_for bits ≤ length bytes.now }
    ensures { result ≡ address_at bytes.now at bits }
{
    let own = &bytes[at..at + bytes_for(bits)];
    u32::from_be_bytes([octet(own, 0), octet(own, 1), octet(own, 2), octet(own, 3)])
}

// Whether the length of an attribute has two bytes, by a bit of its flags.
#[tactic(auto, unfolding(message_format::specs::Format::extended, message_format::specs::Format::byte))]
fn is_extended(bytes: &[u8], at: usize) -> bool
    requires { at < length bytes.now }
    ensures { result ≡ extended bytes.now at }
{
    bytes[at] & 16 != 0
}

// Where the value of an attribute starts: after flags, type and a length of two bytes or one.
#[tactic(auto, unfolding(message_format::specs::Format::value_from))]
fn value_from(bytes: &[u8], at: usize) -> usize
    requires { at < length bytes.now }
    ensures { result ≡ value_from bytes.now at }
{
    if is_extended(bytes, at) {
        at + 4
    } else {
        at + 3
    }
}

// How many bytes the value has.
#[tactic(auto, using(std::proofs::lemmas::Bool::Decides::nat_tests), unfolding(message_format::specs::Format::value_from, message_format::specs::Format::value_size, message_format::specs::Format::byte))]
fn value_size(bytes: &[u8], at: usize) -> usize
    requires { value_from bytes.now at ≤ length bytes.now }
    ensures { result ≡ value_size bytes.now at }
{
    if is_extended(bytes, at) {
        two_bytes(bytes, at + 2) as usize
    } else {
        usize::from(bytes[at + 2])
    }
}

impl Cursor {
    // Whether nothing is left of the part. A part that overruns the bytes is a fault.
    fn is_over(self, bytes: &[u8]) -> Result<bool, Refusal>
        ensures { MatchResult result (λ over. (self.end ≤ length bytes.now) × (IsTrue over ↔ (self.end ≤ self.at))) (λ e. (e ≡ Refusal.Malformed) × (length bytes.now < self.end)) }
    {
        if bytes.len() < self.end {
            return Err(Refusal::Malformed);
        }
        Ok(self.end <= self.at)
    }

    // The cursor past so many bytes from a place on. That they overrun the part is a fault.
    fn past(self, from: usize, size: usize) -> Result<Self, Refusal>
        requires { from ≤ self.end }
        ensures { MatchResult result (λ rest. (rest.at ≡ from + size) × ((rest.end ≡ self.end) × (from + size ≤ self.end))) (λ e. (e ≡ Refusal.Malformed) × (self.end < from + size)) }
    {
        if self.end - from < size {
            return Err(Refusal::Malformed);
        }
        Ok(Cursor {
            at: from + size,
            ..self
        })
    }

    // Reads the prefix at the cursor; bits after its length are cleared. None where the part is over; and a fault where the
    // prefix is too long or overruns its part, or the part overruns the bytes.
    #[tactic(auto, using(std::proofs::lemmas::Bool::Decides::nat_tests), unfolding(crate::specs::Steps::step, crate::specs::Steps::next_prefix, crate::specs::Steps::read_prefix, message_format::specs::Format::prefix_fits, message_format::specs::Format::after_prefix, message_format::specs::Format::prefix_from, message_format::specs::Format::byte))]
    pub fn next_prefix(self, bytes: &[u8]) -> Result<Option<PrefixRead>, Refusal>
        ensures { result ≡ next_prefix bytes.now self }
    {
        if self.is_over(bytes)? {
            return Ok(None);
        }
        let bits = bytes[self.at];
        if bits > 32 {
            return Err(Refusal::Malformed);
        }
        let from = self.at + 1;
        let rest = self.past(from, bytes_for(bits))?;
        let length = u32::from(bits);
        Ok(Some(PrefixRead {
            prefix: prefix_of(address_at(bytes, from, bits), length),
            length,
            rest,
        }))
    }

    // Reads flags, type and length of the attribute at the cursor, and steps over its value. None where the part is
    // over; and a fault where the attribute overruns its part, or the part overruns the bytes.
    #[tactic(auto, using(std::proofs::lemmas::Bool::Decides::nat_tests), unfolding(crate::specs::Steps::step, crate::specs::Steps::next_attribute, crate::specs::Steps::read_attribute, message_format::specs::Format::attribute_fits, message_format::specs::Format::after_attribute, message_format::specs::Format::value_from, message_format::specs::Format::type_of, message_format::specs::Format::byte))]
    pub fn next_attribute(self, bytes: &[u8]) -> Result<Option<AttributeRead>, Refusal>
        ensures { result ≡ next_attribute bytes.now self }
    {
        if self.is_over(bytes)? {
            return Ok(None);
        }
        let from = value_from(bytes, self.at);
        if self.end < from {
            return Err(Refusal::Malformed);
        }
        let size = value_size(bytes, self.at);
        let rest = self.past(from, size)?;
        Ok(Some(AttributeRead {
            kind: bytes[self.at + 1],
            from,
            size,
            rest,
        }))
    }
}
