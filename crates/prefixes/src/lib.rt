// Prefixes by masks, and which of them are odd.
#![tactic(auto)]

ghost use Rattle.std.specs.Prelude.{◌≡◌, ◌-◌, ◌^◌, ◌≤◌};
ghost use Rattle.rules.specs.Table.{prefix, lies_in, odd_prefix};

// The mask of a length: that many bits set, from the highest down. Lengths up to 32 stay numbers: callers have the
// bound from a loop or a check, and would take a type for it apart again.
fn mask(length: u32) -> u32
    requires { length ≤ 32 }
    ensures { result ≡ 2 ^ 32 - 2 ^ (32 - length) }
{
    if length == 0 {
        0
    } else {
        0xffff_ffff << (32 - length)
    }
}

// The prefix of an address: what the mask of the length leaves of it.
pub fn prefix_of(address: u32, length: u32) -> u32
    requires { length ≤ 32 }
    ensures { result ≡ prefix address length }
{
    address & mask(length)
}

// Whether a prefix lies wholly in another, the prefix within of length from: it is no shorter, and has its first bits.
fn lies_in(within: u32, from: u32, p: u32, length: u32) -> bool
    requires { from ≤ 32 }
    ensures { result ≡ lies_in within from p length }
{
    from <= length && prefix_of(p, from) == within
}

// Whether a prefix is odd: it lies wholly in 127.0.0.0/8 or in 224.0.0.0/4.
pub fn is_odd(p: u32, length: u32) -> bool
    ensures { result ≡ odd_prefix p length }
{
    lies_in(0x7f00_0000, 8, p, length) || lies_in(0xe000_0000, 4, p, length)
}
