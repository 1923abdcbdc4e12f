// The hashes: products of 32 bits whose top bits are kept.
#![tactic(auto)]

ghost use Rattle.std.specs.Prelude.{◌≡◌, ◌*◌, ◌/◌, ◌-◌, ◌^◌, ◌≤◌};
ghost use Rattle.rules.specs.Table.{wrap, bucket};

use rules::Settings;

// The product, which wraps at 2^32: over 64 bits, of which 32 are kept, as docs/DECISIONS.md has the form.
pub fn product(a: u32, b: u32) -> u32
    ensures { result ≡ wrap (a * b) }
{
    ((a as u64) * (b as u64) % 0x1_0000_0000) as u32
}

// The top bits of g, so many of them; none of them is 0. Over 64 bits they are shifted out of the low 32.
pub fn top_bits(g: u32, bits: u32) -> u32
    requires { bits ≤ 32 }
    ensures { result ≡ g / 2 ^ (32 - bits) }
{
    ((g as u64) << bits >> 32) as u32
}

// The bucket of a prefix p, at any length.
pub fn bucket_of(settings: Settings, p: u32) -> u32
    requires { settings.e ≤ 8 }
    ensures { result ≡ bucket settings p }
{
    top_bits(product(settings.c, p), settings.e)
}
