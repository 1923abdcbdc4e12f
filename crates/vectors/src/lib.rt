// The match vector: which lengths' filters claim an address.
#![tactic(auto)]

ghost use Rattle.std.specs.Prelude.{◌≡◌};
ghost use Rattle.rules.specs.Table.{vector_of};

use filters::{Filters, filter_size};
use settings::Length;

// The vector of an address: bit L - 1 is set exactly if the filter of length L claims its prefix. A step
// down to the next shorter length clears one bit of the prefix, 2^(32 - L), and leads to the filter that lies
// just before.
pub fn vector_of(filters: &Filters, address: u32) -> u32
    ensures { result ≡ vector_of filters.now.settings.now.all filters.now.counters.now address }
{
    let mut vector = 0;
    let mut p = address;
    let mut bit: u32 = 1;
    let mut start = filters.counters.len();
    // By its number, since bit and prefix go with it as the D does.
    for number in (1..=32).rev() {
        let bits = u32::from(filters.settings.all.d[(number - 1) as usize]);
        start -= filter_size(bits) as usize;
        if filters.claims_prefix(p, Length { number }, start) {
            vector |= 1 << (number - 1);
        }
        p &= !bit;
        bit <<= 1;
    }
    vector
}
