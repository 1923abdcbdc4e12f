// What a call checks, of the parameters that it is given one by one, before it looks into the memory: an update 1, 2,
// 15, 3 and 4 of its party and its route, and 5 of its hop; an add 11 between them; a list of addresses 1, 2, 15 and
// 18. What passes gives the party, and the hop as a number of 16 bits.
#![tactic(auto)]

ghost use Rattle.std.specs.Prelude.{◌≡◌, ltb, length, IfOk};
ghost use Rattle.rules.specs.Table.{Memory, lent, refuse, party_refusal, add_checks, route_refusal, list_refusal};
ghost use Rattle.rules.specs.Numbers.{party_number, number_given};

use prefixes::{is_odd, prefix_of};
use rules::{Party, Refusal, Settings};
use settings::{refuse_party, refuse_party_sizes};

// 1, 2, 15, 3 and 4, which every update checks.
pub fn refuse_route(
    settings: Settings,
    counters: &[u8],
    slots: &[u32],
    party: u32,
    p: u32,
    length: u32,
) -> Result<Party, Refusal>
    ensures refusal { number_given result ≡ route_refusal settings (lent counters.now slots.now) party p length 0 }
    ensures known { IfOk result (λ whose. party_number whose ≡ party) }
{
    let whose = refuse_party(settings, counters, slots, party)?;
    if 32 < length {
        return Err(Refusal::TooLong);
    }
    if prefix_of(p, length) != p {
        return Err(Refusal::Loose);
    }
    Ok(whose)
}

// 5, which a hop above 65,535 gets.
fn refuse_high(hop: u32) -> Result<u16, Refusal>
    ensures refusal { number_given result ≡ refuse (ltb 65535 hop) 5 0 }
    ensures low { IfOk result (λ low. low ≡ hop) }
{
    u16::try_from(hop).or(Err(Refusal::HighHop))
}

// These and 5, which a change checks.
pub fn refuse_hop(
    settings: Settings,
    counters: &[u8],
    slots: &[u32],
    party: u32,
    p: u32,
    length: u32,
    hop: u32,
) -> Result<(Party, u16), Refusal>
    ensures refusal { number_given result ≡ route_refusal settings (lent counters.now slots.now) party p length (refuse (ltb 65535 hop) 5 0) }
    ensures known { IfOk result (λ r. party_number r.0 ≡ party) }
    ensures low { IfOk result (λ r. r.1 ≡ hop) }
{
    Ok((
        refuse_route(settings, counters, slots, party, p, length)?,
        refuse_high(hop)?,
    ))
}

// These, 11 and 5, which an add checks.
pub fn refuse_add(
    settings: Settings,
    counters: &[u8],
    slots: &[u32],
    party: u32,
    p: u32,
    length: u32,
    hop: u32,
) -> Result<(Party, u16), Refusal>
    ensures refusal { number_given result ≡ party_refusal settings (lent counters.now slots.now) party (add_checks p length hop 0) }
    ensures known { IfOk result (λ r. party_number r.0 ≡ party) }
    ensures low { IfOk result (λ r. r.1 ≡ hop) }
{
    let whose = refuse_route(settings, counters, slots, party, p, length)?;
    if is_odd(p, length) {
        return Err(Refusal::Odd);
    }
    Ok((whose, refuse_high(hop)?))
}

// 1, 2, 15 and 18, for memory of these many counters and words and for so many addresses and results,
// counted both in words or both in bytes.
pub fn refuse_list(
    settings: Settings,
    counters: usize,
    slots: usize,
    party: u32,
    addresses: usize,
    results: usize,
) -> Result<Party, Refusal>
    ensures refusal { (m : Memory) → length m.counters ≡ counters → length m.slots ≡ slots → number_given result ≡ list_refusal settings m party addresses results 0 }
    ensures known { IfOk result (λ whose. party_number whose ≡ party) }
{
    let whose = refuse_party_sizes(settings, counters, slots, party)?;
    if addresses.checked_mul(4) != Some(results) {
        return Err(Refusal::BadRoom);
    }
    Ok(whose)
}
