// What a mark answers to a lookup.
#![tactic(auto)]

ghost use Rattle.std.specs.Prelude.{◌≡◌, true};
ghost use Rattle.rules.specs.Table.{own, route_answer, default_answer};
ghost use Rattle.rules.specs.Numbers.{party_number, lookup_answer};

use buckets::{first_mark, is_own};
use rules::{Lookup, Party, Route};

// The route in a slot of this mark, which is the party's, found at this length.
pub fn answer_route(party: Party, mark: u32, length: u32, probes: u32) -> Lookup
    requires { own (party_number party) mark ≡ true }
    ensures { lookup_answer result.route result.probes ≡ route_answer (party_number party) mark length probes }
{
    Lookup {
        route: Some(Route {
            hop: mark - first_mark(party),
            length,
        }),
        probes,
    }
}

// The party's default route of this mark, or none where the mark is not the party's.
pub fn answer_default(party: Party, mark: u32, probes: u32) -> Lookup
    ensures { lookup_answer result.route result.probes ≡ default_answer (party_number party) mark probes }
{
    if is_own(party, mark) {
        return answer_route(party, mark, 0, probes);
    }
    Lookup {
        route: None,
        probes,
    }
}
