// The running tally of a replay: a step by value, and the thin function that changes a lent tally where it
// stands, once for each record.
#![tactic(auto)]

ghost use Rattle.std.specs.Prelude.{◌≡◌};
ghost use Rattle.replay_tally.specs.Steps.{tally_added, Addable, record_added, RecordAddable};

use message_calls::Counts;
use replay_format::Tally;
use rules::Refusal;

// The tally with one record more: 1 where its UPDATE was applied, or 0, and what was counted of its routes.
fn step(earlier: Tally, applied: u32, counts: Counts) -> Tally
    requires { Addable earlier applied counts }
    ensures { result ≡ tally_added earlier applied counts }
{
    let mut refused = earlier.refused;
    refused[Refusal::NotStored as usize] += counts.unstored;
    refused[Refusal::Full as usize] += counts.full;
    refused[Refusal::Above as usize] += counts.above;
    refused[Refusal::Below as usize] += counts.below;
    refused[Refusal::Odd as usize] += counts.odd;
    Tally {
        seen: earlier.seen + 1,
        applied: earlier.applied + applied,
        accepted: earlier.accepted + counts.accepted,
        refused,
    }
}

// Notes one record in a lent tally.
pub fn note(tally: &mut Tally, applied: u32, counts: Counts)
    requires { Addable tally.old applied counts }
    ensures { tally.new ≡ tally_added tally.old applied counts }
{
    *tally = step(*tally, applied, counts);
}

// Notes one record by what was counted of its routes, where its UPDATE was applied; where none was, it is only seen.
pub fn note_record(tally: &mut Tally, applied: Option<Counts>)
    requires { RecordAddable tally.old applied }
    ensures { tally.new ≡ record_added tally.old applied }
{
    match applied {
        Some(counts) => note(tally, 1, counts),
        None => note(tally, 0, Counts::default()),
    }
}
