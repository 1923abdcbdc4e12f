// A neighbour's message, read and applied: every check is passed before the first byte of the table is
// written. apply_message requires nothing: bad input gets its number and changes nothing. apply_update is for
// callers that have checked settings, sizes and party.
#![tactic(auto)]

ghost use Rattle.std.specs.Prelude.{◌≡◌};
ghost use Rattle.rules.specs.Numbers.{party_number, number_given};
ghost use Rattle.rules.specs.Table.{lent, left};
ghost use Rattle.rules.specs.Calls.{act};
ghost use Rattle.settings.specs.Tables.{memory_of, Same};
ghost use Rattle.updates.specs.Checked.{Checked};
ghost use Rattle.message_format.specs.Reading.{apply_message, reported};
ghost use Rattle.message_format.specs.Reports.{report_given};
ghost use Rattle.message_calls.specs.Walks.{none_counted, counted, Low, task_call, both_calls, walked, update_done, accepted_as, applied_to, Apart};

use message_cursors::Cursor;
use message_format::Report;
use message_readers::{hop_due, read_message};
use rules::{Party, Refusal, Settings};
use settings::{InRange, Table, refuse_party};
use updates::{add_announced, withdraw_checked};

// How many single calls were accepted, how many were refused, and how many of these under each number that a
// route of a message can be given: 7 (not stored), 8 (the bucket is full), 9 (a counter would pass 15), 10 (a
// counter would pass below 0) and 11 (an odd prefix).
#[derive(Clone, Copy, Debug, Default, PartialEq, Eq)]
pub struct Counts {
    pub accepted: u32,
    pub refused: u32,
    pub unstored: u32,
    pub full: u32,
    pub above: u32,
    pub below: u32,
    pub odd: u32,
}

impl Counts {
    // The counts with one call more.
    #[tactic(auto, unfolding(crate::specs::Walks::tallied, rules::specs::Calls::accepted_of, rules::specs::Calls::refused_of, rules::specs::Tools::those, rules::specs::Tools::count))]
    fn with(self, outcome: Result<(), Refusal>) -> Self
        requires { Low self 4096 }
        ensures { result ≡ counted self (number_given outcome) }
    {
        let Err(refusal) = outcome else {
            return Counts {
                accepted: self.accepted + 1,
                ..self
            };
        };
        let refused = Counts {
            refused: self.refused + 1,
            ..self
        };
        match refusal {
            Refusal::NotStored => Counts {
                unstored: self.unstored + 1,
                ..refused
            },
            Refusal::Full => Counts {
                full: self.full + 1,
                ..refused
            },
            Refusal::Above => Counts {
                above: self.above + 1,
                ..refused
            },
            Refusal::Below => Counts {
                below: self.below + 1,
                ..refused
            },
            Refusal::Odd => Counts {
                odd: self.odd + 1,
                ..refused
            },
            // No route of a message is given another number.
            _ => refused,
        }
    }
}

// What is done with each prefix of a part: it is withdrawn, or added with this hop. `task_call` says which call each
// is, so it is an enum and no closure.
#[derive(Clone, Copy, Debug, PartialEq, Eq)]
enum Task {
    Withdraw,
    Add(u16),
}

impl Task {
    // Makes the party's single call of the task for one prefix.
    #[tactic(auto, unfolding(rules::specs::Calls::act, crate::specs::Walks::task_call))]
    fn apply(self, table: &mut Table, party: Party, prefix: u32, length: u32) -> Result<(), Refusal>
        requires { Checked prefix length }
        ensures same { Same table.old table.new }
        ensures done { act table.old.settings.all (task_call (party_number party) self prefix length) (memory_of table.old) ≡ left (number_given result) table.new.counters.now table.new.slots.now }
    {
        match self {
            Task::Withdraw => withdraw_checked(table, party, prefix, length),
            Task::Add(hop) => add_announced(table, party, prefix, length, hop),
        }
    }
}

// Withdraws each prefix of one part, then adds each of another with this hop, in their order, and counts. There is no
// fault in a message that was read from end to end.
fn apply_parts(
    table: &mut Table,
    party: Party,
    message: &[u8],
    withdrawn: Cursor,
    announced: Cursor,
    hop: u16,
) -> Result<Counts, Refusal>
    requires { Apart message.now withdrawn announced }
    ensures same { Same table.old table.new }
    ensures done { accepted_as (walked table.old.settings.all (memory_of table.old) none_counted (both_calls (party_number party) message.now withdrawn announced hop)) ≡ applied_to result table.new.counters.now table.new.slots.now }
{
    let mut counts = Counts::default();
    for (task, part) in [(Task::Withdraw, withdrawn), (Task::Add(hop), announced)] {
        let mut rest = part;
        while let Some(read) = rest.next_prefix(message)? {
            let outcome = task.apply(table, party, read.prefix, read.length);
            counts = counts.with(outcome);
            rest = read.rest;
        }
    }
    Ok(counts)
}

// Applies one message for a party to a table. Its single calls are counted; it is
// refused where it is not well-formed, and where prefixes are announced without a hop that is in the list.
pub fn apply_update(
    table: &mut Table,
    party: Party,
    message: &[u8],
    hops: &[u32],
) -> Result<Counts, Refusal>
    ensures same { Same table.old table.new }
    ensures done { update_done table.old.settings.all (memory_of table.old) (party_number party) message.now hops.now ≡ applied_to result table.new.counters.now table.new.slots.now }
{
    let read = read_message(message)?;
    let announces = read.announced_from < message.len();
    let hop = hop_due(announces, read.next_hop, hops).ok_or(Refusal::Hopless)?;
    let withdrawn = Cursor {
        at: 21,
        end: read.withdrawn_to,
    };
    let announced = Cursor {
        at: read.announced_from,
        end: message.len(),
    };
    apply_parts(table, party, message, withdrawn, announced, hop)
}

// Applies one message for a party: its withdrawn routes in order, then its announced ones, whose hop is the
// lowest place of NEXT_HOP in the list. A route that the table refuses is counted and skipped.
pub fn apply_message(
    settings: Settings,
    counters: &mut [u8],
    slots: &mut [u32],
    party: u32,
    message: &[u8],
    hops: &[u32],
) -> Result<Report, Refusal>
    ensures { apply_message settings (lent counters.old slots.old) party message.now hops.now ≡ reported (report_given result) counters.new slots.new }
{
    let party = refuse_party(settings, counters, slots, party)?;
    let settings = InRange { all: settings };
    let mut table = Table {
        settings,
        counters,
        slots,
    };
    let counts = apply_update(&mut table, party, message, hops)?;
    Ok(Report {
        accepted: counts.accepted,
        refused: counts.refused,
    })
}
