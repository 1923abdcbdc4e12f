// What a call gives back as the one number that C gets.
#![tactic(auto)]

ghost use Rattle.std.specs.Prelude.{◌≡◌, ◌*◌, ◌^◌};
ghost use Rattle.rules.specs.Table.{answer_number, vector_number};
ghost use Rattle.rules.specs.Numbers.{number_given, answer_given, vector_given};
ghost use Rattle.difference_rules.specs.Comparing.{with_count, differences_given, differences_number};
ghost use Rattle.message_format.specs.Reading.{report_number};
ghost use Rattle.message_format.specs.Reports.{report_given};
ghost use Rattle.c_numbers.specs.Fitting.{RefusalFits, Fits, CountsFit};

use message_format::Report;
use rules::{Lookup, Refusal, number_given};

// A refusal's part of the number that every call gives back. It takes a number, since a chunk's end is one.
pub fn refusal_part(refusal: u32) -> u64
    requires { RefusalFits refusal }
    ensures { result ≡ refusal * 2 ^ 48 }
{
    u64::from(refusal) << 48
}

// A call that gives back a refusal or nothing more, as one number.
pub fn number_of_outcome(outcome: Result<(), Refusal>) -> u64
    ensures { result ≡ number_given outcome * 2 ^ 48 }
{
    refusal_part(number_given(outcome))
}

// The parts of an answer as one number, whatever stands beside a refusal's number.
#[tactic(auto, unfolding(rules::specs::Table::answer_number, rules::specs::Table::one_if))]
pub fn number_of_parts(refusal: u32, found: bool, hop: u32, length: u32, probes: u32) -> u64
    requires { Fits (record { refusal = refusal; found = found; hop = hop; length = length; probes = probes }) }
    ensures { result ≡ answer_number (record { refusal = refusal; found = found; hop = hop; length = length; probes = probes }) }
{
    let found = u64::from(found) << 40;
    let hop = u64::from(hop) << 16;
    let length = u64::from(length) << 8;
    refusal_part(refusal) + found + hop + length + u64::from(probes)
}

// The answer of a lookup as one number.
#[tactic(auto, unfolding(rules::specs::Table::refused))]
pub fn number_of_answer(answer: Result<Lookup, Refusal>) -> u64
    requires { Fits (answer_given answer) }
    ensures { result ≡ answer_number (answer_given answer) }
{
    match answer {
        Ok(lookup) => match lookup.route {
            Some(route) => number_of_parts(0, true, route.hop, route.length, lookup.probes),
            None => number_of_parts(0, false, 0, 0, lookup.probes),
        },
        Err(refusal) => number_of_parts(refusal.number(), false, 0, 0, 0),
    }
}

// A word beside a refusal's number, a match vector or the count of a comparison, as one number.
#[tactic(auto, unfolding(rules::specs::Table::vector_number, difference_rules::specs::Comparing::differences_number))]
pub fn number_beside(refusal: u32, word: u32) -> u64
    requires { RefusalFits refusal }
    ensures vector { result ≡ vector_number (record { refusal = refusal; vector = word }) }
    ensures count { result ≡ differences_number (with_count refusal word) }
{
    refusal_part(refusal) + u64::from(word)
}

// A word that an accepted call gives back, a match vector or the count of a comparison, as one number.
pub fn number_of_word(word: Result<u32, Refusal>) -> u64
    ensures vector { result ≡ vector_number (vector_given word) }
    ensures count { result ≡ differences_number (differences_given word) }
{
    match word {
        Ok(word) => number_beside(0, word),
        Err(refusal) => number_beside(refusal.number(), 0),
    }
}

// The counts of a report beside a refusal's number, as one number.
#[tactic(auto, unfolding(message_format::specs::Reading::report_number))]
pub fn number_of_counts(refusal: u32, accepted: u32, refused: u32) -> u64
    requires { CountsFit (record { refusal = refusal; accepted = accepted; refused = refused }) }
    ensures { result ≡ report_number (record { refusal = refusal; accepted = accepted; refused = refused }) }
{
    refusal_part(refusal) + (u64::from(refused) << 12) + u64::from(accepted)
}

// The report of a message as one number.
pub fn number_of_report(report: Result<Report, Refusal>) -> u64
    requires { CountsFit (report_given report) }
    ensures { result ≡ report_number (report_given report) }
{
    match report {
        Ok(report) => number_of_counts(0, report.accepted, report.refused),
        Err(refusal) => number_of_counts(refusal.number(), 0, 0),
    }
}
