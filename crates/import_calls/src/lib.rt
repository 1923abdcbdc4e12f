// Fills a table from a dump that comes in chunks. Each record adds its route as soon as its last byte is there.
// The call requires nothing, and keeps nothing but what is lent: counts, the words of the stream and its room.
#![tactic(auto)]

ghost use Rattle.std.specs.Prelude.{◌≡◌, [], ◌∷◌};
ghost use Rattle.rules.specs.Numbers.{number_given};
ghost use Rattle.rules.specs.Table.{lent};
ghost use Rattle.stream_format.specs.Chunks.{chunked};
ghost use Rattle.import_format.specs.Importing.{counts_more, importing, import_chunk};
ghost use Rattle.import_calls.specs.Counts.{Low};
ghost use Rattle.import_calls.specs.Laws.{names_party, taken_up, written, any_high, counts_low, counts_grow};

use import_format::ImportCounts;
use import_readers::read_record;
use rules::{Party, Refusal, Settings};
use settings::Table;
use stream_chunks::{Reader, take_chunk};
use stream_format::Kind;
use updates::add_announced;

// Reads the records of a dump: each adds its route, with a hop out of the list.
#[derive(Clone, Copy)]
struct Importer<'a> {
    hops: &'a [u32],
}

// The counts with one route more, which the table accepted or refused.
#[tactic(auto, unfolding(import_format::specs::Importing::counts_more, rules::specs::Calls::accepted_of, rules::specs::Calls::refused_of, rules::specs::Tools::those))]
fn count_route(earlier: ImportCounts, outcome: Result<(), Refusal>) -> ImportCounts
    requires { Low earlier 65536 }
    ensures { result ≡ counts_more earlier (number_given outcome ∷ []) }
{
    match outcome {
        Ok(()) => ImportCounts {
            accepted: earlier.accepted + 1,
            ..earlier
        },
        Err(_) => ImportCounts {
            refused: earlier.refused + 1,
            ..earlier
        },
    }
}

// The counts with one record more that has no hop.
#[tactic(auto, unfolding(import_format::specs::Importing::counts_more, rules::specs::Calls::accepted_of, rules::specs::Calls::refused_of, rules::specs::Tools::those))]
fn count_hopless(earlier: ImportCounts) -> ImportCounts
    requires { Low earlier 65536 }
    ensures { result ≡ counts_more earlier [] }
{
    ImportCounts {
        hopless: earlier.hopless + 1,
        ..earlier
    }
}

impl Reader<3> for Importer<'_> {
    type Counts = ImportCounts;

    ghost reading = { λ importer party. importing party importer.hops.now };

    ghost Low = { Low };

    // Type 13, TABLE_DUMP_V2, and subtype 2, RIB_IPV4_UNICAST.
    #[tactic(auto, unfolding(import_format::specs::Importing::importing))]
    fn kind(&self) -> Kind {
        Kind {
            number: 13,
            subtype: 2,
            also: 2,
        }
    }

    fn read(
        &self,
        table: &mut Table,
        party: Party,
        bytes: &[u8],
        counts: &mut ImportCounts,
    ) -> Result<(), Refusal> {
        *counts = match read_record(bytes, self.hops)? {
            Some(route) => {
                let outcome = add_announced(table, party, route.prefix, route.length, route.hop);
                count_route(*counts, outcome)
            }
            None => count_hopless(*counts),
        };
        Ok(())
    }

    // Nothing is counted of it.
    #[tactic(auto, unfolding(import_format::specs::Importing::importing))]
    fn step_over(&self, _counts: &mut ImportCounts) {}

    ghost names_party = { λ importer party. names_party party importer.hops.now };

    ghost taken_up = { λ importer party words counts. taken_up party importer.hops.now words counts };

    ghost written = { λ importer party words counts. written party importer.hops.now words counts };

    ghost any_high = { λ importer party words. any_high party importer.hops.now words };

    ghost begins = { λ importer party words. counts_low party importer.hops.now words };

    ghost grows = { λ settings importer party. counts_grow settings party importer.hops.now };
}

// Takes one chunk of a dump: the number that ended the import, or the refusal of the chunk, or 0.
// A number and no refusal: the words that are lent can hold any number for the end of a stream.
#[tactic(auto, unfolding(import_format::specs::Importing::import_chunk))]
pub fn import_chunk(
    settings: Settings,
    counters: &mut [u8],
    slots: &mut [u32],
    party: u32,
    hops: &[u32],
    counts: &mut [u32; 3],
    words: &mut [u32; 3],
    room: &mut [u8; 65548],
    chunk: &[u8],
) -> u32
    ensures { import_chunk settings (lent counters.old slots.old) party hops.now counts.old words.old room.old chunk.now ≡ chunked result counts.new words.new room.new counters.new slots.new }
{
    let reader = Importer { hops };
    take_chunk(
        settings, counters, slots, party, &reader, counts, words, room, chunk,
    )
}
