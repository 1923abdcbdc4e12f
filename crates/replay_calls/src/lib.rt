// Replays a recorded day that comes in chunks. As soon as a record's last byte is there, its UPDATE is applied and
// the record is tallied. The call requires nothing, and keeps nothing but what is lent: the tally, the words of
// the stream and its room.
#![tactic(auto)]

ghost use Rattle.std.specs.Prelude.{◌≡◌};
ghost use Rattle.rules.specs.Numbers.{party_number};
ghost use Rattle.rules.specs.Table.{lent};
ghost use Rattle.settings.specs.Tables.{Same};
ghost use Rattle.stream_format.specs.Chunks.{chunked};
ghost use Rattle.replay_format.specs.Replaying.{replaying, replay_chunk};
ghost use Rattle.replay_calls.specs.Days.{LowAfter, RecordReplayed};
ghost use Rattle.replay_calls.specs.Laws.{names_party, taken_up, written, any_high, tally_low, tally_grows};

use message_calls::{Counts, apply_update};
use replay_format::Tally;
use replay_readers::read_record;
use replay_tally::note_record;
use rules::{Party, Refusal, Settings};
use settings::Table;
use stream_chunks::{Reader, take_chunk};
use stream_format::Kind;

// Reads the records of a day: each applies its UPDATE, with a hop out of the list.
#[derive(Clone, Copy)]
struct Replayer<'a> {
    hops: &'a [u32],
}

// Applies the UPDATE of one record, if it holds one that is not refused: what was counted of its routes.
fn replay_record(
    table: &mut Table,
    party: Party,
    bytes: &[u8],
    hops: &[u32],
) -> Result<Option<Counts>, Refusal>
    ensures same { Same table.old table.new }
    ensures done { RecordReplayed table.old.settings.all (party_number party) hops.now bytes.now table.old.counters.now table.old.slots.now result table.new.counters.now table.new.slots.now }
{
    let Some(at) = read_record(bytes)? else {
        return Ok(None);
    };
    match apply_update(table, party, &bytes[at..], hops) {
        Ok(counts) => Ok(Some(counts)),
        Err(Refusal::Hopless) => Ok(None),
        Err(refusal) => Err(refusal),
    }
}

impl Reader<23> for Replayer<'_> {
    type Counts = Tally;

    ghost reading = { λ replayer party. replaying party replayer.hops.now };

    ghost Low = { LowAfter };

    // Type 16, BGP4MP, and subtypes 1, MESSAGE, and 4, MESSAGE_AS4.
    #[tactic(auto, unfolding(replay_format::specs::Replaying::replaying))]
    fn kind(&self) -> Kind {
        Kind {
            number: 16,
            subtype: 1,
            also: 4,
        }
    }

    #[tactic(auto, unfolding(crate::specs::Days::replayed_to))]
    fn read(
        &self,
        table: &mut Table,
        party: Party,
        bytes: &[u8],
        tally: &mut Tally,
    ) -> Result<(), Refusal> {
        let applied = replay_record(table, party, bytes, self.hops)?;
        note_record(tally, applied);
        Ok(())
    }

    #[tactic(auto, unfolding(replay_format::specs::Replaying::replaying, replay_tally::specs::Steps::record_added))]
    fn step_over(&self, tally: &mut Tally) {
        note_record(tally, None);
    }

    ghost names_party = { λ replayer party. names_party party replayer.hops.now };

    ghost taken_up = { λ replayer party words tally. taken_up party replayer.hops.now words tally };

    ghost written = { λ replayer party words tally. written party replayer.hops.now words tally };

    ghost any_high = { λ replayer party words. any_high party replayer.hops.now words };

    ghost begins = { λ replayer party words. tally_low party replayer.hops.now words };

    ghost grows = { λ settings replayer party. tally_grows settings party replayer.hops.now };
}

// Takes one chunk of a day: the number that ended the replay, or the refusal of the chunk, or 0.
// A number and no refusal: the words that are lent can hold any number for the end of a stream.
// It looks like `import_chunk`, since all that differs is the reader: `import_chunk_determined` and
// `replay_chunk_determined` speak of each.
#[tactic(auto, unfolding(replay_format::specs::Replaying::replay_chunk))]
pub fn replay_chunk(
    settings: Settings,
    counters: &mut [u8],
    slots: &mut [u32],
    party: u32,
    hops: &[u32],
    tally: &mut [u32; 23],
    words: &mut [u32; 3],
    room: &mut [u8; 65548],
    chunk: &[u8],
) -> u32
    ensures { replay_chunk settings (lent counters.old slots.old) party hops.now tally.old words.old room.old chunk.now ≡ chunked result tally.new words.new room.new counters.new slots.new }
{
    let reader = Replayer { hops };
    take_chunk(
        settings, counters, slots, party, &reader, tally, words, room, chunk,
    )
}
