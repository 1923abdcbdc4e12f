// Takes a stream in chunks for a call with a table, whatever the call makes of its records: the checks before a
// chunk is taken, the loop over the records of a chunk, and what is given back.
#![tactic(auto)]

ghost use Rattle.std.specs.Prelude.{◌≡◌, ◌≤◌, ◌||◌, ℕ, List, IfOk, true, false, ltb, length};
ghost use Rattle.rules.specs.declared.Settings.{Settings};
ghost use Rattle.rules.specs.Numbers.{party_number, number_given};
ghost use Rattle.rules.specs.Table.{lent};
ghost use Rattle.rules.specs.Tools.{any};
ghost use Rattle.settings.specs.Tables.{Same};
ghost use Rattle.stream_format.specs.Streams.{stream, chunk_taken};
ghost use Rattle.stream_format.specs.Chunks.{Reading, record_done, doing, chunk_refusal, chunked, take_chunk};
ghost use Rattle.stream_records.specs.Runs.{Sound};
ghost use Rattle.stream_chunks.specs.Work.{work, done};
ghost use Rattle.stream_chunks.specs.Grows.{Grows};

use rules::{Party, Refusal, Settings};
use settings::{InRange, Table, refuse_party};
use stream_format::{Event, Kind, Stage};
use stream_records::{keep_stage, next_record, stage_of};

// Reads the records of one kind for a call with a table, and counts them. The counts are lent as N words.
pub trait Reader<const N: usize> {
    type Counts: Copy + From<[u32; N]> + Into<[u32; N]>;

    // What a party's call makes of the records, by the definitions.
    ghost reading: { Self → ℕ → Reading Self.Counts };

    // How far the counts may be after so many bytes of a chunk.
    ghost Low: { Self.Counts → ℕ → Type 0 };

    // The records that are read.
    fn kind(&self) -> Kind
        ensures { (party : ℕ) → result ≡ (reading self.now party).kind };

    // Makes the calls of a record and counts it. One that ends the stream is refused, and does nothing.
    fn read(
        &self,
        table: &mut Table,
        party: Party,
        bytes: &[u8],
        counts: &mut Self::Counts,
    ) -> Result<(), Refusal>
        requires { Low counts.old 65536 }
        ensures same { Same table.old table.new }
        ensures done { record_done table.old.settings.all (reading self.now (party_number party)) (work counts.old table.old.counters.now table.old.slots.now) bytes.now ≡ done (number_given result) counts.new table.new.counters.now table.new.slots.now };

    // Counts a record that is stepped over.
    fn step_over(&self, counts: &mut Self::Counts)
        requires { Low counts.old 65536 }
        ensures { (party : ℕ) → counts.new ≡ (reading self.now party).counts_over counts.old };

    // The reading is the party's; the counts are those of the words that they are taken from, and are written as
    // such words.
    ghost names_party: { (x : Self) (party : ℕ) → (reading x party).party ≡ party };

    ghost taken_up: { (x : Self) (party : ℕ) (words : List ℕ) (counts : Self.Counts) → Self.Counts.From.from_gives words counts → counts ≡ (reading x party).counts_of words };

    ghost written: { (x : Self) (party : ℕ) (words : List ℕ) (counts : Self.Counts) → Self.Counts.Into.converts counts words → words ≡ (reading x party).counts_words counts };

    // They are too high where one of the words is; where none is, a chunk can begin, and each byte of it lets them grow.
    ghost any_high: { (x : Self) (party : ℕ) (words : List ℕ) → length words ≡ N → (reading x party).counts_high ((reading x party).counts_of words) ≡ any (ltb 4000000000) words };

    ghost begins: { (x : Self) (party : ℕ) (words : List ℕ) → any (ltb 4000000000) words ≡ false → Low ((reading x party).counts_of words) 0 };

    ghost grows: { (t : Settings) (x : Self) (party : ℕ) → Grows t (reading x party) Low };
}

// 19, 1, 2 or 15, or the party where the chunk can be taken.
#[tactic(auto, unfolding(stream_format::specs::Chunks::chunk_refusal, rules::specs::Table::refuse))]
fn refuse_chunk(
    settings: Settings,
    counters: &[u8],
    slots: &[u32],
    party: u32,
    high: bool,
    chunk: &[u8],
) -> Result<Party, Refusal>
    ensures refusal { number_given result ≡ chunk_refusal settings (lent counters.now slots.now) party high chunk.now }
    ensures known { IfOk result (λ whose. party_number whose ≡ party) }
{
    if chunk.len() > 65536 || high {
        return Err(Refusal::BigChunk);
    }
    refuse_party(settings, counters, slots, party)
}

// Whether a count is above 4,000,000,000.
fn any_high(counts: &[u32]) -> bool
    ensures { result ≡ any (ltb 4000000000) counts.now }
{
    counts.iter().any(|count| *count > 4_000_000_000)
}

// Takes the bytes of a chunk: each record that is complete with one of them is read.
fn take_records<R: Reader<N>, const N: usize>(
    table: &mut Table,
    reader: &R,
    party: Party,
    counts: &mut R::Counts,
    begun: Stage,
    room: &mut [u8; 65548],
    chunk: &[u8],
) -> Stage
    requires low { R.Low counts.old 0 }
    requires sound { Sound begun }
    requires chunk_len_bound { length chunk.now ≤ 65536 }
    ensures same { Same table.old table.new }
    ensures taken { chunk_taken (R.reading reader.now (party_number party)).kind (doing table.old.settings.all (R.reading reader.now (party_number party))) (stream begun room.old (work counts.old table.old.counters.now table.old.slots.now)) chunk.now ≡ stream result room.new (work counts.new table.new.counters.now table.new.slots.now) }
    ensures stays_sound { Sound result }
{
    let kind = reader.kind();
    let mut stage = begun;
    let mut rest = chunk;
    loop {
        let next = next_record(kind, stage, room, rest);
        stage = next.stage;
        rest = next.rest;
        match next.event {
            Event::Nothing => return stage,
            Event::Record { size } => {
                let bytes = &room[..size];
                if let Err(refusal) = reader.read(table, party, bytes, counts) {
                    let number = refusal.number();
                    return Stage::Ended { number };
                }
            }
            Event::Stepped => reader.step_over(counts),
        }
    }
}

// Takes one chunk: the number that ended the stream, or the refusal of the chunk, or 0.
// A number and no refusal: the words that are lent can hold any number for the end of a stream.
// Nine parameters: README and the header name what is lent, and nothing of it is checked yet.
pub fn take_chunk<R: Reader<N>, const N: usize>(
    settings: Settings,
    counters: &mut [u8],
    slots: &mut [u32],
    party: u32,
    reader: &R,
    counts: &mut [u32; N],
    words: &mut [u32; 3],
    room: &mut [u8; 65548],
    chunk: &[u8],
) -> u32
    ensures { take_chunk settings (R.reading reader.now party) (lent counters.old slots.old) counts.old words.old room.old chunk.now ≡ chunked result counts.new words.new room.new counters.new slots.new }
{
    let begun = stage_of(reader.kind(), words, room);
    if let Stage::Ended { number } = begun {
        return number;
    }
    let high = any_high(counts);
    let party = match refuse_chunk(settings, counters, slots, party, high, chunk) {
        Ok(party) => party,
        Err(refusal) => return refusal.number(),
    };
    let mut counted = R::Counts::from(*counts);
    let settings = InRange { all: settings };
    let mut table = Table {
        settings,
        counters,
        slots,
    };
    let stage = take_records(&mut table, reader, party, &mut counted, begun, room, chunk);
    *counts = counted.into();
    keep_stage(stage, words);
    stage.number()
}
