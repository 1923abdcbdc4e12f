// Cuts a stream into records. Bytes are taken in runs, as many of a header or a body as the chunk has, up to the
// next complete record; those of a record that is read are copied into the lent room, and those of any other
// are stepped over without a look at them. Between two chunks the stage lies in three lent words.
#![tactic(auto)]

ghost use Rattle.std.specs.Prelude.{◌+◌, ◌^◌, ◌≤◌, ◌<◌, ◌≡◌, not, ◌||◌, [], ◌∷◌, eqb, length};
ghost use Rattle.std.proofs.lemmas.List.Edits.{sets};
ghost use Rattle.rules.specs.Tools.{within};
ghost use Rattle.stream_format.specs.declared.Stage.TheVariants.{Header};
ghost use Rattle.stream_format.specs.declared.Event.TheVariants.{Nothing};
ghost use Rattle.stream_format.specs.Streams.{is_kind, header_read};
ghost use Rattle.stream_format.specs.Kept.{is_body, stage_of, words_of, end_stream, ended_as};
ghost use Rattle.stream_records.specs.Runs.{Sound, Stands, Goes, GoesFrom, BodyGoes, OverGoes};

use message_cursors::{four_bytes, two_bytes};
use rules::Refusal;
use stream_format::{Event, Kind, Stage};

// Where a stream stands after some bytes, those that are not taken yet, and what the last byte taken completes.
#[derive(Clone, Copy)]
pub struct Next<'a> {
    pub stage: Stage,
    pub rest: &'a [u8],
    pub event: Event,
}

impl<'a> Next<'a> {
    // All bytes are taken, and no record is complete.
    fn all_taken(stage: Stage) -> Self
        ensures { Stands result stage [] Nothing }
    {
        Next {
            stage,
            rest: &[],
            event: Event::Nothing,
        }
    }

    // A record is complete, and the next header begins.
    fn complete(event: Event, rest: &'a [u8]) -> Self
        ensures { Stands result (Header 0) rest.now event }
    {
        Next {
            stage: Stage::Header { read: 0 },
            rest,
            event,
        }
    }
}

// Whether the type is the one that is read, and the subtype one of the two.
#[tactic(auto, unfolding(stream_format::specs::Streams::is_kind))]
fn is_kind(kind: Kind, room: &[u8; 65548]) -> bool
    ensures { result ≡ is_kind kind room.now }
{
    let subtype = two_bytes(room, 6);
    two_bytes(room, 4) == kind.number && (subtype == kind.subtype || subtype == kind.also)
}

// Whether the words mean a record that is read, by how much of it stands in the room and how much is to come.
#[tactic(auto, unfolding(stream_format::specs::Kept::is_body, stream_format::specs::Kept::read_word, stream_format::specs::Kept::left_word))]
fn is_body(kind: Kind, read: u32, left: u32, room: &[u8; 65548]) -> bool
    ensures { result ≡ is_body kind (0 ∷ read ∷ left ∷ []) room.now }
{
    read >= 12 && read as u64 + left as u64 <= 65548 && is_kind(kind, room)
}

// The stage that the words mean: any three numbers of 32 bits mean one from which bytes can be taken.
#[tactic(auto, unfolding(stream_format::specs::Kept::stage_of, stream_format::specs::Kept::is_ended, stream_format::specs::Kept::ended_word, stream_format::specs::Kept::read_word, stream_format::specs::Kept::left_word, stream_format::specs::Kept::ended_number))]
pub fn stage_of(kind: Kind, words: &[u32; 3], room: &[u8; 65548]) -> Stage
    ensures value { result ≡ stage_of kind words.now room.now }
    ensures sound { Sound result }
{
    match *words {
        [0, read @ 0..12, 0] => Stage::Header {
            read: read as usize,
        },
        [0, _, 0] => Stage::Header { read: 0 },
        [0, read, left] if is_body(kind, read, left, room) => Stage::Body {
            read: read as usize,
            left: left as usize,
        },
        [0, _, left] => Stage::Over {
            left: left as usize,
        },
        [ended, _, _] => Stage::Ended {
            number: (ended - 1) % 65536,
        },
    }
}

// Writes a stage into the words. That it is `Sound` stays a clause here and below: an enum has no ghost field.
#[tactic(auto, unfolding(stream_format::specs::Kept::words_of))]
pub fn keep_stage(stage: Stage, words: &mut [u32; 3])
    requires { Sound stage }
    ensures { words.new ≡ words_of stage }
{
    *words = match stage {
        Stage::Header { read } => [0, read as u32, 0],
        Stage::Body { read, left } => [0, read as u32, left as u32],
        Stage::Over { left } => [0, 0, left as u32],
        Stage::Ended { number } => [number + 1, 0, 0],
    };
}

// Whether a record is not complete.
#[tactic(auto, unfolding(rules::specs::Tools::within))]
fn inside_record(read: u32, left: u32) -> bool
    ensures { result ≡ (not (eqb left 0) || within 1 11 read) }
{
    left != 0 || (1..=11).contains(&read)
}

// Ends a stream: the number that ended it, else 17 inside a record, else 0. It stays ended by that number.
// A number and no refusal: the words that are lent can hold any number for the end of a stream.
#[tactic(auto, unfolding(stream_format::specs::Kept::end_stream, stream_format::specs::Kept::end_number, stream_format::specs::Kept::inside_record, stream_format::specs::Kept::is_ended, stream_format::specs::Kept::ended_word, stream_format::specs::Kept::read_word, stream_format::specs::Kept::left_word, stream_format::specs::Kept::ended_number, stream_format::specs::Kept::words_of))]
pub fn end_stream(words: &mut [u32; 3]) -> u32
    ensures { end_stream words.old ≡ ended_as result words.new }
{
    let [ended, read, left] = *words;
    if ended != 0 {
        return (ended - 1) % 65536;
    }
    let number = if inside_record(read, left) {
        Refusal::InsideRecord.number()
    } else {
        0
    };
    keep_stage(Stage::Ended { number }, words);
    number
}

// Copies bytes into the room. One by one: of a copy of slices the compiler makes a call of C's memmove, which
// nothing needs.
fn keep_bytes(room: &mut [u8; 65548], from: usize, bytes: &[u8])
    requires { from + length bytes.now ≤ 65548 }
    ensures { room.new ≡ sets room.old from bytes.now }
{
    for (i, &byte) in bytes.iter().enumerate() {
        room[from + i] = byte;
    }
}

// Copies a whole header into the room. It is passed by value: so the compiler can copy many bytes at a time, though
// it does not know that they lie outside the room.
fn keep_header(room: &mut [u8; 65548], header: [u8; 12])
    ensures { room.new ≡ sets room.old 0 header }
{
    room[..12].copy_from_slice(&header);
}

// Takes bytes of a record that is read.
fn take_body<'a>(read: usize, left: usize, room: &mut [u8; 65548], bytes: &'a [u8]) -> Next<'a>
    requires le_read { 12 ≤ read }
    requires le_left { 1 ≤ left }
    requires left_bound { read + left ≤ 65548 }
    ensures { BodyGoes read left room.old bytes.now result room.new }
{
    let more = bytes.len();
    if more < left {
        keep_bytes(room, read, bytes);
        return Next::all_taken(Stage::Body {
            read: read + more,
            left: left - more,
        });
    }
    let (body, rest) = bytes.split_at(left);
    keep_bytes(room, read, body);
    Next::complete(Event::Record { size: read + left }, rest)
}

// Steps over bytes of a record of another kind.
fn step_over(left: usize, bytes: &[u8]) -> Next<'_>
    requires le_left { 1 ≤ left }
    requires left_bound { left < 2 ^ 32 }
    ensures { OverGoes left bytes.now result }
{
    let more = bytes.len();
    if more < left {
        return Next::all_taken(Stage::Over { left: left - more });
    }
    Next::complete(Event::Stepped, &bytes[left..])
}

// Goes on after a header, which stands in the room.
fn after_header<'a>(kind: Kind, room: &mut [u8; 65548], bytes: &'a [u8]) -> Next<'a>
    ensures { Goes kind (header_read kind room.old) bytes.now result room.new }
{
    let size = four_bytes(room, 8) as usize;
    let read = is_kind(kind, room);
    if size == 0 {
        let event = if read {
            Event::Record { size: 12 }
        } else {
            Event::Stepped
        };
        return Next::complete(event, bytes);
    }
    if !read {
        return step_over(size, bytes);
    }
    if size > 65536 {
        return Next::all_taken(Stage::Ended {
            number: Refusal::LongRecord.number(),
        });
    }
    take_body(12, size, room, bytes)
}

// Takes bytes of a header, and then of the record that it begins. Most headers lie whole in a chunk.
fn take_header<'a>(kind: Kind, read: usize, room: &mut [u8; 65548], bytes: &'a [u8]) -> Next<'a>
    requires { read < 12 }
    ensures { GoesFrom kind (Header read) room.old bytes.now result room.new }
{
    if read == 0 {
        if let Some((header, rest)) = bytes.split_first_chunk::<12>() {
            keep_header(room, *header);
            return after_header(kind, room, rest);
        }
    }
    let left = 12 - read;
    let more = bytes.len();
    if more < left {
        keep_bytes(room, read, bytes);
        return Next::all_taken(Stage::Header { read: read + more });
    }
    let (header, rest) = bytes.split_at(left);
    keep_bytes(room, read, header);
    after_header(kind, room, rest)
}

// Takes bytes up to the one that completes a record, if one does.
pub fn next_record<'a>(
    kind: Kind,
    stage: Stage,
    room: &mut [u8; 65548],
    bytes: &'a [u8],
) -> Next<'a>
    requires { Sound stage }
    ensures { GoesFrom kind stage room.old bytes.now result room.new }
{
    match stage {
        Stage::Header { read } => take_header(kind, read, room, bytes),
        Stage::Body { read, left } => take_body(read, left, room, bytes),
        Stage::Over { left } => step_over(left, bytes),
        Stage::Ended { number: _ } => Next::all_taken(stage),
    }
}
