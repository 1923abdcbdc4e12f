// The records of an MRT file as they come out of a stream of bytes, as definitions that are computed (specs/)
// and laws about them (proofs/): what a byte does to a stream, what is kept of it between two chunks, and what
// a chunk gives back. What a record says is not told here. Of code there are only the types that the calls and
// the definitions share.
#![tactic(auto)]

ghost use Rattle.std.specs.Prelude.{◌≡◌};
ghost use Rattle.stream_format.specs.Chunks.{stage_number};

// The type and the two subtypes of the records that are read; those of every other kind are stepped over. Where
// one subtype is read, both are that one.
#[derive(Clone, Copy, Debug, PartialEq, Eq)]
pub struct Kind {
    pub number: u32,
    pub subtype: u32,
    pub also: u32,
}

// Where a stream stands between two bytes.
#[derive(Clone, Copy, Debug, PartialEq, Eq)]
pub enum Stage {
    // So many bytes of a header are read, fewer than 12, and stand in the room.
    Header { read: usize },
    // A record that is read: so many of its bytes stand in the room, and so many are to come.
    Body { read: usize, left: usize },
    // A record that is stepped over: so many of its bytes are to come.
    Over { left: usize },
    // The stream has ended, by this number.
    Ended { number: u32 },
}

impl Stage {
    // The number that is given back: the one that ended the stream; 0 while it goes on, as `stage_number` has it.
    #[tactic(auto, unfolding(crate::specs::Chunks::stage_number))]
    pub fn number(self) -> u32
        ensures { result ≡ stage_number self }
    {
        match self {
            Stage::Ended { number } => number,
            _ => 0,
        }
    }
}

// What a byte completes: nothing; a record that is read, the first bytes of the room, so many; or one that is
// stepped over.
#[derive(Clone, Copy, Debug, PartialEq, Eq)]
pub enum Event {
    Nothing,
    Record { size: usize },
    Stepped,
}
