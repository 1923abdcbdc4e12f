// The rules of the gateway table, as definitions that are computed (specs/) and laws about them
// (proofs/), with the types that the definitions and every call share: settings, the two parties, what a
// lookup answers, and why a call is refused.
#![tactic(auto)]

ghost use Rattle.std.specs.Prelude.{◌≡◌};
ghost use Rattle.rules.specs.Numbers.{party_number, IsParty, refusal_number, number_given};

// What a table is built with. Any numbers can be given; those out of range are refused.
#[derive(Clone, Copy)]
pub struct Settings {
    // K, hash steps.
    pub k: u32,
    // D of each length, that of length 1 first: the length's filter has 2^D counters.
    pub d: [u8; 32],
    // E: a length has 2^E buckets.
    pub e: u32,
    // S, slots in a bucket.
    pub s: u32,
    // A, B and C, the multipliers.
    pub a: u32,
    pub b: u32,
    pub c: u32,
}

// The two parties that share a table.
#[derive(Clone, Copy, Debug, PartialEq, Eq)]
pub enum Party {
    First = 0,
    Second = 1,
}

// Why a call is refused, by the number that it gives back for it.
#[derive(Clone, Copy, Debug, PartialEq, Eq)]
pub enum Refusal {
    // K, E, S or a D is out of its range.
    BadSettings = 1,
    // Counters or slots are not of the size that the settings ask.
    BadSizes = 2,
    // The length is above 32.
    TooLong = 3,
    // The prefix has a bit set after its length.
    Loose = 4,
    // The hop is above 65,535.
    HighHop = 5,
    // The prefix is not stored for the party.
    NotStored = 7,
    // Every slot of the prefix's bucket is occupied.
    Full = 8,
    // A counter would pass 15.
    Above = 9,
    // A counter is less than its hits.
    Below = 10,
    // The prefix lies wholly in 127.0.0.0/8 or in 224.0.0.0/4.
    Odd = 11,
    // A message or a record is not well-formed.
    Malformed = 12,
    // A message announces prefixes, and their hop is not to be had.
    Hopless = 13,
    // A record that is read has a body of more than 65,536 bytes.
    LongRecord = 14,
    // The party is above 1.
    UnknownParty = 15,
    // The stream is inside a record.
    InsideRecord = 17,
    // A lent list is not of the size that its results need.
    BadRoom = 18,
    // The chunk has more than 65,536 bytes, or a count is above 4,000,000,000.
    BigChunk = 19,
}

impl Party {
    // 0 or 1.
    pub fn number(self) -> u32
        ensures { result ≡ party_number self }
    {
        self as u32
    }
}

impl TryFrom<u32> for Party {
    type Error = Refusal;

    ghost try_from_gives = { IsParty };

    fn try_from(number: u32) -> Result<Self, Refusal> {
        match number {
            0 => Ok(Party::First),
            1 => Ok(Party::Second),
            _ => Err(Refusal::UnknownParty),
        }
    }
}

impl Refusal {
    // The number of docs/TABLE.md.
    pub fn number(self) -> u32
        ensures { result ≡ refusal_number self }
    {
        self as u32
    }
}

// The number that a call gives back: 0 where it is not refused.
pub fn number_given(outcome: Result<(), Refusal>) -> u32
    ensures { result ≡ number_given outcome }
{
    match outcome {
        Ok(()) => 0,
        Err(refusal) => refusal.number(),
    }
}

// Where a search of buckets ends: the slot's number, the length at which it lies and the buckets searched; or
// nowhere, with the lowest free slot of the bucket, by its number, for a route to come: none where the bucket is
// full, and in a lookup, which keeps none. That one enum answers every search is a form that was asked for.
#[derive(Clone, Copy)]
pub enum Place {
    At {
        length: u32,
        probes: u32,
        slot: usize,
    },
    Absent(Option<usize>),
}

// A route that a lookup finds: its next hop and its length, which is 0 for the default.
#[derive(Clone, Copy, Debug, PartialEq, Eq)]
pub struct Route {
    pub hop: u32,
    pub length: u32,
}

// What a lookup answers: the route, if there is one, and the buckets that were searched for it.
#[derive(Clone, Copy, Debug, PartialEq, Eq)]
pub struct Lookup {
    pub route: Option<Route>,
    pub probes: u32,
}
