// The records of a recorded day (MRT's BGP4MP, MESSAGE and MESSAGE_AS4), as definitions that are computed
// (specs/) and laws about them (proofs/): what a record says, what is wrong with it, and what a chunk of a day
// does to a table. Of code there is only the type that the call and its definition share, and the words that hold it.
#![tactic(auto)]

ghost use Rattle.std.specs.Prelude.{◌≡◌};
ghost use Rattle.replay_format.specs.Replaying.{tally_of, tally_words};

// What a replay has counted: records seen, UPDATEs applied, routes that the table accepted, and routes that it
// refused, under each number.
#[derive(Clone, Copy, Debug, PartialEq, Eq)]
pub struct Tally {
    pub seen: u32,
    pub applied: u32,
    pub accepted: u32,
    pub refused: [u32; 20],
}

impl From<[u32; 23]> for Tally {
    ghost from_gives = { λ words tally. tally ≡ tally_of words };

    // Each figure by its place: with a copy of slices a chunk of one byte takes 8 in a hundred more instructions.
    #[tactic(auto, unfolding(crate::specs::Replaying::tally_of))]
    fn from(words: [u32; 23]) -> Tally {
        Tally {
            seen: words[0],
            applied: words[1],
            accepted: words[2],
            refused: [
                words[3], words[4], words[5], words[6], words[7], words[8], words[9], words[10],
                words[11], words[12], words[13], words[14], words[15], words[16], words[17],
                words[18], words[19], words[20], words[21], words[22],
            ],
        }
    }
}

impl From<Tally> for [u32; 23] {
    ghost from_gives = { λ tally words. words ≡ tally_words tally };

    #[tactic(auto, unfolding(crate::specs::Replaying::tally_words))]
    fn from(tally: Tally) -> [u32; 23] {
        let Tally {
            seen,
            applied,
            accepted,
            refused: r,
        } = tally;
        [
            seen, applied, accepted, r[0], r[1], r[2], r[3], r[4], r[5], r[6], r[7], r[8], r[9],
            r[10], r[11], r[12], r[13], r[14], r[15], r[16], r[17], r[18], r[19],
        ]
    }
}
