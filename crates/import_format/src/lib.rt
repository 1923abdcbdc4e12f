// The records of a dump of routes (MRT's TABLE_DUMP_V2, RIB_IPV4_UNICAST), as definitions that are computed
// (specs/) and laws about them (proofs/): what a record says, what is wrong with it, and what a chunk of a dump
// does to a table. Of code there is only the type that the call and its definition share, and the words that hold it.
#![tactic(auto)]

ghost use Rattle.std.specs.Prelude.{◌≡◌};
ghost use Rattle.import_format.specs.Importing.{counts_of, counts_words};

// What an import has counted: routes that the table accepted, routes that it refused, and records with no
// entry whose next hop is in the list.
#[derive(Clone, Copy, Debug, PartialEq, Eq)]
pub struct ImportCounts {
    pub accepted: u32,
    pub refused: u32,
    pub hopless: u32,
}

impl From<[u32; 3]> for ImportCounts {
    ghost from_gives = { λ words counts. counts ≡ counts_of words };

    #[tactic(auto, unfolding(crate::specs::Importing::counts_of))]
    fn from(words: [u32; 3]) -> ImportCounts {
        let [accepted, refused, hopless] = words;
        ImportCounts {
            accepted,
            refused,
            hopless,
        }
    }
}

impl From<ImportCounts> for [u32; 3] {
    ghost from_gives = { λ counts words. words ≡ counts_words counts };

    #[tactic(auto, unfolding(crate::specs::Importing::counts_words))]
    fn from(counts: ImportCounts) -> [u32; 3] {
        [counts.accepted, counts.refused, counts.hopless]
    }
}
