// Words of 32 bits in lent cells: a cell is a word, or it is a byte, and then four make a word, the low byte first.
#![tactic(auto)]

ghost use Rattle.std.specs.Prelude.{◌≡◌, refl, ℕ, List, [], ◌∷◌, ◌++◌, ◌+◌, ◌*◌, ◌<◌, ◌≤◌, length, get_or};
ghost use Rattle.std.proofs.lemmas.List.Edits.{sets};
ghost use Rattle.rules.specs.Table.{words, bytes_of};
ghost use Rattle.words.specs.Laws.{one_some, one_few, one_each, as_many, four_some, four_few, four_each, fewer, bytes_none, bytes_append};

// What words are lent in.
pub trait Cell: Copy {
    // How many cells a word takes.
    const WIDE: usize;

    ghost WIDE: { ℕ };

    // The words that cells hold, and the cells of a list of words.
    ghost words: { List Self → List ℕ };

    ghost cells: { List ℕ → List Self };

    // How many words the cells hold.
    fn word_count(list: &[Self]) -> usize
        ensures { result ≡ length (words list.now) };

    // A word, by its number.
    fn word_at(list: &[Self], i: usize) -> u32
        requires { i < length (words list.now) }
        ensures { result ≡ get_or (words list.now) i 0 };

    // Puts a word's cells from a place on.
    fn put_word(list: &mut [Self], at: usize, word: u32)
        requires { at + WIDE ≤ length list.old }
        ensures { list.new ≡ sets list.old at (cells (word ∷ [])) };

    // A word takes one to four cells, and there are no more words than cells.
    ghost some_cells: { 1 ≤ WIDE };

    ghost few_cells: { WIDE ≤ 4 };

    ghost fewer_words: { (list : List Self) → length (words list) ≤ length list };

    // The cells of no words are none, those of one list of words stand before those of the next, and each word has its own.
    ghost cells_none: { cells [] ≡ [] };

    ghost cells_append: { (one other : List ℕ) → cells (one ++ other) ≡ cells one ++ cells other };

    ghost cells_length: { (list : List ℕ) → length (cells list) ≡ WIDE * length list };
}

impl Cell for u32 {
    const WIDE: usize = 1;

    ghost WIDE = { 1 };

    ghost words = { λ list. list };

    ghost cells = { λ list. list };

    ghost some_cells = { one_some };

    ghost few_cells = { one_few };

    ghost fewer_words = { as_many };

    ghost cells_none = { refl };

    ghost cells_append = { λ one other. refl };

    ghost cells_length = { one_each };

    fn word_count(list: &[u32]) -> usize {
        list.len()
    }

    fn word_at(list: &[u32], i: usize) -> u32 {
        list[i]
    }

    fn put_word(list: &mut [u32], at: usize, word: u32) {
        list[at] = word;
    }
}

// Bytes that are no whole words are none.
impl Cell for u8 {
    const WIDE: usize = 4;

    ghost WIDE = { 4 };

    ghost words = { words };

    ghost cells = { bytes_of };

    ghost some_cells = { four_some };

    ghost few_cells = { four_few };

    ghost fewer_words = { fewer };

    ghost cells_none = { bytes_none };

    ghost cells_append = { bytes_append };

    ghost cells_length = { four_each };

    fn word_count(list: &[u8]) -> usize {
        if list.len() % 4 != 0 {
            return 0;
        }
        list.len() / 4
    }

    fn word_at(list: &[u8], i: usize) -> u32 {
        let at = 4 * i;
        u32::from_le_bytes([list[at], list[at + 1], list[at + 2], list[at + 3]])
    }

    fn put_word(list: &mut [u8], at: usize, word: u32) {
        list[at..at + 4].copy_from_slice(&word.to_le_bytes());
    }
}

// Puts the cells of several words, one after the other, from a place on.
pub fn put_words<T: Cell>(list: &mut [T], at: usize, words: &[u32])
    requires { at + T.WIDE * length words.now ≤ length list.old }
    ensures { list.new ≡ sets list.old at (T.cells words.now) }
{
    for (i, word) in words.iter().enumerate() {
        T::put_word(list, at + T::WIDE * i, *word);
    }
}
