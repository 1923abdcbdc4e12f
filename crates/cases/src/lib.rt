// What the programs of cases share: the parts of a case, the settings and sizes that cases set, and how
// lent memory is damaged, copied and shown.
#![tactic(auto)]

ghost use Rattle.std.specs.Prelude.{◌≡◌, ◌/◌, ◌%◌, ◌^◌, ◌≤◌, ◌↔◌, IsSome, min, take, length};
ghost use Rattle.rules.specs.Table.{lent, add};

use rules::{Settings, number_given};
use std::{fmt, io};

// A case is a number in hex whose first digit says what is done. Most have a prefix, a length and a hop
// after it; what stands there for the rest is said where it is read. The hop's first digit has twice the
// party in it.
#[derive(Clone, Copy)]
pub struct Case(pub u64);

// What a case sets up for the calls: damage to lent memory, the settings, and how much is lent.
#[derive(Clone, Copy)]
pub enum Setup {
    // Damage: a byte or a word to write, and its place where the hop stands.
    PutCounter,
    PutWord,
    // K, D, E and S, a byte each. D is that of the length, or of every length where that is 0.
    Shape,
    // A, B or C.
    MultiplierA,
    MultiplierB,
    MultiplierC,
    // How many counters are lent and, where the hop stands, how many values of D to C.
    LendCounters,
    // How many words are lent and, where the hop stands, how many bytes for them to C.
    LendSlots,
}

// How much is lent: counters, values of D to C, words, and bytes for the words to C; whether it is C
// alone that calls; and the party that a case names. Before the first case nothing is lent.
#[derive(Clone, Copy, Default)]
pub struct Lent {
    pub counters: usize,
    pub values: usize,
    pub words: usize,
    pub bytes: usize,
    pub from_c: bool,
    pub party: u32,
}

impl Case {
    // The first digit, which says what a case does.
    pub fn digit(self) -> u32
        ensures { result ≡ self.0 / 2 ^ 60 }
    {
        (self.0 / 0x1000_0000_0000_0000) as u32
    }

    // What a case sets up; none where its digit stands for what the program does.
    pub fn setup(self) -> Option<Setup>
        ensures { IsSome result ↔ (8 ≤ self.0 / 2 ^ 60) }
    {
        match self.digit() {
            0x8 => Some(Setup::PutCounter),
            0x9 => Some(Setup::PutWord),
            0xa => Some(Setup::Shape),
            0xb => Some(Setup::MultiplierA),
            0xc => Some(Setup::MultiplierB),
            0xd => Some(Setup::MultiplierC),
            0xe => Some(Setup::LendCounters),
            0xf => Some(Setup::LendSlots),
            _ => None,
        }
    }

    // Its prefix, or what stands there.
    pub fn prefix(self) -> u32
        ensures { result ≡ self.0 / 2 ^ 28 % 2 ^ 32 }
    {
        (self.0 / 0x1000_0000 % 0x1_0000_0000) as u32
    }

    // The last byte of what stands there.
    pub fn byte(self) -> u8
        ensures { result ≡ self.0 / 2 ^ 28 % 2 ^ 8 }
    {
        (self.0 / 0x1000_0000 % 0x100) as u8
    }

    pub fn length(self) -> u32
        ensures { result ≡ self.0 / 2 ^ 20 % 2 ^ 8 }
    {
        (self.0 / 0x10_0000 % 0x100) as u32
    }

    // Its hop, or what stands there.
    pub fn hop(self) -> u32
        ensures { result ≡ self.0 % 2 ^ 17 }
    {
        (self.0 % 0x2_0000) as u32
    }

    // The place that stands there.
    pub fn place(self) -> usize
        ensures { result ≡ self.0 % 2 ^ 17 }
    {
        (self.0 % 0x2_0000) as usize
    }

    // The party that it names.
    pub fn party(self) -> u32
        ensures { result ≡ self.0 / 2 ^ 17 % 8 }
    {
        (self.0 / 0x2_0000 % 8) as u32
    }
}

impl fmt::Display for Case {
    fn fmt<W: fmt::Write>(&self, f: &mut fmt::Formatter<W>) -> fmt::Result {
        write!(f, "{:016x}", self.0)
    }
}

// Begins the line of a case.
pub fn begin(rt: &impl Print, case: Case) -> io::Result<()> {
    print!(rt; "{case}:")
}

pub fn end(rt: &impl Print) -> io::Result<()> {
    println!(rt)
}

// Writes a number in hex: a sum, a count, or what C gets, whose parts are then whole digits.
pub fn digits<N: Into<u64>>(rt: &impl Print, n: N) -> io::Result<()> {
    let n: u64 = n.into();
    print!(rt; " {n:x}")
}

// Before the first case no settings are set.
pub fn none_set() -> Settings {
    Settings {
        k: 0,
        d: [0; 32],
        e: 0,
        s: 0,
        a: 0,
        b: 0,
        c: 0,
    }
}

// Settings T, but for K and S.
pub fn small(k: u32, s: u32) -> Settings {
    Settings {
        k,
        d: [4; 32],
        e: 1,
        s,
        a: 1,
        b: 2,
        c: 1,
    }
}

// As many of a list as are lent, if there are so many.
pub fn up_to<T>(n: usize, list: &[T]) -> usize
    ensures { result ≡ min n (length list.now) }
{
    n.min(list.len())
}

// The front of a list that is lent.
pub fn front<T>(n: usize, list: &[T]) -> &[T]
    ensures { result.now ≡ take n list.now }
{
    &list[..up_to(n, list)]
}

// The same of a list that is written.
pub fn front_mut<T>(n: usize, list: &mut [T]) -> &mut [T]
    ensures { result.now ≡ take n list.old }
{
    let end = up_to(n, list);
    &mut list[..end]
}

// The settings with another D at a length, or at all.
pub fn set_d(t: Settings, length: u32, d: u8) -> Settings {
    let mut next = t;
    if length == 0 {
        next.d.fill(d);
    } else if let Some(value) = next.d.get_mut(length as usize - 1) {
        *value = d;
    }
    next
}

// The values of D as C lends them: one more than there are lengths, for a list that is too long.
pub fn list_of(t: Settings) -> [u8; 33] {
    let mut list = [4; 33];
    list[..32].copy_from_slice(&t.d);
    list
}

// The settings after a case.
pub fn set(t: Settings, case: Case) -> Settings {
    let n = case.prefix();
    match case.setup() {
        Some(Setup::Shape) => {
            let [k, d, e, s] = n.to_be_bytes();
            Settings {
                k: u32::from(k),
                e: u32::from(e),
                s: u32::from(s),
                ..set_d(t, case.length(), d)
            }
        }
        Some(Setup::MultiplierA) => Settings { a: n, ..t },
        Some(Setup::MultiplierB) => Settings { b: n, ..t },
        Some(Setup::MultiplierC) => Settings { c: n, ..t },
        _ => t,
    }
}

// What is lent after a case.
pub fn lend(lent: Lent, case: Case) -> Lent {
    let next = Lent {
        party: case.party(),
        ..lent
    };
    let many = case.prefix() as usize;
    match case.setup() {
        Some(Setup::LendCounters) => Lent {
            counters: many,
            values: case.place(),
            ..next
        },
        Some(Setup::LendSlots) => Lent {
            words: many,
            bytes: case.place(),
            ..next
        },
        _ => next,
    }
}

// Puts a byte or a word at a place, if it is there.
pub fn put<T: Drop>(list: &mut [T], place: usize, value: T) {
    if let Some(there) = list.get_mut(place) {
        *there = value;
    }
}

// Writes a byte or a word past every call.
pub fn damage(counters: &mut [u8], slots: &mut [u32], case: Case) {
    match case.setup() {
        Some(Setup::PutCounter) => put(counters, case.place(), case.byte()),
        Some(Setup::PutWord) => put(slots, case.place(), case.prefix()),
        _ => {}
    }
}

// The words as the bytes that C lends for them, the low byte first; what is left of these stays.
pub fn copy_words(words: &[u32], bytes: &mut [u8]) {
    for (word, four) in words.iter().zip(bytes.chunks_exact_mut(4)) {
        four.copy_from_slice(&word.to_le_bytes());
    }
}

// Writes bytes in hex, as one word.
pub fn hex(rt: &impl Print, bytes: &[u8]) -> io::Result<()> {
    print!(rt; " ")?;
    for byte in bytes {
        print!(rt; "{byte:02x}")?;
    }
    Ok(())
}

// Writes the words of so many bytes, and one more, byte by byte.
pub fn hex_words(rt: &impl Print, bytes: &[u8], lent: usize) -> io::Result<()> {
    for word in bytes.chunks(4).take(lent / 4 + 1) {
        hex(rt, word)?;
    }
    Ok(())
}

// A sum of a list in which the order counts.
fn sum_of<T: Copy + Into<u64>>(rt: &impl Print, list: &[T]) -> io::Result<()> {
    let sum = list.iter().fold(0u64, |sum, n| {
        sum.wrapping_mul(31).wrapping_add((*n).into()) % 0x100_0000_0000
    });
    digits(rt, sum)
}

// Writes two sums, of which a byte or a word that is otherwise changes one.
pub fn sums(rt: &impl Print, bytes: &[u8], words: &[u32]) -> io::Result<()> {
    sum_of(rt, bytes)?;
    sum_of(rt, words)
}

// Writes sums of a table, and of the front of a stream's room.
pub fn show(rt: &impl Print, counters: &[u8], slots: &[u32], room: &[u8]) -> io::Result<()> {
    sums(rt, counters, slots)?;
    sum_of(rt, front(256, room))
}

// Writes each number of two lists, and ends the line.
pub fn finish(rt: &impl Print, counts: &[u32], words: &[u32]) -> io::Result<()> {
    for n in counts.iter().chain(words) {
        digits(rt, *n)?;
    }
    end(rt)
}

// Puts bytes at the front of others, as far as there is room.
pub fn fill(bytes: &mut [u8], front: &[u8]) {
    for (byte, new) in bytes.iter_mut().zip(front) {
        *byte = *new;
    }
}

// The same, and then the byte of a case at its place.
pub fn fill_but(bytes: &mut [u8], front: &[u8], case: Case) {
    fill(bytes, front);
    put(bytes, case.place(), case.byte());
}

// Adds the route of a case to a table.
pub fn add(
    rt: &impl Print,
    t: Settings,
    counters: &mut [u8],
    slots: &mut [u32],
    case: Case,
) -> io::Result<()>
    ensures { (add t (lent counters.old slots.old) (case.0 / 2 ^ 17 % 8) (case.0 / 2 ^ 28 % 2 ^ 32) (case.0 / 2 ^ 20 % 2 ^ 8) (case.0 % 2 ^ 17)).memory ≡ lent counters.new slots.new }
{
    let outcome = table::add(
        t,
        counters,
        slots,
        case.party(),
        case.prefix(),
        case.length(),
        case.hop(),
    );
    digits(rt, number_given(outcome))
}
