// Reads one line of the text program: which call it asks for, and with which numbers.
// No line is out of range: one of any bytes that has none of the four shapes asks for nothing.
#![tactic(auto)]

ghost use Rattle.std.specs.Prelude.{◌≡◌};
ghost use Rattle.std.specs.Char.{is_ascii_digit};
ghost use Rattle.std.specs.List.{prefix_len};
ghost use Rattle.text_requests.specs.Shapes.{number_at, item, fit_shape, request};

// What a line asks for.
#[derive(Clone, Copy)]
pub enum Request {
    Add { prefix: u32, length: u32, hop: u32 },
    Drop { prefix: u32, length: u32 },
    Move { prefix: u32, length: u32, hop: u32 },
    Find { address: u32 },
}

// The numbers that the items of a shape have given so far.
#[derive(Clone, Copy, Default)]
struct Numbers {
    pub address: u32,
    pub length: u32,
    pub hop: u32,
}

// How many digits bytes begin with.
fn count_digits(bytes: &[u8]) -> usize
    ensures { result ≡ prefix_len is_ascii_digit bytes.now }
{
    bytes.iter().take_while(|b| b.is_ascii_digit()).count()
}

// The decimal number of at most `most` that stands at a position, with no leading zero, and the position after it.
fn number_at(line: &[u8], at: usize, most: u32) -> Option<(u32, usize)>
    ensures { result ≡ number_at line.now at most }
{
    let bytes = line.get(at..)?;
    let count = count_digits(bytes);
    let mut value: u32 = 0;
    for b in &bytes[..count] {
        value = value.checked_mul(10)?.checked_add(u32::from(b - b'0'))?;
    }
    if value > most || count == 0 {
        return None;
    }
    let zero_first = bytes[0] == b'0';
    if zero_first && count > 1 {
        return None;
    }
    Some((value, at + count))
}

// What an item of a shape finds at a position: the numbers with its own, and the position after it. O is an
// octet, L a length and H a hop; any other item is itself.
fn item_at(shape: u8, line: &[u8], at: usize, numbers: Numbers) -> Option<(Numbers, usize)>
    ensures { result ≡ item shape line.now at numbers }
{
    match shape {
        b'O' => {
            let (octet, end) = number_at(line, at, 255)?;
            let address = numbers.address << 8 | octet;
            Some((Numbers { address, ..numbers }, end))
        }
        b'L' => {
            let (length, end) = number_at(line, at, 99)?;
            Some((Numbers { length, ..numbers }, end))
        }
        b'H' => {
            let (hop, end) = number_at(line, at, u32::MAX)?;
            Some((Numbers { hop, ..numbers }, end))
        }
        _ => (*line.get(at)? == shape).then_some((numbers, at + 1)),
    }
}

// The numbers of a line that has a shape from its first byte to its last.
fn fit_shape(shape: &[u8], line: &[u8]) -> Option<Numbers>
    ensures { result ≡ fit_shape shape.now line.now }
{
    let mut at = 0;
    let mut numbers = Numbers::default();
    for item in shape {
        (numbers, at) = item_at(*item, line, at, numbers)?;
    }
    (at == line.len()).then_some(numbers)
}

// What a line asks for.
pub fn read_request(line: &[u8]) -> Option<Request>
    ensures { result ≡ request line.now }
{
    if line.len() > 64 {
        return None;
    }
    if let Some(found) = fit_shape(b"add O.O.O.O/L H", line) {
        return Some(Request::Add {
            prefix: found.address,
            length: found.length,
            hop: found.hop,
        });
    }
    if let Some(found) = fit_shape(b"drop O.O.O.O/L", line) {
        return Some(Request::Drop {
            prefix: found.address,
            length: found.length,
        });
    }
    if let Some(found) = fit_shape(b"move O.O.O.O/L H", line) {
        return Some(Request::Move {
            prefix: found.address,
            length: found.length,
            hop: found.hop,
        });
    }
    let found = fit_shape(b"find O.O.O.O", line)?;
    Some(Request::Find {
        address: found.address,
    })
}
