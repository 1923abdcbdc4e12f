// Reads a whole record of a dump before anything is done with it: whether it is well-formed, and its route.
#![tactic(auto)]

ghost use Rattle.std.specs.Prelude.{◌≤◌, ◌≡◌, length};
ghost use Rattle.import_readers.specs.Records.{entries_read, record_read};

use message_cursors::{Cursor, two_bytes};
use message_readers::{hop_due, read_hop};
use rules::Refusal;

// The route of a record: its prefix, with the hop of the first entry that has one.
#[derive(Clone, Copy)]
pub struct RouteRead {
    pub prefix: u32,
    pub length: u32,
    pub hop: u16,
}

// Reads so many entries from a place on, every one of them to its end, which has to be the record's: the first hop, where
// one has its place in the list.
fn read_entries(bytes: &[u8], from: usize, many: u32, hops: &[u32]) -> Result<Option<u16>, Refusal>
    requires { from ≤ length bytes.now }
    ensures { result ≡ entries_read bytes.now from many hops.now }
{
    let mut at = from;
    let mut found = None;
    for _ in 0..many {
        if bytes.len() - at < 8 {
            return Err(Refusal::Malformed);
        }
        let attributes = at + 8;
        let size = two_bytes(bytes, at + 6) as usize;
        if bytes.len() - attributes < size {
            return Err(Refusal::Malformed);
        }
        let end = attributes + size;
        let next_hop = read_hop(bytes, attributes, end)?;
        if found.is_none() {
            found = hop_due(true, next_hop, hops);
        }
        at = end;
    }
    if at != bytes.len() {
        return Err(Refusal::Malformed);
    }
    Ok(found)
}

// Reads a record from end to end: its route, if an entry has a hop.
pub fn read_record(bytes: &[u8], hops: &[u32]) -> Result<Option<RouteRead>, Refusal>
    ensures { result ≡ record_read bytes.now hops.now }
{
    let cursor = Cursor {
        at: 16,
        end: bytes.len(),
    };
    let Some(read) = cursor.next_prefix(bytes)? else {
        return Err(Refusal::Malformed);
    };
    let after = read.rest.at;
    if bytes.len() - after < 2 {
        return Err(Refusal::Malformed);
    }
    let Some(hop) = read_entries(bytes, after + 2, two_bytes(bytes, after), hops)? else {
        return Ok(None);
    };
    Ok(Some(RouteRead {
        prefix: read.prefix,
        length: read.length,
        hop,
    }))
}
