// Reads what a record of a recorded day holds, as far as the start of its message.
#![tactic(auto)]

ghost use Rattle.std.specs.Prelude.{◌≤◌, ◌≡◌, length};
ghost use Rattle.replay_format.specs.Messages.{family_from};
ghost use Rattle.replay_readers.specs.Held.{record_held};

use message_cursors::two_bytes;
use rules::Refusal;

// Where the address family stands: two AS numbers of two bytes are before it in subtype 1, and of four in
// subtype 4.
fn family_from(bytes: &[u8]) -> usize
    requires { 8 ≤ length bytes.now }
    ensures { result ≡ family_from bytes.now }
{
    if two_bytes(bytes, 6) == 1 { 18 } else { 22 }
}

// What one record holds, its header included: where an UPDATE of IPv4 starts, which goes on to the record's end, or none
// where it holds something else. 12 where it holds less than it should.
pub fn read_record(bytes: &[u8]) -> Result<Option<usize>, Refusal>
    ensures { result ≡ record_held bytes.now }
{
    if bytes.len() < 20 {
        return Err(Refusal::Malformed);
    }
    let family = family_from(bytes);
    if bytes.len() < family + 2 {
        return Err(Refusal::Malformed);
    }
    if two_bytes(bytes, family) != 1 {
        return Ok(None);
    }
    let message = family + 10;
    if bytes.len() < message + 19 {
        return Err(Refusal::Malformed);
    }
    if bytes[message + 18] != 2 {
        return Ok(None);
    }
    Ok(Some(message))
}
