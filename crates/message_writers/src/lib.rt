// Writes the message that withdraws one route, into lent room of exactly its size.
#![tactic(auto)]

ghost use Rattle.std.specs.Prelude.{◌≡◌};
ghost use Rattle.rules.specs.Table.{answered};
ghost use Rattle.rules.specs.Numbers.{number_given};
ghost use Rattle.message_format.specs.Writing.{write_withdrawal};

use message_cursors::bytes_for;
use prefixes::prefix_of;
use rules::Refusal;

// Writes the withdrawal of a route.
#[tactic(auto, unfolding(message_format::specs::Format::bytes_for))]
pub fn write_withdrawal(p: u32, length: u32, room: &mut [u8]) -> Result<(), Refusal>
    ensures { write_withdrawal p length room.old ≡ answered (number_given result) room.new }
{
    if length > 32 {
        return Err(Refusal::TooLong);
    }
    if prefix_of(p, length) != p {
        return Err(Refusal::Loose);
    }
    let count = bytes_for(length as u8);
    let size = 24 + count;
    if room.len() != size {
        return Err(Refusal::BadRoom);
    }
    // A message with all four octets. Those that the prefix has no byte for are zero, as the last two
    // bytes are: the message with its own octets only is the front of this one.
    let mut longest = [255; 28];
    longest[16..22].copy_from_slice(&[0, size as u8, 2, 0, (1 + count) as u8, length as u8]);
    longest[22..26].copy_from_slice(&p.to_be_bytes());
    longest[26] = 0;
    longest[27] = 0;
    room.copy_from_slice(&longest[..size]);
    Ok(())
}
