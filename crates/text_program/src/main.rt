// The text program: the lines of standard input, answered by a small table that starts cleared.
// What has been read is answered before more is waited for; a read or a write that fails ends it.
#![tactic(auto)]

ghost use Rattle.std.specs.Prelude.{◌≡◌, length};

use rules::Settings;
use std::io;
use std::io::{Read, Write};

// Answers all of the input, a chunk at a time.
fn serve(
    input: &mut impl Read,
    output: &mut impl Write,
    settings: Settings,
    counters: &mut [u8],
    slots: &mut [u32],
    line: &mut [u8],
    chunk: &mut [u8],
    out: &mut [u8],
) -> io::Result<()> {
    let mut kept = 0;
    // A proved loop has to end, and nothing says that the input does: no run uses these turns up.
    for _ in 0..u64::MAX {
        let n = input.read(chunk)?;
        if n == 0 {
            if let Some(last) = text_lines::finish_input(
                settings, counters, slots, line, kept, out,
            ) {
                output.write_all(&out[..last.written])?;
            }
            return Ok(());
        }
        let Some(fed) = text_lines::feed_chunk(
            settings,
            counters,
            slots,
            line,
            kept,
            &chunk[..n],
            out,
        ) else {
            return Ok(());
        };
        output.write_all(&out[..fed.written])?;
        kept = fed.count;
    }
    Ok(())
}

// Zeros, as many as the type says: so many that a proof had better not count them one by one.
fn zeros<const N: usize>() -> [u8; N]
    ensures { N ≡ length result }
{
    [0; N]
}

fn main(rt: HostRuntime) {
    let settings = Settings {
        k: 2,
        d: [4; 32],
        e: 1,
        s: 2,
        a: 1,
        b: 2,
        c: 1,
    };
    let mut counters = [0u8; 512];
    let mut slots = [0u32; 258];
    // These counters and slots are of the size that the settings ask, so this is not refused.
    let _ = table::clear(settings, &mut counters, &mut slots);
    // The rooms that no chunk is refused with: 65 bytes for the line, and 33 for each of a chunk.
    let mut line = [0u8; 65];
    let mut chunk = [0u8; 16384];
    let mut out: [u8; 540672] = zeros();
    // A read or a write that fails ends the program, which has nothing to say of it.
    let _ = serve(
        &mut rt.stdin(),
        &mut rt.stdout(),
        settings,
        &mut counters,
        &mut slots,
        &mut line,
        &mut chunk,
        &mut out,
    );
}
