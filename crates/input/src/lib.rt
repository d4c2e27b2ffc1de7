// Room for input, and reading into it.
#![tactic(auto)]

ghost use Rattle.std.specs.Prelude.{◌≡◌, ℕ, ◌<◌, ◌≤◌, IfOk, IfErr, length, replicate, take};
ghost use Rattle.std.specs.Io.{ReadsAtMost};
ghost use Rattle.std.specs.Io.KnownBytes.{Consumes, IsAtEnd};

use std::io;
use std::io::Read;

// Room for N bytes, all 0. That it says the length keeps the prover from counting the elements.
pub fn room<const N: usize>() -> [u8; N]
    ensures { result ≡ replicate N 0 }
{
    [0; N]
}

// Reads until `room` is full or the input ends, and answers how many bytes now stand at its front. Where the input fails, what was read before it
// stands there.
pub fn read_full<R: Read>(input: &mut R, room: &mut [u8]) -> io::Result<usize>
    ensures within { ReadsAtMost result room.new }
    ensures bytes { IfOk result (λ n. Consumes (R.remaining input.old) (R.remaining input.new) (take n room.new)) }
    ensures end { IfOk result (λ n. n < length room.new → IsAtEnd (R.remaining input.new)) }
    ensures failed { IfErr result (λ e. (n : ℕ) × (n ≤ length room.new) × Consumes (R.remaining input.old) (R.remaining input.new) (take n room.new)) }
{
    let mut filled: usize = 0;
    while filled < room.len() {
        let n = input.read(&mut room[filled..])?;
        if n == 0 {
            return Ok(filled);
        }
        filled += n;
    }
    Ok(filled)
}
