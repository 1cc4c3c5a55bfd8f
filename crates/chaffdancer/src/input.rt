// Standard input of any length.
ghost use Rattle.std.specs.Prelude.{◌<◌, ◌≤◌, IfOk, length, take};
ghost use Rattle.std.specs.Io.KnownBytes.{Consumes, IsAtEnd};

use std::io::{self, Read};

// The table, one request more than a run takes, and 7 bytes: what comes after those changes nothing but the remainder by 8.
pub const MOST: usize = 33807;

// Reads until the buffer is full or the input ends: how many bytes stand at its front, which the input began with and has no more.
// It stops short only where nothing is left. No form is plainer: each turn goes on by what a read gave, and std's read_exact and read_to_end
// say too little for these clauses.
pub fn read_full<R: Read>(reader: &mut R, buffer: &mut [u8]) -> io::Result<usize>
    ensures bound { IfOk result (λ n. n ≤ length buffer.new) }
    ensures bytes { IfOk result (λ n. Consumes (R.remaining reader.old) (R.remaining reader.new) (take n buffer.new)) }
    ensures short { IfOk result (λ n. n < length buffer.new → IsAtEnd (R.remaining reader.new)) }
{
    let mut done = 0;
    while done < buffer.len() {
        let n = reader.read(&mut buffer[done..])?;
        if n == 0 {
            return Ok(done);
        }
        done += n;
    }
    Ok(done)
}

// One more piece of the input, and how long it was.
fn piece(reader: &mut impl Read) -> io::Result<usize>
    ensures { IfOk result (λ n. n ≤ 65536) }
{
    let mut buffer = [0u8; 65536];
    read_full(reader, &mut buffer)
}

// Reads the rest of the input and returns the remainder of its length by 8. Nothing says that an input ends, so the turns are counted.
pub fn rest(reader: &mut impl Read) -> io::Result<usize>
    ensures { IfOk result (λ n. n < 8) }
{
    let mut sum = 0;
    for _ in 0..u64::MAX {
        let n = piece(reader)?;
        if n == 0 {
            return Ok(sum);
        }
        sum = (sum + n) % 8;
    }
    Ok(sum)
}
