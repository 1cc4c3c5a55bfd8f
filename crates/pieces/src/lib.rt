// Pieces of a buffer: requests of 8 bytes, answers of 12, values of 4.
#![tactic(auto)]

ghost use Rattle.std.specs.Prelude.{◌≡◌, ◌++◌, ◌+◌, ◌*◌, ◌≤◌, length, take, drop};
ghost use Rattle.std.proofs.Math.Seq.{paste};
ghost use Rattle.pieces.specs.Pieces.{four_each, put_each};

// Puts a piece into the buffer, from index at on.
pub fn put(buffer: &mut [u8], at: usize, piece: &[u8])
    requires { at + length piece.now ≤ length buffer.old }
    ensures { buffer.new ≡ paste buffer.old at piece.now (length piece.now) }
{
    buffer[at..at + piece.len()].copy_from_slice(piece);
}

// The 8 bytes from index at on.
pub fn eight(bytes: &[u8], at: usize) -> [u8; 8]
    requires { at + 8 ≤ length bytes.now }
    ensures { result ≡ take 8 (drop at bytes.now) }
{
    *bytes[at..].first_chunk().unwrap()
}

// Puts the values into the buffer, 4 bytes each, from index AT on and STEP bytes apart; all else is left.
#[tactic(auto, unfolding(crate::specs::Pieces::put_each))]
pub fn put_each<const AT: usize, const STEP: usize>(buffer: &mut [u8], values: [u32; 64])
    requires { STEP * 63 + AT + 4 ≤ length buffer.old }
    ensures { buffer.new ≡ put_each AT STEP buffer.old values 64 }
{
    for (i, value) in values.iter().enumerate() {
        put(buffer, STEP * i + AT, &value.to_le_bytes());
    }
}

// The values, 4 bytes each; what stands beyond them is left.
#[tactic(auto, using(crate::proofs::Buffers::put_front_all))]
pub fn put_values(buffer: &mut [u8], values: [u32; 64])
    requires { 256 ≤ length buffer.old }
    ensures { buffer.new ≡ four_each values ++ drop 256 buffer.old }
{
    put_each::<0, 4>(buffer, values);
}
