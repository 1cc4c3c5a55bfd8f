// Words of four bytes and the numbers that they give, low byte first.
#![tactic(auto)]

ghost use Rattle.std.specs.Prelude.{◌≡◌, ◌+◌, ◌≤◌, length};
ghost use Rattle.words.specs.Bytes.{word, word_at, four_bytes};

// The number that four bytes give.
pub fn number(a: u8, b: u8, c: u8, d: u8) -> u32
    ensures { result ≡ word a b c d }
{
    u32::from_le_bytes([a, b, c, d])
}

// The number in the four bytes from index at on.
pub fn number_at(s: &[u8], at: usize) -> u32
    requires { at + 4 ≤ length s.now }
    ensures { result ≡ word_at s.now at }
{
    number(s[at], s[at + 1], s[at + 2], s[at + 3])
}

// The four bytes of a number.
pub fn four_bytes(n: u32) -> [u8; 4]
    ensures { result ≡ four_bytes n }
{
    n.to_le_bytes()
}
