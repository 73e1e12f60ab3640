// Bits of a packed buffer, from the top of each byte down.
ghost use Rattle.std.specs.Prelude.{◌≡◌, ◌+◌, ◌*◌, ◌<◌, ◌≤◌, length};
ghost use Rattle.algebra.specs.Tables.{num};
ghost use Rattle.rules.specs.Codes.{length_limit};
ghost use Rattle.rules.specs.Bits.{bit_at, word_of, byte_of};
ghost use Rattle.laws.specs.InPlace.{most_bytes, flip_at};

// Bit x, 0 or 1.
#[tactic(auto, using(laws::proofs::ByteLaws::bit_read))]
pub fn bit(s: &[u8], x: usize) -> u32
    requires { x < length s.now * 8 }
    ensures { result ≡ num (bit_at s.now x) }
{
    ((s[x / 8] >> (7 - x % 8)) & 1) as u32
}

// Bit x negated.
#[tactic(auto, using(laws::proofs::ByteLaws::bit_flipped))]
pub(crate) fn flip(s: &mut [u8], x: usize)
    requires { x < length s.old * 8 }
    ensures { s.new ≡ flip_at s.old x }
{
    s[x / 8] ^= 1 << (7 - x % 8);
}

// Byte b of the word of m bits that starts at byte `at`: what lies past the word's end is zero.
#[tactic(auto, using(laws::proofs::ByteLaws::byte_past, laws::proofs::ByteLaws::byte_whole, laws::proofs::ByteLaws::byte_cut))]
pub fn word_byte(m: usize, s: &[u8], at: usize, b: usize) -> u8
    requires { (m ≤ length_limit) × (at ≤ most_bytes) × (b ≤ length_limit) × (b * 8 < m → at + b < length s.now) }
    ensures { result ≡ byte_of (word_of m s.now (at * 8)) b }
{
    if m <= b * 8 {
        return 0;
    }
    if b * 8 + 8 <= m {
        return s[at + b];
    }
    let spare = b * 8 + 8 - m;
    (s[at + b] >> spare) << spare
}
