// Squares of ones, as flash reads after it was wiped.
ghost use Rattle.std.specs.Prelude.{◌≡◌, ◌+◌, ◌*◌, ◌≤◌, length};
ghost use Rattle.rules.specs.Codes.{length_limit};
ghost use Rattle.rules.specs.Frames.{is_erased};
ghost use Rattle.rules.specs.Bits.{square_bytes, frame_of};
ghost use Rattle.laws.specs.InPlace.{most_bits, ones_at};

use word::bits::bit;
use word::sizes::row_bytes;

// Whether the n bits from bit `start` on are ones.
fn is_ones(n: usize, s: &[u8], start: usize) -> bool
    requires { (n ≤ length_limit) × (start ≤ most_bits) × (start + n ≤ length s.now * 8) }
    ensures { result ≡ ones_at n s.now start }
{
    (0..n).all(|j| bit(s, start + j) == 1)
}

// Whether all code bits of n rows of n bits are ones. The first that is not ends the search.
pub fn is_erased(n: usize, s: &[u8]) -> bool
    requires { (1 ≤ n) × (n ≤ length_limit) × (length s.now ≡ square_bytes n) }
    ensures { result ≡ is_erased n (frame_of n s.now) }
{
    let wide = row_bytes(n) * 8;
    (0..n).all(|i| is_ones(n, s, i * wide))
}
