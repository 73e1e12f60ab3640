// Squares copied byte by byte, their spare bits zero.
ghost use Rattle.std.specs.Prelude.{◌≡◌, ◌*◌, ◌<◌, ◌≤◌, eqb, length};
ghost use Rattle.rules.specs.Codes.{length_limit};
ghost use Rattle.rules.specs.Frames.{row};
ghost use Rattle.rules.specs.Bits.{row_bytes, square_bytes, frame_of, bytes_of, byte_of, word_of, spare_ones};
ghost use Rattle.laws.specs.Turns.{cornered};

use word::bits::word_byte;
use word::sizes::row_bytes;

// Byte b of row i of the corner of m rows and m columns, in a square of n; zero past the corner.
fn corner_byte(m: usize, n: usize, s: &[u8], i: usize, b: usize) -> u8
    requires { (m ≤ n) × (n ≤ length_limit) × (b ≤ length_limit) × (length s.now ≡ square_bytes n) }
    ensures { result ≡ byte_of (row (cornered m m (frame_of n s.now)) i) b }
{
    if m <= i {
        return 0;
    }
    word_byte(m, s, i * row_bytes(n), b)
}

// The upper left corner of m rows and m columns, taken from a square of n rows, put into one of k; all else there is zero.
pub fn copy_corner(m: usize, n: usize, from: &[u8], k: usize, to: &mut [u8])
    requires le_m { (1 ≤ m) × (m ≤ n) × (m ≤ k) × (n ≤ length_limit) × (k ≤ length_limit) }
    requires from_len { (length from.now ≡ square_bytes n) × (length to.old ≡ square_bytes k) }
    ensures { to.new ≡ bytes_of k (cornered m k (frame_of n from.now)) }
{
    let wide = row_bytes(k);
    for (p, byte) in to.iter_mut().enumerate() {
        *byte = corner_byte(m, n, from, p / wide, p % wide);
    }
}

// Whether every spare bit of a square is zero: each byte is what its row's own bits make it.
pub fn is_packed(n: usize, s: &[u8]) -> bool
    requires { (1 ≤ n) × (n ≤ length_limit) × (length s.now ≡ square_bytes n) }
    ensures { result ≡ eqb (spare_ones n s.now) 0 }
{
    let wide = row_bytes(n);
    s.iter().enumerate().all(|(p, byte)| *byte == corner_byte(n, n, s, p / wide, p % wide))
}
