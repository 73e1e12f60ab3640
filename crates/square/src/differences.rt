// Where two squares differ: code bits, counted a byte at a time.
ghost use Rattle.std.specs.Prelude.{◌≡◌, ◌+◌, ◌-◌, ◌*◌, ◌<◌, ◌≤◌, length};
ghost use Rattle.rules.specs.Codes.{length_limit};
ghost use Rattle.rules.specs.Bits.{row_bytes, square_bytes, frame_of};
ghost use Rattle.rules.specs.Passes.{differences};
ghost use Rattle.laws.specs.InPlace.{most_bytes, differ_at};

use word::sizes::row_bytes;

// How many bits of byte p differ, but for its last `spare`: they are shifted out.
fn byte_differences(s: &[u8], t: &[u8], p: usize, spare: usize) -> usize
    requires { (p < length s.now) × (p < length t.now) × (spare < 8) }
    ensures { (result ≡ differ_at (8 - spare) s.now t.now p) × (result ≤ 8) }
{
    ((s[p] ^ t[p]) >> spare).count_ones() as usize
}

// How many bits of the bytes from `at` up to `end` differ.
fn whole_differences(s: &[u8], t: &[u8], at: usize, end: usize) -> usize
    requires { (at ≤ end) × (end ≤ length s.now) × (end ≤ length t.now) × (end - at ≤ length_limit) }
    ensures { (result ≡ differ_at ((end - at) * 8) s.now t.now at) × (result ≤ (end - at) * 8) }
{
    s[at..end]
        .iter()
        .zip(&t[at..end])
        .map(|(a, b)| (a ^ b).count_ones() as usize)
        .sum()
}

// How many of the n bits of a row differ. It starts at byte `at`.
fn row_differences(n: usize, s: &[u8], t: &[u8], at: usize) -> usize
    requires le_n { (1 ≤ n) × (n ≤ length_limit) × (at ≤ most_bytes) }
    requires n_in_bounds { (at + row_bytes n ≤ length s.now) × (at + row_bytes n ≤ length t.now) }
    ensures { (result ≡ differ_at n s.now t.now at) × (result ≤ length_limit) }
{
    let wide = row_bytes(n);
    let last = at + wide - 1;
    let spare = wide * 8 - n;
    whole_differences(s, t, at, last) + byte_differences(s, t, last, spare)
}

// How many code bits of n rows of n bits differ.
pub fn differences(n: usize, s: &[u8], t: &[u8]) -> usize
    requires { (1 ≤ n) × (n ≤ length_limit) × (length s.now ≡ square_bytes n) × (length t.now ≡ square_bytes n) }
    ensures { result ≡ differences n (frame_of n s.now) (frame_of n t.now) }
{
    let wide = row_bytes(n);
    (0..n).map(|i| row_differences(n, s, t, i * wide)).sum()
}
