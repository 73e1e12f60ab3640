// The bytes of a square.
ghost use Rattle.std.specs.Prelude.{◌≡◌, ◌≤◌};
ghost use Rattle.rules.specs.Codes.{length_limit};
ghost use Rattle.rules.specs.Bits.{square_bytes};

use word::sizes::{LONGEST, row_bytes};

// The bytes of the greatest frame.
pub const GREATEST_FRAME: usize = LONGEST * ((LONGEST + 7) / 8);

// n rows of n bits.
pub fn square_bytes(n: usize) -> usize
    requires { n ≤ length_limit }
    ensures { result ≡ square_bytes n }
{
    n * row_bytes(n)
}
