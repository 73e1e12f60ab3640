// One row of a frame.
ghost use Rattle.std.specs.Prelude.{◌≡◌};
ghost use Rattle.rules.specs.Codes.{small_code};
ghost use Rattle.rules.specs.Numbers.{row_refused};
ghost use Rattle.frame.specs.Calls.{TakesRow};

use square::sizes::square_bytes;
use word::sizes::{outside, row_bytes};

// Whether n or the length is wrong, or i is not below n.
fn is_refused(n: usize, frame: &[u8], i: usize) -> bool
    ensures { result ≡ row_refused small_code n frame.now i }
{
    outside(n) || frame.len() != square_bytes(n) || n <= i
}

// Row i, as that part of the caller's own bytes; an empty part where it is refused: a row can't fail, and `TakesRow` has it so.
pub fn row<'a>(n: usize, frame: &'a [u8], i: usize) -> &'a [u8]
    ensures { TakesRow n frame.now i result.now }
{
    if is_refused(n, frame, i) {
        return &frame[0..0];
    }
    let wide = row_bytes(n);
    let from = i * wide;
    &frame[from..from + wide]
}
