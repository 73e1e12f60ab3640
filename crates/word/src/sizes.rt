// The sizes that are allowed, and the bytes that they take.
ghost use Rattle.std.specs.Prelude.{◌≡◌, ◌≤◌, ◌∷◌, []};
ghost use Rattle.rules.specs.Codes.{length_limit, small_code};
ghost use Rattle.rules.specs.Bits.{row_bytes};
ghost use Rattle.rules.specs.Numbers.{outside, first, not_long};
ghost use Rattle.word.specs.Refused.{number_of};

use crate::refusal::Refusal;

// The lengths that a word may have, and how many of its bits are no data.
const SHORTEST: usize = 18;

pub const LONGEST: usize = 256;

pub const CHECK_BITS: usize = 17;

pub fn outside(n: usize) -> bool
    ensures { result ≡ outside small_code n }
{
    !(SHORTEST..=LONGEST).contains(&n)
}

pub fn row_bytes(n: usize) -> usize
    requires { n ≤ length_limit }
    ensures { result ≡ row_bytes n }
{
    n.div_ceil(8)
}

// Number 1.
pub fn check_n(n: usize) -> Result<(), Refusal>
    ensures { number_of result ≡ first ((outside small_code n, 1) ∷ []) }
{
    if outside(n) {
        return Err(Refusal::BadN);
    }
    Ok(())
}

// Numbers 2 and 3.
pub fn check_lengths(input: &[u8], takes: usize, output: &[u8], gives: usize) -> Result<(), Refusal>
    ensures { number_of result ≡ first ((not_long input.now takes, 2) ∷ (not_long output.now gives, 3) ∷ []) }
{
    if input.len() != takes {
        return Err(Refusal::BadInputLength);
    }
    if output.len() != gives {
        return Err(Refusal::BadOutputLength);
    }
    Ok(())
}
