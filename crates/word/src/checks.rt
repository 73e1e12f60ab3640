// The checks of a word anywhere in a buffer: rows and columns are one loop.
ghost use Rattle.std.specs.Prelude.{◌≡◌, ◌<◌};
ghost use Rattle.algebra.specs.Remainder.{shift, is_odd};
ghost use Rattle.rules.specs.Codes.{small_code};
ghost use Rattle.rules.specs.Words.{checks};
ghost use Rattle.laws.specs.InPlace.{word_at, Inside};
ghost use Rattle.laws.specs.Located.{remainders_end, checks_end};

use crate::at::WordAt;
use crate::bits::bit;

// z^16+z^14+z^13+z^11+z^10+z^9+z^8+z^6+z^5+z+1, bit i for z^i.
const G: u32 = 0x16f63;

// z^16, that is the first number that is no remainder.
const REMAINDERS_END: u32 = 65536;

// The remainder r with one more coefficient behind it.
#[tactic(auto, using(laws::proofs::CheckLoopLaws::shift_stays, laws::proofs::CheckLoopLaws::shift_takes, laws::proofs::CheckLoopLaws::shift_leaves))]
fn shifted(r: u32, b: u32) -> u32
    requires { (r < remainders_end small_code) × (b < 2) }
    ensures { (result ≡ shift small_code.degree small_code.generator r (is_odd b)) × (result < remainders_end small_code) }
{
    let x = 2 * r + b;
    if x < REMAINDERS_END { x } else { x ^ G }
}

impl WordAt {
    #[tactic(auto, using(laws::proofs::CheckLoopLaws::place_inside))]
    pub fn checks(self, bytes: &[u8]) -> u32
        requires { Inside small_code self.n bytes.now self.start self.step }
        ensures { (result ≡ checks small_code self.n (word_at self.n bytes.now self.start self.step)) × (result < checks_end small_code) }
    {
        let mut remainder: u32 = 0;
        let mut ones: u32 = 0;
        let mut x = self.start;
        for _ in 0..self.n - 1 {
            let b = bit(bytes, x);
            remainder = shifted(remainder, b);
            ones += b;
            x += self.step; // summed up: a product for each place is slower
        }
        2 * remainder + (ones + bit(bytes, x)) % 2
    }
}
