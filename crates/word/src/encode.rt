// A word of a buffer encoded in place.
ghost use Rattle.std.specs.Prelude.{◌≡◌};
ghost use Rattle.rules.specs.Codes.{small_code};
ghost use Rattle.laws.specs.InPlace.{word_at, put, Inside};
ghost use Rattle.laws.specs.Turns.{completed};

use crate::at::WordAt;
use crate::bits::flip;
use crate::sizes::CHECK_BITS;

// The highest digit of the checks.
const HIGHEST: u32 = 65536;

impl WordAt {
    // Sets the check bits so that the word is a codeword, whatever they were. The value of each of these places is v + 1, and 1
    // at the last, so one place after another settles the highest bit that is left of the checks.
    #[tactic(auto, using(laws::proofs::CheckLoopLaws::place_inside))]
    pub fn encode(self, bytes: &mut [u8])
        requires { Inside small_code self.n bytes.old self.start self.step }
        ensures { bytes.new ≡ put self.n bytes.old self.start self.step (completed small_code self.n (word_at self.n bytes.old self.start self.step)) }
    {
        let data = self.n - CHECK_BITS;
        let mut left = self.checks(bytes);
        for i in 0..CHECK_BITS - 1 {
            let v = HIGHEST >> i;
            if v <= left {
                flip(bytes, self.place(data + i));
                left ^= v + 1;
            }
        }
        if left == 1 {
            flip(bytes, self.place(self.n - 1));
        }
    }
}
