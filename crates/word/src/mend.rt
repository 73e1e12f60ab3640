// A word of a buffer mended in place.
ghost use Rattle.std.specs.Prelude.{◌≡◌};
ghost use Rattle.rules.specs.Codes.{small_code};
ghost use Rattle.rules.specs.Words.{answer, mend};
ghost use Rattle.laws.specs.InPlace.{word_at, put, Inside};
ghost use Rattle.word.specs.Said.{answer_of, changes};

use crate::at::WordAt;
use crate::bits::flip;
use crate::locate::{Answer, locate};

impl WordAt {
    fn answer(self, bytes: &[u8]) -> Answer
        requires { Inside small_code self.n bytes.now self.start self.step }
        ensures { result ≡ answer_of (answer small_code self.n (word_at self.n bytes.now self.start self.step)) }
    {
        locate(self.n, self.checks(bytes))
    }

    // Puts the codeword within two in the word's place, or leaves the word.
    #[tactic(auto, using(crate::proofs::AnswerLaws::one_inside, crate::proofs::AnswerLaws::low_inside, crate::proofs::AnswerLaws::high_inside))]
    pub fn mend(self, bytes: &mut [u8]) -> Answer
        requires { Inside small_code self.n bytes.old self.start self.step }
        ensures value { result ≡ answer_of (answer small_code self.n (word_at self.n bytes.old self.start self.step)) }
        ensures bytes_after { bytes.new ≡ put self.n bytes.old self.start self.step (mend small_code self.n (word_at self.n bytes.old self.start self.step)) }
    {
        let answer = self.answer(bytes);
        match answer {
            Answer::OnePlace(p) => flip(bytes, self.place(p)),
            Answer::TwoPlaces(p, q) => {
                flip(bytes, self.place(p));
                flip(bytes, self.place(q));
            }
            Answer::Codeword | Answer::Beyond => {}
        }
        answer
    }
}

impl Answer {
    // How many places it changes.
    pub fn changes(self) -> usize
        ensures { result ≡ changes self }
    {
        match self {
            Answer::Codeword | Answer::Beyond => 0,
            Answer::OnePlace(_) => 1,
            Answer::TwoPlaces(_, _) => 2,
        }
    }
}
