// From the checks of a word to its answer, by the marks of places.
ghost use Rattle.std.specs.Prelude.{◌≡◌, ◌≤◌, ◌<◌};
ghost use Rattle.word.specs.Said.{answer_of};
ghost use Rattle.word.specs.Locates.{Locates};
ghost use Rattle.rules.specs.Codes.{small_code};
ghost use Rattle.laws.specs.Located.{checks_end, located};

use places::{Two, lone, mark_of, pair};

#[derive(Clone, Copy, Debug, PartialEq, Eq)]
pub enum Answer {
    Codeword,
    OnePlace(usize),
    TwoPlaces(usize, usize),
    Beyond,
}

// An odd number of places: one, or more than two.
#[tactic(auto, using(laws::proofs::LocatedLaws::odd_one, laws::proofs::LocatedLaws::odd_beyond))]
fn odd_places(n: usize, mark: u32) -> Answer
    requires { (small_code.shortest ≤ n) × (n ≤ small_code.longest) }
    ensures { Locates n 1 mark result }
{
    match lone(n - 1, mark) {
        Some(exponent) => Answer::OnePlace(n - 2 - exponent),
        None => Answer::Beyond,
    }
}

// An even number of places: the parity bit and one other, two others, or more than two.
#[tactic(auto, using(laws::proofs::LocatedLaws::even_one, laws::proofs::LocatedLaws::even_two, laws::proofs::LocatedLaws::even_beyond))]
fn even_places(n: usize, mark: u32) -> Answer
    requires { (small_code.shortest ≤ n) × (n ≤ small_code.longest) }
    ensures { Locates n 0 mark result }
{
    if let Some(exponent) = lone(n - 1, mark) {
        return Answer::TwoPlaces(n - 2 - exponent, n - 1);
    }
    match pair(n - 1, mark) {
        Some(Two { high, low }) => Answer::TwoPlaces(n - 2 - high, n - 2 - low),
        None => Answer::Beyond,
    }
}

#[tactic(auto, using(laws::proofs::LocatedLaws::located_zero, laws::proofs::LocatedLaws::located_last))]
pub fn locate(n: usize, checks: u32) -> Answer
    requires { (small_code.shortest ≤ n) × (n ≤ small_code.longest) × (checks < checks_end small_code) }
    ensures { result ≡ answer_of (located small_code n checks) }
{
    if checks == 0 {
        return Answer::Codeword;
    }
    if checks == 1 {
        return Answer::OnePlace(n - 1);
    }
    let mark = mark_of(checks / 2);
    if checks % 2 == 1 {
        odd_places(n, mark)
    } else {
        even_places(n, mark)
    }
}
