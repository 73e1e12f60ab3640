// Places found by their marks: the one, or the two, that leave a remainder. A place goes by its exponent, which lies below a bound.
#![tactic(auto)]

ghost use Rattle.std.specs.Prelude.{◌≡◌, ◌*◌, ◌≤◌, ◌<◌, MatchOption};
ghost use Rattle.algebra.specs.Marking.{order, mark_of, Reduced, Slot};
ghost use Rattle.algebra.specs.Field256.{small_marking};
ghost use Rattle.laws.specs.Search.{Lone, NoLone, Pair, NoPair, EitherOf};

use field::halves::half;
use field::logs::exponent;
use field::marks::{ORDER, cube_part, mark_at, power_part};

const REMAINDER_BITS: usize = 16;

// The exponents of two places. The higher exponent is the lower place.
#[derive(Clone, Copy, Debug, PartialEq, Eq)]
pub struct Two {
    pub high: usize,
    pub low: usize,
}

// The mark of each of the remainder's ones, added.
pub fn mark_of(remainder: u32) -> u32
    ensures { result ≡ mark_of small_marking remainder }
{
    (0..REMAINDER_BITS).fold(0, |mark, i| mark ^ (remainder >> i) % 2 * mark_at(i))
}

// An exponent with the same power, below the order.
fn reduced(x: usize) -> usize
    requires { x < 2 * order small_marking }
    ensures { (result < order small_marking) × Reduced small_marking x result }
{
    if x < ORDER { x } else { x - ORDER }
}

// The place with this mark.
#[tactic(auto, using(crate::proofs::LoneLaws::log_mark))]
pub fn lone(bound: usize, mark: u32) -> Option<usize>
    requires { bound ≤ order small_marking }
    ensures { MatchOption result (NoLone small_marking bound mark) (Lone small_marking bound mark) }
{
    let place = exponent(power_part(mark));
    if place < bound && mark_at(place) == mark {
        Some(place)
    } else {
        None
    }
}

// Where the half of a pair stands, if its powers add to a^log and its cubes to this.
fn slot(log: usize, cubes: u8) -> usize
    requires { log < order small_marking }
    ensures { (result ≤ order small_marking) × Slot small_marking log cubes result }
{
    if cubes == 0 {
        return ORDER; // the place of the half for 0, and no sign that there is none
    }
    let cube_log = exponent(cube_part(mark_at(log)));
    reduced(exponent(cubes) + (ORDER - cube_log))
}

// One of the two places whose marks add to this, where there are two; else none, or any exponent.
fn one_of(mark: u32) -> Option<usize>
    ensures { MatchOption result (NoPair small_marking (order small_marking) mark) (EitherOf small_marking mark) }
{
    let power = power_part(mark);
    if power == 0 {
        return None;
    }
    let log = exponent(power);
    Some(reduced(half(slot(log, cube_part(mark))) + log))
}

// The two places whose marks add to this.
pub fn pair(bound: usize, mark: u32) -> Option<Two>
    requires { bound ≤ order small_marking }
    ensures { MatchOption result (NoPair small_marking bound mark) (λ two. Pair small_marking bound mark two.high two.low) }
{
    let one = one_of(mark)?;
    if bound <= one {
        return None; // a place that was cut away
    }
    let other = lone(bound, mark ^ mark_at(one))?;
    Some(Two {
        high: one.max(other),
        low: one.min(other),
    })
}
