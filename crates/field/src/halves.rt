// The halves of pairs.
ghost use Rattle.std.specs.Prelude.{◌≡◌, ◌≤◌, ◌<◌};
ghost use Rattle.algebra.specs.Marking.{order, half_at};
ghost use Rattle.algebra.specs.Field256.{small_marking};

// Where a^i + a^j = 1, the lower of i and j at the logarithm of a^3i + a^3j, at 255 for 0; else 0.
static HALVES: [u8; 256] = [
    0, 114, 77, 234, 154, 0, 213, 13, 53, 0, 0, 0, 171, 148, 26, 0, 39, 102, 0, 96, 0, 0, 0, 210,
    87, 11, 41, 4, 52, 0, 0, 91, 78, 0, 187, 97, 0, 185, 192, 0, 0, 205, 0, 0, 0, 10, 165, 0, 79,
    6, 22, 14, 59, 0, 8, 0, 27, 0, 0, 149, 0, 0, 163, 0, 156, 0, 0, 37, 119, 0, 125, 0, 0, 110,
    115, 69, 129, 0, 0, 0, 0, 0, 155, 0, 0, 34, 0, 0, 0, 0, 20, 0, 75, 0, 0, 0, 93, 0, 12, 128, 44,
    0, 28, 151, 118, 80, 0, 0, 16, 0, 0, 49, 54, 31, 0, 0, 0, 0, 43, 189, 0, 0, 0, 46, 71, 0, 0,
    72, 57, 117, 0, 134, 0, 0, 74, 0, 51, 48, 0, 105, 133, 2, 0, 173, 0, 95, 220, 0, 230, 0, 5, 0,
    3, 7, 0, 0, 0, 94, 0, 0, 0, 146, 0, 0, 55, 65, 0, 0, 0, 0, 17, 0, 0, 0, 0, 0, 0, 64, 0, 89, 40,
    0, 0, 152, 143, 0, 0, 222, 0, 23, 0, 36, 61, 67, 0, 0, 24, 124, 1, 116, 88, 0, 0, 0, 56, 0, 47,
    0, 73, 0, 81, 0, 0, 0, 0, 0, 32, 172, 0, 76, 0, 111, 98, 18, 108, 0, 62, 58, 0, 0, 0, 0, 0, 0,
    0, 0, 86, 38, 123, 9, 0, 29, 0, 0, 0, 0, 19, 60, 142, 0, 0, 30, 0, 15, 135, 85,
];

#[tactic(auto, unfolding(algebra::specs::Field256::halves))]
pub fn half(slot: usize) -> usize
    requires { slot ≤ order small_marking }
    ensures { (result ≡ half_at small_marking slot) × (result < 256) }
{
    HALVES[slot] as usize
}
