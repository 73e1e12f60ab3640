// The sizes of what is lent.
use square::sizes::GREATEST_FRAME;
use text::number::MOST_DIGITS;
use word::sizes::{CHECK_BITS, LONGEST};

// The bytes of the greatest data.
const GREATEST_DATA: usize = (LONGEST - CHECK_BITS) * ((LONGEST - CHECK_BITS + 7) / 8);

// The characters of the longest line, its LF not counted: two numbers, each with a tab after it, and the greatest data in hex.
pub const LONGEST_LINE: usize = 2 * (MOST_DIGITS + 1) + 2 * GREATEST_DATA;

// The bytes of any data that a line can hold.
pub(crate) const MOST_BYTES: usize = LONGEST_LINE / 2;

// The digits of the greatest n.
const N_DIGITS: usize = 3;

// The room for one line of the dump: number, n, allowance and frame, and the LF.
pub const ROOM: usize = MOST_DIGITS + 1 + N_DIGITS + 1 + 1 + 1 + 2 * GREATEST_FRAME + 1;
