// The sizes of what is lent.
use square::sizes::GREATEST_FRAME;
use text::number::MOST_DIGITS;

// The characters of the longest line, its LF not counted: three numbers, each with a tab after it, and the greatest frame in hex.
pub const LONGEST_LINE: usize = 3 * (MOST_DIGITS + 1) + 2 * GREATEST_FRAME;

// The bytes of any frame that a line can hold.
pub(crate) const MOST_BYTES: usize = LONGEST_LINE / 2;

// The room for one line of the report.
pub const ROOM: usize = 128;
