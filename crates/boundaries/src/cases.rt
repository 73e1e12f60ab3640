// The calls, at the edges of what each entry point accepts.
const HUGE: usize = usize::MAX;

// An entry point, with what it is told besides n.
#[derive(Clone, Copy)]
pub enum Entry {
    // Data that is all zero.
    Encode,
    // A frame that is all zero.
    Read,
    // The allowance, and how many bytes at the start of the frame are ones, the rest zero: at n = 18 six of them are two rows.
    Decode(usize, usize),
    // Row i of a frame that is all zero; it has no output.
    Row(usize),
    // A word that is all zero but for its first two bits.
    Word,
}

// Which entry point, n, and the lengths of the lent parts: of what it reads, and of what it writes.
pub static CASES: [(Entry, usize, usize, usize); 63] = [
    (Entry::Encode, 17, 0, 51),
    (Entry::Encode, 18, 1, 54),
    (Entry::Encode, 18, 0, 54),
    (Entry::Encode, 18, 2, 54),
    (Entry::Encode, 18, 1, 53),
    (Entry::Encode, 18, 1, 55),
    (Entry::Encode, 18, 0, 0),
    (Entry::Encode, 256, 7170, 8192),
    (Entry::Encode, 256, 7169, 8192),
    (Entry::Encode, 256, 7170, 8191),
    (Entry::Encode, 257, 7200, 8192),
    (Entry::Encode, HUGE, 0, 0),
    (Entry::Read, 17, 51, 0),
    (Entry::Read, 18, 54, 1),
    (Entry::Read, 18, 53, 1),
    (Entry::Read, 18, 55, 1),
    (Entry::Read, 18, 54, 0),
    (Entry::Read, 18, 54, 2),
    (Entry::Read, 18, 0, 0),
    (Entry::Read, 256, 8192, 7170),
    (Entry::Read, 257, 8192, 7170),
    (Entry::Read, HUGE, 0, 0),
    (Entry::Decode(2, 6), 17, 51, 51),
    (Entry::Decode(2, 0), 18, 54, 54),
    (Entry::Decode(2, 6), 18, 54, 54),
    (Entry::Decode(2, 6), 18, 53, 54),
    (Entry::Decode(2, 6), 18, 55, 54),
    (Entry::Decode(2, 6), 18, 54, 53),
    (Entry::Decode(2, 6), 18, 54, 55),
    (Entry::Decode(2, 6), 18, 0, 0),
    (Entry::Decode(0, 6), 18, 54, 54),
    (Entry::Decode(1, 6), 18, 54, 54),
    (Entry::Decode(200, 6), 18, 54, 54),
    (Entry::Decode(201, 6), 18, 54, 54),
    (Entry::Decode(HUGE, 6), 18, 54, 54),
    (Entry::Decode(2, 6), 256, 8192, 8192),
    (Entry::Decode(2, 6), 256, 8191, 8192),
    (Entry::Decode(2, 6), 257, 8192, 8192),
    (Entry::Decode(2, 6), HUGE, 0, 0),
    (Entry::Decode(2, 54), 18, 54, 54),
    (Entry::Decode(2, 53), 18, 54, 54),
    (Entry::Decode(0, 54), 18, 54, 54),
    (Entry::Decode(2, 54), 18, 54, 53),
    (Entry::Decode(2, 8192), 256, 8192, 8192),
    (Entry::Row(0), 17, 51, 0),
    (Entry::Row(0), 18, 54, 0),
    (Entry::Row(17), 18, 54, 0),
    (Entry::Row(18), 18, 54, 0),
    (Entry::Row(HUGE), 18, 54, 0),
    (Entry::Row(0), 18, 53, 0),
    (Entry::Row(0), 18, 55, 0),
    (Entry::Row(255), 256, 8192, 0),
    (Entry::Row(256), 256, 8192, 0),
    (Entry::Row(0), 257, 8192, 0),
    (Entry::Row(0), HUGE, 0, 0),
    (Entry::Word, 17, 3, 3),
    (Entry::Word, 18, 3, 3),
    (Entry::Word, 18, 2, 3),
    (Entry::Word, 18, 3, 4),
    (Entry::Word, 18, 0, 0),
    (Entry::Word, 256, 32, 32),
    (Entry::Word, 257, 33, 33),
    (Entry::Word, HUGE, 0, 0),
];
