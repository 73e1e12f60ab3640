// A frame's words, in one of two directions: rows or columns.
ghost use Rattle.std.specs.Prelude.{◌≡◌, ◌<◌, ◌≤◌, not};
ghost use Rattle.rules.specs.Codes.{length_limit, small_code};
ghost use Rattle.rules.specs.Words.{is_codeword};
ghost use Rattle.rules.specs.Frames.{bad_rows};
ghost use Rattle.rules.specs.Bits.{frame_of, bytes_of};
ghost use Rattle.laws.specs.Turns.{turned, word_in, worked, completed, Whole, Ready};
ghost use Rattle.frame.specs.Calls.{MendsWord};
ghost use Rattle.frame.specs.Words.{lies};

use word::at::WordAt;
use word::sizes::row_bytes;

// Where word k in the direction lies in the frame's bytes.
#[tactic(auto, unfolding(laws::specs::Turns::start_of, laws::specs::Turns::step_of))]
fn word(n: usize, columns: bool, k: usize) -> WordAt
    requires { (n ≤ length_limit) × (k ≤ length_limit) }
    ensures { result ≡ lies n columns k }
{
    let wide = row_bytes(n) * 8;
    if columns {
        WordAt {
            n,
            start: k,
            step: wide,
        }
    } else {
        WordAt {
            n,
            start: k * wide,
            step: 1,
        }
    }
}

// Whether word k in the direction is no codeword.
fn is_bad(n: usize, s: &[u8], columns: bool, k: usize) -> bool
    requires { Whole small_code n s.now × (k < n) }
    ensures { result ≡ not (is_codeword small_code n (word_in n columns s.now k)) }
{
    word(n, columns, k).checks(s) != 0
}

// How many words in the direction are not codewords.
pub(crate) fn bad(n: usize, s: &[u8], columns: bool) -> usize
    requires { Whole small_code n s.now }
    ensures { (result ≡ bad_rows small_code n (turned n columns (frame_of n s.now))) × (result ≤ length_limit) }
{
    (0..n).filter(|k| is_bad(n, s, columns, *k)).count()
}

// Encodes the first m words in the direction.
pub(crate) fn encode_words(n: usize, s: &mut [u8], columns: bool, m: usize)
    requires { Ready small_code n s.old × (m ≤ n) }
    ensures { s.new ≡ bytes_of n (worked n columns (completed small_code n) m (frame_of n s.old)) }
{
    for k in 0..m {
        word(n, columns, k).encode(s);
    }
}

// Mends word k in the direction; how many of its bits were changed.
pub(crate) fn mend_word(n: usize, s: &mut [u8], columns: bool, k: usize) -> usize
    requires { Whole small_code n s.old × (k < n) }
    ensures { MendsWord n columns k s.old result s.new }
{
    word(n, columns, k).mend(s).changes()
}
