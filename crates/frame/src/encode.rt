// Encoding.
ghost use Rattle.std.specs.Prelude.{◌≡◌, false, length};
ghost use Rattle.rules.specs.Codes.{small_code};
ghost use Rattle.rules.specs.Frames.{is_erased};
ghost use Rattle.rules.specs.Numbers.{outside, data_bytes, frame_for, encode_number};
ghost use Rattle.word.specs.Refused.{number_of};
ghost use Rattle.frame.specs.Calls.{Encodes};

use crate::words::encode_words;
use square::corner::{copy_corner, is_packed};
use square::erased::is_erased;
use square::sizes::square_bytes;
use word::refusal::Refusal;
use word::sizes::{CHECK_BITS, check_lengths, check_n};

// The one n at which a word of ones is a codeword, and so a square of ones a frame.
const ONES_CODEWORD: usize = 256;

// Whether the frame of the message would be all ones: known before a byte of it is written.
fn makes_erased(n: usize, message: &[u8]) -> bool
    requires { (outside small_code n ≡ false) × (length message.now ≡ data_bytes small_code n) }
    ensures { result ≡ is_erased n (frame_for small_code n message.now) }
{
    if n != ONES_CODEWORD {
        return false;
    }
    is_erased(n - CHECK_BITS, message)
}

fn check(n: usize, message: &[u8], frame: &[u8]) -> Result<(), Refusal>
    ensures { number_of result ≡ encode_number small_code n message.now frame.now }
{
    check_n(n)?;
    let k = n - CHECK_BITS;
    check_lengths(message, square_bytes(k), frame, square_bytes(n))?;
    if !is_packed(k, message) {
        return Err(Refusal::SpareBitSet);
    }
    if makes_erased(n, message) {
        return Err(Refusal::Erased);
    }
    Ok(())
}

// A refusal leaves `frame` untouched.
pub fn encode(n: usize, message: &[u8], frame: &mut [u8]) -> Result<(), Refusal>
    ensures { Encodes n message.now frame.old (number_of result) frame.new }
{
    check(n, message, frame)?;
    let k = n - CHECK_BITS;
    copy_corner(k, k, message, n, frame);
    encode_words(n, frame, false, k);
    encode_words(n, frame, true, n);
    Ok(())
}
