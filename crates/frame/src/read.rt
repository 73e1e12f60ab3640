// Reading the data back.
ghost use Rattle.std.specs.Prelude.{◌≡◌};
ghost use Rattle.rules.specs.Codes.{small_code};
ghost use Rattle.rules.specs.Numbers.{read_number};
ghost use Rattle.word.specs.Refused.{number_of};
ghost use Rattle.frame.specs.Calls.{Reads};

use crate::words::bad;
use square::corner::copy_corner;
use square::erased::is_erased;
use square::sizes::square_bytes;
use word::refusal::Refusal;
use word::sizes::{CHECK_BITS, check_lengths, check_n};

fn check(n: usize, frame: &[u8], message: &[u8]) -> Result<(), Refusal>
    ensures { number_of result ≡ read_number small_code n frame.now message.now }
{
    check_n(n)?;
    check_lengths(
        frame,
        square_bytes(n),
        message,
        square_bytes(n - CHECK_BITS),
    )?;
    if is_erased(n, frame) {
        return Err(Refusal::Erased);
    }
    if bad(n, frame, false) + bad(n, frame, true) != 0 {
        return Err(Refusal::NotCodewords);
    }
    Ok(())
}

// A refusal leaves `message` untouched.
pub fn read(n: usize, frame: &[u8], message: &mut [u8]) -> Result<(), Refusal>
    ensures { Reads n frame.now message.old (number_of result) message.new }
{
    check(n, frame, message)?;
    let k = n - CHECK_BITS;
    copy_corner(k, n, frame, k, message);
    Ok(())
}
