// A single word decoded: the public entry point.
ghost use Rattle.std.specs.Prelude.{◌≡◌, ◌≤◌, length};
ghost use Rattle.rules.specs.Codes.{length_limit, small_code};
ghost use Rattle.rules.specs.Bits.{row_bytes, word_of, word_bytes};
ghost use Rattle.rules.specs.Numbers.{word_refusal};
ghost use Rattle.word.specs.Calls.{DecodesWord};
ghost use Rattle.word.specs.Refused.{number_of};

use crate::at::WordAt;
use crate::bits::word_byte;
use crate::locate::Answer;
use crate::refusal::Refusal;
use crate::sizes::{check_lengths, check_n, row_bytes};

// The word of n bits at the start of `from`, its spare bits zero.
fn copy_word(n: usize, from: &[u8], to: &mut [u8])
    requires { (n ≤ length_limit) × (length from.now ≡ row_bytes n) × (length to.old ≡ row_bytes n) }
    ensures { to.new ≡ word_bytes n (word_of n from.now 0) }
{
    for (b, byte) in to.iter_mut().enumerate() {
        *byte = word_byte(n, from, 0, b);
    }
}

fn check(n: usize, received: &[u8], word: &[u8]) -> Result<(), Refusal>
    ensures { number_of result ≡ word_refusal small_code n received.now word.now }
{
    check_n(n)?;
    let bytes = row_bytes(n);
    check_lengths(received, bytes, word, bytes)
}

// A refusal leaves `word` untouched; where no codeword lies within two it holds the received bytes.
pub fn decode_word(n: usize, received: &[u8], word: &mut [u8]) -> Result<Answer, Refusal>
    ensures { DecodesWord n received.now word.old result word.new }
{
    check(n, received, word)?;
    copy_word(n, received, word);
    let whole = WordAt {
        n,
        start: 0,
        step: 1,
    };
    let answer = whole.mend(word);
    if let Answer::Beyond = answer {
        word.copy_from_slice(received);
    }
    Ok(answer)
}
