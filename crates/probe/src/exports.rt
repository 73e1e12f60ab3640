// What the tests call from C and Rust beside the functions of the host.
ghost use Rattle.std.specs.Prelude.{◌≡◌};
ghost use Rattle.rules.specs.Field as rules;
ghost use Rattle.probe.specs.Calls.{ProbesWord, CopiesRow, ProbesChecks};

use crate::said::{put_answer, put_refused};
use field::logs::exponent;
use field::marks::{ORDER, mark_at, power_part};
use frame::row::row;
use word::decode::decode_word;
use word::locate::locate;
use word::refusal::Refusal;
use word::sizes::outside;

// The length of a block with three numbers: how many places were changed, the first and the second.
const PLACES_BYTES: usize = 12;

// All checks lie below it, and what does not gives this number.
const CHECKS_END: u32 = 131072;

const NO_CHECKS: u32 = 2;

#[unsafe(no_mangle)]
pub extern "C" fn probe_power(e: usize) -> u8
    ensures { result ≡ rules.power e }
{
    power_part(mark_at(e % ORDER))
}

#[unsafe(no_mangle)]
pub extern "C" fn probe_logarithm(x: u8) -> usize
    ensures { result ≡ rules.logarithm x }
{
    exponent(x)
}

#[unsafe(no_mangle)]
pub extern "C" fn probe_word(n: usize, received: &[u8], word: &mut [u8], block: &mut [u8]) -> u32
    ensures { ProbesWord n received.now word.old block.old result word.new block.new }
{
    if block.len() != PLACES_BYTES {
        return Refusal::BadBlockLength.number();
    }
    match decode_word(n, received, word) {
        Err(refusal) => put_refused(refusal.number(), block),
        Ok(answer) => put_answer(answer, block),
    }
}

// The length of row i's part; its bytes, where `part` is just as long.
#[unsafe(no_mangle)]
pub extern "C" fn probe_row(n: usize, frame: &[u8], i: usize, part: &mut [u8]) -> usize
    ensures { CopiesRow n frame.now i part.old result part.new }
{
    let bytes = row(n, frame, i);
    if bytes.len() == part.len() {
        part.copy_from_slice(bytes);
    }
    bytes.len()
}

#[unsafe(no_mangle)]
pub extern "C" fn probe_locate(n: usize, checks: u32, block: &mut [u8]) -> u32
    ensures { ProbesChecks n checks block.old result block.new }
{
    if block.len() != PLACES_BYTES {
        return Refusal::BadBlockLength.number();
    }
    if outside(n) {
        return put_refused(Refusal::BadN.number(), block);
    }
    if CHECKS_END <= checks {
        return put_refused(NO_CHECKS, block);
    }
    put_answer(locate(n, checks), block)
}
