// Decoding: passes over rows and columns in turn, in the lent output.
ghost use Rattle.std.specs.Prelude.{◌≡◌, ◌≤◌};
ghost use Rattle.rules.specs.Codes.{small_code};
ghost use Rattle.rules.specs.Passes.{is_stuck};
ghost use Rattle.rules.specs.Numbers.{most_allowed, not_allowed, decode_refusal};
ghost use Rattle.laws.specs.Turns.{Copied};
ghost use Rattle.word.specs.Refused.{number_of};
ghost use Rattle.frame.specs.Calls.{Repairs, Decodes};
ghost use Rattle.frame.specs.Said.{is_failure};

use crate::words::{bad, mend_word};
use square::corner::copy_corner;
use square::differences::differences;
use square::erased::is_erased;
use square::sizes::square_bytes;
use word::refusal::Refusal;
use word::sizes::{check_lengths, check_n};

const MOST_ALLOWED: usize = 200;

#[derive(Clone, Copy, Debug, PartialEq, Eq)]
pub enum Ending {
    Clean,
    Repaired,
    Stuck,
    Spent,
}

// Bits: in how many code bits the last frame differs from the received one, also where it is not handed out.
// Rows and columns: those left at the end that are no codewords; only stuck and spent have any.
#[derive(Clone, Copy, Debug, PartialEq, Eq)]
pub struct Report {
    pub ending: Ending,
    pub passes: usize,
    pub bits: usize,
    pub rows: usize,
    pub columns: usize,
}

// No pass was made.
const CLEAN: Report = Report {
    ending: Ending::Clean,
    passes: 0,
    bits: 0,
    rows: 0,
    columns: 0,
};

// Stuck and spent hand nothing out.
fn is_failure(ending: Ending) -> bool
    ensures { result ≡ is_failure ending }
{
    match ending {
        Ending::Clean | Ending::Repaired => false,
        Ending::Stuck | Ending::Spent => true,
    }
}

fn not_allowed(allowance: usize) -> bool
    ensures { result ≡ not_allowed allowance }
{
    !(1..=MOST_ALLOWED).contains(&allowance)
}

// A pass that flipped nothing, but for pass 1: the columns may still mend what the rows could not.
fn is_stuck(pass: usize, changes: usize) -> bool
    ensures { result ≡ is_stuck pass changes }
{
    2 <= pass && changes == 0
}

// The passes, made in `s`, a copy of the received frame, which is left as the last pass left it.
fn repair(n: usize, allowance: usize, received: &[u8], s: &mut [u8]) -> Report
    requires { Copied small_code n received.now s.old × (1 ≤ allowance) × (allowance ≤ most_allowed) }
    ensures { Repairs n allowance received.now result s.new }
{
    let mut rows = bad(n, s, false);
    let mut columns = bad(n, s, true);
    if rows + columns == 0 {
        return CLEAN;
    }
    let mut passes = 0;
    let ending = loop {
        let by_columns = passes % 2 == 1;
        let mut changes = 0;
        for k in 0..n {
            changes += mend_word(n, s, by_columns, k);
        }
        passes += 1;
        rows = bad(n, s, false);
        columns = bad(n, s, true);
        if rows + columns == 0 {
            break Ending::Repaired;
        }
        if is_stuck(passes, changes) {
            break Ending::Stuck;
        }
        if passes == allowance {
            break Ending::Spent;
        }
    };
    let bits = differences(n, received, s);
    Report {
        ending,
        passes,
        bits,
        rows,
        columns,
    }
}

fn check(n: usize, allowance: usize, received: &[u8], frame: &[u8]) -> Result<(), Refusal>
    ensures { number_of result ≡ decode_refusal small_code n allowance received.now frame.now }
{
    check_n(n)?;
    let bytes = square_bytes(n);
    check_lengths(received, bytes, frame, bytes)?;
    if not_allowed(allowance) {
        return Err(Refusal::BadAllowance);
    }
    if is_erased(n, received) {
        return Err(Refusal::Erased);
    }
    Ok(())
}

// A refusal leaves `frame` untouched; stuck and spent leave the received bytes in it.
pub fn decode(
    n: usize,
    allowance: usize,
    received: &[u8],
    frame: &mut [u8],
) -> Result<Report, Refusal>
    ensures { Decodes n allowance received.now frame.old result frame.new }
{
    check(n, allowance, received, frame)?;
    copy_corner(n, n, received, n, frame);
    let report = repair(n, allowance, received, frame);
    if is_failure(report.ending) {
        frame.copy_from_slice(received);
    }
    Ok(report)
}
