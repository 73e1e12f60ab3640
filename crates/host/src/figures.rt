// The number that decode's answer has, and the values that go with it, in a block.
ghost use Rattle.std.specs.Prelude.{◌≡◌, length};
ghost use Rattle.rules.specs.Block as rules;
ghost use Rattle.rules.specs.Block.{block_bytes};
ghost use Rattle.frame.specs.Said.{figures};
ghost use Rattle.host.specs.Figured.{figures_in};

use block::put::put_numbers;
use frame::decode::{Ending, Report};
use word::refusal::{DONE, Refusal, SPENT, STUCK};

#[derive(Clone, Copy)]
pub(crate) struct Figures {
    pub(crate) number: u32,
    passes: usize,
    bits: usize,
    rows: usize,
    columns: usize,
}

// A refusal has its number alone.
fn refused(refusal: Refusal) -> Figures
    ensures { figures_in result ≡ figures (Err refusal) }
{
    Figures {
        number: refusal.number(),
        passes: 0,
        bits: 0,
        rows: 0,
        columns: 0,
    }
}

// What is not given is zero: no rows and columns where it succeeded.
fn reported(report: Report) -> Figures
    ensures { figures_in result ≡ figures (Ok report) }
{
    let (number, rows, columns) = match report.ending {
        Ending::Clean | Ending::Repaired => (DONE, 0, 0),
        Ending::Stuck => (STUCK, report.rows, report.columns),
        Ending::Spent => (SPENT, report.rows, report.columns),
    };
    Figures {
        number,
        passes: report.passes,
        bits: report.bits,
        rows,
        columns,
    }
}

pub(crate) fn figures_of(decoded: Result<Report, Refusal>) -> Figures
    ensures { figures_in result ≡ figures decoded }
{
    match decoded {
        Err(refusal) => refused(refusal),
        Ok(report) => reported(report),
    }
}

pub(crate) fn put_figures(f: Figures, block: &mut [u8])
    requires { length block.old ≡ block_bytes }
    ensures { block.new ≡ rules.block (figures_in f) }
{
    let numbers = [f.number as usize, f.passes, f.bits, f.rows, f.columns];
    put_numbers(&numbers, block);
}
