// Lines of the report.
ghost use Rattle.std.specs.Prelude.{◌≡◌, [], ◌++◌, ◌+◌, ◌≤◌, Ok, Err, length};
ghost use Rattle.textrules.specs.Dump.{record_text};
ghost use Rattle.frame.specs.Said.{said};
ghost use Rattle.dump.specs.ReportText.{line_room, counts_room, most_letters, counts_text, word_and_counts};

use crate::sizes::ROOM;
use frame::decode::{Ending, Report};
use text::page::Page;
use word::refusal::Refusal;

// The numbers that close a record's line; a refusal has its own in the place of the passes.
#[derive(Clone, Copy)]
struct Counts {
    passes: usize,
    bits: usize,
    rows: usize,
    columns: usize,
}

const NO_COUNTS: Counts = Counts {
    passes: 0,
    bits: 0,
    rows: 0,
    columns: 0,
};

fn put_counts(page: &mut Page<ROOM>, counts: Counts)
    requires { length page.old + counts_room ≤ line_room }
    ensures { page.new ≡ page.old ++ counts_text counts }
{
    page.put_decimal(counts.passes);
    page.put_count(counts.bits);
    page.put_count(counts.rows);
    page.put_count(counts.columns);
    page.put(b"\n");
}

fn put_line(page: &mut Page<ROOM>, number: usize, word: &[u8], counts: Counts)
    requires empty { page.old ≡ [] }
    requires word_len_bound { length word.now ≤ most_letters }
    ensures { page.new ≡ word_and_counts number word.now counts }
{
    page.put_decimal(number);
    page.put_word(word);
    page.put(b"\t");
    put_counts(page, counts);
}

// Rows and columns stand for stuck and spent alone.
fn put_report(page: &mut Page<ROOM>, number: usize, report: Report)
    requires { page.old ≡ [] }
    ensures { page.new ≡ record_text number (said (Ok report)) }
{
    let mended = Counts {
        passes: report.passes,
        bits: report.bits,
        ..NO_COUNTS
    };
    let bad = Counts {
        rows: report.rows,
        columns: report.columns,
        ..mended
    };
    match report.ending {
        Ending::Clean => put_line(page, number, b"clean", mended),
        Ending::Repaired => put_line(page, number, b"repaired", mended),
        Ending::Stuck => put_line(page, number, b"stuck", bad),
        Ending::Spent => put_line(page, number, b"spent", bad),
    }
}

fn put_refused(page: &mut Page<ROOM>, number: usize, refusal: Refusal)
    requires { page.old ≡ [] }
    ensures { page.new ≡ record_text number (said (Err refusal)) }
{
    if refusal == Refusal::Erased {
        put_line(page, number, b"erased", NO_COUNTS);
        return;
    }
    let counts = Counts {
        passes: refusal.number() as usize,
        ..NO_COUNTS
    };
    put_line(page, number, b"refused", counts);
}

pub(crate) fn put_decoded(page: &mut Page<ROOM>, number: usize, decoded: Result<Report, Refusal>)
    requires { page.old ≡ [] }
    ensures { page.new ≡ record_text number (said decoded) }
{
    match decoded {
        Ok(report) => put_report(page, number, report),
        Err(refusal) => put_refused(page, number, refusal),
    }
}
