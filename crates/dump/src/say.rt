// The report, in step with the lines of the dump.
ghost use Rattle.std.specs.Prelude.{refl};
ghost use Rattle.std.proofs.Common.{rules};
ghost use Rattle.textrules.specs.Dump.{repair};

use crate::line::put_reported;
use crate::sizes::{LONGEST_LINE, ROOM};
use lines::program::Program;
use lines::state::part;
use text::page::Page;

// The program that reports on a dump.
pub struct Repair;

impl Program<LONGEST_LINE, ROOM> for Repair {
    ghost program = { repair };

    ghost longest = { refl };

    ghost room = { Prim.search rules };

    fn header() -> &'static [u8] {
        b"frames\t1"
    }

    fn opening() -> &'static [u8] {
        b"repair\t1\n"
    }

    fn put_line(page: &mut Page<ROOM>, number: usize, line: &[u8; LONGEST_LINE], long: usize) {
        put_reported(page, number, part(line, long));
    }
}
