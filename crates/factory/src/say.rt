// The dump, in step with the lines of the factory's data.
ghost use Rattle.std.specs.Prelude.{refl};
ghost use Rattle.std.proofs.Common.{rules};
ghost use Rattle.textrules.specs.Factory.{writer};

use crate::line::put_line;
use crate::sizes::{LONGEST_LINE, ROOM};
use lines::program::Program;
use lines::state::part;
use text::page::Page;

// The program that writes a dump.
pub struct Writer;

impl Program<LONGEST_LINE, ROOM> for Writer {
    ghost program = { writer };

    ghost longest = { refl };

    ghost room = { Prim.search rules };

    fn header() -> &'static [u8] {
        b"data\t1"
    }

    fn opening() -> &'static [u8] {
        b"frames\t1\n"
    }

    fn put_line(page: &mut Page<ROOM>, number: usize, line: &[u8; LONGEST_LINE], long: usize) {
        put_line(page, number, part(line, long));
    }
}
