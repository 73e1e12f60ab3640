// A program's run: its input, and what it says of each line.
ghost use Rattle.lines.specs.Calls.{LeavesSome};

use crate::reading::{PIECE, Step, advance, resume};
use lines::program::{Program, say};
use lines::state::{Event, State};
use std::io::{Read, Write};
use text::page::Page;

// Why a program stopped before the end of its input, or could not say all.
#[derive(Clone, Copy, Debug, PartialEq, Eq)]
pub enum Failure {
    Reading,
    Writing,
}

// Writes what the program says of what has happened.
fn tell<P: Program<LINE, ROOM>, W: Write, const LINE: usize, const ROOM: usize>(
    writer: &mut W,
    event: Event,
    line: &[u8; LINE],
    page: &mut Page<ROOM>,
) -> Result<(), Failure> {
    say::<P, LINE, ROOM>(event, line, page);
    writer.write_all(page.text()).map_err(|_| Failure::Writing)
}

// Says of each line what it gives. A proved loop has to end: it has more turns than any run uses up.
pub fn run<P: Program<LINE, ROOM>, R: Read, W: Write, const LINE: usize, const ROOM: usize>(
    reader: &mut R,
    writer: &mut W,
    state: &mut State,
    line: &mut [u8; LINE],
) -> Result<(), Failure>
    ensures { LeavesSome P.program.header state.old line.old state.new line.new }
{
    let mut piece = [0u8; PIECE];
    let mut page = Page::new();
    let mut input = resume(*state);
    for _ in 0..u64::MAX {
        match advance(input, reader, &mut piece, P::header(), line) {
            Step::More(next, event) => {
                input = next;
                *state = input.state;
                tell::<P, W, LINE, ROOM>(writer, event, line, &mut page)?;
            }
            Step::Ended(event) => {
                return tell::<P, W, LINE, ROOM>(writer, event, line, &mut page);
            }
            Step::Failed => return Err(Failure::Reading),
        }
    }
    Err(Failure::Reading)
}
