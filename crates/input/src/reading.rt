// The input, step by step. Where a step goes on in the piece is private to this module.
ghost use Rattle.std.specs.Prelude.{◌≡◌, ◌≤◌, length, IfSome};
ghost use Rattle.input.specs.Calls.{all_taken, at_begin, has_more, TakesLine, AfterRead, Steps};

use lines::state::{Event, State, finish, start, take};
use std::io::Read;

// The bytes of a read.
pub const PIECE: usize = 8192;

// The state of the lines, and the part of the piece that was read last which is still to be taken: only a step moves it.
#[derive(Clone, Copy, Debug, PartialEq, Eq)]
pub struct Input {
    pub state: State,
    from: usize,
    to: usize,
}

// What a step comes to: there may be more, with the input after it and what has happened; the input has ended, and what that
// makes happen; or a read failed. Then nobody knows how the line goes on that was being read, so the input has not ended.
#[derive(Clone, Copy, Debug, PartialEq, Eq)]
pub enum Step {
    More(Input, Event),
    Ended(Event),
    Failed,
}

pub fn begin() -> Input
    ensures { result ≡ at_begin }
{
    resume(start())
}

// The input with the lines in this state, and nothing read.
pub(crate) fn resume(state: State) -> Input
    ensures { result ≡ all_taken state }
{
    Input {
        state,
        from: 0,
        to: 0,
    }
}

// Whether something is left of the piece that was read last.
fn has_more(input: Input) -> bool
    ensures { result ≡ has_more input }
{
    input.from < input.to && input.to <= PIECE
}

// Takes one line more of the piece, or the rest of it where that has no LF.
fn take_line(input: Input, piece: &[u8], header: &[u8], line: &mut [u8]) -> Step
    requires { (input.from ≤ input.to) × (input.to ≤ length piece.now) }
    ensures { TakesLine header.now input piece.now line.old result line.new }
{
    let taken = take(input.state, &piece[input.from..input.to], header, line);
    let next = Input {
        state: taken.state,
        from: input.from + taken.taken,
        to: input.to,
    };
    Step::More(next, taken.event)
}

// A read gave so many bytes, or failed. No byte says that the input has ended.
fn after_read(
    read: Option<usize>,
    state: State,
    piece: &[u8],
    header: &[u8],
    line: &mut [u8],
) -> Step
    requires { IfSome read (λ to. to ≤ length piece.now) }
    ensures { AfterRead read header.now state piece.now line.old result line.new }
{
    match read {
        None => Step::Failed,
        Some(0) => Step::Ended(finish(state, header, line)),
        Some(to) => take_line(Input { state, from: 0, to }, piece, header, line),
    }
}

// One line more; reads first where all that was read is taken.
pub fn advance<R: Read>(
    input: Input,
    reader: &mut R,
    piece: &mut [u8; PIECE],
    header: &[u8],
    line: &mut [u8],
) -> Step
    ensures { Steps header.now input piece.old line.old result piece.new line.new }
{
    if has_more(input) {
        return take_line(input, piece, header, line);
    }
    let read = reader.read(piece).ok();
    after_read(read, input.state, piece, header, line)
}
