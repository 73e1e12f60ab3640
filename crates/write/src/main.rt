// The factory's program: data from standard input, their dump to standard output.
#![tactic(auto)]

ghost use Rattle.textrules.specs.Factory.{data_header};
ghost use Rattle.lines.specs.Stream.{at_start};
ghost use Rattle.lines.specs.Calls.{LeavesSome};

use factory::say::Writer;
use factory::sizes::{LONGEST_LINE, ROOM};
use input::program::{Failure, run};
use lines::state::{State, start};
use std::io::{Read, Write};

// Writes what each line gives.
fn write_dump<R: Read, W: Write>(
    reader: &mut R,
    writer: &mut W,
    line: &mut [u8; LONGEST_LINE],
) -> (State, Result<(), Failure>)
    ensures { LeavesSome data_header at_start line.old result.0 line.new }
{
    let mut state = start();
    let result = run::<Writer, R, W, LONGEST_LINE, ROOM>(reader, writer, &mut state, line);
    (state, result)
}

fn message(failure: Failure) -> &'static [u8] {
    match failure {
        Failure::Reading => b"write: reading failed: the dump ends with the last whole line\n",
        Failure::Writing => b"write: writing failed: the dump is not complete\n",
    }
}

fn main(rt: HostRuntime) {
    let mut line = [0u8; LONGEST_LINE];
    let (_, result) = write_dump(&mut rt.stdin(), &mut rt.stdout(), &mut line);
    if let Err(failure) = result {
        // Where this can't be written either, nobody is told.
        rt.stderr().write_all(message(failure)).is_ok();
    }
}
