// The desktop program: a dump from standard input, its report to standard output.
#![tactic(auto)]

ghost use Rattle.textrules.specs.Dump.{header};
ghost use Rattle.lines.specs.Stream.{at_start};
ghost use Rattle.lines.specs.Calls.{LeavesSome};

use dump::say::Repair;
use dump::sizes::{LONGEST_LINE, ROOM};
use input::program::{Failure, run};
use lines::state::{State, start};
use std::io::{Read, Write};

// Says of each line what it gives.
fn write_report<R: Read, W: Write>(
    reader: &mut R,
    writer: &mut W,
    line: &mut [u8; LONGEST_LINE],
) -> (State, Result<(), Failure>)
    ensures { LeavesSome header at_start line.old result.0 line.new }
{
    let mut state = start();
    let result = run::<Repair, R, W, LONGEST_LINE, ROOM>(reader, writer, &mut state, line);
    (state, result)
}

fn message(failure: Failure) -> &'static [u8] {
    match failure {
        Failure::Reading => b"repair: reading failed: the report ends with the last whole line\n",
        Failure::Writing => b"repair: writing failed: the report is not complete\n",
    }
}

fn main(rt: HostRuntime) {
    let mut line = [0u8; LONGEST_LINE];
    let (_, result) = write_report(&mut rt.stdin(), &mut rt.stdout(), &mut line);
    if let Err(failure) = result {
        // Where this can't be written either, nobody is told.
        rt.stderr().write_all(message(failure)).is_ok();
    }
}
