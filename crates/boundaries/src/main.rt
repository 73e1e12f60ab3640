// Each entry point at the edges of what it accepts: what it answers, and whether the lent output was touched.
#![tactic(auto)]

mod calls;
mod cases;
mod show;

use calls::call;
use cases::CASES;
use std::io;

fn main(rt: HostRuntime) -> io::Result<()> {
    for &(entry, n, takes, gives) in &CASES {
        call(&rt, entry, n, takes, gives)?;
    }
    Ok(())
}
