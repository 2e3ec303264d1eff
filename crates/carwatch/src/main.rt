//! Watches the cars of a line: standard input brings the cars, a rule table and records, and standard output gets a
//! line for each reply. The windows are kept by clock pairs.

#![tactic(auto)]

use clock_pairs::ClockPairs;
use line::serve;
use window::WindowMemory;

// The memories that all timed rows of all cars share.
const MEMORIES: usize = 64;

fn run(rt: &HostRuntime) -> anyhow::Result<()> {
    serve(
        rt.alloc(),
        &mut [ClockPairs::new(); MEMORIES],
        rt.stdin(),
        rt.stdout(),
    )?;
    Ok(())
}

fn main(rt: HostRuntime) -> anyhow::Result<()> {
    run(&rt)
}
