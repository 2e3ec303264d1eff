//! carwatch on nested windows: thirteen timed rows, ten of them over each other, with lengths at the windows' bounds.
//! The stored output is that of the slow reading. It is a crate of its own since a crate has one stdin.

#![tactic(auto)]

use clock_pairs::ClockPairs;
use line::serve;
use window::WindowMemory;

// As many as carwatch has.
const MEMORIES: usize = 64;

fn run(rt: &HostRuntime) -> anyhow::Result<()> {
    serve(
        rt.alloc(),
        &mut [ClockPairs::new(); MEMORIES],
        rt.stdin(),
        rt.stdout(),
    )?;
    Ok(())
}

fn main(rt: HostRuntime) -> anyhow::Result<()> {
    run(&rt)
}
