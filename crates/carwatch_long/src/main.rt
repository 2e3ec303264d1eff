//! carwatch on a long line: 314,547 ticks of three cars, windows of up to 20,000 ticks, and restarts.
//! The stored output is that of the slow reading. It is a crate of its own since a crate has one stdin.

#![tactic(auto)]

use clock_pairs::ClockPairs;
use line::serve;
use window::WindowMemory;

// As many as carwatch has.
const MEMORIES: usize = 64;

fn run(rt: &HostRuntime) -> anyhow::Result<()> {
    serve(
        rt.alloc(),
        &mut [ClockPairs::new(); MEMORIES],
        rt.stdin(),
        rt.stdout(),
    )?;
    Ok(())
}

fn main(rt: HostRuntime) -> anyhow::Result<()> {
    run(&rt)
}
