//! carwatch on a bad line: every third record is damaged or out of turn, and the last piece is cut off.
//! The stored output is that of the slow reading. It is a crate of its own since a crate has one stdin.

#![tactic(auto)]

use clock_pairs::ClockPairs;
use line::serve;
use window::WindowMemory;

// As many as carwatch has.
const MEMORIES: usize = 64;

fn run(rt: &HostRuntime) -> anyhow::Result<()> {
    serve(
        rt.alloc(),
        &mut [ClockPairs::new(); MEMORIES],
        rt.stdin(),
        rt.stdout(),
    )?;
    Ok(())
}

fn main(rt: HostRuntime) -> anyhow::Result<()> {
    run(&rt)
}
