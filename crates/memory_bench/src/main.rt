//! How long each function of the window memories takes. With the word `run` it measures; else it says how to start it.

#![tactic(auto)]

use bit_marks::BitMarks;
use clock_pairs::ClockPairs;
use std::time::Instant;
use std::{env, io};
use window::WindowMemory;

// How many memories are called in turn, how often each, and how often that is measured: the best time counts.
const MEMORIES: usize = 8;

const ROUNDS: u32 = 5_000;

const MEASURES: u32 = 10;

// The nanoseconds for one call of each function, and a sum of the replies, so that no call can be left out.
#[derive(Clone, Copy)]
struct Times {
    take: u128,
    run: u128,
    look: u128,
    count: u128,
    sum: u32,
}

impl Times {
    // The best of each number by itself: no order of whole measurements would give that.
    fn best(self, other: Times) -> Times {
        Times {
            take: self.take.min(other.take),
            run: self.run.min(other.run),
            look: self.look.min(other.look),
            count: self.count.min(other.count),
            sum: self.sum ^ other.sum,
        }
    }
}

fn main(rt: HostRuntime) -> io::Result<()> {
    if is_asked(&rt)? {
        table(&rt)
    } else {
        println!(rt; "memory_bench run: prints the nanoseconds of each call")
    }
}

// Whether the word `run` is given. The two benches have no crate in common to ask it in.
fn is_asked(rt: &HostRuntime) -> io::Result<bool> {
    Ok(env::args(rt)?.skip(1).any(|word| word.as_str() == "run"))
}

fn table(rt: &HostRuntime) -> io::Result<()> {
    println!(rt; "| kind | window | take | run | look | count | sum |")?;
    println!(rt; "|---|---|---|---|---|---|---|")?;
    for (a, b) in [(0, 64), (95, 96), (0, 864_000)] {
        row(rt, "clock pairs", &mut [ClockPairs::new(); MEMORIES], a, b)?;
    }
    for (a, b) in [(0, 64), (95, 96), (0, 1_000)] {
        row(rt, "bits", &mut [BitMarks::new(); MEMORIES], a, b)?;
    }
    Ok(())
}

fn row<M: WindowMemory>(
    rt: &HostRuntime,
    kind: &str,
    memories: &mut [M],
    a: u32,
    b: u32,
) -> io::Result<()> {
    prepare(memories, a, b);
    let mut times = measured(rt, memories, b)?;
    for _ in 1..MEASURES {
        times = times.best(measured(rt, memories, b)?);
    }
    let Times {
        take,
        run,
        look,
        count,
        sum,
    } = times;
    println!(rt; "| {kind} | {a} to {b} | {take} | {run} | {look} | {count} | {sum} |")
}

fn measured<M: WindowMemory>(rt: &HostRuntime, memories: &mut [M], b: u32) -> io::Result<Times> {
    let (look, looked) = timed(rt, || summed(memories, |m, i| u32::from(m.look(i % 64))))?;
    let (run, ran) = timed(rt, || summed(memories, |m, i| number_of(m.run(i % 3 == 0))))?;
    let (count, counted) = timed(rt, || summed(memories, |m, _| m.count()))?;
    let (take, _) = timed(rt, || takes(memories, b))?;
    Ok(Times {
        take,
        run,
        look,
        count,
        sum: looked ^ ran ^ counted,
    })
}

// The nanoseconds for one of the calls of all rounds, and what they gave.
fn timed<T: Drop, F: FnOnce() -> T>(rt: &HostRuntime, calls: F) -> io::Result<(u128, T)>
    requires { F.IsAlwaysCallable calls }
{
    let start = Instant::now(rt)?;
    let given = calls();
    let nanoseconds = start.elapsed(rt)?.as_nanos();
    Ok((nanoseconds / (u128::from(ROUNDS) * MEMORIES as u128), given))
}

// Memories of this window that have taken ticks already, each a few more.
fn prepare<M: WindowMemory>(memories: &mut [M], a: u32, b: u32) {
    for m in memories.iter_mut() {
        m.prepare(a, b);
    }
    takes(memories, b);
    for (m, n) in memories.iter_mut().zip(0..) {
        m.take(n % 2 == 0, n);
    }
}

// Takes of up to a sixteenth of the window, every third of them of yes.
fn takes<M: WindowMemory>(memories: &mut [M], b: u32) {
    let most = b / 16 + 1;
    for i in 0..ROUNDS {
        for m in memories.iter_mut() {
            m.take(i % 3 == 0, i % most + 1);
        }
    }
}

// The sum of what the memories reply in all rounds.
fn summed<M: WindowMemory, F: Fn(&M, u32) -> u32>(memories: &[M], reply: F) -> u32
    requires { F.IsAlwaysCallable reply }
{
    let mut sum = 0u32;
    for i in 0..ROUNDS {
        for m in memories {
            sum = sum.wrapping_add(reply(m, i));
        }
    }
    sum
}

// A reply on a run as one number.
fn number_of(run: (bool, Option<u32>)) -> u32 {
    let (verdict, ticks) = run;
    u32::from(verdict).wrapping_add(ticks.unwrap_or(0))
}
