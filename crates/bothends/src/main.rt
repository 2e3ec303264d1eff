//! One car's history on both ends: the unit in the car judges its own records on bits, and the desk judges the same
//! ticks on clock pairs, cut into other records and mixed with those of other cars. Prints the verdicts of both ends,
//! in runs, and whether they agree tick by tick.

#![tactic(auto)]

mod one_end;
mod runs;
mod sample;

use bit_marks::BitMarks;
use clock_pairs::ClockPairs;
use one_end::verdicts;
use runs::Runs;
use sample::{DESK_CARS, DESK_RECORDS, UNIT_CARS, UNIT_RECORDS};
use watch::both_ends;
use window::WindowMemory;

// One line for each end, then the answer.
fn print_ends(rt: &HostRuntime, unit: &[u16], desk: &[u16]) -> anyhow::Result<()> {
    let unit_runs = Runs { words: unit };
    let desk_runs = Runs { words: desk };
    println!(rt; "unit, bits: {unit_runs}")?;
    println!(rt; "desk, clock pairs: {desk_runs}")?;
    if both_ends::<BitMarks, ClockPairs>(unit, desk) {
        println!(rt; "both ends agree")?;
    } else {
        println!(rt; "the ends differ")?;
    }
    Ok(())
}

fn play(rt: &HostRuntime) -> anyhow::Result<()> {
    let mut bits = [BitMarks::new(); 3];
    let mut pairs = [ClockPairs::new(); 9];
    let unit = verdicts(rt.alloc(), &mut bits, &UNIT_CARS, &UNIT_RECORDS)?;
    let desk = verdicts(rt.alloc(), &mut pairs, &DESK_CARS, &DESK_RECORDS)?;
    print_ends(rt, &unit, &desk)
}

fn main(rt: HostRuntime) -> anyhow::Result<()> {
    play(&rt)
}
