//! How long the engine takes for a record. With the word `run` it measures; else it says how to start it.

#![tactic(auto)]

use bit_marks::BitMarks;
use clock_pairs::ClockPairs;
use engine::{Inputs, feed};
use mitl::Row;
use plan::plan::Plan;
use plan::{build, window_of};
use record::{Car, Note};
use std::time::Instant;
use std::{env, io};
use window::WindowMemory;

// The timed rows of the table, how many records are fed, and how often that is measured: the best time counts.
const TIMED: usize = 4;

const RECORDS: u32 = 10_000;

const MEASURES: u32 = 10;

// More places than a record of the table has notes.
const PLACES: usize = 16;

const CAR: Car = Car { number: 1 };

// What stands in a place until a note is written to it.
const NOTE: Note = Note {
    car: CAR,
    word: 0,
    ticks: 0,
};

// The nanoseconds for one record, how many notes all records have, and a sum of the notes' verdict words.
#[derive(Clone, Copy)]
struct Times {
    record: u128,
    notes: usize,
    sum: u32,
}

fn main(rt: HostRuntime) -> io::Result<()> {
    if is_asked(&rt)? {
        table(&rt)
    } else {
        println!(rt; "engine_bench run: prints the nanoseconds of a record")
    }
}

// Whether the word `run` is given. The two benches have no crate in common to ask it in.
fn is_asked(rt: &HostRuntime) -> io::Result<bool> {
    Ok(env::args(rt)?.skip(1).any(|word| word.as_str() == "run"))
}

// Twelve rows, four of them timed. No window reaches further back than eight ticks, so that readings change at tick 8
// of a record at the latest, counted from 0: records of ten ticks and of more have the same changes.
fn rows() -> [Row; 64] {
    let mut rows = [Row::Input { bit: 0 }; 64];
    rows[1] = Row::Input { bit: 1 };
    rows[2] = Row::Input { bit: 2 };
    rows[3] = Row::Once {
        left: 0,
        a: 2,
        b: 4,
    };
    rows[4] = Row::Always {
        left: 1,
        a: 0,
        b: 5,
    };
    rows[5] = Row::Since {
        left: 1,
        right: 2,
        a: 1,
        b: 6,
    };
    rows[6] = Row::Once {
        left: 2,
        a: 7,
        b: 8,
    };
    rows[7] = Row::And { left: 3, right: 4 };
    rows[8] = Row::Or { left: 5, right: 6 };
    rows[9] = Row::Rule { number: 0, left: 3 };
    rows[10] = Row::Rule { number: 1, left: 7 };
    rows[11] = Row::Rule { number: 2, left: 8 };
    rows
}

fn table(rt: &HostRuntime) -> io::Result<()> {
    let Some(plan) = build(rows(), [0; 64], 12) else {
        return println!(rt; "no plan");
    };
    println!(rt; "| kind | ticks of a record | nanoseconds | notes | sum |")?;
    println!(rt; "|---|---|---|---|---|")?;
    for ticks in [10, 1_000, 864_000] {
        row(
            rt,
            "clock pairs",
            &plan,
            ticks,
            &mut [ClockPairs::new(); TIMED],
        )?;
    }
    for ticks in [10, 1_000, 864_000] {
        row(rt, "bits", &plan, ticks, &mut [BitMarks::new(); TIMED])?;
    }
    Ok(())
}

fn row<M: WindowMemory>(
    rt: &HostRuntime,
    kind: &str,
    plan: &Plan,
    ticks: u32,
    part: &mut [M],
) -> io::Result<()> {
    prepare(plan, part);
    let mut best = measured(rt, plan, ticks, part)?;
    for _ in 1..MEASURES {
        let times = measured(rt, plan, ticks, part)?;
        best.record = best.record.min(times.record);
    }
    let Times { record, notes, sum } = best;
    println!(rt; "| {kind} | {ticks} | {record} | {notes} | {sum} |")
}

// Each timed row's memory for its window.
fn prepare<M: WindowMemory>(plan: &Plan, part: &mut [M]) {
    let windows = plan.chain().iter().filter_map(|row| window_of(*row));
    for (memory, (a, b)) in part.iter_mut().zip(windows) {
        memory.prepare(a, b);
    }
}

fn measured<M: WindowMemory>(
    rt: &HostRuntime,
    plan: &Plan,
    ticks: u32,
    part: &mut [M],
) -> io::Result<Times> {
    let mut places = [NOTE; PLACES];
    let start = Instant::now(rt)?;
    let (notes, sum) = feeds(plan, ticks, part, &mut places);
    let record = start.elapsed(rt)?.as_nanos() / u128::from(RECORDS);
    Ok(Times { record, notes, sum })
}

// Records in which the three inputs count up: how many notes they have, and a sum of their verdict words.
fn feeds<M: WindowMemory>(
    plan: &Plan,
    ticks: u32,
    part: &mut [M],
    places: &mut [Note],
) -> (usize, u32) {
    let mut notes = 0usize;
    let mut sum = 0u32;
    for i in 0..RECORDS {
        let inputs = Inputs {
            car: CAR,
            word: i % 8,
            ticks,
        };
        let fed = feed(plan, inputs, part, places);
        notes = notes.wrapping_add(fed.notes);
        for note in places.iter().take(fed.notes) {
            sum = sum.wrapping_mul(31).wrapping_add(u32::from(note.word));
        }
    }
    (notes, sum)
}
