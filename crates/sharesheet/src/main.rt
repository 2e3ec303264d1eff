//! A month's sheet: each car's shares of time, from what the watch printed or from verdict records.
//!
//! Each damaged line or record is told of first. Then comes a table with a row for each car, in the order of the
//! cars' numbers: the car, all its ticks, the share of each rule in per mille, and the busiest rule with its share.

#![tactic(auto)]

mod table;

use record::Note;
use refusal::Refusal;
use sheet::{Damage, Piece};
use std::io;
use std::io::Read;
use table::{Head, Line};

// A line for each damaged piece, which has its number from 1.
fn print_damage(rt: &HostRuntime, pieces: &[Piece]) -> io::Result<()> {
    for (i, piece) in pieces.iter().enumerate() {
        let number = i + 1;
        match *piece {
            Err(Some(Damage::BadLine)) => println!(rt; "damaged line {number}")?,
            Err(Some(Damage::BadRecord(fault))) => {
                let refusal = Refusal::from(fault);
                println!(rt; "damaged record {number} X {refusal}")?;
            }
            Ok(_) | Err(None) => {}
        }
    }
    Ok(())
}

// The table, with a row for each car of the notes.
fn print_table(rt: &HostRuntime, notes: &[Note]) -> io::Result<()> {
    rt.println(Head)?;
    let mut above = 0;
    while let Some(car) = sheet::next_car(notes, above) {
        let own = sheet::own_notes(rt.alloc(), notes, car)?;
        rt.println(Line::of(&own, car))?;
        above = car.number;
    }
    Ok(())
}

fn main(rt: HostRuntime) -> io::Result<()> {
    let mut input = Vec::new(rt.alloc());
    rt.stdin().read_to_end(&mut input)?;
    let pieces = sheet::pieces(rt.alloc(), &input)?;
    print_damage(&rt, &pieces)?;
    let notes = sheet::notes_of(rt.alloc(), &pieces)?;
    print_table(&rt, &notes)
}
