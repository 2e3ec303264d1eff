//! The lines of the table.
ghost use Rattle.sharesheet.specs.Lines.{Lined};

use record::{Car, Note};
use refusal::Refusal;
use sheet::Row;
use std::fmt;

// The line above the rows.
#[derive(Clone, Copy)]
pub struct Head;

impl fmt::Display for Head {
    fn fmt<W: fmt::Write>(&self, f: &mut fmt::Formatter<W>) -> fmt::Result {
        write!(f, "  car      ticks")?;
        for rule in 0u8..16 {
            write!(f, " {rule:>4}")?;
        }
        write!(f, " busiest share")
    }
}

// A car and its row, or why it has none.
#[derive(Clone, Copy)]
pub struct Line {
    car: Car,
    row: Result<Row, Refusal>,
}

impl Line {
    // The line of a car by these notes.
    pub fn of(notes: &[Note], car: Car) -> Line
        ensures { Lined notes.now car result }
    {
        Line {
            car,
            row: sheet::row_of(notes, car).map_err(Refusal::from),
        }
    }
}

impl fmt::Display for Line {
    fn fmt<W: fmt::Write>(&self, f: &mut fmt::Formatter<W>) -> fmt::Result {
        match self.row {
            Ok(row) => write_row(&row, f),
            Err(refusal) => {
                let number = self.car.number;
                write!(f, "{number:>5} X {refusal}")
            }
        }
    }
}

fn write_row<W: fmt::Write>(row: &Row, f: &mut fmt::Formatter<W>) -> fmt::Result {
    let number = row.car.number;
    let ticks = row.ticks;
    write!(f, "{number:>5} {ticks:>10}")?;
    for share in row.shares.iter() {
        write!(f, " {share:>4}")?;
    }
    let rule = row.busiest.rule;
    let share = row.busiest.per_mille;
    write!(f, " {rule:>7} {share:>5}")
}
