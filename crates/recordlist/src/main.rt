//! Prints what came down the line: standard input is taken as records of twelve bytes, to its end, and each is
//! printed in words or refused by number and place. A last piece under twelve bytes is a refused record too.

#![tactic(auto)]

ghost use Rattle.std.specs.Prelude.{IfOk};
ghost use Rattle.recordlist.specs.Counted.{Counted};

use record::Record;
use refusal::Refusal;
use std::io::{BufWriter, Read, Write};

// How many pieces were read, and how they were answered.
#[derive(Clone, Copy)]
struct Tally {
    accepted: usize,
    refused: usize,
}

// One line for one piece of the input: the tally with this piece counted.
fn print_piece<W: Write>(out: &mut W, piece: &[u8], tally: Tally) -> anyhow::Result<Tally>
    ensures { IfOk result (Counted piece.now tally) }
{
    match Record::read(piece) {
        Ok(record) => {
            writeln!(out, "{record}")?;
            Ok(Tally {
                accepted: tally.accepted.saturating_add(1),
                ..tally
            })
        }
        Err(fault) => {
            let refusal = Refusal::from(fault);
            writeln!(out, "X {refusal}")?;
            Ok(Tally {
                refused: tally.refused.saturating_add(1),
                ..tally
            })
        }
    }
}

fn print_all(rt: &HostRuntime) -> anyhow::Result<()> {
    let mut bytes = Vec::new(rt.alloc());
    rt.stdin().read_to_end(&mut bytes)?;
    let mut out = BufWriter::new(rt.alloc(), rt.stdout())?;
    let mut tally = Tally {
        accepted: 0,
        refused: 0,
    };
    for piece in bytes.as_slice().chunks(12) {
        tally = print_piece(&mut out, piece, tally)?;
    }
    let count = bytes.len();
    let accepted = tally.accepted;
    let refused = tally.refused;
    writeln!(out, "{count} bytes, {accepted} accepted, {refused} refused")?;
    out.flush()?;
    Ok(())
}

fn main(rt: HostRuntime) -> anyhow::Result<()> {
    print_all(&rt)
}
