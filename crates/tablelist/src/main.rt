//! Prints the rule table on standard input in words, row by row along its chain, or else its refusal.

#![tactic(auto)]

ghost use Rattle.std.specs.Prelude.{◌≡◌, ℕ, Some};
ghost use Rattle.mitl.specs.Rows.{Earlier};
ghost use Rattle.tablelist.specs.Numbered.{Stands, numbered, line_of};
ghost use Rattle.tablelist.specs.Texts.{heading_text, line_text};

use mitl::Row;
use plan::Counts;
use plan::plan::Plan;
use refusal::Refusal;
use std::io::Read;
use std::{fmt, io};
use table::decode_any;
use table::fault::{RowFault, TableFault};

// The line above the rows: a type of its own, since another crate's type gets no text here.
#[derive(Clone, Copy)]
struct Heading(Counts);

impl fmt::Display for Heading {
    ghost output = { λ h. Some (heading_text h.0) };

    fn fmt<W: fmt::Write>(&self, f: &mut fmt::Formatter<W>) -> fmt::Result {
        let Counts { rows, rules, timed } = self.0;
        write!(
            f,
            "rows on the chain: {rows}, rules: {rules}, timed rows: {timed}"
        )
    }
}

// A row in words. Its operands are numbers of rows in the table, not places on the chain.
#[derive(Clone, Copy)]
struct Line {
    number: u8,
    row: Row,
}

impl fmt::Display for Line {
    ghost output = { λ l. Some (line_text l) };

    fn fmt<W: fmt::Write>(&self, f: &mut fmt::Formatter<W>) -> fmt::Result {
        let n = self.number;
        match self.row {
            Row::Input { bit } => write!(f, "row {n}: input {bit}"),
            Row::Not { left } => write!(f, "row {n}: not row {left}"),
            Row::And { left, right } => write!(f, "row {n}: row {left} and row {right}"),
            Row::Or { left, right } => write!(f, "row {n}: row {left} or row {right}"),
            Row::Once { left, a, b } => {
                write!(
                    f,
                    "row {n}: row {left} at some time from {a} to {b} ticks ago"
                )
            }
            Row::Always { left, a, b } => {
                write!(
                    f,
                    "row {n}: row {left} all the time from {a} to {b} ticks ago"
                )
            }
            Row::Since { left, right, a, b } => {
                write!(
                    f,
                    "row {n}: row {left} ever since row {right} at some time from {a} to {b} ticks ago"
                )
            }
            Row::Rule { number, left } => write!(f, "row {n}: rule {number} is row {left}"),
        }
    }
}

fn row_reason(fault: RowFault) -> &'static str {
    match fault {
        RowFault::Letter(_) => "unknown letter",
        RowFault::Field(_) =>
            "number out of range, or an unused field or zero byte that is not zero",
        RowFault::Operand(_) => "operand that is no earlier row of the chain, or is a rule",
        RowFault::Window(_) => "window without a below b, or with b above 864000",
        RowFault::Used(_) => "rule number used before",
        RowFault::Limit(_) => "window that the memory kind does not admit",
        RowFault::Next(_) => "next row that is not in the table, or was taken before",
    }
}

fn reason(fault: TableFault) -> &'static str {
    match fault {
        TableFault::Length => "not as many bytes as a head and its rows have",
        TableFault::Mark => "first four bytes are not LWRT",
        TableFault::Head => "row count, first row or zero bytes of the head are wrong",
        TableFault::Row(row) => row_reason(row),
        TableFault::NoRule => "no rule on the chain",
    }
}

// A row with the numbers of its operands in place of their places.
// (A match of its own: a walk over any row's operands would be the same match around a closure, with one use.)
fn with_numbers(numbers: &[u8; 64], row: Row) -> Row
    requires { Earlier 64 row }
    ensures { result ≡ numbered numbers.now row }
{
    let numbered = |place: u8| numbers[place as usize];
    match row {
        Row::Input { bit } => Row::Input { bit },
        Row::Not { left } => Row::Not {
            left: numbered(left),
        },
        Row::And { left, right } => Row::And {
            left: numbered(left),
            right: numbered(right),
        },
        Row::Or { left, right } => Row::Or {
            left: numbered(left),
            right: numbered(right),
        },
        Row::Once { left, a, b } => Row::Once {
            left: numbered(left),
            a,
            b,
        },
        Row::Always { left, a, b } => Row::Always {
            left: numbered(left),
            a,
            b,
        },
        Row::Since { left, right, a, b } => Row::Since {
            left: numbered(left),
            right: numbered(right),
            a,
            b,
        },
        Row::Rule { number, left } => Row::Rule {
            number,
            left: numbered(left),
        },
    }
}

// The line of a row that stands on the chain with this number.
fn line_of_row(plan: &Plan, number: u8, row: Row) -> Line
    requires { (k : ℕ) × Stands plan.now k number row }
    ensures { (k : ℕ) → Stands plan.now k number row → result ≡ line_of plan.now k }
{
    Line {
        number,
        row: with_numbers(&plan.numbers, row),
    }
}

fn print_plan(rt: &HostRuntime, plan: &Plan) -> io::Result<()> {
    let heading = Heading(plan.counts());
    println!(rt; "{heading}")?;
    for (number, row) in plan.numbers.iter().zip(plan.chain()) {
        let words = line_of_row(plan, *number, *row);
        println!(rt; "{words}")?;
    }
    Ok(())
}

fn print_table(rt: &HostRuntime, bytes: &[u8]) -> io::Result<()> {
    match decode_any(bytes) {
        Ok(plan) => print_plan(rt, &plan),
        Err(fault) => {
            let Refusal { number, place } = Refusal::from(fault);
            let words = reason(fault);
            println!(rt; "refusal {number} at {place}: {words}")
        }
    }
}

fn main(rt: HostRuntime) -> io::Result<()> {
    let mut bytes = Vec::new(rt.alloc());
    rt.stdin().read_to_end(&mut bytes)?;
    print_table(&rt, &bytes)
}
