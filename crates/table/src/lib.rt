//! Rule tables: from bytes to a plan, or to the table's refusal.
//!
//! A table is a head of eight bytes and rows of sixteen bytes, numbered from 1. Its rows are taken along the
//! chain that begins at the head's first row and goes on by each row's next. The first fault along the chain
//! refuses the table; a table without a fault becomes a plan.

#![tactic(auto)]

ghost use Rattle.std.specs.Prelude.{◌≡◌, ℕ, ◌+◌, ◌*◌, ◌<◌, ◌≤◌, Bool, true, List, length, None, Ok};
ghost use Rattle.table.specs.Steps.{Opened, Walked};
ghost use Rattle.table.specs.Laws.{RowsFit, TablesTold};
ghost use Rattle.table.specs.Decoded.{Decoded};
ghost use Rattle.table.specs.Chain.{right_head, table_refusal};

mod draft;
pub mod fault;
mod row;

use draft::Draft;
use fault::{RowFault, TableFault};
use plan::build;
use plan::plan::Plan;
use window::Admission;

// What the head tells: how many rows there are, and the first of the chain.
#[derive(Clone, Copy)]
struct Head {
    told: u8,
    first: u8,
}

// Whether row count, first row and zero bytes are as they must be.
fn is_right(head: Head, z1: u8, z0: u8) -> bool
    ensures { result ≡ right_head head.told head.first z1 z0 }
{
    (1 <= head.told && head.told <= 64)
        && (1 <= head.first && head.first <= head.told)
        && (z1 == 0 && z0 == 0)
}

// The head of a table, or its first fault.
fn open(bytes: &[u8]) -> Result<Head, TableFault>
    ensures { Opened bytes.now result }
{
    let [m3, m2, m1, m0, told, first, z1, z0, rows @ ..] = bytes else {
        return Err(TableFault::Length);
    };
    if [*m3, *m2, *m1, *m0] != *b"LWRT" {
        return Err(TableFault::Mark);
    }
    let head = Head {
        told: *told,
        first: *first,
    };
    if !is_right(head, *z1, *z0) {
        return Err(TableFault::Head);
    }
    if rows.len() != 16 * (*told as usize) {
        return Err(TableFault::Length);
    }
    Ok(head)
}

// The rows along the chain, or their first fault.
fn walk<A: Admission>(bytes: &[u8], head: Head) -> Result<Draft, RowFault>
    requires { Opened bytes.now (Ok head) }
    ensures { Walked A.admitted bytes.now result }
{
    let mut draft = Draft::new();
    let mut next = Some(head.first);
    while let Some(at) = next {
        let step = row::take::<A>(bytes, head.told, &draft, at)?;
        draft.push(step.row, at);
        next = step.next;
    }
    Ok(draft)
}

// The plan of a table for memories that admit these windows, or the table's refusal.
pub fn decode<A: Admission>(bytes: &[u8]) -> Result<Plan, TableFault>
    ensures { Decoded A.admitted bytes.now result }
{
    let head = open(bytes)?;
    let draft = walk::<A>(bytes, head)?;
    build(draft.rows, draft.numbers, draft.count).ok_or(TableFault::NoRule)
}

// Admits every window: for reading a table without a memory kind.
pub struct AnyWindow;

impl Admission for AnyWindow {
    ghost admitted = { λ _ _. true };

    fn admits(_a: u32, _b: u32) -> bool {
        true
    }
}

// The plan of a table, whatever windows a memory kind admits, or the table's refusal.
pub fn decode_any(bytes: &[u8]) -> Result<Plan, TableFault>
    ensures { Decoded (λ _ _. true) bytes.now result }
{
    decode::<AnyWindow>(bytes)
}

// The refusal of a table in words of the places along its chain, that a sound chain ends and takes no row twice,
// and that a table has one reply. The rows of a sound table meet the premises of the laws of past MITL.
pub fn tables_hold() -> u8
    ensures told { (result ≡ 0) × (TablesTold) }
    ensures fit { (admits : ℕ → ℕ → Bool) (t : List ℕ) → table_refusal admits t ≡ None → RowsFit t }
{
    0
}
