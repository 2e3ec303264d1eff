//! Ticks taken: what the memories of a car are told.
ghost use Rattle.std.specs.Prelude.{◌≡◌, ◌+◌, ◌<◌, ◌≤◌, true, false, length, if◌then◌else◌};
ghost use Rattle.mitl.specs.Blocks.{advanced};
ghost use Rattle.mitl.specs.Memory.{cleared};
ghost use Rattle.mitl.specs.Rows.{is_timed, timed_rows};
ghost use Rattle.plan.specs.Rows.{rows_of};
ghost use Rattle.engine.specs.Means.{Changed};
ghost use Rattle.engine.specs.Steps.{Advanced, Readable, Told, reading as reading_of};

use crate::memory::{take_always, take_since};
use mitl::Row;
use plan::plan::Plan;
use window::WindowMemory;

// The memory of one row takes n ticks at which the rows have these readings: the place in the part past it.
fn advance_row<M: WindowMemory>(
    row: Row,
    vs: &[bool; 64],
    n: u32,
    part: &mut [M],
    at: usize,
) -> usize
    requires readable { Readable row }
    requires place { is_timed row ≡ true → at < length part.old }
    requires early { at < 64 }
    ensures behind { result ≡ (if is_timed row then 1 else 0) + at }
    ensures told { Told M.meaning (advanced row (reading_of vs.now) n) at part.old part.new }
    ensures still { is_timed row ≡ false → part.new ≡ part.old }
{
    match row {
        Row::Once { left, .. } => {
            part[at].take(vs[left as usize], n);
            at + 1
        }
        Row::Always { left, .. } => {
            take_always(&mut part[at], vs[left as usize], n);
            at + 1
        }
        Row::Since { left, right, .. } => {
            take_since(&mut part[at], vs[left as usize], vs[right as usize], n);
            at + 1
        }
        _ => at,
    }
}

// The memories of all rows take n ticks at which the rows have these readings.
#[tactic(auto, using(crate::proofs::Plans::given_readable, crate::proofs::Plans::given_early, crate::proofs::Plans::given_place))]
pub(crate) fn advance<M: WindowMemory>(plan: &Plan, vs: &[bool; 64], n: u32, part: &mut [M])
    requires { timed_rows (rows_of plan.now) ≤ length part.old }
    ensures { Advanced M.meaning (rows_of plan.now) (reading_of vs.now) n (length (rows_of plan.now)) part.old part.new }
{
    // the place goes on past each row that has a memory, as in `next`, which reads the other rows in between
    let mut at = 0;
    for row in plan.chain() {
        at = advance_row(*row, vs, n, part, at);
    }
}

// The first memories are cleared.
pub(crate) fn clear_first<M: WindowMemory>(part: &mut [M], end: usize)
    requires { end ≤ length part.old }
    ensures { Changed M.meaning cleared end part.old part.new }
{
    for memory in part[..end].iter_mut() {
        memory.clear();
    }
}
