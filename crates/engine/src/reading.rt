//! The readings of the next tick, and for how long they last.
ghost use Rattle.std.specs.Prelude.{◌≡◌, ◌+◌, ◌<◌, ◌≤◌, true, false, ◌&&◌, ◌||◌, length, if◌then◌else◌};
ghost use Rattle.mitl.specs.Memory.{Lasts};
ghost use Rattle.mitl.specs.Rows.{is_timed, timed_rows};
ghost use Rattle.plan.specs.Rows.{rows_of};
ghost use Rattle.engine.specs.Steps.{Foresees, Readable, meant, reading as reading_of, seen};

use crate::lasting::shorter_of;
use crate::memory::{run_always, run_since};
use crate::word::with_row;
use mitl::{Row, input_bit};
use plan::plan::Plan;
use window::WindowMemory;

// The reading of one row and for how long it lasts while its operands keep theirs, the pair that a memory's `run`
// answers, and the place in the part past the row. That the row is readable and its place early stands here and at the
// other functions of one row: every row of a plan is so, and a type of such rows would be the plan's array once more.
#[tactic(auto, using(crate::proofs::Meant::meant_is))]
fn settle<M: WindowMemory>(
    row: Row,
    word: u32,
    vs: &[bool; 64],
    part: &[M],
    at: usize,
) -> (bool, Option<u32>, usize)
    requires readable { Readable row }
    requires place { is_timed row ≡ true → at < length part.now }
    requires early { at < 64 }
    ensures behind { result.2 ≡ (if is_timed row then 1 else 0) + at }
    ensures lasts { Lasts (seen row (meant M.meaning part.now at) (reading_of vs.now) word) result.0 result.1 }
{
    match row {
        Row::Input { bit } => (input_bit(word, bit), None, at),
        Row::Not { left } => (!vs[left as usize], None, at),
        Row::And { left, right } => (vs[left as usize] && vs[right as usize], None, at),
        Row::Or { left, right } => (vs[left as usize] || vs[right as usize], None, at),
        Row::Once { left, .. } => {
            let (yes, n) = part[at].run(vs[left as usize]);
            (yes, n, at + 1)
        }
        Row::Always { left, .. } => {
            let (yes, n) = run_always(&part[at], vs[left as usize]);
            (yes, n, at + 1)
        }
        Row::Since { left, right, .. } => {
            let (yes, n) = run_since(&part[at], vs[left as usize], vs[right as usize]);
            (yes, n, at + 1)
        }
        Row::Rule { left, .. } => (vs[left as usize], None, at),
    }
}

// The readings of all rows at the next tick, the verdict word, and for how long they stay if the input word does.
#[derive(Clone, Copy)]
pub(crate) struct Step {
    // a place for each row that a plan can have: a fixed array, since readings are looked up by the rows' places while
    // they are made, and a step is Copy
    pub readings: [bool; 64],
    pub word: u16,
    pub lasts: Option<u32>,
}

#[tactic(auto, using(crate::proofs::Plans::given_readable, crate::proofs::Plans::given_early, crate::proofs::Plans::given_place))]
pub(crate) fn next<M: WindowMemory>(plan: &Plan, word: u32, part: &[M]) -> Step
    requires { timed_rows (rows_of plan.now) ≤ length part.now }
    ensures { Foresees M.meaning (rows_of plan.now) word part.now result }
{
    let mut readings = [false; 64];
    let mut verdict = 0;
    let mut lasts = None;
    let mut at = 0;
    for (k, row) in plan.chain().iter().enumerate() {
        let (yes, n, behind) = settle(*row, word, &readings, part, at);
        readings[k] = yes;
        verdict = with_row(verdict, *row, yes);
        lasts = shorter_of(n, lasts);
        at = behind;
    }
    Step {
        readings,
        word: verdict,
        lasts,
    }
}
