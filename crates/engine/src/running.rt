//! Longest runs of one verdict word.
ghost use Rattle.std.specs.Prelude.{◌≡◌, ◌<◌, ◌≤◌, length, ◌==◌};
ghost use Rattle.mitl.specs.Rows.{timed_rows};
ghost use Rattle.plan.specs.Rows.{rows_of};
ghost use Rattle.engine.specs.Steps.{Foresees, capped};
ghost use Rattle.engine.specs.Held.{Held, Whole};

use crate::advance::advance;
use crate::lasting::capped_at;
use crate::reading::{Step, next};
use plan::plan::Plan;
use window::WindowMemory;

// Takes the ticks during which no reading changes, at most so many, and says how many. That the part is long enough
// for the plan stands here, in `run`, in `next` and in `advance`: a struct of the plan and the lent part would need in
// each of them two clauses instead, that the plan stays and that the part is still the one that was lent.
#[tactic(auto, using(crate::proofs::Lengths::capped_positive, crate::proofs::Lengths::capped_most))]
fn hold<M: WindowMemory>(plan: &Plan, word: u32, step: &Step, most: u32, part: &mut [M]) -> u32
    requires enough { timed_rows (rows_of plan.now) ≤ length part.old }
    requires left { 0 < most }
    requires foreseen { Foresees M.meaning (rows_of plan.now) word part.old step.now }
    ensures ticks { result ≡ capped step.now.lasts most }
    ensures some { (0 < result) × (result ≤ most) }
    ensures held { Held M.meaning (rows_of plan.now) word part.old part.new step.now.word result }
{
    let n = capped_at(step.lasts, most);
    advance(plan, &step.readings, n, part);
    n
}

// Whether a run goes on with this step: it has the same verdict word.
fn goes_on(step: &Step, verdict: u16) -> bool
    ensures { result ≡ (step.now.word == verdict) }
{
    step.word == verdict
}

// Takes the longest run of the verdict word of the first step, of at most so many ticks: the step that ends it, where
// ticks are left, and the ticks.
pub(crate) fn run<M: WindowMemory>(
    plan: &Plan,
    word: u32,
    most: u32,
    first: Step,
    part: &mut [M],
) -> (Step, u32)
    requires enough { timed_rows (rows_of plan.now) ≤ length part.old }
    requires left { 0 < most }
    requires foreseen { Foresees M.meaning (rows_of plan.now) word part.old first }
    ensures whole { Whole M.meaning (rows_of plan.now) word most part.old part.new first.word result.1 }
    ensures after { result.1 < most → Foresees M.meaning (rows_of plan.now) word part.new result.0 }
{
    let mut step = first;
    let verdict = first.word;
    let mut n = 0;
    loop {
        n += hold(plan, word, &step, most - n, part);
        if n >= most {
            return (step, n);
        }
        step = next(plan, word, part);
        if !goes_on(&step, verdict) {
            return (step, n);
        }
    }
}
