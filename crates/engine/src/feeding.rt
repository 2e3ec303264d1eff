//! Notes of longest runs, one after another.
ghost use Rattle.std.specs.Prelude.{◌≡◌, ℕ, ◌<◌, false, ◌&&◌, List, nat_lt};
ghost use Rattle.plan.specs.Rows.{rows_of};
ghost use Rattle.engine.specs.Judged.{Bounded, Judged, idle};
ghost use Rattle.engine.specs.Means.{Means};

use crate::reading::next;
use crate::running::run;
use crate::{Fed, Inputs};
use plan::plan::Plan;
use record::Note;
use window::WindowMemory;

// Whether there is no tick, no place, or a timed row without a memory.
pub(crate) fn is_idle<M: WindowMemory>(plan: &Plan, ticks: u32, part: &[M], notes: &[Note]) -> bool
    ensures { result ≡ idle (rows_of plan.now) ticks part.now notes.now }
{
    ticks == 0 || notes.is_empty() || part.len() < plan.timed()
}

// Whether another run is written: there are ticks left and a place.
fn writes_on(left: u32, used: usize, places: usize) -> bool
    ensures { result ≡ (nat_lt 0 left && nat_lt used places) }
{
    left > 0 && used < places
}

// Writes the longest runs into the places, from the first on, until the ticks or the places end.
pub(crate) fn fill<M: WindowMemory>(
    plan: &Plan,
    inputs: Inputs,
    part: &mut [M],
    notes: &mut [Note],
) -> Fed
    requires { idle (rows_of plan.now) inputs.ticks part.old notes.old ≡ false }
    ensures bounded { Bounded (rows_of plan.now) inputs.ticks part.old notes.old part.new notes.new result }
    ensures judged { (h : List ℕ) → Means M.meaning (rows_of plan.now) part.old h → Judged M.meaning (rows_of plan.now) h inputs.car inputs.word inputs.ticks part.old notes.old part.new notes.new result }
{
    // the count of the notes written, which the reply tells, is the next place: an iterator over the places would not
    // spare it
    let mut used = 0;
    let mut left = inputs.ticks;
    let mut step = next(plan, inputs.word, part);
    while writes_on(left, used, notes.len()) {
        let verdict = step.word;
        let (after, n) = run(plan, inputs.word, left, step, part);
        step = after;
        notes[used] = Note {
            car: inputs.car,
            word: verdict,
            ticks: n,
        };
        used += 1;
        left -= n;
    }
    Fed {
        notes: used,
        ticks: inputs.ticks - left,
    }
}
