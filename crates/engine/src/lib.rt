//! One car, any number of ticks: its memories are told an input word that lasts, and the longest runs of its verdict
//! words are written as notes.

#![tactic(auto)]

ghost use Rattle.std.specs.Prelude.{◌≡◌, ℕ, true, List, []};
ghost use Rattle.mitl.specs.Memory.{cleared};
ghost use Rattle.mitl.specs.Rows.{timed_rows};
ghost use Rattle.plan.specs.Rows.{rows_of};
ghost use Rattle.engine.specs.Judged.{Bounded, Judged, Unfed, idle};
ghost use Rattle.engine.specs.Means.{Changed, Means};

mod advance;
mod feeding;
mod lasting;
mod memory;
mod reading;
mod running;
mod word;

use advance::clear_first;
use feeding::{fill, is_idle};
use plan::plan::Plan;
use record::{Car, Note};
use window::WindowMemory;

// Ticks of one car with one input word.
#[derive(Clone, Copy)]
pub struct Inputs {
    pub car: Car,
    pub word: u32,
    pub ticks: u32,
}

// What feeding replies: how many notes were written, into the caller's list, and the ticks that they cover.
#[derive(Clone, Copy)]
pub struct Fed {
    pub notes: usize,
    pub ticks: u32,
}

// Clears the memories of the plan's timed rows.
pub fn clear<M: WindowMemory>(plan: &Plan, part: &mut [M])
    ensures memories { Changed M.meaning cleared (timed_rows (rows_of plan.now)) part.old part.new }
    ensures means { (h : List ℕ) → Means M.meaning (rows_of plan.now) part.old h → Means M.meaning (rows_of plan.now) part.new [] }
{
    let end = plan.timed().min(part.len());
    clear_first(part, end);
}

// Feeds ticks with one input word: cuts their verdict words into longest runs, writes as many first runs as
// there are places, and takes the ticks that these cover. Where there is no tick, no place, or a timed row without a
// memory, nothing is written and nothing taken.
pub fn feed<M: WindowMemory>(plan: &Plan, inputs: Inputs, part: &mut [M], notes: &mut [Note]) -> Fed
    ensures unfed { idle (rows_of plan.now) inputs.ticks part.old notes.old ≡ true → Unfed part.old notes.old part.new notes.new result }
    ensures bounded { Bounded (rows_of plan.now) inputs.ticks part.old notes.old part.new notes.new result }
    ensures judged { (h : List ℕ) → Means M.meaning (rows_of plan.now) part.old h → Judged M.meaning (rows_of plan.now) h inputs.car inputs.word inputs.ticks part.old notes.old part.new notes.new result }
{
    if is_idle(plan, inputs.ticks, part, notes) {
        return Fed { notes: 0, ticks: 0 };
    }
    fill(plan, inputs, part, notes)
}
