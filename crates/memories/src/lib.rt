//! The memories of a watch: from the list's start a part for each car in turn, and within it a memory for each timed
//! row along the chain. One car's part is lent on to be written; all else stays.

#![tactic(auto)]

ghost use Rattle.std.specs.Prelude.{◌≡◌, ℕ, ◌+◌, ◌*◌, ◌<◌, ◌≤◌, min, Bool, true, false, List, [], length, if◌then◌else◌};
ghost use Rattle.mitl.specs.Memory.{counted};
ghost use Rattle.mitl.specs.Outlook.{row_from, row_to};
ghost use Rattle.mitl.specs.Rows.{is_timed, timed_before, timed_rows};
ghost use Rattle.plan.specs.Rows.{rows_of};
ghost use Rattle.engine.specs.Means.{Means};
ghost use Rattle.memories.specs.Exact.{AllReadied, CarEmptied, CarTold};
ghost use Rattle.memories.specs.Parts.{CarCleared, CarFed, CarPrepared, Indexed, Prepared, PreparedAt, Readied, Spanned};

use engine::{Fed, Inputs, clear, feed};
use mitl::Row;
use plan::plan::Plan;
use plan::window_of;
use record::Note;
use window::{Admission, WindowMemory};

// What a memory shows: a mark, and how many stretches of yes there are.
#[derive(Clone, Copy)]
pub struct Shown {
    pub mark: bool,
    pub count: u32,
}

// Where the part of the car at this place begins and ends, if the list is that long. Each caller lends the part
// itself: handed in as a closure, a call that writes notes would leave nothing known of them where the list is too
// short.
fn span(plan: &Plan, at: usize, len: usize) -> Option<(usize, usize)>
    ensures { Spanned at (timed_rows (rows_of plan.now)) len result }
{
    let timed = plan.timed();
    let from = at.checked_mul(timed)?;
    let to = from.checked_add(timed)?;
    (to <= len).then_some((from, to))
}

// The memory at this place is prepared for a window.
fn prepare_at<M: WindowMemory>(part: &mut [M], at: usize, a: u32, b: u32)
    ensures { PreparedAt M.meaning M.admitted at a b part.old part.new }
{
    if at < part.len() {
        let _ = part[at].prepare(a, b);
    }
}

// The memory at this place is prepared for a row, if it is timed: the place past it.
// The place is required to be early, so that the one past it fits: a plan has at most 64 rows.
fn prepare_row<M: WindowMemory>(row: Row, part: &mut [M], at: usize) -> usize
    requires { at < 64 }
    ensures behind { result ≡ (if is_timed row then 1 else 0) + at }
    ensures timed { is_timed row ≡ true → PreparedAt M.meaning M.admitted at (row_from row) (row_to row) part.old part.new }
    ensures other { is_timed row ≡ false → part.new ≡ part.old }
{
    match window_of(row) {
        Some((a, b)) => {
            prepare_at(part, at, a, b);
            at + 1
        }
        None => at,
    }
}

// A memory for each timed row.
// Tried over `part.iter_mut().zip(..)`; its proof did not close: past a zip only the number of memories is known.
#[tactic(auto, using(engine::proofs::Plans::given_early, crate::proofs::Readied::readied_none))]
fn prepare_part<M: WindowMemory>(plan: &Plan, part: &mut [M])
    ensures { Readied M.meaning M.admitted (rows_of plan.now) (length (rows_of plan.now)) part.old part.new }
{
    let mut at = 0;
    for row in plan.chain() {
        at = prepare_row(*row, part, at);
    }
}

// The part of the car at this place is prepared.
fn prepare_car<M: WindowMemory>(plan: &Plan, at: usize, memories: &mut [M])
    ensures { CarPrepared M.meaning M.admitted (rows_of plan.now) at memories.old memories.new }
{
    if let Some((from, to)) = span(plan, at, memories.len()) {
        prepare_part(plan, &mut memories[from..to]);
    }
}

// The part of the car at this place is cleared.
pub fn clear_car<M: WindowMemory>(plan: &Plan, at: usize, memories: &mut [M])
    ensures cleared { CarCleared M.meaning (rows_of plan.now) at memories.old memories.new }
    ensures exactly { CarEmptied M.meaning (rows_of plan.now) at memories.old memories.new }
{
    if let Some((from, to)) = span(plan, at, memories.len()) {
        clear(plan, &mut memories[from..to]);
    }
}

// The part of the car at this place is fed ticks with one input word.
pub fn feed_car<M: WindowMemory>(
    plan: &Plan,
    at: usize,
    inputs: Inputs,
    memories: &mut [M],
    notes: &mut [Note],
) -> Fed
    ensures fed { CarFed M.meaning (rows_of plan.now) at inputs.car inputs.word inputs.ticks memories.old notes.old memories.new notes.new result }
    ensures exactly { CarTold M.meaning (rows_of plan.now) at inputs.car inputs.word inputs.ticks memories.old notes.old memories.new notes.new result }
{
    match span(plan, at, memories.len()) {
        Some((from, to)) => feed(plan, inputs, &mut memories[from..to], notes),
        None => Fed { notes: 0, ticks: 0 },
    }
}

// The parts of the first cars are prepared. It carries the proof of `prepare_cars`, which is thin, so that a wrong one
// fails at its own place.
#[tactic(auto, using(crate::proofs::Lent::prepared_none, crate::proofs::Exact::all_none))]
fn prepare_first<M: WindowMemory>(plan: &Plan, cars: usize, memories: &mut [M])
    ensures prepared { Prepared M.meaning M.admitted (rows_of plan.now) cars memories.old memories.new }
    ensures exactly { AllReadied M.meaning M.admitted (rows_of plan.now) cars memories.old memories.new }
{
    // by places: a plan without a timed row has empty parts, and the library's chunks have a size above 0
    for i in 0..cars {
        prepare_car(plan, i, memories);
    }
}

// From the list's start a memory is prepared for each car in turn and, within it, for each timed row along the chain.
pub fn prepare_cars<M: WindowMemory>(plan: &Plan, cars: usize, memories: &mut [M])
    ensures prepared { Prepared M.meaning M.admitted (rows_of plan.now) cars memories.old memories.new }
    ensures exactly { AllReadied M.meaning M.admitted (rows_of plan.now) cars memories.old memories.new }
{
    prepare_first(plan, cars, memories);
}

// What a memory shows: mark d, and how many stretches of yes there are.
pub fn show<M: WindowMemory>(memory: M, d: u32) -> Shown
    ensures { (result.mark ≡ (M.meaning memory).mark d) × (result.count ≡ counted (M.meaning memory)) }
{
    Shown {
        mark: memory.look(d),
        count: memory.count(),
    }
}

// Where the memory of the row at this place lies in the part of the car at this place, if the list is that long.
pub fn index_of(plan: &Plan, at: usize, place: usize, len: usize) -> Option<usize>
    ensures { Indexed (rows_of plan.now) at (min place plan.now.count) len result }
{
    let (from, _) = span(plan, at, len)?;
    from.checked_add(plan.timed_before(place))
        .filter(|index| *index < len)
}
