//! The watch: Set, Feed and Query over a lent list of window memories.

#![tactic(auto)]

ghost use Rattle.std.specs.Prelude.{◌≡◌, ℕ, ◌*◌, ◌<◌, ◌≤◌, Bool, true, false, List, [], ◌∷◌, length, drop, is_ok, Some};
ghost use Rattle.plan.specs.Rows.{rows_of};
ghost use Rattle.mitl.specs.Rows.{timed_rows};
ghost use Rattle.record.specs.Layout.{fields_at};
ghost use Rattle.watch.specs.Replies.{ReadForCar, Loaded, PlacedRow};
ghost use Rattle.watch.specs.Keeping.{held_by, SameList, Fresh, Runs, Steps};
ghost use Rattle.watch.specs.Promised.{BothEnds, Promise};
ghost use Rattle.watch.specs.Made.{set_made, feed_made, query_made, notes_told};
ghost use Rattle.watch.specs.Stays.{SetStays, FeedStays};

pub mod fault;
mod inner;

use cars::{CarFault, CarTable, FeedFault};
use engine::{Fed, Inputs};
use fault::SetFault;
use inner::Inner;
use memories::{Shown, clear_car, feed_car, index_of, prepare_cars, show};
use plan::plan::Plan;
use plan::{Counts, built_in, is_timed};
use record::{Car, Note, Record, RecordFault};
use table::decode;
use window::{Admission, WindowMemory};

// A record for a car: no verdict is.
fn read_for_car(bytes: &[u8]) -> Result<Record, FeedFault>
    ensures { ReadForCar bytes.now result }
{
    if bytes.len() == 12 && bytes[0] == b'V' {
        return Err(RecordFault::UnknownLetter.into());
    }
    Ok(Record::read(bytes)?)
}

// The plan of a table and the cars of a list, for so many memories.
fn load<A: Admission>(table: &[u8], cars: &[Car], room: usize) -> Result<Inner, SetFault>
    ensures { Loaded A.admitted table.now cars.now room result }
{
    let plan = decode::<A>(table)?;
    let list = CarTable::list(cars)?;
    if room < cars.len() * plan.counts().timed {
        return Err(SetFault::Memories);
    }
    Ok(Inner { plan, cars: list })
}

// The chain's place of the row with this number, if it is timed.
fn timed_row(plan: &Plan, row: u8) -> Option<usize>
    ensures { PlacedRow plan.now row result }
{
    let place = plan.place(row)?;
    is_timed(plan.rows[place]).then_some(place)
}

// A watch over a lent list of memories. Its fields stand in its contracts, since behind a model a caller would not know
// what its list holds once the watch is gone.
#[derive(Drop)]
pub struct Watch<'a, M: WindowMemory> {
    memories: &'a mut [M],
    inner: Inner,
}

// The public calls are thin: the private ones under them carry the proofs, so that a wrong public call fails at its own
// line.
impl<'a, M: WindowMemory> Watch<'a, M> {
    // A watch over a list of memories, new or used: no table and no cars stand. What is promised after any list of
    // calls on it stands here.
    pub fn new(memories: &'a mut [M]) -> Watch<'a, M>
        ensures fresh { Fresh M.meaning (held_by result) }
        ensures promise { Promise M.meaning M.admitted }
        ensures same { result.memories.now ≡ memories.old }
        ensures named { result.memories.ghost_name ≡ memories.entry.ghost_name }
    {
        Watch::made(memories)
    }

    // Set: a table and a car list stand from now on, all cars vacant; the reply is the chain's count of rows, R rows
    // and timed rows.
    pub fn set(&mut self, table: &[u8], cars: &[Car]) -> Result<Counts, SetFault>
        ensures step { Steps M.meaning M.admitted (held_by self.old) (set_made table.now cars.now result) (held_by self.new) }
        ensures refused { is_ok result ≡ false → held_by self.new ≡ held_by self.old }
        ensures stays { is_ok result ≡ true → SetStays table.now cars.now (held_by self.old) (held_by self.new) }
        ensures named { SameList self.old self.new }
    {
        self.put(table, cars)
    }

    // Feed: one record, and places for the notes of its verdicts; the reply is the notes written and the ticks that
    // they cover.
    pub fn feed(&mut self, bytes: &[u8], notes: &mut [Note]) -> Result<Fed, FeedFault>
        ensures step { Steps M.meaning M.admitted (held_by self.old) (feed_made bytes.now notes.new result) (held_by self.new) }
        ensures others { (length notes.new ≡ length notes.old) × (drop (notes_told result) notes.new ≡ drop (notes_told result) notes.old) }
        ensures refused { is_ok result ≡ false → held_by self.new ≡ held_by self.old }
        ensures stays { is_ok result ≡ true → FeedStays (fields_at bytes.now) (held_by self.old) (held_by self.new) }
        ensures named { SameList self.old self.new }
    {
        self.take(bytes, notes)
    }

    // Query: mark d of the memory of a car's timed row, and its count; nothing changes.
    pub fn query(&mut self, car: Car, row: u8, d: u32) -> Result<Shown, CarFault>
        ensures step { Steps M.meaning M.admitted (held_by self.old) (query_made car row d result) (held_by self.new) }
        ensures same { held_by self.new ≡ held_by self.old }
        ensures named { SameList self.old self.new }
    {
        self.ask(car, row, d)
    }

    fn made(memories: &'a mut [M]) -> Watch<'a, M>
        ensures fresh { Fresh M.meaning (held_by result) }
        ensures promise { Promise M.meaning M.admitted }
        ensures same { result.memories.now ≡ memories.old }
        ensures named { result.memories.ghost_name ≡ memories.entry.ghost_name }
    {
        Watch {
            memories,
            inner: Inner {
                plan: built_in(),
                cars: CarTable::none(),
            },
        }
    }

    // A table and a car list are set, or refused and nothing changes.
    fn put(&mut self, table: &[u8], cars: &[Car]) -> Result<Counts, SetFault>
        ensures step { Steps M.meaning M.admitted (held_by self.old) (set_made table.now cars.now result) (held_by self.new) }
        ensures refused { is_ok result ≡ false → held_by self.new ≡ held_by self.old }
        ensures stays { is_ok result ≡ true → SetStays table.now cars.now (held_by self.old) (held_by self.new) }
        ensures named { SameList self.old self.new }
    {
        self.inner = load::<M>(table, cars, self.memories.len())?;
        prepare_cars(&self.inner.plan, cars.len(), self.memories);
        Ok(self.inner.plan.counts())
    }

    // What the memory of a car's timed row shows; nothing changes.
    fn ask(&mut self, car: Car, row: u8, d: u32) -> Result<Shown, CarFault>
        ensures step { Steps M.meaning M.admitted (held_by self.old) (query_made car row d result) (held_by self.new) }
        ensures same { held_by self.new ≡ held_by self.old }
        ensures named { SameList self.old self.new }
    {
        let plan = &self.inner.plan;
        let at = self.inner.cars.find(car).ok_or(CarFault::NotListed(car))?;
        let untimed = CarFault::NoTimedRow(row);
        let place = timed_row(plan, row).ok_or(untimed)?;
        let index = index_of(plan, at, place, self.memories.len()).ok_or(untimed)?;
        Ok(show(self.memories[index], d))
    }

    // One record is taken, or refused and nothing changes.
    fn take(&mut self, bytes: &[u8], notes: &mut [Note]) -> Result<Fed, FeedFault>
        ensures step { Steps M.meaning M.admitted (held_by self.old) (feed_made bytes.now notes.new result) (held_by self.new) }
        ensures others { (length notes.new ≡ length notes.old) × (drop (notes_told result) notes.new ≡ drop (notes_told result) notes.old) }
        ensures refused { is_ok result ≡ false → held_by self.new ≡ held_by self.old }
        ensures stays { is_ok result ≡ true → FeedStays (fields_at bytes.now) (held_by self.old) (held_by self.new) }
        ensures named { SameList self.old self.new }
    {
        let record = read_for_car(bytes)?;
        let at = self.inner.cars.record(record.car, record.letter)?;
        let plan = &self.inner.plan;
        match record.letter {
            'R' => {
                clear_car(plan, at, self.memories);
                Ok(Fed { notes: 0, ticks: 0 })
            }
            'E' => Ok(Fed { notes: 0, ticks: 0 }),
            _ if notes.is_empty() => Err(CarFault::NoPlace.into()),
            _ => {
                let Record {
                    car,
                    word,
                    ticks,
                    ..
                } = record;
                let inputs = Inputs { car, word, ticks };
                Ok(feed_car(plan, at, inputs, self.memories, notes))
            }
        }
    }
}

// Carries the proof of `begin`, which is thin.
fn set_and_feed<M: WindowMemory>(
    watch: &mut Watch<M>,
    table: &[u8],
    cars: &[Car],
    bytes: &[u8],
    notes: &mut [Note],
) -> (Result<Counts, SetFault>, Result<Fed, FeedFault>)
    ensures run { Runs M.meaning M.admitted (held_by watch.old) (set_made table.now cars.now result.0 ∷ (feed_made bytes.now notes.new result.1 ∷ [])) (held_by watch.new) }
    ensures named { SameList watch.old watch.new }
{
    let set = watch.set(table, cars);
    let fed = watch.feed(bytes, notes);
    (set, fed)
}

// A run of calls as it is made: a table is set, and one record fed after it. Runs exist, and this is one.
pub fn begin<M: WindowMemory>(
    watch: &mut Watch<M>,
    table: &[u8],
    cars: &[Car],
    bytes: &[u8],
    notes: &mut [Note],
) -> (Result<Counts, SetFault>, Result<Fed, FeedFault>)
    ensures run { Runs M.meaning M.admitted (held_by watch.old) (set_made table.now cars.now result.0 ∷ (feed_made bytes.now notes.new result.1 ∷ [])) (held_by watch.new) }
    ensures named { SameList watch.old watch.new }
{
    set_and_feed(watch, table, cars, bytes, notes)
}

// Carries the proof of `both_ends`, which is thin.
fn agree<M: WindowMemory, N: WindowMemory>(unit: &[u16], desk: &[u16]) -> bool
    ensures value { (result ≡ true → unit.now ≡ desk.now) × (unit.now ≡ desk.now → result ≡ true) }
    ensures promise { BothEnds M.meaning M.admitted N.meaning N.admitted }
{
    unit == desk
}

// Two watches on any two kinds of memory: where the same table stands in both and two cars' histories are equal, their
// written verdicts are equal and Query replies alike on every row and d. Answers whether the notes of the two ends, put
// together tick by tick, agree so far.
pub fn both_ends<M: WindowMemory, N: WindowMemory>(unit: &[u16], desk: &[u16]) -> bool
    ensures value { (result ≡ true → unit.now ≡ desk.now) × (unit.now ≡ desk.now → result ≡ true) }
    ensures promise { BothEnds M.meaning M.admitted N.meaning N.admitted }
{
    agree::<M, N>(unit, desk)
}
