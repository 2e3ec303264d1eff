//! The car table: which cars a watch serves, and how each stands.

#![tactic(auto)]

ghost use Rattle.std.specs.Prelude.{◌≡◌, ℕ, ◌<◌, ◌≤◌, min, Bool, true, false, ◌||◌, List, [], length, take, slice_index_or};
ghost use Rattle.record.specs.Cars.{same_car, no_car};
ghost use Rattle.cars.specs.Cars.{listed, place_of, cars_of, no_slot, Added, Filled};
ghost use Rattle.cars.specs.Moves.{Moved, MovedAt, Recorded};
ghost use Rattle.cars.specs.Refusals.{of_car, of_feed, of_list, Listed, Placed};
ghost use Rattle.cars.specs.declared.FeedFault.TheVariants.{Record as OfRecord, Car as OfCar};

use record::{Car, RecordFault};
use refusal::Refusal;

// How a car stands: not yet restarted, running, or ended.
#[derive(Clone, Copy)]
pub enum CarState {
    Vacant,
    Running,
    Ended,
}

// The faults of the car layer.
#[derive(Clone, Copy)]
pub enum CarFault {
    NotListed(Car),
    NotRunning(Car),
    NoPlace,
    NoTimedRow(u8),
}

impl From<CarFault> for Refusal {
    ghost from_gives = { λ x r. r ≡ of_car x };

    fn from(fault: CarFault) -> Refusal {
        match fault {
            CarFault::NotListed(car) => Refusal::new(17, car.place()),
            CarFault::NotRunning(car) => Refusal::new(18, car.place()),
            CarFault::NoPlace => Refusal::new(19, 0),
            CarFault::NoTimedRow(row) => Refusal::new(20, u32::from(row)),
        }
    }
}

// Why a record was not taken.
#[derive(Clone, Copy)]
pub enum FeedFault {
    Record(RecordFault),
    Car(CarFault),
}

impl From<RecordFault> for FeedFault {
    ghost from_gives = { λ x r. r ≡ OfRecord x };

    fn from(fault: RecordFault) -> FeedFault {
        FeedFault::Record(fault)
    }
}

impl From<CarFault> for FeedFault {
    ghost from_gives = { λ x r. r ≡ OfCar x };

    fn from(fault: CarFault) -> FeedFault {
        FeedFault::Car(fault)
    }
}

impl From<FeedFault> for Refusal {
    ghost from_gives = { λ x r. r ≡ of_feed x };

    fn from(fault: FeedFault) -> Refusal {
        match fault {
            FeedFault::Record(fault) => fault.into(),
            FeedFault::Car(fault) => fault.into(),
        }
    }
}

// Why a list of cars is none.
#[derive(Clone, Copy)]
pub enum ListFault {
    Size,
    Position(u8),
}

impl From<ListFault> for Refusal {
    ghost from_gives = { λ x r. r ≡ of_list x };

    fn from(fault: ListFault) -> Refusal {
        match fault {
            ListFault::Size => Refusal::new(12, 0),
            ListFault::Position(place) => Refusal::new(12, u32::from(place)),
        }
    }
}

// A car of the list, and how it stands.
#[derive(Clone, Copy)]
pub struct Slot {
    pub car: Car,
    pub state: CarState,
}

impl Slot {
    // A record with this letter comes for the car.
    pub fn record(&mut self, letter: char) -> Result<(), FeedFault>
        ensures { Moved self.old letter self.new result }
    {
        match (self.state, letter) {
            (_, 'R') => self.state = CarState::Running,
            (CarState::Running, 'I') => {}
            (CarState::Running, 'E') => self.state = CarState::Ended,
            (_, 'I' | 'E') => return Err(CarFault::NotRunning(self.car).into()),
            _ => return Err(RecordFault::UnknownLetter.into()),
        }
        Ok(())
    }
}

// The cars of a watch, in the order of their list: a fixed table of car structs, and plain data, as all that a watch
// keeps beside its memories.
#[derive(Clone, Copy)]
pub struct CarTable {
    pub slots: [Slot; 32],
    pub count: usize,
}

// Places without a car. Such a place is past the count, and holds the identity that no car has: whether a car stands
// there is asked of the count alone.
fn unlisted() -> [Slot; 32]
    ensures { (k : ℕ) → slice_index_or result k no_slot ≡ no_slot }
{
    let slot = Slot {
        car: Car::NONE,
        state: CarState::Vacant,
    };
    [slot; 32]
}

impl CarTable {
    // No cars.
    pub fn none() -> CarTable
        ensures { Filled [] 0 result }
    {
        CarTable {
            slots: unlisted(),
            count: 0,
        }
    }

    // The places in use.
    fn used(&self) -> &[Slot]
        ensures { result.now ≡ take (min self.now.count 32) self.now.slots }
    {
        &self.slots[..self.count.min(32)]
    }

    // The place of a car in the list.
    pub fn find(&self, car: Car) -> Option<usize>
        ensures { result ≡ place_of (cars_of self.now) car }
    {
        self.used().iter().position(|slot| slot.car == car)
    }

    // Whether a car cannot be added: it is zero, or in the table.
    fn refuses(&self, car: Car) -> bool
        ensures { result ≡ (same_car car no_car || listed (cars_of self.now) car) }
    {
        car == Car::NONE || self.find(car).is_some()
    }

    // A vacant car is added.
    fn add(&mut self, car: Car)
        requires { self.old.count < 32 }
        ensures { Added self.old car self.new }
    {
        let at = self.count;
        self.slots[at] = Slot {
            car,
            state: CarState::Vacant,
        };
        self.count = at + 1;
    }

    // The table of a list of cars, all vacant.
    fn filled(cars: &[Car]) -> Result<CarTable, ListFault>
        requires { length cars.now ≤ 32 }
        ensures { Placed cars.now result }
    {
        let mut table = CarTable::none();
        for (i, car) in cars.iter().enumerate() {
            if table.refuses(*car) {
                return Err(ListFault::Position(i as u8 + 1));
            }
            table.add(*car);
        }
        Ok(table)
    }

    // The table of a list of 1 to 32 different cars, all vacant.
    pub fn list(cars: &[Car]) -> Result<CarTable, ListFault>
        ensures { Listed cars.now result }
    {
        if cars.is_empty() || cars.len() > 32 {
            return Err(ListFault::Size);
        }
        CarTable::filled(cars)
    }

    // A record with this letter comes for the car at this place.
    fn record_at(&mut self, at: usize, letter: char) -> Result<(), FeedFault>
        requires { at < 32 }
        ensures { MovedAt self.old at letter self.new result }
    {
        self.slots[at].record(letter)
    }

    // A record with this letter comes for a car: its place, once its state has changed. It carries the proof of
    // `record`, which is thin, so that a wrong `record` fails at its own place.
    fn moved(&mut self, car: Car, letter: char) -> Result<usize, FeedFault>
        ensures { Recorded self.old car letter self.new result }
    {
        let at = self.find(car).ok_or(CarFault::NotListed(car))?;
        self.record_at(at, letter)?;
        Ok(at)
    }

    // A record with this letter comes for a car: its place, once its state has changed. A car that is not listed, or
    // not running where it has to be, is refused, and nothing changes.
    pub fn record(&mut self, car: Car, letter: char) -> Result<usize, FeedFault>
        ensures { Recorded self.old car letter self.new result }
    {
        self.moved(car, letter)
    }
}
