//! The plain parts of a watch.
use cars::CarTable;
use plan::plan::Plan;

// The plan that runs, and the cars that it runs for.
#[derive(Clone, Copy)]
pub struct Inner {
    pub plan: Plan,
    pub cars: CarTable,
}
