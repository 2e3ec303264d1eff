//! The plan: the rows of a table along its chain, as the watch runs them.
ghost use Rattle.std.specs.Prelude.{◌≡◌, ◌≤◌};
ghost use Rattle.plan.specs.Sound.{EachOk, Ruled};

use mitl::Row;

// Every plan has a rule, operands on earlier rows that are no rules, and each window with a below b.
#[derive(Clone, Copy)]
pub struct Plan {
    // the rows along the chain, and rows that mean nothing from `count` on
    // (beside their numbers, not paired with them, since the engine and the laws go over rows alone)
    pub rows: [Row; 64],
    // the number of each row in its table
    pub numbers: [u8; 64],
    pub count: usize,
    ghost few: { count ≤ 64 },
    ghost each: { EachOk rows count },
    ghost ruled: { Ruled rows count },
}
