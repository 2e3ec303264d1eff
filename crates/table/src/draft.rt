//! The rows that were taken from the front of a chain, with their numbers in the table.
ghost use Rattle.std.specs.Prelude.{◌≡◌, ◌-◌, ◌≤◌, drop, replicate};
ghost use Rattle.mitl.specs.Rows.{is_rule};
ghost use Rattle.mitl.specs.declared.Row.TheVariants.{Input};

use mitl::Row;
use plan::{is_rule, place_among};

// The rows taken so far, in the fixed arrays that a plan is built of. No plan yet: a plan has a rule.
#[derive(Clone, Copy)]
pub(crate) struct Draft {
    // the rows along the chain, and rows that mean nothing from `count` on
    pub rows: [Row; 64],
    // the number of each row in its table
    pub numbers: [u8; 64],
    pub count: usize,
    ghost few: { count ≤ 64 },
    ghost idle_rows: { drop count rows ≡ replicate (64 - count) (Input 0) },
    ghost idle_numbers: { drop count numbers ≡ replicate (64 - count) 0 },
}

// Whether a row is rule i.
fn is_the_rule(row: &Row, i: u8) -> bool
    ensures { result ≡ is_rule i row.now }
{
    matches!(row, Row::Rule { number, .. } if i == *number)
}

impl Draft {
    ghost use Rattle.std.specs.Prelude.{◌+◌, ◌<◌, [], ◌∷◌, ◌++◌, is_some};
    ghost use Rattle.plan.specs.Places.{place_among_lem};
    ghost use Rattle.table.specs.Drafts.{taken_rows, taken_numbers};
    ghost use Rattle.table.specs.Faults.{operand_place, rule_used};

    // No row.
    pub(crate) fn new() -> Draft
        ensures { result.count ≡ 0 }
    {
        Draft {
            rows: [Row::Input { bit: 0 }; 64],
            numbers: [0; 64],
            count: 0,
        }
    }

    fn rows(&self) -> &[Row]
        ensures { result.now ≡ taken_rows self.now }
    {
        &self.rows[..self.count]
    }

    fn numbers(&self) -> &[u8]
        ensures { result.now ≡ taken_numbers self.now }
    {
        &self.numbers[..self.count]
    }

    // Whether the row with this number was taken.
    pub(crate) fn has(&self, number: u8) -> bool
        ensures { result ≡ is_some (place_among_lem (taken_numbers self.now) number) }
    {
        place_among(self.numbers(), number).is_some()
    }

    // The place of an operand: a row that was taken and is no rule.
    pub(crate) fn operand(&self, number: u8) -> Option<u8>
        ensures { result ≡ operand_place (taken_numbers self.now) (taken_rows self.now) number }
    {
        let place = place_among(self.numbers(), number)?;
        if is_rule(self.rows()[place]) {
            None
        } else {
            Some(place as u8)
        }
    }

    // Whether a row that was taken is rule `number`.
    pub(crate) fn has_rule(&self, number: u8) -> bool
        ensures { result ≡ rule_used (taken_rows self.now) number }
    {
        self.rows().iter().any(|row| is_the_rule(row, number))
    }

    // One more row at the end.
    pub(crate) fn push(&mut self, row: Row, number: u8)
        requires { self.now.count < 64 }
        ensures count { self.new.count ≡ self.old.count + 1 }
        ensures rows { taken_rows self.new ≡ taken_rows self.old ++ row ∷ [] }
        ensures numbers { taken_numbers self.new ≡ taken_numbers self.old ++ number ∷ [] }
    {
        self.rows[self.count] = row;
        self.numbers[self.count] = number;
        self.count += 1;
    }
}
