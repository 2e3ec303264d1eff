//! The window memory that keeps its marks as the bits of machine words.
//!
//! Mark d is bit d % 64 of word d / 64, and there are words for a thousand marks. Content that this kind never makes,
//! a window that it does not serve or a bit beyond the marks, means a new memory, and every function behaves so on it.

#![tactic(auto)]

ghost use Rattle.std.specs.Prelude.{◌≡◌};
ghost use Rattle.bit_marks.specs.Marks.{meaning_of, served};
ghost use Rattle.bit_marks.specs.Means.{marks_within};
ghost use Rattle.std.proofs.Common.{rules};

use content::Settled;
use window::{Admission, WindowMemory};
use words::Marks;

mod content;
mod words;

// The most marks that are kept.
const LIMIT: u32 = 1_000;

// A window from a to b and its marks.
#[derive(Clone, Copy)]
pub struct BitMarks {
    a: u32,
    b: u32,
    marks: Marks,
}

// Whether this kind has marks enough for the window from a to b.
fn serves(a: u32, b: u32) -> bool
    ensures { result ≡ served a b }
{
    a < b && b <= LIMIT
}

impl Admission for BitMarks {
    ghost admitted = { served };

    fn admits(a: u32, b: u32) -> bool {
        serves(a, b)
    }
}

impl WindowMemory for BitMarks {
    ghost meaning = { meaning_of };

    ghost floor = { Prim.search rules };

    ghost ceiling = { Prim.search rules };

    ghost within = { λ m d h. marks_within m d h };

    fn new() -> BitMarks {
        Settled::fresh().content
    }

    fn prepare(&mut self, a: u32, b: u32) -> bool {
        if serves(a, b) {
            *self = Settled::empty(a, b).content;
            true
        } else {
            false
        }
    }

    fn clear(&mut self) {
        *self = Settled::of(*self).cleared().content;
    }

    fn look(&self, d: u32) -> bool {
        Settled::of(*self).look(d)
    }

    fn take(&mut self, operand: bool, n: u32) {
        *self = Settled::of(*self).after(operand, n).content;
    }

    fn run(&self, operand: bool) -> (bool, Option<u32>) {
        Settled::of(*self).forecast(operand)
    }

    fn count(&self) -> u32 {
        Settled::of(*self).count()
    }
}
