//! Refusals: what every layer answers to bad input, by number and place.

#![tactic(auto)]

ghost use Rattle.std.specs.Prelude.{◌≡◌, Some};
ghost use Rattle.refusal.specs.Faults.{refusal, OneHeld};
ghost use Rattle.refusal.specs.Shown.{refusal_text};

use std::fmt;

// A refusal's number says what was wrong, and its place where. They are numbers since they go down the line; what is
// refused in code is a fault, an enum of each layer's own.
#[derive(Clone, Copy, PartialEq, Eq, Debug)]
pub struct Refusal {
    pub number: u32,
    pub place: u32,
}

impl fmt::Display for Refusal {
    ghost output = { λ r. Some (refusal_text r) };

    fn fmt<W: fmt::Write>(&self, f: &mut fmt::Formatter<W>) -> fmt::Result {
        let number = self.number;
        let place = self.place;
        write!(f, "{number} {place}")
    }
}

impl Refusal {
    // The refusal with this number at this place.
    pub fn new(number: u32, place: u32) -> Refusal
        ensures { result ≡ refusal number place }
    {
        Refusal { number, place }
    }
}

// Whatever faults are looked for, and in whatever order: there is a refusal exactly when one of them holds.
#[tactic(auto, using(crate::proofs::Held::one_held))]
pub fn refused_exactly_when() -> u8
    ensures { (result ≡ 0) × (OneHeld) }
{
    0
}
