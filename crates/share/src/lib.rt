//! The share layer: what share of a car's time each rule was yes, from notes of its verdicts.

#![tactic(auto)]

ghost use Rattle.std.specs.Prelude.{◌≡◌, ◌+◌, ◌*◌, ◌^◌, ◌<◌, ◌≤◌, length, Bool};
ghost use Rattle.std.specs.Fn.{FnReturnsAt};
ghost use Rattle.record.specs.declared.Note.{Note};
ghost use Rattle.share.specs.Ticks.{yes_of, ticks_where, car_ticks, per_mille_lem, figure};
ghost use Rattle.share.specs.Replies.{refusal_of, Parted, Shared, Busiest, Busier, Busied};

use record::{Car, Note};
use refusal::Refusal;

// The most notes that a share is taken of.
const MOST_NOTES: usize = 4096;

// How many rules a verdict word has.
const RULES: u8 = 16;

// A rule's share of a car's time.
#[derive(Clone, Copy, PartialEq, Eq, Debug)]
pub struct Share {
    // the car's ticks at which the rule was yes
    pub with_rule: u64,
    // all the car's ticks
    pub all: u64,
    pub per_mille: u32,
}

// The rule that was yes for the greatest share of a car's time.
#[derive(Clone, Copy, PartialEq, Eq, Debug)]
pub struct BusiestRule {
    pub rule: u8,
    pub per_mille: u32,
}

// Why there is no share.
#[derive(Clone, Copy, PartialEq, Eq, Debug)]
pub enum ShareFault {
    RuleAbove,
    TooManyNotes,
    NoTick,
}

// The number and place of a fault.
impl From<ShareFault> for Refusal {
    ghost from_gives = { λ x r. r ≡ refusal_of x };

    fn from(fault: ShareFault) -> Refusal {
        let place = match fault {
            ShareFault::RuleAbove => 0,
            ShareFault::TooManyNotes => 1,
            ShareFault::NoTick => 2,
        };
        Refusal::new(21, place)
    }
}

// Whether a note is of this car and the rule was yes. A rule is a number below 16 here and in two methods of `CarTime`:
// callers give a number and `busiest` a range, so a type of such numbers would be made at each of these calls.
fn is_yes(note: &Note, car: Car, rule: u8) -> bool
    requires { rule < 16 }
    ensures { result ≡ yes_of car rule note.now }
{
    note.car == car && (note.word >> rule) % 2 == 1
}

// The ticks of the notes that count.
fn ticks_where<F: Fn(&Note) -> bool>(notes: &[Note], counts: F) -> u64
    requires callable { F.IsAlwaysCallable counts }
    requires few { length notes.now ≤ 4096 }
    ensures value { (test : Note → Bool) → ((n : Note) (b : Bool) → FnReturnsAt F.Fn counts n b → b ≡ test n) → result ≡ ticks_where test notes.now }
    ensures bound { result < 2 ^ 44 }
{
    let mut ticks = 0;
    for note in notes {
        if counts(note) {
            ticks += u64::from(note.ticks);
        }
    }
    ticks
}

// A part of a whole in thousandths.
fn per_mille(part: u64, whole: u64) -> u64
    requires { (part ≤ whole) × (0 < whole) × (whole < 2 ^ 44) }
    ensures { result ≡ per_mille_lem part whole }
{
    part * 1000 / whole
}

// A car's time: all its ticks in notes that are not too many, which are some.
#[derive(Clone, Copy)]
struct CarTime<'a> {
    notes: &'a [Note],
    car: Car,
    all: u64,
    ghost few: { length notes.now ≤ 4096 },
    ghost sum: { all ≡ car_ticks notes.now car },
    ghost some: { 0 < all },
    ghost bound: { all < 2 ^ 44 },
}

impl<'a> CarTime<'a> {
    ghost use Rattle.share.specs.Times.{Whole};

    // The car's time by these notes.
    fn of(notes: &'a [Note], car: Car) -> Result<CarTime<'a>, ShareFault>
        ensures { Whole notes.now car result }
    {
        if notes.len() > MOST_NOTES {
            return Err(ShareFault::TooManyNotes);
        }
        let all = ticks_where(notes, |note| note.car == car);
        if all == 0 {
            return Err(ShareFault::NoTick);
        }
        Ok(CarTime { notes, car, all })
    }

    // The rule's share of the time.
    fn share(&self, rule: u8) -> Share
        requires { rule < 16 }
        ensures { Parted self.now.notes.now self.now.car rule result }
    {
        let with_rule = ticks_where(self.notes, |note| is_yes(note, self.car, rule));
        Share {
            with_rule,
            all: self.all,
            per_mille: per_mille(with_rule, self.all) as u32,
        }
    }

    // The rule with its figure.
    fn figure_of(&self, rule: u8) -> BusiestRule
        requires { rule < 16 }
        ensures { (result.rule ≡ rule) × (result.per_mille ≡ figure self.now.notes.now self.now.car rule) }
    {
        BusiestRule {
            rule,
            per_mille: self.share(rule).per_mille,
        }
    }

    // The lowest of the rules that have the greatest figure.
    fn busiest(&self) -> BusiestRule
        ensures { Busiest self.now.notes.now self.now.car 16 result }
    {
        (1..RULES).fold(
            self.figure_of(0),
            |best, rule| best.or(self.figure_of(rule)),
        )
    }
}

// The rule's share of the car's time.
pub fn share_of(notes: &[Note], car: Car, rule: u8) -> Result<Share, ShareFault>
    ensures { Shared notes.now car rule result }
{
    if rule >= RULES {
        return Err(ShareFault::RuleAbove);
    }
    Ok(CarTime::of(notes, car)?.share(rule))
}

impl BusiestRule {
    // The other rule, if its figure is greater. The library's `max_by_key`, over the rules from the last on, would answer
    // an Option of what is never missing.
    fn or(self, other: BusiestRule) -> BusiestRule
        ensures { Busier self other result }
    {
        if other.per_mille > self.per_mille {
            other
        } else {
            self
        }
    }
}

// The rule with the greatest share of the car's time, and the lowest of several.
pub fn busiest(notes: &[Note], car: Car) -> Result<BusiestRule, ShareFault>
    ensures { Busied notes.now car result }
{
    Ok(CarTime::of(notes, car)?.busiest())
}

#[cfg(test)]
mod tests {
    use super::*;
    use record::Note;

    const ONE: Car = Car { number: 1 };

    fn note(number: u16, word: u16, ticks: u32) -> Note {
        Note {
            car: Car { number },
            word,
            ticks,
        }
    }

    // Rules 0, 1 and 15, another car between, and a note with no tick.
    #[test]
    fn shares(rt: HostRuntime) {
        let notes = [
            note(1, 0x8001, 2),
            note(2, 0xffff, 1000),
            note(1, 0x0003, 1),
            note(1, 0xffff, 0),
        ];
        for (rule, with_rule, per_mille) in [(0, 3, 1000), (1, 1, 333), (2, 0, 0), (15, 2, 666)] {
            let share = Share {
                with_rule,
                all: 3,
                per_mille,
            };
            assert_eq!(rt; share_of(&notes, ONE, rule), Ok(share));
        }
        assert_eq!(rt; share_of(&notes, ONE, 16), Err(ShareFault::RuleAbove));
    }

    // The lowest among equals, and 0 where no rule was ever yes.
    #[test]
    fn busiest_rules(rt: HostRuntime) {
        for (first, second, rule, per_mille) in [
            (0, 0, 0, 0),
            (0x8000, 0x0c00, 10, 500),
            (0x8000, 0x8001, 15, 1000),
            (6, 4, 2, 1000),
        ] {
            let notes = [note(1, first, 5), note(1, second, 5), note(3, 1, 99)];
            assert_eq!(rt; busiest(&notes, ONE), Ok(BusiestRule { rule, per_mille }));
        }
    }

    // The longest list with the longest notes, one more note, and the order of the refusals.
    #[test]
    fn limits(rt: HostRuntime) {
        let most = [note(1, 1, u32::MAX); 4096];
        let share = Share {
            with_rule: 17_592_186_040_320,
            all: 17_592_186_040_320,
            per_mille: 1000,
        };
        assert_eq!(rt; share_of(&most, ONE, 0), Ok(share));
        assert_eq!(rt; busiest(&most, Car { number: 2 }), Err(ShareFault::NoTick));
        let over = [note(1, 1, 1); 4097];
        assert_eq!(rt; busiest(&over, ONE), Err(ShareFault::TooManyNotes));
        assert_eq!(rt;
            share_of(&over, Car { number: 2 }, 15),
            Err(ShareFault::TooManyNotes)
        );
        assert_eq!(rt; share_of(&over, ONE, 16), Err(ShareFault::RuleAbove));
        assert_eq!(rt; busiest(&[], ONE), Err(ShareFault::NoTick));
        assert_eq!(rt;
            Refusal::from(ShareFault::NoTick),
            Refusal {
                number: 21,
                place: 2,
            }
        );
    }
}
