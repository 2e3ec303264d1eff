//! What a verdict means: past MITL with bounded windows over the ticks of a history.
//!
//! The definitions stand in specs/. The laws that they obey are contracts of the functions here; a function with
//! nothing to compute but its law returns 0.

#![tactic(auto)]

ghost use Rattle.std.specs.Prelude.{◌≡◌, ℕ, ◌+◌, ◌-◌, ◌/◌, ◌<◌, ◌≤◌, Bool, ◌&&◌, ◌||◌, ◌==◌};
ghost use Rattle.mitl.specs.Cases.{CasesRight, PairCasesRight};
ghost use Rattle.mitl.specs.Formulas.{bit};
ghost use Rattle.mitl.specs.Laws.{BoundsStretches, Decided, Foretold, OneCut, OneReading, Outlooks, Settled, Split, Worded};
ghost use Rattle.mitl.specs.Memory.{most_stretches_lem};

// A row of a rule table, as it stands on the chain: an operand is the place, from 0, of an earlier row of the chain.
#[derive(Clone, Copy)]
pub enum Row {
    // P: a bit of the input word
    Input { bit: u8 },
    // N
    Not { left: u8 },
    // A
    And { left: u8, right: u8 },
    // O
    Or { left: u8, right: u8 },
    // D: yes at some tick of the window
    Once { left: u8, a: u32, b: u32 },
    // B: yes at every tick of the window
    Always { left: u8, a: u32, b: u32 },
    // S: the right row yes at some tick of the window, and the left row from there to now
    Since { left: u8, right: u8, a: u32, b: u32 },
    // R: a rule, which puts its operand into a bit of the verdict word
    Rule { number: u8, left: u8 },
}

// Bit i of an input word; no from bit 32 on.
#[tactic(auto, using(crate::proofs::Words::bit_past_word))]
pub fn input_bit(inputs: u32, i: u8) -> bool
    ensures { result ≡ bit i inputs }
{
    i < 32 && (inputs >> i) % 2 == 1
}

// The verdict word with the bit of one more rule, which is set where the rule is on; a number from 16 on has no bit.
#[tactic(auto, using(crate::proofs::Words::bit_set))]
pub fn with_rule(verdicts: u16, number: u8, on: bool) -> u16
    ensures bits { (k : ℕ) → k < 16 → bit k result ≡ ((k == number && on) || bit k verdicts) }
    ensures set { number < 16 → (k : ℕ) → bit k result ≡ ((k == number && on) || bit k verdicts) }
    ensures none { 16 ≤ number → result ≡ verdicts }
{
    if on && number < 16 {
        verdicts | (1 << number)
    } else {
        verdicts
    }
}

// The most stretches of yes that an outlook of the window from a to b has.
#[tactic(auto, using(crate::proofs::Stretches::bounds))]
pub fn most_stretches(a: u32, b: u32) -> u32
    ensures value { result ≡ most_stretches_lem a b }
    ensures enough { BoundsStretches a b result }
{
    // two stretches of one outlook end at least so many ticks apart: a yes reaches b - a + 1 ticks, and a no follows
    let gap = u64::from(b.saturating_sub(a)) + 2;
    1 + (u64::from(b.saturating_sub(1)) / gap) as u32
}

// A formula's test says yes exactly where the formula holds.
#[tactic(auto, using(crate::proofs::Tests::decides_sat))]
pub fn satisfaction_is_decided() -> u8
    ensures { (result ≡ 0) × (Decided) }
{
    0
}

// The rows of a chain are read as they say, in one way only, and it is the way their formulas are read.
pub fn readings_are_unique() -> u8
    ensures { (result ≡ 0) × (OneReading) }
{
    0
}

// What is read at a tick stands, whatever ticks follow.
pub fn verdicts_stand() -> u8
    ensures { (result ≡ 0) × (Settled) }
{
    0
}

// The verdict word is the one word of 16 bits whose bit i is rule i, and 0 where there is no rule i.
pub fn words_hold_rules() -> u8
    ensures { (result ≡ 0) × (Worded) }
{
    0
}

// With each tick split into q equal parts and every bound multiplied by q, every part has the verdict of its tick.
pub fn every_part_agrees() -> u8
    ensures { (result ≡ 0) × (Split) }
{
    0
}

// A mark is yes exactly where a tick taken that counts reaches it, by the readings of the rows.
pub fn outlooks_mark_reach() -> u8
    ensures { (result ≡ 0) × (Outlooks) }
{
    0
}

// The marks tell how the rows are read over coming ticks with one input word, the verdict word there, and what the
// memories mean after them.
pub fn marks_foretell() -> u8
    ensures { (result ≡ 0) × (Foretold) }
{
    0
}

// A list of words is cut into longest runs in one way only, and so are the ticks that its first runs cover.
pub fn longest_runs_are_unique() -> u8
    ensures { (result ≡ 0) × (OneCut) }
{
    0
}

// The worked cases come out as listed.
pub fn cases_hold() -> u8
    ensures listed { (result ≡ 0) × (CasesRight) }
    ensures pairs { PairCasesRight }
{
    0
}
