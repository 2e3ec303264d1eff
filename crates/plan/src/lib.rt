//! Plans that cannot be wrong.

#![tactic(auto)]

ghost use Rattle.std.specs.Prelude.{◌≡◌, ◌<◌, min, [], ◌∷◌, length, take, drop, replicate, count_by, IfSome};
ghost use Rattle.std.specs.List.{list_any, list_all, enumerate_from};
ghost use Rattle.mitl.specs.Rows.{is_timed, timed_before, timed_rows};
ghost use Rattle.mitl.specs.Windows.{sound_window};
ghost use Rattle.mitl.specs.declared.Row.TheVariants.{Input, Rule};
ghost use Rattle.plan.specs.Built.{Built};
ghost use Rattle.plan.specs.Places.{place_among_lem, FirstPlace};
ghost use Rattle.plan.specs.Rows.{rows_of, numbers_of};
ghost use Rattle.plan.specs.Sound.{is_a_rule, operand_ok, row_ok, sound_rows};
ghost use Rattle.plan.specs.Totals.{counts_of};
ghost use Rattle.plan.specs.Windows.{WindowOf};

pub mod plan;

use mitl::Row;
use plan::Plan;

// The plan that stands before the first table: rule 0 is input bit 0.
pub fn built_in() -> Plan
    ensures rows { rows_of result ≡ Input 0 ∷ Rule 0 0 ∷ [] }
    ensures numbers { numbers_of result ≡ 1 ∷ 2 ∷ [] }
    ensures idle { (drop 2 result.rows ≡ replicate 62 (Input 0)) × (drop 2 result.numbers ≡ replicate 62 0) }
{
    let mut rows = [Row::Input { bit: 0 }; 64];
    rows[1] = Row::Rule { number: 0, left: 0 };
    let mut numbers = [0; 64];
    numbers[0] = 1;
    numbers[1] = 2;
    Plan {
        rows,
        numbers,
        count: 2,
    }
}

// Whether a row is a rule.
pub fn is_rule(row: Row) -> bool
    ensures { result ≡ is_a_rule row }
{
    matches!(row, Row::Rule { .. })
}

// Whether a row has a window.
pub fn is_timed(row: Row) -> bool
    ensures { result ≡ is_timed row }
{
    matches!(
        row,
        Row::Once { .. } | Row::Always { .. } | Row::Since { .. }
    )
}

// The window of a timed row.
pub fn window_of(row: Row) -> Option<(u32, u32)>
    ensures { WindowOf row result }
{
    match row {
        Row::Once { a, b, .. } | Row::Always { a, b, .. } | Row::Since { a, b, .. } => Some((a, b)),
        _ => None,
    }
}

// Whether a table may have the window from a to b.
pub fn is_sound_window(a: u32, b: u32) -> bool
    ensures { result ≡ sound_window a b }
{
    a < b && b <= 864_000
}

// Whether a row after these may have the operand l: one of them that is no rule.
fn operand_fits(before: &[Row], l: u8) -> bool
    ensures { result ≡ operand_ok before.now (length before.now) l }
{
    before.get(l as usize).is_some_and(|row| !is_rule(*row))
}

// Whether a row may stand right after these.
fn row_fits(before: &[Row], row: &Row) -> bool
    ensures { result ≡ row_ok before.now (length before.now) row.now }
{
    match row {
        Row::Input { bit } => *bit < 32,
        Row::Not { left } => operand_fits(before, *left),
        Row::And { left, right } | Row::Or { left, right } => {
            operand_fits(before, *left) && operand_fits(before, *right)
        }
        Row::Once { left, a, b } | Row::Always { left, a, b } => {
            operand_fits(before, *left) && is_sound_window(*a, *b)
        }
        Row::Since { left, right, a, b } => {
            operand_fits(before, *left) && operand_fits(before, *right) && is_sound_window(*a, *b)
        }
        Row::Rule { number, left } => *number < 16 && operand_fits(before, *left),
    }
}

// How many rows a plan has: all, the rules, and those with a window.
#[derive(Clone, Copy)]
pub struct Counts {
    pub rows: usize,
    pub rules: usize,
    pub timed: usize,
}

// Whether each row may stand where it stands.
fn each_fits(chain: &[Row]) -> bool
    ensures { result ≡ list_all (λ (k, row). row_ok (take k chain.now) (length (take k chain.now)) row) (enumerate_from 0 chain.now) }
{
    chain
        .iter()
        .enumerate()
        .all(|(k, row)| row_fits(&chain[..k], row))
}

// Whether one of the rows is a rule.
fn has_rule(chain: &[Row]) -> bool
    ensures { result ≡ list_any is_a_rule chain.now }
{
    chain.iter().any(|row| is_rule(*row))
}

// Whether the first `count` rows may be a plan.
fn is_sound(rows: &[Row; 64], count: usize) -> bool
    ensures { result ≡ sound_rows rows.now count }
{
    rows.get(..count)
        .is_some_and(|chain| each_fits(chain) && has_rule(chain))
}

// The plan of the first `count` rows and their numbers, unless they are no plan.
pub fn build(rows: [Row; 64], numbers: [u8; 64], count: usize) -> Option<Plan>
    ensures { Built rows numbers count result }
{
    if is_sound(&rows, count) {
        Some(Plan {
            rows,
            numbers,
            count,
        })
    } else {
        None
    }
}

// The place of the row with this number, by the numbers along the chain.
pub fn place_among(numbers: &[u8], number: u8) -> Option<usize>
    ensures value { result ≡ place_among_lem numbers.now number }
    ensures within { IfSome result (λ k. k < length numbers.now) }
    ensures first { FirstPlace numbers.now number result }
{
    numbers.iter().position(|n| *n == number)
}

// How many of these rows are rules.
fn rules_among(rows: &[Row]) -> usize
    ensures { result ≡ count_by is_a_rule rows.now }
{
    rows.iter().map(|row| usize::from(is_rule(*row))).sum()
}

// How many of these rows are timed.
fn timed_among(rows: &[Row]) -> usize
    ensures { result ≡ count_by is_timed rows.now }
{
    rows.iter().map(|row| usize::from(is_timed(*row))).sum()
}

impl Plan {
    // Its rows, along the chain.
    pub fn chain(&self) -> &[Row]
        ensures { result.now ≡ rows_of self.now }
    {
        &self.rows[..self.count]
    }

    // How many rows it has, of each sort.
    #[tactic(auto, using(crate::proofs::Timed::timed_all))]
    pub fn counts(&self) -> Counts
        ensures { result ≡ counts_of (rows_of self.now) }
    {
        let chain = self.chain();
        Counts {
            rows: chain.len(),
            rules: rules_among(chain),
            timed: timed_among(chain),
        }
    }

    // How many timed rows it has.
    #[tactic(auto, using(crate::proofs::Timed::timed_all))]
    pub fn timed(&self) -> usize
        ensures { result ≡ timed_rows (rows_of self.now) }
    {
        timed_among(self.chain())
    }

    // How many of them stand before this place.
    pub fn timed_before(&self, place: usize) -> usize
        ensures { result ≡ timed_before (rows_of self.now) (min place self.now.count) }
    {
        timed_among(&self.chain()[..place.min(self.count)])
    }

    // The place on the chain of the row with this number in its table.
    pub fn place(&self, number: u8) -> Option<usize>
        ensures value { result ≡ place_among_lem (numbers_of self.now) number }
        ensures within { IfSome result (λ k. k < self.now.count) }
        ensures first { FirstPlace (numbers_of self.now) number result }
    {
        place_among(&self.numbers[..self.count], number)
    }
}
