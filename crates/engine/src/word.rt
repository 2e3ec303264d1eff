//! Bits of verdict words.
ghost use Rattle.std.specs.Prelude.{◌≡◌, ℕ, ◌&&◌, ◌||◌};
ghost use Rattle.mitl.specs.Formulas.{bit};
ghost use Rattle.mitl.specs.Rows.{is_rule};
ghost use Rattle.engine.specs.Steps.{Readable};

use mitl::{Row, with_rule};

// A verdict word with the bit of this row, if it is a rule and read as yes.
pub(crate) fn with_row(word: u16, row: Row, yes: bool) -> u16
    requires { Readable row }
    ensures { (k : ℕ) → bit k result ≡ ((is_rule k row && yes) || bit k word) }
{
    match row {
        Row::Rule { number, .. } => with_rule(word, number, yes),
        _ => word,
    }
}
