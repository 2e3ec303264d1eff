//! The call book: what is known of a watch from the calls made on it and the notes that Feed wrote. The definitions
//! stand in specs/; the contracts of the watch's calls cite them.

#![tactic(auto)]

ghost use Rattle.std.specs.Prelude.{◌≡◌};
ghost use Rattle.book.specs.Promise.{BooksRight};

// After any list of calls that were answered by the book: each tick of a car's history has one written verdict, past
// MITL gives it to every part of that tick however finely all ticks are split, and each call was refused exactly when
// one of its faults held.
#[tactic(auto, using(crate::proofs::Right::books_right))]
pub fn books_are_right() -> u8
    ensures { (result ≡ 0) × (BooksRight) }
{
    0
}
