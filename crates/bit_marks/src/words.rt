//! Marks in words: mark d is bit d % 64 of word d / 64, bit 0 being the least. What a word's bits mean hangs on its
//! place, so functions take the place, `at`, and require that it is one of a word.
ghost use Rattle.std.specs.Prelude.{◌≡◌, ℕ, ◌+◌, ◌-◌, ◌*◌, ◌/◌, ◌^◌, ◌<◌, ◌≤◌, false, not, ◌&&◌, ◌||◌, if◌then◌else◌, Decides, nat_le, nat_lt, slice_index};
ghost use Rattle.mitl.specs.Formulas.{bit};
ghost use Rattle.mitl.specs.Memory.{stretches};
ghost use Rattle.bit_marks.specs.Marks.{marked, ends_by};

use std::array;
use std::ops::Range;

// Enough for a thousand marks.
const WORDS: usize = 16;

// Marks, of which those beyond the words are no.
#[derive(Clone, Copy)]
pub(crate) struct Marks {
    words: [u64; WORDS],
}

impl Marks {
    // All marks no.
    pub(crate) const NONE: Marks = Marks { words: [0; WORDS] };

    // Word `at`, which is zero beyond the words.
    fn word_at(&self, at: usize) -> u64
        ensures { result ≡ slice_index self.now.words at }
    {
        self.words.get(at).copied().unwrap_or(0)
    }

    // Mark d.
    pub(crate) fn mark(&self, d: usize) -> bool
        ensures { result ≡ marked self.now.words d }
    {
        has(self.word_at(d / 64), d % 64)
    }

    // Whether no mark of word `at` from mark b on is set.
    fn none_of_word(&self, b: usize, at: usize) -> bool
        requires { at < 16 }
        ensures { Decides result ((d : ℕ) → b ≤ d → d / 64 ≡ at → marked self.now.words d ≡ false) }
    {
        self.word_at(at) & !below(b, at) == 0
    }

    // Whether no mark from b on is set.
    pub(crate) fn all_below(&self, b: usize) -> bool
        ensures { result ≡ ends_by b self.now.words }
    {
        (b / 64..WORDS).all(|at| self.none_of_word(b, at))
    }

    // The 64 marks from place `by` of word `at` on, as a word.
    fn from_place(&self, at: usize, by: usize) -> u64
        requires near { at < 2 ^ 32 }
        requires inside { by < 64 }
        ensures { (k : ℕ) → k < 64 → bit k result ≡ marked self.now.words (64 * at + by + k) }
    {
        joined(self.word_at(at), self.word_at(at + 1), by)
    }

    // Word `at` of the marks moved down by n places.
    fn moved(&self, n: u32, at: usize) -> u64
        requires { at < 16 }
        ensures { (k : ℕ) → k < 64 → bit k result ≡ marked self.now.words (64 * at + n + k) }
    {
        self.from_place(at + n as usize / 64, n as usize % 64)
    }

    // Word `at` of the marks moved down by n places, where the marks of `reach` are set too.
    fn advanced_word(&self, n: u32, reach: &Range<usize>, at: usize) -> u64
        requires { at < 16 }
        ensures { (k : ℕ) → k < 64 → bit k result ≡ (marked self.now.words (64 * at + k + n) || (nat_le reach.now.start (64 * at + k) && nat_lt (64 * at + k) reach.now.end)) }
    {
        self.moved(n, at) | between(reach, at)
    }

    // The marks moved down by n places, those of `reach` set too, in the first `count` words; past these all marks are
    // no.
    pub(crate) fn advanced(&self, count: usize, n: u32, reach: &Range<usize>) -> Marks
        requires { count ≤ 16 }
        ensures kept { (d : ℕ) → d < 64 * count → marked result.words d ≡ (marked self.now.words (d + n) || (nat_le reach.now.start d && nat_lt d reach.now.end)) }
        ensures none { (d : ℕ) → 64 * count ≤ d → marked result.words d ≡ false }
    {
        let words = array::from_fn(|at| {
            if at < count {
                self.advanced_word(n, reach, at)
            } else {
                0
            }
        });
        Marks { words }
    }

    // Word `at` with the bits of the marks that end a stretch: they are yes, and the next is no.
    fn ends(&self, at: usize) -> u64
        requires { at < 16 }
        ensures { (k : ℕ) → k < 64 → bit k result ≡ (marked self.now.words (64 * at + k) && not (marked self.now.words (64 * at + 1 + k))) }
    {
        self.word_at(at) & !self.moved(1, at)
    }

    // How many unbroken stretches of yes end in word `at`.
    fn stretches_in(&self, at: usize) -> u32
        requires { at < 16 }
        ensures value { result ≡ stretches (marked self.now.words) (64 * at + 64) - stretches (marked self.now.words) (64 * at) }
        ensures few { result ≤ 64 }
    {
        self.ends(at).count_ones()
    }

    // How many unbroken stretches of yes end in the first `count` words.
    pub(crate) fn stretch_count(&self, count: usize) -> u32
        requires { count ≤ 16 }
        ensures { result ≡ stretches (marked self.now.words) (64 * count) }
    {
        (0..count).map(|at| self.stretches_in(at)).sum()
    }
}

// Whether bit k of the word is set.
fn has(word: u64, k: usize) -> bool
    requires { k < 64 }
    ensures { result ≡ bit k word }
{
    (word >> k) & 1 == 1
}

// Word `at` with the bits of the marks below `end`.
fn below(end: usize, at: usize) -> u64
    requires { at < 16 }
    ensures { (k : ℕ) → k < 64 → bit k result ≡ nat_lt (64 * at + k) end }
{
    let count = end.saturating_sub(64 * at);
    if count < 64 {
        (1 << count) - 1
    } else {
        u64::MAX
    }
}

// Word `at` with the bits of the marks of `reach`.
fn between(reach: &Range<usize>, at: usize) -> u64
    requires { at < 16 }
    ensures { (k : ℕ) → k < 64 → bit k result ≡ (nat_le reach.now.start (64 * at + k) && nat_lt (64 * at + k) reach.now.end) }
{
    below(reach.end, at) & !below(reach.start, at)
}

// The 64 bits from place `by` on of a low word and the high word after it.
fn joined(low: u64, high: u64, by: usize) -> u64
    requires { by < 64 }
    ensures { (k : ℕ) → k < 64 → bit k result ≡ (if nat_lt (k + by) 64 then bit (k + by) low else bit (k + by - 64) high) }
{
    if by == 0 {
        low
    } else {
        (low >> by) | (high << (64 - by))
    }
}
