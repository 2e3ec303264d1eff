//! Settled content: the content that this kind makes, and what each function of a window memory does with it.
ghost use Rattle.std.specs.Prelude.{◌≡◌, ◌*◌, ◌≤◌, true, ◌&&◌, if◌then◌else◌, nat_lt};
ghost use Rattle.mitl.specs.Memory.{clean, cleared, new_memory, took, ahead, Lasts, counted};
ghost use Rattle.bit_marks.specs.Marks.{meaning_of, served, sound};

use crate::words::Marks;
use crate::{BitMarks, serves};

// Content that this kind makes: the window is served, and no mark from b on is set.
#[derive(Clone, Copy)]
pub(crate) struct Settled {
    pub(crate) content: BitMarks,
    ghost made: { sound content ≡ true },
}

// Where the marks end that n ticks with this operand set: at b, or at 0 where they set none.
fn set_end(b: u32, operand: bool, n: u32) -> u32
    ensures { result ≡ (if operand && nat_lt 0 n then b else 0) }
{
    if operand && n > 0 { b } else { 0 }
}

impl Settled {
    // The content itself where this kind made it, else a new memory. A function with a name: as a conversion it would
    // hide that content gives way.
    pub(crate) fn of(content: BitMarks) -> Settled
        ensures { meaning_of result.content ≡ meaning_of content }
    {
        if serves(content.a, content.b) && content.marks.all_below(content.b as usize) {
            Settled { content }
        } else {
            Settled::fresh()
        }
    }

    // The window from a to b with all marks no.
    pub(crate) fn empty(a: u32, b: u32) -> Settled
        requires { served a b ≡ true }
        ensures { meaning_of result.content ≡ clean a b }
    {
        let marks = Marks::NONE;
        Settled {
            content: BitMarks { a, b, marks },
        }
    }

    // A new memory.
    pub(crate) fn fresh() -> Settled
        ensures { meaning_of result.content ≡ new_memory }
    {
        Settled::empty(0, 1)
    }

    // The window with all marks no.
    pub(crate) fn cleared(self) -> Settled
        ensures { meaning_of result.content ≡ cleared (meaning_of self.content) }
    {
        Settled::empty(self.content.a, self.content.b)
    }

    // Mark d.
    pub(crate) fn look(&self, d: u32) -> bool
        ensures { result ≡ (meaning_of self.now.content).mark d }
    {
        self.content.marks.mark(d as usize)
    }

    // How many words hold the marks below b.
    fn word_count(&self) -> usize
        ensures enough { self.now.content.b ≤ 64 * result }
        ensures within { result ≤ 16 }
    {
        self.content.b.div_ceil(64) as usize
    }

    // The content after n ticks at which the operand has this value.
    pub(crate) fn after(self, operand: bool, n: u32) -> Settled
        ensures { meaning_of result.content ≡ took operand n (meaning_of self.content) }
    {
        let BitMarks { a, b, marks } = self.content;
        // the marks from a - n on and below b are within reach of the ticks taken
        let first = a.saturating_sub(n) as usize;
        let end = set_end(b, operand, n) as usize;
        let marks = marks.advanced(self.word_count(), n, &(first..end));
        Settled {
            content: BitMarks { a, b, marks },
        }
    }

    // The verdict d ticks ahead, if the operand stays as it is.
    fn verdict(&self, operand: bool, d: u32) -> bool
        ensures { result ≡ ahead (meaning_of self.now.content).a operand (meaning_of self.now.content).mark d }
    {
        self.look(d) || operand && self.content.a <= d
    }

    // The verdict of the next tick and how long it lasts: from tick b on it is the operand.
    pub(crate) fn forecast(&self, operand: bool) -> (bool, Option<u32>)
        ensures next { result.0 ≡ ahead (meaning_of self.now.content).a operand (meaning_of self.now.content).mark 0 }
        ensures lasts { Lasts (ahead (meaning_of self.now.content).a operand (meaning_of self.now.content).mark) result.0 result.1 }
    {
        let next = self.verdict(operand, 0);
        let change = (1..self.content.b + 1).find(|d| self.verdict(operand, *d) != next);
        (next, change)
    }

    // How many unbroken stretches of yes there are.
    pub(crate) fn count(&self) -> u32
        ensures { result ≡ counted (meaning_of self.now.content) }
    {
        self.content.marks.stretch_count(self.word_count())
    }
}
