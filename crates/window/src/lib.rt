//! The window memory: an interface with several kinds behind it.
//!
//! A window memory serves one timed row of one car. It means a window, a to b, and its outlook: b marks, of which
//! mark d tells whether the tick d ahead, 0 being the next, is already within reach of a yes taken earlier.
//! Each kind says by `meaning` what its content means, and every contract speaks of that meaning alone, so that
//! code above is proved once for all kinds. No kind has an invariant in its type: content that a kind never
//! makes means a new memory.

#![tactic(auto)]

ghost use Rattle.std.specs.Prelude.{◌≡◌, Bool, true, false, cond, ℕ, ◌<◌, ◌≤◌};
ghost use Rattle.mitl.specs.Memory.{Meaning, clean, new_memory, cleared, took, ahead, Lasts, counted};
ghost use Rattle.mitl.specs.Windows.{sound_window};

// Which windows are served.
pub trait Admission {
    ghost admitted: { ℕ → ℕ → Bool };

    // Whether the window from a to b is served: always the same reply. The two numbers go by themselves, as a row of a
    // table has them: no window is known to be sound before a kind was asked.
    fn admits(a: u32, b: u32) -> bool
        ensures { result ≡ admitted a b };
}

pub trait WindowMemory: Copy + Admission {
    ghost meaning: { Self → Meaning };

    // A new memory: the window 0 to 1, its mark no.
    fn new() -> Self
        ensures { meaning result ≡ new_memory };

    // Makes an admitted window stand with all marks no and says yes; else says no and the memory stays as it was.
    fn prepare(&mut self, a: u32, b: u32) -> bool
        ensures value { result ≡ Self.admitted a b }
        ensures accepted { result ≡ true → meaning self.new ≡ clean a b }
        ensures refused { result ≡ false → self.new ≡ self.old };

    // Makes all marks no; the window stays.
    fn clear(&mut self)
        ensures { meaning self.new ≡ cleared (meaning self.old) };

    // Mark d, which is no from b on.
    fn look(&self, d: u32) -> bool
        ensures { result ≡ (meaning self.now).mark d };

    // Takes n ticks at which the operand has this value.
    fn take(&mut self, operand: bool, n: u32)
        ensures { meaning self.new ≡ took operand n (meaning self.old) };

    // The verdict of the next tick, and for how many ticks it lasts if the operand keeps this value from now on:
    // `None` where it never changes. A pair, which the step that looks for the shortest length takes apart.
    fn run(&self, operand: bool) -> (bool, Option<u32>)
        ensures next { result.0 ≡ ahead (meaning self.now).a operand (meaning self.now).mark 0 }
        ensures lasts { Lasts (ahead (meaning self.now).a operand (meaning self.now).mark) result.0 result.1 };

    // The number of unbroken stretches of yes marks.
    fn count(&self) -> u32
        ensures { result ≡ counted (meaning self.now) };

    // the short windows from zero are always admitted
    ghost floor: { (b : ℕ) → 1 ≤ b → b ≤ 64 → Self.admitted 0 b ≡ true };

    // only windows that a table may have are admitted
    ghost ceiling: { (a b : ℕ) → Self.admitted a b ≡ true → sound_window a b ≡ true };

    // there are b marks: past them there is no yes
    ghost within: { (m : Self) (d : ℕ) → (meaning m).b ≤ d → (meaning m).mark d ≡ false };
}
