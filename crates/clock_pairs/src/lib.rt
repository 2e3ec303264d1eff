//! Clock pairs: the window memory that holds the episodes of its operand, each by the ages of its rise and its fall.
//!
//! An episode is one unbroken stretch of yes ticks. It reaches the ticks ahead from `a - rise` on and before
//! `b - fall`. It is dropped once its fall is b ticks old, and a gap of at most b - a ticks is erased, since the marks
//! show no gap then. So the episodes are the stretches of the outlook, and a served window never has more than 32.

#![tactic(auto)]

ghost use Rattle.std.specs.Prelude.{◌≡◌, ◌+◌, ◌-◌, ◌<◌, ◌≤◌, min, Bool, true, false, ◌⊎◌, [], ◌∷◌, ◌++◌, length, take, drop, replicate, nat_le, MatchOption, IfSome};
ghost use Rattle.clock_pairs.specs.Episodes.{aged, apart, covers, episode, lasting, older, reached, served, vacant};
ghost use Rattle.clock_pairs.specs.Meanings.{goes_on, held, holding, meaning_of, sound, told};
ghost use Rattle.mitl.specs.Memory.{ahead, cleared, counted, Lasts, most_stretches_lem, took};
ghost use Rattle.clock_pairs.specs.ClockPairsMemoryLemmas.{past};
ghost use Rattle.std.proofs.Common.{rules};

use window::{Admission, WindowMemory};

// The most episodes that a memory holds.
const MOST: usize = 32;

// The ticks of a day: no window looks back further.
const DAY: u32 = 864_000;

// One unbroken stretch of yes ticks of the operand.
#[derive(Clone, Copy)]
struct Episode {
    // the age of its first yes tick, in ticks
    rise: u32,
    // the ticks taken since its last yes tick: 0 while the operand is yes
    fall: u32,
}

// A served window, from a to b.
#[derive(Clone, Copy)]
struct Window {
    a: u32,
    b: u32,
    ghost is_served: { served a b ≡ true },
}

// A window from a to b and its episodes: a plain record with fixed places and a count, since a memory is `Copy`, lies
// in a lent list, and means something with any content.
#[derive(Clone, Copy)]
pub struct ClockPairs {
    a: u32,
    b: u32,
    // how many episodes there are
    len: u32,
    // the episodes, newest first; the places behind them are vacant
    episodes: [Episode; MOST],
}

// Content that this kind made, lent for reading: a served window and its episodes, newest first.
#[derive(Clone, Copy)]
struct Settled<'a> {
    window: Window,
    episodes: &'a [Episode],
    ghost gaps: { apart window.a window.b 0 episodes.now ≡ true },
}

// Content that this kind made, lent to be changed.
#[derive(Drop)]
struct SettledMut<'a> {
    pairs: &'a mut ClockPairs,
    ghost sound: { sound pairs.now ≡ true },
}

// An age n ticks on: once it has reached b it stays at b.
fn grown(age: u32, n: u32, b: u32) -> u32
    ensures { result ≡ min b (age + n) }
{
    age.saturating_add(n).min(b)
}

impl Episode {
    // What a place without an episode holds.
    const VACANT: Episode = Episode { rise: 0, fall: 0 };

    // The episode n ticks on.
    fn grow(self, n: u32, b: u32) -> Episode
        ensures { result ≡ older b n self }
    {
        Episode {
            rise: grown(self.rise, n, b),
            fall: grown(self.fall, n, b),
        }
    }

    // The first tick ahead within its reach.
    fn start(self, a: u32) -> u32
        ensures { result ≡ a - self.rise }
    {
        a.saturating_sub(self.rise)
    }

    // The first tick ahead past its reach.
    fn end(self, b: u32) -> u32
        ensures { result ≡ b - self.fall }
    {
        b.saturating_sub(self.fall)
    }

    // Whether the tick d ahead is within its reach.
    fn reaches(self, window: Window, d: u32) -> bool
        ensures { result ≡ covers window.a window.b self d }
    {
        self.start(window.a) <= d && d < self.end(window.b)
    }
}

// Whether the window from a to b never has more than 32 episodes: each takes b - a + 2 ticks at least.
fn has_room(a: u32, b: u32) -> bool
    requires { (a ≤ b) × (0 < b) × (b ≤ 864000) }
    ensures { result ≡ nat_le (most_stretches_lem a b) 32 }
{
    b - 1 < 32 * (b - a + 2)
}

// Whether the window from a to b is served.
fn serves(a: u32, b: u32) -> bool
    ensures { result ≡ served a b }
{
    a < b && b <= DAY && has_room(a, b)
}

// Whether no place holds an episode. The numbers are joined without a branch: places compared one by one with
// `Episode::VACANT` took twice as long.
fn all_vacant(places: &[Episode]) -> bool
    ensures { result ≡ vacant places.now }
{
    places
        .iter()
        .fold(0, |any, place| any | place.rise | place.fall)
        == 0
}

// The episodes in the first `len` places, from place `from` on, n ticks on where they stand and without those that fell
// b ticks ago: how many places are in use then. The places behind those are empty up to `len`.
fn age(places: &mut [Episode], from: u32, len: u32, n: u32, b: u32) -> u32
    requires { (from ≤ len) × (len ≤ length places.old) }
    ensures many { result ≡ length (aged b n from (take len places.old)) }
    ensures stand { places.new ≡ aged b n from (take len places.old) ++ (replicate (len - result) (episode 0 0) ++ drop len places.old) }
{
    let mut used = from;
    // by index: an iterator over the places would not let the earlier ones be written
    for i in from as usize..len as usize {
        let e = places[i].grow(n, b);
        places[i] = Episode::VACANT;
        if e.fall < b {
            places[used as usize] = e;
            used += 1;
        }
    }
    used
}

// The verdict of the next tick and how long it lasts, without an episode.
fn idle(a: u32, operand: bool) -> (bool, Option<u32>)
    ensures { Lasts (ahead a operand (λ _. false)) result.0 result.1 }
{
    if !operand {
        (false, None)
    } else if a == 0 {
        (true, None)
    } else {
        (false, Some(a))
    }
}

impl Window {
    // The window from a to b, if it is served.
    fn new(a: u32, b: u32) -> Option<Window>
        ensures { MatchOption result (served a b ≡ false) (λ w. (served a b ≡ true) × (w.a ≡ a) × (w.b ≡ b)) }
    {
        if serves(a, b) {
            Some(Window { a, b })
        } else {
            None
        }
    }

    // Whether the episodes are newest first, none older than b, with gaps longer than b - a ticks.
    fn orders(self, episodes: &[Episode]) -> bool
        ensures { result ≡ apart self.a self.b 0 episodes.now }
    {
        let mut low = 0;
        for e in episodes {
            if e.fall < low || e.rise <= e.fall || self.b < e.rise {
                return false;
            }
            low = e.rise + (self.b - self.a) + 1;
        }
        true
    }
}

impl Settled<'_> {
    // Whether an episode reaches the tick d ahead.
    fn marks(&self, d: u32) -> bool
        ensures { result ≡ reached self.now.window.a self.now.window.b self.now.episodes.now d }
    {
        self.episodes.iter().any(|e| e.reaches(self.window, d))
    }

    // The verdict of the next tick and how long it lasts: the oldest episode tells.
    fn forecast(&self, operand: bool) -> (bool, Option<u32>)
        ensures { Lasts (ahead self.now.window.a operand (reached self.now.window.a self.now.window.b self.now.episodes.now)) result.0 result.1 }
    {
        let Some(oldest) = self.episodes.last() else {
            return idle(self.window.a, operand);
        };
        let start = oldest.start(self.window.a);
        let end = oldest.end(self.window.b);
        if start > 0 {
            (false, Some(start))
        } else if operand && self.window.a <= end {
            (true, None)
        } else {
            (true, Some(end))
        }
    }

    // How many episodes there are.
    fn count(&self) -> u32
        ensures counts { result ≡ counted (told self.now.window.a self.now.window.b self.now.episodes.now) }
        ensures few { result ≤ most_stretches_lem self.now.window.a self.now.window.b }
    {
        self.episodes.len() as u32
    }
}

impl ClockPairs {
    // The window without an episode.
    fn empty(window: Window) -> ClockPairs
        ensures { result ≡ holding window.a window.b [] }
    {
        ClockPairs {
            a: window.a,
            b: window.b,
            len: 0,
            episodes: [Episode::VACANT; MOST],
        }
    }

    // A new memory.
    fn fresh() -> ClockPairs
        ensures { result ≡ holding 0 1 [] }
    {
        ClockPairs::empty(Window { a: 0, b: 1 })
    }

    // The window and its episodes, if this kind made the content.
    fn settled(&self) -> Option<Settled<'_>>
        ensures made { MatchOption result (sound self.now ≡ false) (λ _. sound self.now ≡ true) }
        ensures means { IfSome result (λ s. meaning_of self.now ≡ told s.window.a s.window.b s.episodes.now) }
    {
        let window = Window::new(self.a, self.b)?;
        let (episodes, rest) = self.episodes.split_at_checked(self.len as usize)?;
        if window.orders(episodes) && all_vacant(rest) {
            Some(Settled { window, episodes })
        } else {
            None
        }
    }

    // The episodes from place `from` on are n ticks on, without those that fell b ticks ago.
    fn grow_old(&mut self, from: u32, n: u32)
        requires { (from ≤ self.old.len) × (self.old.len ≤ 32) }
        ensures window { (self.new.a ≡ self.old.a) × (self.new.b ≡ self.old.b) }
        ensures many { self.new.len ≡ length (aged self.old.b n from (held self.old)) }
        ensures stand { self.new.episodes ≡ aged self.old.b n from (held self.old) ++ (replicate (self.old.len - self.new.len) (episode 0 0) ++ drop self.old.len self.old.episodes) }
    {
        let len = self.len;
        let b = self.b;
        self.len = age(&mut self.episodes, from, len, n, b);
    }

    // Puts an episode in front of the others.
    fn put_first(&mut self, e: Episode)
        requires { self.old.len < 32 }
        ensures window { (self.new.a ≡ self.old.a) × (self.new.b ≡ self.old.b) }
        ensures many { self.new.len ≡ self.old.len + 1 }
        ensures stand { self.new.episodes ≡ (e ∷ held self.old) ++ drop (self.old.len + 1) self.old.episodes }
    {
        self.episodes.copy_within(..self.len as usize, 1);
        self.episodes[0] = e;
        self.len += 1;
    }

    // Content that this kind did not make gives way to a new memory.
    fn settle(&mut self) -> SettledMut<'_>
        ensures same { result.pairs.ghost_name ≡ self.entry.ghost_name }
        ensures means { meaning_of result.pairs.now ≡ meaning_of self.old }
    {
        if self.settled().is_none() {
            *self = ClockPairs::fresh();
        }
        SettledMut { pairs: self }
    }

    // Takes n ticks at which the operand has this value.
    fn tell(&mut self, operand: bool, n: u32)
        ensures { meaning_of self.new ≡ took operand n (meaning_of self.old) }
    {
        let settled = self.settle();
        if !operand || n == 0 {
            settled.take_no(n);
        } else if settled.goes_on() {
            settled.take_on(n);
        } else {
            settled.take_rise(n);
        }
    }

    // Forgets the episodes.
    fn forget(&mut self)
        ensures { meaning_of self.new ≡ cleared (meaning_of self.old) }
    {
        *self = match self.settled() {
            Some(settled) => ClockPairs::empty(settled.window),
            None => ClockPairs::fresh(),
        };
    }

    // The reply on the run that begins. By a match, as in the two below: with `map_or` and `is_some_and` their proofs did
    // not close.
    fn reply(&self, operand: bool) -> (bool, Option<u32>)
        ensures next { result.0 ≡ ahead (meaning_of self.now).a operand (meaning_of self.now).mark 0 }
        ensures lasts { Lasts (ahead (meaning_of self.now).a operand (meaning_of self.now).mark) result.0 result.1 }
    {
        match self.settled() {
            Some(settled) => settled.forecast(operand),
            None => idle(0, operand),
        }
    }

    // The mark of the tick d ahead.
    fn mark(&self, d: u32) -> bool
        ensures { result ≡ (meaning_of self.now).mark d }
    {
        match self.settled() {
            Some(settled) => settled.marks(d),
            None => false,
        }
    }

    // How many episodes there are.
    fn size(&self) -> u32
        ensures counts { result ≡ counted (meaning_of self.now) }
        ensures few { result ≤ most_stretches_lem (meaning_of self.now).a (meaning_of self.now).b }
    {
        match self.settled() {
            Some(settled) => settled.count(),
            None => 0,
        }
    }
}

impl SettledMut<'_> {
    // Whether a yes goes on with the newest episode: that fell at most b - a ticks ago, so that the gap is erased.
    fn goes_on(&self) -> bool
        ensures { result ≡ goes_on self.now.pairs.now }
    {
        let pairs = &*self.pairs;
        pairs.len > 0 && pairs.episodes[0].fall <= pairs.b - pairs.a
    }

    // Takes n ticks at which the operand is no, or none.
    fn take_no(self, n: u32)
        ensures { (v : Bool) → (v ≡ false) ⊎ (n ≡ 0) → meaning_of self.exit.0.now ≡ took v n (meaning_of self.entry.pairs.now) }
    {
        let SettledMut { pairs } = self;
        pairs.grow_old(0, n);
    }

    // Takes n ticks, n at least 1, at which the operand is yes and goes on with the newest episode.
    fn take_on(self, n: u32)
        requires ticks { 0 < n }
        requires on { true ≡ goes_on self.pairs.now }
        ensures { meaning_of self.exit.0.now ≡ took true n (meaning_of self.entry.pairs.now) }
    {
        let SettledMut { pairs } = self;
        let rise = grown(pairs.episodes[0].rise, n, pairs.b);
        pairs.episodes[0] = Episode { rise, fall: 0 };
        pairs.grow_old(1, n);
    }

    // Takes n ticks, n at least 1, at which the operand is yes and a new episode rises.
    fn take_rise(self, n: u32)
        requires ticks { 0 < n }
        requires new { false ≡ goes_on self.pairs.now }
        ensures { meaning_of self.exit.0.now ≡ took true n (meaning_of self.entry.pairs.now) }
    {
        let SettledMut { pairs } = self;
        let rise = grown(0, n, pairs.b);
        pairs.grow_old(0, n);
        pairs.put_first(Episode { rise, fall: 0 });
    }
}

impl Admission for ClockPairs {
    ghost admitted = { served };

    fn admits(a: u32, b: u32) -> bool {
        serves(a, b)
    }
}

// Thin over private functions with the same contracts, which carry the proofs: so a wrong one fails at its own place.
impl WindowMemory for ClockPairs {
    ghost meaning = { meaning_of };

    ghost floor = { Prim.search rules };

    ghost ceiling = { Prim.search rules };

    ghost within = { λ m d le. past (sound m) m.a m.b d (held m) le };

    fn new() -> ClockPairs {
        ClockPairs::fresh()
    }

    fn prepare(&mut self, a: u32, b: u32) -> bool {
        let Some(window) = Window::new(a, b) else {
            return false;
        };
        *self = ClockPairs::empty(window);
        true
    }

    fn clear(&mut self) {
        self.forget();
    }

    fn look(&self, d: u32) -> bool {
        self.mark(d)
    }

    fn take(&mut self, operand: bool, n: u32) {
        self.tell(operand, n);
    }

    fn run(&self, operand: bool) -> (bool, Option<u32>) {
        self.reply(operand)
    }

    // There are never more stretches than the window can have, and so never more episodes.
    fn count(&self) -> u32
        ensures value { result ≡ counted (meaning_of self.now) }
        ensures few { result ≤ most_stretches_lem (meaning_of self.now).a (meaning_of self.now).b }
    {
        self.size()
    }
}
