//! The lines that go out. They are laid out here and not by the standard library's formatting: what formatting is
//! promised to write it may also refuse to write, so nothing would say that a line is made whole.
ghost use Rattle.std.specs.Prelude.{◌≡◌, ◌+◌, ◌<◌, ◌≤◌, [], ◌∷◌, ◌++◌, length, drop, decimal};
ghost use Rattle.line.specs.Lines.{numbers_line};
ghost use Rattle.line.specs.Texts.{text_line};

use plan::Counts;
use record::{Car, Note};
use refusal::Refusal;

// The bytes of the longest line: a letter, three numbers of a space and twenty digits each, and a line feed.
const ROOM: usize = 65;

// What a line tells: a note, a car that restarted or ended, a table that stands now, or a refusal.
#[derive(Clone, Copy)]
pub enum Text {
    Note(Note),
    Car(Car),
    Counts(Counts),
    Refusal(Refusal),
}

// A line laid out, put together from its end: it stands in the bytes from `start` on.
#[derive(Drop)]
pub struct Layout {
    bytes: [u8; ROOM],
    start: usize,
    ghost within: { start ≤ 65 },
}

impl Text {
    // The line, with its end.
    pub fn laid_out(self) -> Layout
        ensures { drop result.start result.bytes ≡ text_line self }
    {
        match self {
            Text::Note(Note { car, word, ticks }) => Layout::of(
                b'V',
                &[u64::from(car.number), u64::from(word), u64::from(ticks)],
            ),
            Text::Car(Car { number }) => Layout::of(b'K', &[u64::from(number)]),
            Text::Counts(Counts { rows, rules, timed }) => {
                Layout::of(b'T', &[rows as u64, rules as u64, timed as u64])
            }
            Text::Refusal(Refusal { number, place }) => {
                Layout::of(b'X', &[u64::from(number), u64::from(place)])
            }
        }
    }
}

impl Layout {
    // An empty line.
    fn new() -> Layout
        ensures start { result.start ≡ 65 }
        ensures line { drop result.start result.bytes ≡ [] }
    {
        Layout {
            bytes: [0; ROOM],
            start: ROOM,
        }
    }

    // Puts a byte before the line.
    fn put(&mut self, byte: u8)
        requires { 0 < self.old.start }
        ensures start { self.new.start + 1 ≡ self.old.start }
        ensures line { drop self.new.start self.new.bytes ≡ byte ∷ drop self.old.start self.old.bytes }
    {
        self.start -= 1;
        self.bytes[self.start] = byte;
    }

    // Puts a space and a decimal number before the line, the last digit first.
    fn number(&mut self, number: u64)
        requires { 21 ≤ self.old.start }
        ensures start { self.old.start ≤ self.new.start + 21 }
        ensures line { drop self.new.start self.new.bytes ≡ 32 ∷ (decimal number ++ drop self.old.start self.old.bytes) }
    {
        let mut at = self.start;
        let mut left = number;
        loop {
            at -= 1;
            self.bytes[at] = b'0' + (left % 10) as u8;
            left /= 10;
            if left == 0 {
                break;
            }
        }
        self.start = at;
        self.put(b' ');
    }

    // The line of a letter and up to three numbers.
    fn of(letter: u8, numbers: &[u64]) -> Layout
        requires { length numbers.now ≤ 3 }
        ensures { drop result.start result.bytes ≡ letter ∷ numbers_line numbers.now }
    {
        let mut line = Layout::new();
        line.put(b'\n');
        for number in numbers.iter().rev() {
            line.number(*number);
        }
        line.put(letter);
        line
    }

    // The line's bytes.
    pub fn bytes(&self) -> &[u8]
        ensures { result.now ≡ drop self.now.start self.now.bytes }
    {
        &self.bytes[self.start..]
    }
}
