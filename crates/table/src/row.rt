//! One row of a table: its fields, and what is wrong with it.
ghost use Rattle.std.specs.Prelude.{◌≡◌, ℕ, ◌+◌, ◌<◌, ◌≤◌, true, false, not, ◌&&◌, ◌||◌, length, is_some, ◌==◌, nat_lt};
ghost use Rattle.std.specs.Result.{result_ok};
ghost use Rattle.mitl.specs.Windows.{sound_window};
ghost use Rattle.plan.specs.Places.{place_among_lem};
ghost use Rattle.table.specs.Drafts.{taken_rows, taken_numbers};
ghost use Rattle.table.specs.Faults.{rule_used};
ghost use Rattle.table.specs.Layout.{fields_from, fields_of, row_start};
ghost use Rattle.table.specs.Steps.{Meant, Judged, Stepped, named};
ghost use Rattle.table.specs.Letters.{letter_from, left_used, right_used, window_used, rule_letter, number_end_lem, well_filled_lem};

use crate::draft::Draft;
use crate::fault::RowFault;
use mitl::Row;
use plan::is_sound_window;
use window::Admission;

// The letter of a row.
#[derive(Clone, Copy)]
pub enum Letter {
    P,
    N,
    A,
    O,
    D,
    B,
    S,
    R,
}

// A row as its sixteen bytes have it.
#[derive(Clone, Copy)]
pub struct Fields {
    // as it stands in the row: a char, matched against literals where a `Letter` is made of it
    pub letter: char,
    pub number: u8,
    pub left: u8,
    pub right: u8,
    pub next: u8,
    // The three zero bytes are zero: a test and not the bytes, since nothing else is asked of them.
    pub blank: bool,
    pub a: u32,
    pub b: u32,
}

// Sixteen bytes by their fields.
fn apart(part: &[u8]) -> Fields
    requires { length part.now ≡ 16 }
    ensures { result ≡ fields_from part.now }
{
    let [
        letter,
        number,
        left,
        right,
        next,
        z2,
        z1,
        z0,
        a3,
        a2,
        a1,
        a0,
        b3,
        b2,
        b1,
        b0,
    ] = part
    else {
        return unreachable();
    };
    Fields {
        letter: *letter as char,
        number: *number,
        left: *left,
        right: *right,
        next: *next,
        blank: *z2 == 0 && *z1 == 0 && *z0 == 0,
        a: u32::from_be_bytes([*a3, *a2, *a1, *a0]),
        b: u32::from_be_bytes([*b3, *b2, *b1, *b0]),
    }
}

// A character that is no letter of a row.
#[derive(Clone, Copy)]
pub struct UnknownLetter;

impl TryFrom<char> for Letter {
    type Error = UnknownLetter;

    ghost try_from_gives = { λ c r. result_ok r ≡ letter_from c };

    fn try_from(c: char) -> Result<Letter, UnknownLetter> {
        match c {
            'P' => Ok(Letter::P),
            'N' => Ok(Letter::N),
            'A' => Ok(Letter::A),
            'O' => Ok(Letter::O),
            'D' => Ok(Letter::D),
            'B' => Ok(Letter::B),
            'S' => Ok(Letter::S),
            'R' => Ok(Letter::R),
            _ => Err(UnknownLetter),
        }
    }
}

impl Letter {
    fn uses_left(self) -> bool
        ensures { result ≡ left_used self }
    {
        !matches!(self, Letter::P)
    }

    fn uses_right(self) -> bool
        ensures { result ≡ right_used self }
    {
        matches!(self, Letter::A | Letter::O | Letter::S)
    }

    fn uses_window(self) -> bool
        ensures { result ≡ window_used self }
    {
        matches!(self, Letter::D | Letter::B | Letter::S)
    }

    fn is_rule(self) -> bool
        ensures { result ≡ rule_letter self }
    {
        matches!(self, Letter::R)
    }

    // The number is below this.
    fn number_end(self) -> u8
        ensures { result ≡ number_end_lem self }
    {
        match self {
            Letter::P => 32,
            Letter::R => 16,
            _ => 1,
        }
    }
}

impl Fields {
    // The fields of a row of the table.
    pub(crate) fn of_row(bytes: &[u8], row: u8) -> Fields
        requires { (1 ≤ row) × (row_start row + 16 ≤ length bytes.now) }
        ensures { result ≡ fields_of bytes.now row }
    {
        let start = 8 + 16 * (row as usize - 1);
        apart(&bytes[start..start + 16])
    }
}

// A row with a known letter.
#[derive(Clone, Copy)]
pub struct Entry {
    pub letter: Letter,
    pub fields: Fields,
}

impl Entry {
    // The number in its range, and each unused field and the zero bytes zero.
    fn is_well_filled(self) -> bool
        ensures { result ≡ well_filled_lem self.letter self.fields }
    {
        let Entry { letter, fields } = self;
        fields.number < letter.number_end()
            && (letter.uses_left() || fields.left == 0)
            && (letter.uses_right() || fields.right == 0)
            && (letter.uses_window() || (fields.a == 0 && fields.b == 0))
            && fields.blank
    }

    // Whether the memory kind refuses its window: the one place where a kind is asked.
    fn is_refused<A: Admission>(self) -> bool
        ensures { result ≡ (window_used self.letter && not (A.admitted self.fields.a self.fields.b)) }
    {
        self.letter.uses_window() && !A::admits(self.fields.a, self.fields.b)
    }

    // Whether it is timed and has no window that a table may have.
    fn has_no_window(self) -> bool
        ensures { result ≡ (window_used self.letter && not (sound_window self.fields.a self.fields.b)) }
    {
        self.letter.uses_window() && !is_sound_window(self.fields.a, self.fields.b)
    }

    // Whether it is a rule whose number has been used.
    fn is_used_rule(self, draft: &Draft) -> bool
        ensures { result ≡ (rule_letter self.letter && rule_used (taken_rows draft.now) self.fields.number) }
    {
        self.letter.is_rule() && draft.has_rule(self.fields.number)
    }

    // Whether its next is no row that may come: above `told`, row `at` itself, or a row that was taken.
    fn has_no_next(self, draft: &Draft, told: u8, at: u8) -> bool
        ensures { result ≡ (nat_lt told self.fields.next || (self.fields.next == at || is_some (place_among_lem (taken_numbers draft.now) self.fields.next))) }
    {
        let next = self.fields.next;
        next > told || next == at || draft.has(next)
    }

    // The row that is to come next: none where the number is zero.
    fn next(self) -> Option<u8>
        ensures { result ≡ named self.fields.next }
    {
        match self.fields.next {
            0 => None,
            row => Some(row),
        }
    }

    // What it says, if its operands are rows that were taken and are no rules. An operand is looked for only where the
    // letter uses it: one that is not used is zero, the number of no row, and would be looked for along the whole chain.
    fn meant(self, draft: &Draft) -> Option<Row>
        ensures { Meant draft.now self result }
    {
        let Fields { number, a, b, .. } = self.fields;
        let left = if self.letter.uses_left() {
            draft.operand(self.fields.left)
        } else {
            None
        };
        let right = if self.letter.uses_right() {
            draft.operand(self.fields.right)
        } else {
            None
        };
        let row = match self.letter {
            Letter::P => Row::Input { bit: number },
            Letter::N => Row::Not { left: left? },
            Letter::A => Row::And {
                left: left?,
                right: right?,
            },
            Letter::O => Row::Or {
                left: left?,
                right: right?,
            },
            Letter::D => Row::Once { left: left?, a, b },
            Letter::B => Row::Always { left: left?, a, b },
            Letter::S => Row::Since {
                left: left?,
                right: right?,
                a,
                b,
            },
            Letter::R => Row::Rule {
                number,
                left: left?,
            },
        };
        Some(row)
    }

    // What it says as row `at`, or its first fault; `told` is the table's row count.
    fn judged<A: Admission>(self, draft: &Draft, told: u8, at: u8) -> Result<Row, RowFault>
        ensures { Judged A.admitted told draft.now at self result }
    {
        if !self.is_well_filled() {
            return Err(RowFault::Field(at));
        }
        let row = self.meant(draft).ok_or(RowFault::Operand(at))?;
        if self.has_no_window() {
            return Err(RowFault::Window(at));
        }
        if self.is_used_rule(draft) {
            return Err(RowFault::Used(at));
        }
        if self.is_refused::<A>() {
            return Err(RowFault::Limit(at));
        }
        if self.has_no_next(draft, told, at) {
            return Err(RowFault::Next(at));
        }
        Ok(row)
    }
}

// A row that was taken, and the number of the next.
#[derive(Clone, Copy)]
pub struct Step {
    pub row: Row,
    pub next: Option<u8>,
}

// Row `at` of the table after the rows of the draft, or its first fault; `told` is the table's row count. The three go
// down to the test of the next row one by one: the count is the table's, the draft grows, and the row is each time another.
pub(crate) fn take<A: Admission>(
    bytes: &[u8],
    told: u8,
    draft: &Draft,
    at: u8,
) -> Result<Step, RowFault>
    requires { (1 ≤ at) × (row_start at + 16 ≤ length bytes.now) }
    ensures { Stepped A.admitted told draft.now bytes.now at result }
{
    let fields = Fields::of_row(bytes, at);
    let letter = Letter::try_from(fields.letter).map_err(|_| RowFault::Letter(at))?;
    let entry = Entry { letter, fields };
    let row = entry.judged::<A>(draft, told, at)?;
    Ok(Step {
        row,
        next: entry.next(),
    })
}
