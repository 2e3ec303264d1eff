//! The record layer: cars, the twelve-byte record, and the note of a verdict.
//!
//! Unit and desk share this codec. A record is letter, a zero byte, car (2 bytes), length (4) and word (4), and
//! numbers have the most significant byte first at both ends.

#![tactic(auto)]

ghost use Rattle.std.specs.Prelude.{◌≡◌, Bool, true, false, Some, None};
ghost use Rattle.refusal.specs.Faults.{refusal, first_fault};
ghost use Rattle.record.specs.Cars.{same_car, car_place};
ghost use Rattle.record.specs.Layout.{two, two_at, bytes_of, known, length_ok, word_ok, is_R, is_E};
ghost use Rattle.record.specs.Shown.{record_text};
ghost use Rattle.record.specs.Replies.{refusal_of, Apart, Checked, CheckedFields, Read, Written, Back, Passed, Order};

use refusal::Refusal;
use std::fmt;

// The longest length of a record: a day of ticks. (That a window ends within a day is a rule of tables.)
const DAY: u32 = 864_000;

// A car's identity.
#[derive(Clone, Copy, PartialEq, Eq, PartialOrd, Ord, Debug)]
pub struct Car {
    pub number: u16,
}

impl Car {
    // The identity that no car has.
    pub const NONE: Car = Car { number: 0 };

    // A car from its two bytes. Named like the numbers' own from_be_bytes: From would not say which byte is first.
    pub fn from_bytes(bytes: [u8; 2]) -> Car
        ensures { result.number ≡ two_at bytes 0 }
    {
        Car {
            number: u16::from_be_bytes(bytes),
        }
    }

    // A car's two bytes.
    pub fn to_bytes(self) -> [u8; 2]
        ensures value { result ≡ two self.number }
        ensures order { Order }
    {
        self.number.to_be_bytes()
    }

    // Whether two cars are one: what == says, with a contract of its own for it.
    pub fn is(self, other: Car) -> bool
        ensures { result ≡ same_car self other }
    {
        self == other
    }

    // The car as the place of a refusal.
    pub fn place(self) -> u32
        ensures { result ≡ car_place self }
    {
        u32::from(self.number)
    }
}

// A verdict word that a car's rules had for some ticks in a row.
#[derive(Clone, Copy, PartialEq, Eq, Debug)]
pub struct Note {
    pub car: Car,
    pub word: u16,
    pub ticks: u32,
}

// What came down the line: R restart, I inputs, E end or V verdict.
#[derive(Clone, Copy, PartialEq, Eq, Debug)]
pub struct Record {
    // as it comes down the line: a char, which each layer matches against literals
    pub letter: char,
    pub car: Car,
    // the record's length
    pub ticks: u32,
    pub word: u32,
}

impl fmt::Display for Record {
    ghost output = { record_text };

    fn fmt<W: fmt::Write>(&self, f: &mut fmt::Formatter<W>) -> fmt::Result {
        let car = self.car.number;
        let ticks = self.ticks;
        let word = self.word;
        match self.letter {
            'R' => write!(f, "R restart car {car}"),
            'E' => write!(f, "E end car {car}"),
            'V' => write!(f, "V verdict car {car} word {word:04x} for {ticks}"),
            _ => write!(f, "I inputs car {car} word {word:08x} for {ticks}"),
        }
    }
}

// Why bytes are no record, or a record cannot be written.
#[derive(Clone, Copy, PartialEq, Eq, Debug)]
pub enum RecordFault {
    NotTwelve,
    UnknownLetter,
    BadZero,
    BadCar,
    BadLength,
    BadWord,
    NoRoom,
}

// The number and place of a fault.
impl From<RecordFault> for Refusal {
    ghost from_gives = { λ x r. r ≡ refusal_of x };

    fn from(fault: RecordFault) -> Refusal {
        match fault {
            RecordFault::NotTwelve => Refusal::new(14, 0),
            RecordFault::UnknownLetter => Refusal::new(15, 0),
            RecordFault::BadZero => Refusal::new(16, 1),
            RecordFault::BadCar => Refusal::new(16, 2),
            RecordFault::BadLength => Refusal::new(16, 4),
            RecordFault::BadWord => Refusal::new(16, 8),
            RecordFault::NoRoom => Refusal::new(22, 0),
        }
    }
}

fn is_known(letter: char) -> bool
    ensures { result ≡ known letter }
{
    matches!(letter, 'R' | 'I' | 'E' | 'V')
}

fn length_fits(letter: char, ticks: u32) -> bool
    ensures { result ≡ length_ok letter ticks }
{
    match letter {
        'R' | 'E' => ticks == 0,
        _ => ticks > 0 && ticks <= DAY,
    }
}

fn word_fits(letter: char, word: u32) -> bool
    ensures { result ≡ word_ok letter word }
{
    match letter {
        'R' | 'E' => word == 0,
        'V' => word <= 65_535,
        _ => true,
    }
}

// A record and its zero byte, taken apart and not yet checked.
fn apart(bytes: &[u8]) -> Option<(u8, Record)>
    ensures { Apart bytes.now result }
{
    let [letter, zero, c1, c0, rest @ ..] = bytes else {
        return None;
    };
    let [l3, l2, l1, l0, w3, w2, w1, w0] = rest else {
        return None;
    };
    let record = Record {
        letter: *letter as char,
        car: Car::from_bytes([*c1, *c0]),
        ticks: u32::from_be_bytes([*l3, *l2, *l1, *l0]),
        word: u32::from_be_bytes([*w3, *w2, *w1, *w0]),
    };
    Some((*zero, record))
}

impl Record {
    // The first wrong field after the zero byte.
    fn check_fields(self) -> Result<(), RecordFault>
        ensures { CheckedFields self result }
    {
        if self.car == Car::NONE {
            return Err(RecordFault::BadCar);
        }
        if !length_fits(self.letter, self.ticks) {
            return Err(RecordFault::BadLength);
        }
        if !word_fits(self.letter, self.word) {
            return Err(RecordFault::BadWord);
        }
        Ok(())
    }

    // The record's twelve bytes.
    fn laid_out(self) -> [u8; 12]
        requires { known self.letter ≡ true }
        ensures { result ≡ bytes_of self }
    {
        let [c1, c0] = self.car.to_bytes();
        let [l3, l2, l1, l0] = self.ticks.to_be_bytes();
        let [w3, w2, w1, w0] = self.word.to_be_bytes();
        [self.letter as u8, 0, c1, c0, l3, l2, l1, l0, w3, w2, w1, w0]
    }

    // What is wrong with bytes that were taken apart: the letter first, then the zero byte, then the fields.
    fn checked(self, zero: u8) -> Result<Record, RecordFault>
        ensures { Checked self zero result }
    {
        if !is_known(self.letter) {
            return Err(RecordFault::UnknownLetter);
        }
        if zero != 0 {
            return Err(RecordFault::BadZero);
        }
        self.check_fields()?;
        Ok(self)
    }

    // Reads a record from bytes of any number.
    pub fn read(bytes: &[u8]) -> Result<Record, RecordFault>
        ensures { Read bytes.now result }
    {
        let Some((zero, record)) = apart(bytes) else {
            return Err(RecordFault::NotTwelve);
        };
        record.checked(zero)
    }

    // Writes the record into the first twelve bytes of the buffer, and replies 12.
    pub fn write(self, buffer: &mut [u8]) -> Result<usize, RecordFault>
        ensures { Written self buffer.old buffer.new result }
    {
        if !is_known(self.letter) {
            return Err(RecordFault::UnknownLetter);
        }
        self.check_fields()?;
        if buffer.len() < 12 {
            return Err(RecordFault::NoRoom);
        }
        let bytes = self.laid_out();
        buffer[0..12].copy_from_slice(&bytes);
        Ok(12)
    }
}

// Writes a record and reads it again: it comes back as itself.
pub fn read_back(sent: Record) -> Result<Record, RecordFault>
    ensures { Back sent result }
{
    let mut buffer = [0; 12];
    sent.write(&mut buffer)?;
    Record::read(&buffer)
}

// Reads a record and writes it again: the same twelve bytes are passed on.
pub fn pass_on(bytes: &[u8], buffer: &mut [u8]) -> Result<usize, RecordFault>
    ensures { Passed bytes.now buffer.old buffer.new result }
{
    Record::read(bytes)?.write(buffer)
}

#[cfg(test)]
mod tests;
