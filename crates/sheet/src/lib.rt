//! What a month's sheet is made of: the notes that the input tells of, and a row for each car.

#![tactic(auto)]

ghost use Rattle.std.specs.Prelude.{◌≡◌, true, min, IfOk, filter};
ghost use Rattle.record.specs.Layout.{word_ok};
ghost use Rattle.share.specs.Ticks.{of_car};
ghost use Rattle.sheet.specs.Pieces.{OfRecord, RecordPiece, AfterLetter, Fields, Told, passed_over, LinePiece, Unended, Lines, Records, second_zero, Pieces, piece_note, all_notes};
ghost use Rattle.sheet.specs.declared.Damage.TheVariants.{BadRecord};
ghost use Rattle.sheet.specs.Rows.{Rowed, SameShares, Next};

use record::{Car, Note, Record, RecordFault};
use share::{BusiestRule, ShareFault};
use std::alloc::{AllocError, Global};
use std::str::from_utf8;

// The length of a record.
const RECORD: usize = 12;

// What is damaged in the input.
#[derive(Clone, Copy, PartialEq, Eq, Debug)]
pub enum Damage {
    BadLine,
    BadRecord(RecordFault),
}

impl From<RecordFault> for Damage {
    ghost from_gives = { λ x r. r ≡ BadRecord x };

    fn from(fault: RecordFault) -> Damage {
        Damage::BadRecord(fault)
    }
}

// A piece of the input, a line or a record: its verdict's note, or else its damage, which is none in a sound piece
// without a verdict. An Option of the note beside the damage would take a third more room.
pub type Piece = Result<Note, Option<Damage>>;

// A car's shares, each rule's in its place.
#[derive(Clone, Copy)]
pub struct Row {
    pub car: Car,
    // all the car's ticks
    pub ticks: u64,
    pub shares: [u32; 16],
    pub busiest: BusiestRule,
}

// What a record tells of: V alone has a verdict.
fn verdict_in(sent: Record) -> Option<Note>
    requires { word_ok sent.letter sent.word ≡ true }
    ensures { OfRecord sent result }
{
    match sent.letter {
        'V' => Some(Note {
            car: sent.car,
            word: sent.word as u16,
            ticks: sent.ticks,
        }),
        _ => None,
    }
}

// What a record's bytes tell of.
fn record_piece(bytes: &[u8]) -> Piece
    ensures { RecordPiece bytes.now result }
{
    let sent = Record::read(bytes).map_err(|fault| Some(fault.into()))?;
    verdict_in(sent).ok_or(None)
}

// What follows V and a space.
fn after_letter(line: &str) -> Option<&str>
    ensures { AfterLetter line.now result }
{
    line.strip_prefix('V')?.strip_prefix(' ')
}

// The three numbers of a note's line: V, car, word and length, with a space before each.
fn fields(line: &str) -> Option<(&str, &str, &str)>
    ensures { Fields line.now result }
{
    let rest = after_letter(line)?;
    let (car, rest) = rest.split_once(' ')?;
    let (word, ticks) = rest.split_once(' ')?;
    Some((car, word, ticks))
}

// The note that a line tells of.
fn note_in(line: &str) -> Option<Note>
    ensures { Told line.now result }
{
    let (car, word, ticks) = fields(line)?;
    let number = car.parse::<u16>().ok()?;
    let word = word.parse::<u16>().ok()?;
    let ticks = ticks.parse::<u32>().ok()?;
    // no car is made of the number 0
    if number == 0 {
        return None;
    }
    Some(Note {
        car: Car { number },
        word,
        ticks,
    })
}

// The note that a line's bytes tell of.
fn told_by(line: &[u8]) -> Option<Note>
    ensures { Told line.now result }
{
    note_in(from_utf8(line).ok()?)
}

// Whether a line has no verdict: that of a table, of a restart or end, of a refusal, or an empty one.
fn is_passed_over(line: &[u8]) -> bool
    ensures { result ≡ passed_over line.now }
{
    matches!(line, [] | [b'T' | b'K' | b'X', ..])
}

// What a line of the watch tells of, by its bytes without the line's end.
fn line_piece(line: &[u8]) -> Piece
    ensures { LinePiece line.now result }
{
    if is_passed_over(line) {
        return Err(None);
    }
    told_by(line).ok_or(Some(Damage::BadLine))
}

// A line's bytes without its end.
fn without_end(line: &[u8]) -> &[u8]
    ensures { Unended line.now result.now }
{
    match line {
        [line @ .., b'\n'] => line,
        _ => line,
    }
}

// The pieces of a text, line by line.
fn lines(heap: Global, bytes: &[u8]) -> Result<Vec<Piece>, AllocError>
    ensures { IfOk result (λ v. Lines bytes.now v.items) }
{
    bytes
        .split_inclusive(|byte| *byte == b'\n')
        .map(|line| line_piece(without_end(line)))
        .collect(heap)
}

// The pieces of records, twelve bytes by twelve.
fn records(heap: Global, bytes: &[u8]) -> Result<Vec<Piece>, AllocError>
    ensures { IfOk result (λ v. Records bytes.now v.items) }
{
    bytes.chunks(RECORD).map(record_piece).collect(heap)
}

// Whether the input is records: the second byte of a record is zero, and a text has no such byte.
fn are_records(input: &[u8]) -> bool
    ensures { result ≡ second_zero input.now }
{
    matches!(input, [_, 0, ..])
}

// The pieces of the input, in their order.
pub fn pieces(heap: Global, input: &[u8]) -> Result<Vec<Piece>, AllocError>
    ensures { IfOk result (λ v. Pieces input.now v.items) }
{
    if are_records(input) {
        records(heap, input)
    } else {
        lines(heap, input)
    }
}

// The note that a piece tells of.
fn note_told(piece: &Piece) -> Option<Note>
    ensures { result ≡ piece_note piece.now }
{
    piece.ok()
}

// The notes that the pieces tell of, in their order.
pub fn notes_of(heap: Global, pieces: &[Piece]) -> Result<Vec<Note>, AllocError>
    ensures { IfOk result (λ v. v.items ≡ all_notes pieces.now) }
{
    let mut notes = Vec::new(heap);
    for piece in pieces {
        if let Some(note) = note_told(piece) {
            notes.push(note)?;
        }
    }
    Ok(notes)
}

// The lower of two cars.
fn lower(car: Car, other: Car) -> Car
    ensures { result.number ≡ min car.number other.number }
{
    if other.number < car.number {
        other
    } else {
        car
    }
}

// The lowest car above a number: a number and not a car, since 0 is no car and below all.
pub fn next_car(notes: &[Note], above: u16) -> Option<Car>
    ensures { Next notes.now above result }
{
    notes
        .iter()
        .map(|note| note.car)
        .filter(|car| car.number > above)
        .reduce(lower)
}

// The notes of a car, in their order. `own_notes` says more of them, and its proof is of that alone.
fn notes_by(heap: Global, notes: &[Note], car: Car) -> Result<Vec<Note>, AllocError>
    ensures { IfOk result (λ v. v.items ≡ filter (of_car car) notes.now) }
{
    let mut own = Vec::new(heap);
    for note in notes {
        if note.car == car {
            own.push(*note)?;
        }
    }
    Ok(own)
}

// The car's own notes, in their order, which have the same shares for it.
pub fn own_notes(heap: Global, notes: &[Note], car: Car) -> Result<Vec<Note>, AllocError>
    ensures items { IfOk result (λ v. v.items ≡ filter (of_car car) notes.now) }
    ensures shares { IfOk result (λ v. SameShares v.items notes.now car) }
{
    notes_by(heap, notes, car)
}

// A car's row.
pub fn row_of(notes: &[Note], car: Car) -> Result<Row, ShareFault>
    ensures { Rowed notes.now car result }
{
    let busiest = share::busiest(notes, car)?;
    let ticks = share::share_of(notes, car, 0)?.all;
    let mut shares = [0; 16];
    for (rule, share) in shares.iter_mut().enumerate() {
        *share = share::share_of(notes, car, rule as u8)?.per_mille;
    }
    Ok(Row {
        car,
        ticks,
        shares,
        busiest,
    })
}

#[cfg(test)]
mod tests {
    use super::*;
    use record::Note;
    use std::test::Fail;

    // A text's line ends, its limits, and what is passed over or damaged, marked V, - and ? in turn.
    const TEXT: &[u8] =
        b"T 1 1 0\nV 1 65535 4294967295\n\nV 65535 0 0\nX 18 9\nV 0 1 1\nV 65536 1 1\nV 1 1\nV 1 1 1 \nV  1 1 1\nv 1 1 1\nV 1 1 \xff\nK 1\nV 2 +1 007";

    fn marks(heap: Global, input: &[u8]) -> Result<String, AllocError> {
        let mut marks = String::new(heap);
        for piece in pieces(heap, input)? {
            marks.push(match piece {
                Ok(_) => 'V',
                Err(None) => '-',
                Err(Some(Damage::BadLine)) => '?',
                Err(Some(Damage::BadRecord(_))) => '!',
            })?;
        }
        Ok(marks)
    }

    #[test]
    fn text(rt: HostRuntime) -> Result<(), Fail> {
        let found = marks(rt.alloc(), TEXT)?;
        assert_eq!(rt; found.as_str(), "-V-V-???????-V");
        Ok(())
    }

    // V, R, a V of another car, a V with a wrong length, and half a record.
    #[test]
    fn records_and_rows(rt: HostRuntime) -> Result<(), Fail> {
        let input =
            b"V\0\x01\0\0\0\0\x06\0\0\0\x03R\0\x01\0\0\0\0\0\0\0\0\0V\0\0\x01\0\0\0\x02\0\0\x80\0V\0\0\x01\0\0\0\0\0\0\0\x01V\0\0\x01\0\0";
        let found = marks(rt.alloc(), input)?;
        assert_eq!(rt; found.as_str(), "V-V!!");
        let all = pieces(rt.alloc(), input)?;
        let notes = notes_of(rt.alloc(), &all)?;
        assert!(rt; notes.len() == 2);
        let last = Note {
            car: Car { number: 1 },
            word: 0x8000,
            ticks: 2,
        };
        assert_eq!(rt; notes[1], last);
        assert!(rt; next_car(&notes, 256).is_none());
        let car = next_car(&notes, 1).ok_or("no car")?;
        assert_eq!(rt; car.number, 256);
        let own = own_notes(rt.alloc(), &notes, car)?;
        assert!(rt; own.len() == 1);
        match row_of(&own, car) {
            Ok(row) => {
                assert!(rt;
                    row.ticks == 6
                        && row.shares == [1000, 1000, 0, 0, 0, 0, 0, 0, 0, 0, 0, 0, 0, 0, 0, 0]
                );
                Ok(())
            },
            Err(_) => Err(Fail::new("no row")),
        }
    }
}
