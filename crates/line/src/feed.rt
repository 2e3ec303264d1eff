//! Feeding the records of a line to its watch, each in as many parts as its notes need, and telling the replies.
ghost use Rattle.std.specs.Prelude.{◌≡◌, ◌||◌, IfOk};
ghost use Rattle.record.specs.Layout.{is_R, is_E, fields_at};
ghost use Rattle.line.specs.Rest.{RestOfBytes};

use crate::rest_of;
use crate::text::Text;
use crate::wire::Wire;
use cars::FeedFault;
use engine::Fed;
use record::{Car, Note, Record};
use std::io;
use std::io::{Read, Write};
use watch::Watch;
use window::WindowMemory;

// The places for notes that a record, or the rest of one, is fed with.
const PLACES: usize = 8;

// What stands in a place until a note is written to it.
const NO_NOTE: Note = Note {
    car: Car::NONE,
    word: 0,
    ticks: 0,
};

// A line under watch: its two ends, and the watch that its records are fed to.
#[derive(Drop)]
pub struct Line<'a, M: WindowMemory, R: Read + Drop, W: Write + Drop> {
    pub wire: Wire<R, W>,
    pub watch: Watch<'a, M>,
}

// Whether a record with this letter is told by its car: restarts and ends, which have no notes.
fn is_told_by_car(letter: char) -> bool
    ensures { result ≡ (is_R letter || is_E letter) }
{
    matches!(letter, 'R' | 'E')
}

impl<'a, M: WindowMemory, R: Read + Drop, W: Write + Drop> Line<'a, M, R, W> {
    // Sends a line of text.
    pub fn tell(&mut self, text: Text) -> io::Result<()> {
        self.wire.out().write_all(text.laid_out().bytes())
    }

    // The lines for what was fed: one for each note.
    fn tell_fed(&mut self, fed: Fed, part: Record, notes: &[Note]) -> io::Result<()> {
        if is_told_by_car(part.letter) {
            return self.tell(Text::Car(part.car));
        }
        for note in notes.iter().take(fed.notes) {
            self.tell(Text::Note(*note))?;
        }
        Ok(())
    }

    // Feeds one part: the record in it, and what was fed of it.
    fn feed(&mut self, bytes: &[u8], notes: &mut [Note]) -> Result<(Record, Fed), FeedFault>
        ensures { IfOk result (λ p. p.0 ≡ fields_at bytes.now) }
    {
        let fed = self.watch.feed(bytes, notes)?;
        let part = Record::read(bytes)?;
        Ok((part, fed))
    }

    // Feeds one part and tells the reply: what is left of the record then.
    fn serve_part(&mut self, bytes: &[u8]) -> io::Result<Option<Record>>
        ensures { IfOk result (RestOfBytes bytes.now) }
    {
        let mut notes = [NO_NOTE; PLACES];
        match self.feed(bytes, &mut notes) {
            Ok((part, fed)) => {
                self.tell_fed(fed, part, &notes)?;
                Ok(rest_of(part, fed.ticks))
            }
            Err(fault) => {
                self.tell(Text::Refusal(fault.into()))?;
                Ok(None)
            }
        }
    }

    // Feeds a record, and then its rest until all of it is taken.
    pub fn serve_record(&mut self, bytes: &[u8]) -> io::Result<()> {
        let mut left = self.serve_part(bytes)?;
        while let Some(rest) = left {
            let mut part = [0; 12];
            if let Err(fault) = rest.write(&mut part) {
                return self.tell(Text::Refusal(fault.into()));
            }
            left = self.serve_part(&part)?;
        }
        Ok(())
    }
}
