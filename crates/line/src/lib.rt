//! A watch on a line: cars, a rule table and records come in, and a line of text goes out for each reply.
//!
//! The line may stay open. What a record has to say is out before the next one is waited for, and memory does not grow
//! with what comes in.

#![tactic(auto)]

ghost use Rattle.std.specs.Prelude.{◌≡◌, ◌+◌, ◌*◌, ◌≤◌, length, IfOk};
ghost use Rattle.line.specs.Rest.{Rest};

mod feed;
mod text;
mod wire;

use feed::Line;
use plan::Counts;
use record::{Car, Record};
use std::alloc::Global;
use std::io;
use std::io::{Read, Write};
use text::Text;
use watch::Watch;
use watch::fault::SetFault;
use window::WindowMemory;
use wire::Wire;

// The most cars that one byte counts.
const CARS: usize = 255;

// The bytes of a table's head, of one of its rows, and of a head with as many rows as one byte counts.
const HEAD: usize = 8;

const ROW: usize = 16;

const TABLE: usize = 4_088;

// What is left of a record once so many of its ticks are taken: the same inputs for the other ticks. None is left of a
// record that is all taken, and none where nothing was taken.
pub fn rest_of(whole: Record, taken: u32) -> Option<Record>
    ensures { Rest whole taken result }
{
    if taken > 0 && taken < whole.ticks {
        let ticks = whole.ticks - taken;
        Some(Record { ticks, ..whole })
    } else {
        None
    }
}

// The cars that come in, in order: those that came whole.
fn take_cars<'c, R: Read + Drop, W: Write + Drop>(
    wire: &mut Wire<R, W>,
    cars: &'c mut [Car; CARS],
) -> io::Result<&'c [Car]>
    ensures { IfOk result (λ came. length came.now ≤ 255) }
{
    let mut number = [0];
    wire.take(&mut number)?;
    let mut bytes = [0; 2 * CARS];
    let came = wire.take(&mut bytes[..2 * number[0] as usize])?;
    let (pairs, _) = bytes[..came].as_chunks();
    for (car, pair) in cars.iter_mut().zip(pairs) {
        *car = Car::from_bytes(*pair);
    }
    Ok(&cars[..came / 2])
}

// The bytes of a table of so many rows.
fn table_size(rows: u8) -> usize
    ensures { result ≡ 8 + 16 * rows }
{
    HEAD + rows as usize * ROW
}

// The table that comes in: the bytes of it that came.
fn take_table<'t, R: Read + Drop, W: Write + Drop>(
    wire: &mut Wire<R, W>,
    table: &'t mut [u8; TABLE],
) -> io::Result<&'t [u8]>
    ensures { IfOk result (λ came. length came.now ≤ 4088) }
{
    let head = wire.take(&mut table[..HEAD])?;
    if head < HEAD {
        return Ok(&table[..head]);
    }
    let size = table_size(table[4]);
    let rows = wire.take(&mut table[HEAD..size])?;
    Ok(&table[..HEAD + rows])
}

impl<'a, M: WindowMemory, R: Read + Drop, W: Write + Drop> Line<'a, M, R, W> {
    // Sets the watch with the cars and the table that come in.
    fn set(&mut self) -> io::Result<Result<Counts, SetFault>> {
        let mut cars = [Car::NONE; CARS];
        let listed = take_cars(&mut self.wire, &mut cars)?;
        let mut table = [0; TABLE];
        let came = take_table(&mut self.wire, &mut table)?;
        Ok(self.watch.set(came, listed))
    }

    // Records until the input ends. A last piece under twelve bytes is one more. The count is there since nothing says
    // that an input ends.
    fn serve_records(&mut self) -> io::Result<()> {
        for _ in 0..u64::MAX {
            let mut bytes = [0; 12];
            let came = self.wire.take(&mut bytes)?;
            if came == 0 {
                break;
            }
            self.serve_record(&bytes[..came])?;
        }
        Ok(())
    }
}

// Serves a line from its first byte to its end, with these memories. Where there is no memory for the line's two
// buffers it fails before the memories are touched.
pub fn serve<M: WindowMemory, R: Read + Drop, W: Write + Drop>(
    heap: Global,
    memories: &mut [M],
    input: R,
    output: W,
) -> io::Result<()> {
    let mut line = Line {
        wire: Wire::new(heap, input, output)?,
        watch: Watch::new(memories),
    };
    match line.set()? {
        Ok(counts) => {
            line.tell(Text::Counts(counts))?;
            line.serve_records()?;
        }
        Err(fault) => line.tell(Text::Refusal(fault.into()))?,
    }
    line.wire.close()
}
