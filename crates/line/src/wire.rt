//! The two ends of a line, each behind a buffer of fixed size.
ghost use Rattle.std.specs.Prelude.{◌≡◌, ◌≤◌, length, IfOk, IfErr};
ghost use Rattle.std.specs.IoError.{error_kind};

use std::alloc::Global;
use std::io;
use std::io::{BufReader, BufWriter, ErrorKind, Read, Write};

#[derive(Drop)]
pub struct Wire<R: Read + Drop, W: Write + Drop> {
    input: BufReader<R>,
    output: BufWriter<W>,
}

impl<R: Read + Drop, W: Write + Drop> Wire<R, W> {
    // Fails only where there is no memory for the two buffers; nothing is read or written then.
    pub fn new(heap: Global, input: R, output: W) -> io::Result<Wire<R, W>>
        ensures { IfErr result (λ e. error_kind e ≡ ErrorKind.OutOfMemory) }
    {
        Ok(Wire {
            input: BufReader::new(heap, input)?,
            output: BufWriter::new(heap, output)?,
        })
    }

    pub fn out(&mut self) -> &mut BufWriter<W> {
        &mut self.output
    }

    // Some bytes of the input. What was written goes out first if they have to be waited for.
    fn read(&mut self, piece: &mut [u8]) -> io::Result<usize>
        ensures { IfOk result (λ n. n ≤ length piece.old) }
    {
        if self.input.buffer().is_empty() {
            self.output.flush()?;
        }
        self.input.read(piece)
    }

    // Fills a piece with what comes in next: how many bytes came, all that it has room for unless the input ended. A
    // loop of its own, since the library's `read_exact` does not tell how many bytes came before the end.
    pub fn take(&mut self, piece: &mut [u8]) -> io::Result<usize>
        ensures { IfOk result (λ n. n ≤ length piece.old) }
    {
        let mut came = 0;
        while came < piece.len() {
            let more = self.read(&mut piece[came..])?;
            if more == 0 {
                break;
            }
            came += more;
        }
        Ok(came)
    }

    // Sends what is still to be sent.
    pub fn close(&mut self) -> io::Result<()> {
        self.output.flush()
    }
}
