//! Verdict words in runs.
use std::fmt;

// The verdict words of a car, tick by tick.
#[derive(Drop)]
pub struct Runs<'a> {
    pub words: &'a [u16],
}

// How many ticks, then each longest run as its word and ticks.
impl<'a> fmt::Display for Runs<'a> {
    fn fmt<W: fmt::Write>(&self, f: &mut fmt::Formatter<W>) -> fmt::Result {
        let count = self.words.len();
        write!(f, "{count} ticks")?;
        for run in self.words.chunk_by(|a, b| a == b) {
            if let [word, ..] = run {
                let ticks = run.len();
                write!(f, ", {word} for {ticks}")?;
            }
        }
        Ok(())
    }
}
