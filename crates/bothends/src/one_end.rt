//! One end: a watch that is fed records, and the verdict words that it writes for the car, tick by tick.
use crate::sample::{CAR, TABLE};
use anyhow::anyhow;
use line::rest_of;
use record::{Car, Note, Record};
use std::alloc::{AllocError, Global};
use watch::Watch;
use window::WindowMemory;

// Fewer places than some records have notes.
const PLACES: usize = 2;

// What stands in a place until a note is written to it: one of the car, as all notes here are.
const NOTE: Note = Note {
    car: CAR,
    word: 0,
    ticks: 0,
};

// The car's verdict words after these records.
pub fn verdicts<M: WindowMemory>(
    heap: Global,
    memories: &mut [M],
    cars: &[Car],
    records: &[Record],
) -> anyhow::Result<Vec<u16>> {
    let mut watch = Watch::new(memories);
    watch
        .set(&TABLE, cars)
        .map_err(|_| anyhow!("the table is refused"))?;
    let mut words = Vec::new(heap);
    for record in records {
        take(&mut watch, *record, &mut words)?;
    }
    Ok(words)
}

// One record, fed until all its ticks are taken.
fn take<M: WindowMemory>(
    watch: &mut Watch<M>,
    record: Record,
    words: &mut Vec<u16>,
) -> anyhow::Result<()> {
    let mut left = Some(record);
    while let Some(rest) = left {
        let taken = feed(watch, rest, words)?;
        left = rest_of(rest, taken);
    }
    Ok(())
}

// One call of Feed: the ticks that it took.
fn feed<M: WindowMemory>(
    watch: &mut Watch<M>,
    record: Record,
    words: &mut Vec<u16>,
) -> anyhow::Result<u32> {
    let mut bytes = [0; 12];
    let mut notes = [NOTE; PLACES];
    record
        .write(&mut bytes)
        .map_err(|_| anyhow!("a record cannot be written"))?;
    let fed = watch
        .feed(&bytes, &mut notes)
        .map_err(|_| anyhow!("a record is refused"))?;
    for note in notes.iter().take(fed.notes) {
        if note.car.is(CAR) {
            spell(*note, words)?;
        }
    }
    Ok(fed.ticks)
}

// A note's word, once for each of its ticks.
fn spell(note: Note, words: &mut Vec<u16>) -> Result<(), AllocError> {
    for _ in 0..note.ticks {
        words.push(note.word)?;
    }
    Ok(())
}
