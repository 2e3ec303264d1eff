use super::*;
use std::process::Abort;
use std::test::Fail;

fn record(letter: char, number: u16, ticks: u32, word: u32) -> Record {
    Record {
        letter,
        car: Car { number },
        ticks,
        word,
    }
}

// Twelve bytes, read and passed on, and the record that they are.
fn both_ways(rt: &impl Abort, bytes: [u8; 12], expected: Record) {
    let mut buffer = [7; 14];
    assert_eq!(rt; Record::read(&bytes), Ok(expected));
    assert_eq!(rt; read_back(expected), Ok(expected));
    assert_eq!(rt; pass_on(&bytes, &mut buffer), Ok(12));
    assert!(rt; &buffer[0..12] == &bytes[0..12]);
    assert!(rt; buffer[12] == 7 && buffer[13] == 7);
}

#[test]
fn records_go_both_ways(rt: HostRuntime) {
    let cases = [
        (*b"R\0\0\x01\0\0\0\0\0\0\0\0", record('R', 1, 0, 0)),
        (*b"R\0\x01\0\0\0\0\0\0\0\0\0", record('R', 256, 0, 0)),
        (*b"E\0\x01\x01\0\0\0\0\0\0\0\0", record('E', 257, 0, 0)),
        (*b"E\0\xff\xff\0\0\0\0\0\0\0\0", record('E', 65_535, 0, 0)),
        (*b"I\0\0\x01\0\0\0\x01\0\0\0\0", record('I', 1, 1, 0)),
        (
            *b"I\0\0\x01\0\x0d\x2f\0\xff\xff\xff\xff",
            record('I', 1, 864_000, 0xffff_ffff),
        ),
        (
            *b"I\0\0\x01\0\0\x01\x02\x01\x02\x03\x04",
            record('I', 1, 258, 0x0102_0304),
        ),
        (
            *b"V\0\0\x02\0\0\0\x03\0\0\xff\xff",
            record('V', 2, 3, 65_535),
        ),
    ];
    for (bytes, expected) in cases {
        both_ways(&rt, bytes, expected);
    }
}

// A refusal of reading, and of passing on, which leaves the buffer.
fn refused(rt: &impl Abort, bytes: &[u8], number: u32, place: u32) -> Result<(), Fail> {
    let mut buffer = [7; 12];
    let expected = Refusal { number, place };
    match Record::read(bytes) {
        Ok(_) => return Err(Fail::new("read")),
        Err(fault) => assert_eq!(rt; Refusal::from(fault), expected),
    }
    match pass_on(bytes, &mut buffer) {
        Ok(_) => return Err(Fail::new("passed on")),
        Err(fault) => assert_eq!(rt; Refusal::from(fault), expected),
    }
    assert!(rt; buffer == [7; 12]);
    Ok(())
}

#[test]
fn every_refusal_of_reading(rt: HostRuntime) -> Result<(), Fail> {
    let cases = [
        (*b"X\x01\0\0\0\0\0\0\0\0\0\0", 15, 0),
        (*b"r\0\0\x01\0\0\0\0\0\0\0\0", 15, 0),
        (*b"R\x01\0\0\0\0\0\x01\0\0\0\x01", 16, 1),
        (*b"I\0\0\0\0\0\0\0\0\0\0\x01", 16, 2),
        (*b"I\0\0\x01\0\0\0\0\0\0\0\x01", 16, 4),
        (*b"I\0\0\x01\0\x0d\x2f\x01\0\0\0\x01", 16, 4),
        (*b"V\0\0\x01\0\0\0\0\0\x01\0\0", 16, 4),
        (*b"R\0\0\x01\0\0\0\x01\0\0\0\x01", 16, 4),
        (*b"E\0\0\x01\x01\0\0\0\0\0\0\x01", 16, 4),
        (*b"R\0\0\x01\0\0\0\0\0\0\0\x01", 16, 8),
        (*b"E\0\0\x01\0\0\0\0\x01\0\0\0", 16, 8),
        (*b"V\0\0\x01\0\0\0\x01\0\x01\0\0", 16, 8),
    ];
    for (bytes, number, place) in cases {
        refused(&rt, &bytes, number, place)?;
    }
    refused(&rt, b"", 14, 0)?;
    refused(&rt, b"R\0\0\x01\0\0\0\0\0\0\0", 14, 0)?;
    refused(&rt, b"R\0\0\x01\0\0\0\0\0\0\0\0\0", 14, 0)
}

// A refusal of writing, which leaves the buffer.
fn unwritten(
    rt: &impl Abort,
    sent: Record,
    room: usize,
    expected: RecordFault,
) -> Result<(), Fail> {
    let mut buffer = [7; 12];
    if room > 12 {
        return Err(Fail::new("room"));
    }
    assert_eq!(rt; sent.write(&mut buffer[0..room]), Err(expected));
    assert!(rt; buffer == [7; 12]);
    Ok(())
}

#[test]
fn every_refusal_of_writing(rt: HostRuntime) -> Result<(), Fail> {
    let cases = [
        (record('x', 0, 1, 1), 0, RecordFault::UnknownLetter),
        (record('\u{152}', 1, 1, 1), 12, RecordFault::UnknownLetter),
        (record('R', 0, 1, 1), 0, RecordFault::BadCar),
        (record('R', 1, 1, 1), 0, RecordFault::BadLength),
        (record('I', 1, 0, 1), 12, RecordFault::BadLength),
        (record('V', 1, 864_001, 65_536), 12, RecordFault::BadLength),
        (record('V', 1, 1, 65_536), 0, RecordFault::BadWord),
        (record('E', 1, 0, 1), 12, RecordFault::BadWord),
        (record('R', 1, 0, 0), 11, RecordFault::NoRoom),
    ];
    for (sent, room, fault) in cases {
        unwritten(&rt, sent, room, fault)?;
    }
    assert_eq!(rt;
        Refusal::from(RecordFault::NoRoom),
        Refusal {
            number: 22,
            place: 0,
        }
    );
    Ok(())
}
