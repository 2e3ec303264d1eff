//! The sample: a table, the car, and its ticks as the unit and as the desk gets them.
use record::{Car, Record};

// The car whose verdicts both ends write.
pub const CAR: Car = Car { number: 7 };

const FOURTH: Car = Car { number: 4 };

const NINTH: Car = Car { number: 9 };

// Input 0 is the call button, input 1 the open line. Row 3: the button within five ticks (D). Row 4: row 3 from four to
// two ticks back (B). Row 5: row 4 at one to eight ticks back, and the line since (S). Rule 0 is row 4, rule 1 row 5.
pub static TABLE: [u8; 120] = *b"LWRT\x07\x01\0\0\
    P\0\0\0\x02\0\0\0\0\0\0\0\0\0\0\0\
    P\x01\0\0\x03\0\0\0\0\0\0\0\0\0\0\0\
    D\0\x01\0\x04\0\0\0\0\0\0\0\0\0\0\x05\
    B\0\x03\0\x05\0\0\0\0\0\0\x02\0\0\0\x04\
    S\0\x02\x04\x06\0\0\0\0\0\0\x01\0\0\0\x08\
    R\0\x04\0\x07\0\0\0\0\0\0\0\0\0\0\0\
    R\x01\x05\0\0\0\0\0\0\0\0\0\0\0\0\0";

pub static UNIT_CARS: [Car; 1] = [CAR];

pub static DESK_CARS: [Car; 3] = [FOURTH, CAR, NINTH];

// The unit's own records.
pub static UNIT_RECORDS: [Record; 9] = [
    Record {
        letter: 'R',
        car: CAR,
        ticks: 0,
        word: 0,
    },
    Record {
        letter: 'I',
        car: CAR,
        ticks: 3,
        word: 0,
    },
    Record {
        letter: 'I',
        car: CAR,
        ticks: 9,
        word: 1,
    },
    Record {
        letter: 'I',
        car: CAR,
        ticks: 6,
        word: 2,
    },
    Record {
        letter: 'I',
        car: CAR,
        ticks: 8,
        word: 3,
    },
    Record {
        letter: 'I',
        car: CAR,
        ticks: 30,
        word: 2,
    },
    Record {
        letter: 'I',
        car: CAR,
        ticks: 4,
        word: 0,
    },
    Record {
        letter: 'I',
        car: CAR,
        ticks: 1,
        word: 1,
    },
    Record {
        letter: 'I',
        car: CAR,
        ticks: 19,
        word: 2,
    },
];

// The same ticks of the car in other records, among those of two more cars.
pub static DESK_RECORDS: [Record; 21] = [
    Record {
        letter: 'R',
        car: FOURTH,
        ticks: 0,
        word: 0,
    },
    Record {
        letter: 'R',
        car: CAR,
        ticks: 0,
        word: 0,
    },
    Record {
        letter: 'I',
        car: CAR,
        ticks: 2,
        word: 0,
    },
    Record {
        letter: 'I',
        car: FOURTH,
        ticks: 20,
        word: 3,
    },
    Record {
        letter: 'I',
        car: CAR,
        ticks: 1,
        word: 0,
    },
    Record {
        letter: 'I',
        car: CAR,
        ticks: 4,
        word: 1,
    },
    Record {
        letter: 'R',
        car: NINTH,
        ticks: 0,
        word: 0,
    },
    Record {
        letter: 'I',
        car: CAR,
        ticks: 5,
        word: 1,
    },
    Record {
        letter: 'I',
        car: NINTH,
        ticks: 7,
        word: 1,
    },
    Record {
        letter: 'I',
        car: CAR,
        ticks: 6,
        word: 2,
    },
    Record {
        letter: 'I',
        car: CAR,
        ticks: 1,
        word: 3,
    },
    Record {
        letter: 'I',
        car: FOURTH,
        ticks: 9,
        word: 2,
    },
    Record {
        letter: 'I',
        car: CAR,
        ticks: 7,
        word: 3,
    },
    Record {
        letter: 'I',
        car: CAR,
        ticks: 13,
        word: 2,
    },
    Record {
        letter: 'E',
        car: FOURTH,
        ticks: 0,
        word: 0,
    },
    Record {
        letter: 'I',
        car: CAR,
        ticks: 17,
        word: 2,
    },
    Record {
        letter: 'I',
        car: CAR,
        ticks: 3,
        word: 0,
    },
    Record {
        letter: 'I',
        car: NINTH,
        ticks: 40,
        word: 2,
    },
    Record {
        letter: 'I',
        car: CAR,
        ticks: 1,
        word: 0,
    },
    Record {
        letter: 'I',
        car: CAR,
        ticks: 1,
        word: 1,
    },
    Record {
        letter: 'I',
        car: CAR,
        ticks: 19,
        word: 2,
    },
];
