//! Tables, byte by byte: each refusal at each field, each boundary, chains in odd orders, rows off the chain.

#![tactic(auto)]

ghost use Rattle.std.specs.Prelude.{nat_le};

use mitl::Row;
use refusal::Refusal;
use table::{decode, decode_any};
use window::Admission;

// A sound table: a row of each letter, a second rule, and a tenth row off the chain that is full of garbage.
static FULL: [u8; 168] = [
    0x4c, 0x57, 0x52, 0x54, 0x0a, 0x01, 0x00, 0x00, 0x50, 0x02, 0x00, 0x00, 0x02, 0x00, 0x00, 0x00,
    0x00, 0x00, 0x00, 0x00, 0x00, 0x00, 0x00, 0x00, 0x4e, 0x00, 0x01, 0x00, 0x03, 0x00, 0x00, 0x00,
    0x00, 0x00, 0x00, 0x00, 0x00, 0x00, 0x00, 0x00, 0x41, 0x00, 0x01, 0x02, 0x04, 0x00, 0x00, 0x00,
    0x00, 0x00, 0x00, 0x00, 0x00, 0x00, 0x00, 0x00, 0x4f, 0x00, 0x03, 0x01, 0x05, 0x00, 0x00, 0x00,
    0x00, 0x00, 0x00, 0x00, 0x00, 0x00, 0x00, 0x00, 0x44, 0x00, 0x04, 0x00, 0x06, 0x00, 0x00, 0x00,
    0x00, 0x00, 0x00, 0x02, 0x00, 0x00, 0x00, 0x04, 0x42, 0x00, 0x05, 0x00, 0x07, 0x00, 0x00, 0x00,
    0x00, 0x00, 0x00, 0x00, 0x00, 0x00, 0x00, 0x01, 0x53, 0x00, 0x06, 0x05, 0x08, 0x00, 0x00, 0x00,
    0x00, 0x00, 0x00, 0x03, 0x00, 0x0d, 0x2f, 0x00, 0x52, 0x03, 0x07, 0x00, 0x09, 0x00, 0x00, 0x00,
    0x00, 0x00, 0x00, 0x00, 0x00, 0x00, 0x00, 0x00, 0x52, 0x0f, 0x01, 0x00, 0x00, 0x00, 0x00, 0x00,
    0x00, 0x00, 0x00, 0x00, 0x00, 0x00, 0x00, 0x00, 0xff, 0xff, 0xff, 0xff, 0xff, 0xff, 0xff, 0xff,
    0xff, 0xff, 0xff, 0xff, 0xff, 0xff, 0xff, 0xff,
];

// One byte of the table changed: where, to what, and the refusal's number and place, or 0 and 0 for a sound table.
static CHANGED: [(u8, u8, u32, u32); 231] = [
    (0, 88, 2, 0),
    (1, 88, 2, 0),
    (2, 88, 2, 0),
    (3, 88, 2, 0),
    (4, 0, 3, 0),
    (4, 65, 3, 0),
    (4, 255, 3, 0),
    (4, 9, 1, 0),
    (4, 11, 1, 0),
    (5, 0, 3, 0),
    (5, 11, 3, 0),
    (6, 1, 3, 0),
    (7, 128, 3, 0),
    (8, 112, 4, 1),
    (8, 0, 4, 1),
    (9, 32, 5, 1),
    (10, 1, 5, 1),
    (11, 1, 5, 1),
    (13, 1, 5, 1),
    (14, 1, 5, 1),
    (15, 1, 5, 1),
    (16, 1, 5, 1),
    (17, 1, 5, 1),
    (18, 1, 5, 1),
    (19, 1, 5, 1),
    (20, 1, 5, 1),
    (21, 1, 5, 1),
    (22, 1, 5, 1),
    (23, 1, 5, 1),
    (12, 11, 10, 1),
    (12, 1, 10, 1),
    (12, 0, 11, 0),
    (12, 10, 4, 10),
    (24, 112, 4, 2),
    (24, 0, 4, 2),
    (25, 1, 5, 2),
    (26, 0, 6, 2),
    (26, 2, 6, 2),
    (26, 10, 6, 2),
    (26, 3, 6, 2),
    (27, 1, 5, 2),
    (29, 1, 5, 2),
    (30, 1, 5, 2),
    (31, 1, 5, 2),
    (32, 1, 5, 2),
    (33, 1, 5, 2),
    (34, 1, 5, 2),
    (35, 1, 5, 2),
    (36, 1, 5, 2),
    (37, 1, 5, 2),
    (38, 1, 5, 2),
    (39, 1, 5, 2),
    (28, 11, 10, 2),
    (28, 2, 10, 2),
    (28, 1, 10, 2),
    (28, 0, 11, 0),
    (28, 10, 4, 10),
    (40, 112, 4, 3),
    (40, 0, 4, 3),
    (41, 1, 5, 3),
    (42, 0, 6, 3),
    (42, 3, 6, 3),
    (42, 10, 6, 3),
    (42, 4, 6, 3),
    (43, 0, 6, 3),
    (43, 3, 6, 3),
    (43, 4, 6, 3),
    (45, 1, 5, 3),
    (46, 1, 5, 3),
    (47, 1, 5, 3),
    (48, 1, 5, 3),
    (49, 1, 5, 3),
    (50, 1, 5, 3),
    (51, 1, 5, 3),
    (52, 1, 5, 3),
    (53, 1, 5, 3),
    (54, 1, 5, 3),
    (55, 1, 5, 3),
    (44, 11, 10, 3),
    (44, 3, 10, 3),
    (44, 2, 10, 3),
    (44, 0, 11, 0),
    (44, 10, 4, 10),
    (56, 112, 4, 4),
    (56, 0, 4, 4),
    (57, 1, 5, 4),
    (58, 0, 6, 4),
    (58, 4, 6, 4),
    (58, 10, 6, 4),
    (58, 5, 6, 4),
    (59, 0, 6, 4),
    (59, 4, 6, 4),
    (59, 5, 6, 4),
    (61, 1, 5, 4),
    (62, 1, 5, 4),
    (63, 1, 5, 4),
    (64, 1, 5, 4),
    (65, 1, 5, 4),
    (66, 1, 5, 4),
    (67, 1, 5, 4),
    (68, 1, 5, 4),
    (69, 1, 5, 4),
    (70, 1, 5, 4),
    (71, 1, 5, 4),
    (60, 11, 10, 4),
    (60, 4, 10, 4),
    (60, 3, 10, 4),
    (60, 0, 11, 0),
    (60, 10, 4, 10),
    (72, 112, 4, 5),
    (72, 0, 4, 5),
    (73, 1, 5, 5),
    (74, 0, 6, 5),
    (74, 5, 6, 5),
    (74, 10, 6, 5),
    (74, 6, 6, 5),
    (75, 1, 5, 5),
    (77, 1, 5, 5),
    (78, 1, 5, 5),
    (79, 1, 5, 5),
    (76, 11, 10, 5),
    (76, 5, 10, 5),
    (76, 4, 10, 5),
    (76, 0, 11, 0),
    (76, 10, 4, 10),
    (88, 112, 4, 6),
    (88, 0, 4, 6),
    (89, 1, 5, 6),
    (90, 0, 6, 6),
    (90, 6, 6, 6),
    (90, 10, 6, 6),
    (90, 7, 6, 6),
    (91, 1, 5, 6),
    (93, 1, 5, 6),
    (94, 1, 5, 6),
    (95, 1, 5, 6),
    (92, 11, 10, 6),
    (92, 6, 10, 6),
    (92, 5, 10, 6),
    (92, 0, 11, 0),
    (92, 10, 4, 10),
    (104, 112, 4, 7),
    (104, 0, 4, 7),
    (105, 1, 5, 7),
    (106, 0, 6, 7),
    (106, 7, 6, 7),
    (106, 10, 6, 7),
    (106, 8, 6, 7),
    (107, 0, 6, 7),
    (107, 7, 6, 7),
    (107, 8, 6, 7),
    (109, 1, 5, 7),
    (110, 1, 5, 7),
    (111, 1, 5, 7),
    (108, 11, 10, 7),
    (108, 7, 10, 7),
    (108, 6, 10, 7),
    (108, 0, 11, 0),
    (108, 10, 4, 10),
    (120, 112, 4, 8),
    (120, 0, 4, 8),
    (121, 16, 5, 8),
    (122, 0, 6, 8),
    (122, 8, 6, 8),
    (122, 10, 6, 8),
    (122, 9, 6, 8),
    (123, 1, 5, 8),
    (125, 1, 5, 8),
    (126, 1, 5, 8),
    (127, 1, 5, 8),
    (128, 1, 5, 8),
    (129, 1, 5, 8),
    (130, 1, 5, 8),
    (131, 1, 5, 8),
    (132, 1, 5, 8),
    (133, 1, 5, 8),
    (134, 1, 5, 8),
    (135, 1, 5, 8),
    (124, 11, 10, 8),
    (124, 8, 10, 8),
    (124, 7, 10, 8),
    (124, 10, 4, 10),
    (136, 112, 4, 9),
    (136, 0, 4, 9),
    (137, 16, 5, 9),
    (138, 0, 6, 9),
    (138, 9, 6, 9),
    (138, 10, 6, 9),
    (139, 1, 5, 9),
    (141, 1, 5, 9),
    (142, 1, 5, 9),
    (143, 1, 5, 9),
    (144, 1, 5, 9),
    (145, 1, 5, 9),
    (146, 1, 5, 9),
    (147, 1, 5, 9),
    (148, 1, 5, 9),
    (149, 1, 5, 9),
    (150, 1, 5, 9),
    (151, 1, 5, 9),
    (140, 11, 10, 9),
    (140, 9, 10, 9),
    (140, 8, 10, 9),
    (140, 10, 4, 10),
    (138, 8, 6, 9),
    (137, 3, 8, 9),
    (87, 2, 7, 5),
    (87, 1, 7, 5),
    (83, 4, 7, 5),
    (80, 1, 7, 5),
    (84, 1, 7, 5),
    (103, 0, 7, 6),
    (99, 1, 7, 6),
    (119, 1, 7, 7),
    (116, 1, 7, 7),
    (9, 0, 0, 0),
    (9, 31, 0, 0),
    (121, 0, 0, 0),
    (121, 14, 0, 0),
    (83, 3, 0, 0),
    (83, 0, 0, 0),
    (87, 3, 0, 0),
    (87, 255, 0, 0),
    (118, 46, 0, 0),
    (119, 0, 0, 0),
    (138, 7, 0, 0),
    (138, 1, 0, 0),
    (124, 0, 0, 0),
    (152, 0, 0, 0),
    (156, 77, 0, 0),
    (167, 1, 0, 0),
];

// Two bytes changed, so that two faults stand: the first in the order of the checks is told.
static TWICE: [(u8, u8, u8, u8, u32, u32); 12] = [
    // mark before head; head before length
    (0, 0, 4, 0, 2, 0),
    (6, 1, 4, 11, 3, 0),
    // within a row: letter, field, operand, window, used number, next
    (24, 0, 25, 1, 4, 2),
    (25, 1, 26, 0, 5, 2),
    (74, 0, 87, 0, 6, 5),
    (87, 0, 76, 11, 7, 5),
    (137, 3, 140, 11, 8, 9),
    (137, 3, 138, 8, 6, 9),
    // an earlier row before a later one, whatever the fault
    (28, 11, 40, 0, 10, 2),
    (140, 11, 136, 0, 4, 9),
    // the head before any row
    (24, 0, 5, 0, 3, 0),
    // a chain without a rule last of all
    (44, 0, 40, 0, 4, 3),
];

// Admits windows of up to a hundred ticks.
struct Short;

impl Admission for Short {
    ghost admitted = { λ _ b. nat_le b 100 };

    fn admits(_a: u32, b: u32) -> bool {
        b <= 100
    }
}

// The number and place of the refusal, 0 and 0 for a sound table, as the cases above have them.
fn reply<A: Admission>(bytes: &[u8]) -> (u32, u32) {
    match decode::<A>(bytes) {
        Ok(_) => (0, 0),
        Err(fault) => {
            let refusal = Refusal::from(fault);
            (refusal.number, refusal.place)
        }
    }
}

fn changed(mut bytes: [u8; 168], at: u8, byte: u8) -> [u8; 168] {
    let i = at as usize;
    if i < 168 {
        bytes[i] = byte;
    }
    bytes
}

// What a row says, as numbers: letter, number, left, right, a, b.
fn said(row: Row) -> [u32; 6] {
    match row {
        Row::Input { bit } => [80, bit as u32, 0, 0, 0, 0],
        Row::Not { left } => [78, 0, left as u32, 0, 0, 0],
        Row::And { left, right } => [65, 0, left as u32, right as u32, 0, 0],
        Row::Or { left, right } => [79, 0, left as u32, right as u32, 0, 0],
        Row::Once { left, a, b } => [68, 0, left as u32, 0, a, b],
        Row::Always { left, a, b } => [66, 0, left as u32, 0, a, b],
        Row::Since { left, right, a, b } => [83, 0, left as u32, right as u32, a, b],
        Row::Rule { number, left } => [82, number as u32, left as u32, 0, 0, 0],
    }
}

// Sixty-four rows whose chain goes from the last to the first: an input, denials of the row before, a rule.
fn longest() -> [u8; 1032] {
    let mut bytes = [0; 1032];
    bytes[..6].copy_from_slice(b"LWRT\x40\x40");
    let (rows, _) = bytes[8..].as_chunks_mut::<16>();
    for ((row, next), left) in rows.iter_mut().zip(0..64).zip(2..66) {
        row[0] = b'N';
        row[2] = left;
        row[4] = next;
    }
    bytes[8] = b'R';
    bytes[1016] = b'P';
    bytes[1018] = 0;
    bytes
}

#[cfg(test)]
mod tests {
    use super::*;
    use std::test::Fail;
    use table::AnyWindow;

    #[test]
    fn one_byte_changed(rt: HostRuntime) {
        assert_eq!(rt; reply::<AnyWindow>(&FULL), (0, 0));
        for (at, byte, number, place) in CHANGED.iter() {
            let bytes = changed(FULL, *at, *byte);
            assert_eq!(rt; (*at, reply::<AnyWindow>(&bytes)), (*at, (*number, *place)));
        }
    }

    #[test]
    fn two_bytes_changed(rt: HostRuntime) {
        for (at, byte, other, second, number, place) in TWICE.iter() {
            let bytes = changed(changed(FULL, *at, *byte), *other, *second);
            assert_eq!(rt; (*at, reply::<AnyWindow>(&bytes)), (*at, (*number, *place)));
        }
    }

    #[test]
    fn lengths(rt: HostRuntime) {
        assert_eq!(rt; reply::<AnyWindow>(&FULL[..0]), (1, 0));
        assert_eq!(rt; reply::<AnyWindow>(&FULL[..7]), (1, 0));
        assert_eq!(rt; reply::<AnyWindow>(&FULL[..8]), (1, 0));
        assert_eq!(rt; reply::<AnyWindow>(&FULL[..167]), (1, 0));
        assert_eq!(rt; reply::<AnyWindow>(b"LWRU\x01\x01\0\0"), (2, 0));
        assert_eq!(rt; reply::<AnyWindow>(b"LWRT\x01\x02\0\0"), (3, 0));
    }

    #[test]
    fn kinds(rt: HostRuntime) {
        assert_eq!(rt; reply::<Short>(&FULL), (9, 7));
        let late = changed(FULL, 87, 101);
        assert_eq!(rt; reply::<Short>(&late), (9, 5));
        assert_eq!(rt; reply::<Short>(&changed(FULL, 87, 100)), (9, 7));
        assert_eq!(rt; reply::<Short>(&changed(late, 76, 11)), (9, 5));
        assert_eq!(rt; reply::<Short>(&changed(late, 83, 101)), (7, 5));
    }

    #[test]
    fn full_plan(rt: HostRuntime) -> Result<(), Fail> {
        let Ok(plan) = decode_any(&FULL) else {
            return Err(Fail::new("refused"));
        };
        let counts = plan.counts();
        assert_eq!(rt; (counts.rows, counts.rules, counts.timed), (9, 2, 3));
        assert_eq!(rt; said(plan.rows[0]), [80, 2, 0, 0, 0, 0]);
        assert_eq!(rt; said(plan.rows[3]), [79, 0, 2, 0, 0, 0]);
        assert_eq!(rt; said(plan.rows[4]), [68, 0, 3, 0, 2, 4]);
        assert_eq!(rt; said(plan.rows[6]), [83, 0, 5, 4, 3, 864_000]);
        assert_eq!(rt; said(plan.rows[8]), [82, 15, 0, 0, 0, 0]);
        assert_eq!(rt; said(plan.rows[9]), [80, 0, 0, 0, 0, 0]);
        assert_eq!(rt;
            (plan.place(9), plan.place(10), plan.place(0)),
            (Some(8), None, None)
        );
        Ok(())
    }

    #[test]
    fn longest_chain(rt: HostRuntime) -> Result<(), Fail> {
        let bytes = longest();
        let Ok(plan) = decode_any(&bytes) else {
            return Err(Fail::new("refused"));
        };
        let counts = plan.counts();
        assert_eq!(rt; (counts.rows, counts.rules, counts.timed), (64, 1, 0));
        assert_eq!(rt; (plan.place(64), plan.place(1)), (Some(0), Some(63)));
        assert_eq!(rt; said(plan.rows[63]), [82, 0, 62, 0, 0, 0]);
        let mut ring = bytes;
        ring[12] = 64;
        assert_eq!(rt; reply::<AnyWindow>(&ring), (10, 1));
        Ok(())
    }
}
