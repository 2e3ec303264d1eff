//! The kinds of window memory on worked examples: each kind has one test, which drives what all kinds share.

#![tactic(auto)]

#[cfg(test)]
mod tests {
    use bit_marks::BitMarks;
    use clock_pairs::ClockPairs;
    use std::process::Abort;
    use window::{Admission, WindowMemory};

    #[test]
    fn clock_pairs(rt: HostRuntime) {
        limit::<ClockPairs>(&rt, (95, 96), (96, 97));
        examples::<ClockPairs>(&rt);
    }

    #[test]
    fn bits(rt: HostRuntime) {
        limit::<BitMarks>(&rt, (0, 1_000), (0, 1_001));
        examples::<BitMarks>(&rt);
    }

    // A kind serves one window and not the other, and a refusal leaves the memory.
    fn limit<M: WindowMemory>(rt: &impl Abort, served: (u32, u32), refused: (u32, u32)) {
        assert!(rt; M::admits(served.0, served.1));
        assert!(rt; !M::admits(refused.0, refused.1));
        let mut m = after::<M>(rt, 0, 2, &[(true, 1)]);
        assert!(rt; !m.prepare(refused.0, refused.1));
        shows(rt, &m, b"##", 1);
        assert!(rt; m.prepare(served.0, served.1));
        shows(rt, &m, b"..", 0);
    }

    fn examples<M: WindowMemory>(rt: &impl Abort) {
        outlooks::<M>(rt);
        runs::<M>(rt);
    }

    // The window 3 to 4 after some takes: its marks and their stretches.
    fn outlooks<M: WindowMemory>(rt: &impl Abort) {
        let examples: [(&[(bool, u32)], &[u8], u32); 7] = [
            (&[], b"....", 0),
            (&[(true, 1), (false, 2), (true, 1)], b"#.##", 2),
            // the gap split over two takes
            (&[(true, 1), (false, 1), (false, 1), (true, 1)], b"#.##", 2),
            (&[(true, 1), (false, 1), (true, 1)], b"####", 1),
            (&[(true, 1), (true, 0), (false, 0)], b"..##", 1),
            (&[(true, u32::MAX)], b"####", 1),
            (&[(true, 1), (false, u32::MAX)], b"....", 0),
        ];
        for (takes, marks, stretches) in examples {
            shows(rt, &after::<M>(rt, 3, 4, takes), marks, stretches);
        }
        let mut m = after::<M>(rt, 3, 4, &[(true, 1)]);
        m.clear();
        shows(rt, &m, b"....", 0);
        shows(rt, &M::new(), b".", 0);
    }

    // A window after a take of yes and one of no: how long the verdict lasts.
    fn runs<M: WindowMemory>(rt: &impl Abort) {
        let examples: [(u32, u32, u32, u32, (bool, Option<u32>), (bool, Option<u32>)); 6] = [
            (3, 4, 0, 0, (false, None), (false, Some(3))),
            (3, 4, 1, 0, (false, Some(2)), (false, Some(2))),
            (3, 4, 1, 3, (true, Some(1)), (true, Some(1))),
            (3, 4, 4, 0, (true, Some(4)), (true, None)),
            (60, 70, 1, 0, (false, Some(59)), (false, Some(59))),
            (60, 70, 1, 59, (true, Some(11)), (true, Some(11))),
        ];
        for (a, b, yes, no, if_no, if_yes) in examples {
            lasts(
                rt,
                &after::<M>(rt, a, b, &[(true, yes), (false, no)]),
                if_no,
                if_yes,
            );
        }
    }

    // A memory of this window after some takes.
    fn after<M: WindowMemory>(rt: &impl Abort, a: u32, b: u32, takes: &[(bool, u32)]) -> M {
        let mut m = M::new();
        assert!(rt; m.prepare(a, b));
        for (operand, n) in takes {
            m.take(*operand, *n);
        }
        m
    }

    // The marks, '#' for yes, with no yes from there on, and how many stretches they have.
    fn shows<M: WindowMemory>(rt: &impl Abort, m: &M, marks: &[u8], stretches: u32) {
        for (d, c) in (0..).zip(marks.iter().chain(b".")) {
            assert_eq!(rt; m.look(d), *c == b'#');
        }
        assert!(rt; !m.look(u32::MAX));
        assert_eq!(rt; m.count(), stretches);
    }

    // The verdict and how long it lasts, if the operand stays no and if it stays yes.
    fn lasts<M: WindowMemory>(
        rt: &impl Abort,
        m: &M,
        no: (bool, Option<u32>),
        yes: (bool, Option<u32>),
    ) {
        assert_eq!(rt; m.run(false), no);
        assert_eq!(rt; m.run(true), yes);
    }
}
