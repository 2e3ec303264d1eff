//! The engine on worked examples: each kind of window memory has one test, which drives what all kinds share.

#![tactic(auto)]

#[cfg(test)]
mod tests {
    use arrayvec::ArrayVec;
    use bit_marks::BitMarks;
    use clock_pairs::ClockPairs;
    use engine::{Inputs, feed};
    use mitl::Row;
    use plan::plan::Plan;
    use plan::{build, window_of};
    use record::{Car, Note};
    use std::process::Abort;
    use std::test::Fail;
    use table::decode;
    use window::WindowMemory;

    const CAR: Car = Car { number: 7 };

    // What stands in a place that no note is written to.
    const UNUSED: Note = Note {
        car: Car::NONE,
        word: 0xdead,
        ticks: 99,
    };

    // Rule 0 is D 2 to 4 of input 0.
    static ONCE: [u8; 56] = *b"LWRT\x03\x01\0\0\
        P\0\0\0\x02\0\0\0\0\0\0\0\0\0\0\0\
        D\0\x01\0\x03\0\0\0\0\0\0\x02\0\0\0\x04\
        R\0\x02\0\0\0\0\0\0\0\0\0\0\0\0\0";

    #[test]
    fn clock_pairs(rt: HostRuntime) -> Result<(), Fail> {
        examples(&rt, &mut [ClockPairs::new(); 2])
    }

    #[test]
    fn bits(rt: HostRuntime) -> Result<(), Fail> {
        examples(&rt, &mut [BitMarks::new(); 2])
    }

    fn examples<M: WindowMemory>(rt: &impl Abort, part: &mut [M]) -> Result<(), Fail> {
        let Ok(once) = decode::<M>(&ONCE) else {
            return Err(Fail::new("refused"));
        };
        once_notes(rt, &once, part);
        once_places(rt, &once, part);
        always_notes(rt, part)?;
        since_notes(rt, part)?;
        inner_notes(rt, part)?;
        cuts(rt, &once, part);
        Ok(())
    }

    // D 2 to 4 after one yes tick, with the ticks cut in two ways, and after a day of yes ticks.
    fn once_notes<M: WindowMemory>(rt: &impl Abort, once: &Plan, part: &mut [M]) {
        judges(
            rt,
            once,
            part,
            &[(1, 1, &[(0, 1)]), (0, 9, &[(0, 1), (1, 3), (0, 5)])],
        );
        judges(
            rt,
            once,
            part,
            &[
                (1, 1, &[(0, 1)]),
                (0, 2, &[(0, 1), (1, 1)]),
                (0, 7, &[(1, 2), (0, 5)]),
            ],
        );
        judges(
            rt,
            once,
            part,
            &[
                (1, 864_000, &[(0, 2), (1, 863_998)]),
                (0, 864_000, &[(1, 4), (0, 863_996)]),
            ],
        );
    }

    // B 2 to 4: yes before tick 2, and no while a no is within its window.
    fn always_notes<M: WindowMemory>(rt: &impl Abort, part: &mut [M]) -> Result<(), Fail> {
        let always = plan_of(&[
            Row::Input { bit: 0 },
            Row::Always {
                left: 0,
                a: 2,
                b: 4,
            },
            Row::Rule { number: 1, left: 1 },
        ])?;
        judges(rt, &always, part, &[(0, 10, &[(2, 2), (0, 8)])]);
        judges(rt, &always, part, &[(1, 864_000, &[(2, 864_000)])]);
        judges(
            rt,
            &always,
            part,
            &[
                (1, 3, &[(2, 3)]),
                (0, 1, &[(2, 1)]),
                (1, 6, &[(2, 1), (0, 3), (2, 2)]),
            ],
        );
        Ok(())
    }

    // S 1 to 3: cleared where its left row, input 1, is no.
    fn since_notes<M: WindowMemory>(rt: &impl Abort, part: &mut [M]) -> Result<(), Fail> {
        let since = plan_of(&[
            Row::Input { bit: 0 },
            Row::Input { bit: 1 },
            Row::Since {
                left: 1,
                right: 0,
                a: 1,
                b: 3,
            },
            Row::Rule { number: 0, left: 2 },
        ])?;
        judges(
            rt,
            &since,
            part,
            &[
                (2, 1, &[(0, 1)]),
                (3, 1, &[(0, 1)]),
                (2, 8, &[(1, 3), (0, 5)]),
            ],
        );
        judges(
            rt,
            &since,
            part,
            &[
                (3, 1, &[(0, 1)]),
                (2, 1, &[(1, 1)]),
                (0, 1, &[(0, 1)]),
                (2, 6, &[(0, 6)]),
            ],
        );
        Ok(())
    }

    // D 2 to 4 behind input 1: while that is off the run goes on, whatever D is.
    fn inner_notes<M: WindowMemory>(rt: &impl Abort, part: &mut [M]) -> Result<(), Fail> {
        let inner = plan_of(&[
            Row::Input { bit: 0 },
            Row::Once {
                left: 0,
                a: 2,
                b: 4,
            },
            Row::Input { bit: 1 },
            Row::And { left: 1, right: 2 },
            Row::Rule { number: 0, left: 3 },
        ])?;
        judges(rt, &inner, part, &[(1, 1, &[(0, 1)]), (0, 9, &[(0, 9)])]);
        judges(
            rt,
            &inner,
            part,
            &[(1, 1, &[(0, 1)]), (2, 9, &[(0, 1), (1, 3), (0, 5)])],
        );
        Ok(())
    }

    // With one place only the first run is written and only its ticks are taken; without a place, a tick or a memory
    // nothing is.
    fn once_places<M: WindowMemory>(rt: &impl Abort, once: &Plan, part: &mut [M]) {
        ready(rt, once, part);
        feeds(rt, once, 1, 1, part, &mut [UNUSED; 1], &[(0, 1)]);
        feeds(rt, once, 0, 9, part, &mut [UNUSED; 1], &[(0, 1)]);
        feeds(rt, once, 0, 8, part, &mut [], &[]);
        feeds(rt, once, 0, 0, part, &mut [UNUSED; 3], &[]);
        feeds::<M>(rt, once, 0, 8, &mut [], &mut [UNUSED; 3], &[]);
        feeds(rt, once, 0, 8, part, &mut [UNUSED; 1], &[(1, 3)]);
        feeds(rt, once, 0, 5, part, &mut [UNUSED; 3], &[(0, 5)]);
    }

    // The verdict words are the same wherever the ticks are cut and however many places there are.
    fn cuts<M: WindowMemory>(rt: &impl Abort, once: &Plan, part: &mut [M]) {
        let words = [0, 0, 1, 1, 1, 0, 0, 1, 1, 1, 1, 0];
        for most in 1..8 {
            assert_eq!(rt;
                spelt(rt, once, part, most, &mut [UNUSED; 1]).as_slice(),
                &words[..]
            );
            assert_eq!(rt;
                spelt(rt, once, part, most, &mut [UNUSED; 4]).as_slice(),
                &words[..]
            );
        }
    }

    // Records of four lengths, cut into pieces of at most so many ticks: the verdict words of their ticks.
    fn spelt<M: WindowMemory>(
        rt: &impl Abort,
        plan: &Plan,
        part: &mut [M],
        most: u32,
        places: &mut [Note],
    ) -> ArrayVec<u16, 12> {
        ready(rt, plan, part);
        let mut words = ArrayVec::new();
        for (word, ticks) in [(1, 1), (0, 4), (1, 2), (0, 5)] {
            let mut left = ticks;
            for _ in 0..ticks {
                let inputs = Inputs {
                    car: CAR,
                    word,
                    ticks: most.min(left),
                };
                let fed = feed(plan, inputs, part, places);
                for note in places.iter().take(fed.notes) {
                    spell(rt, &mut words, *note);
                }
                left = left.saturating_sub(fed.ticks);
            }
        }
        words
    }

    // Adds a note's word, once for each of its ticks.
    fn spell(rt: &impl Abort, words: &mut ArrayVec<u16, 12>, note: Note) {
        for _ in 0..note.ticks {
            assert!(rt; words.try_push(note.word).is_ok());
        }
    }

    // The plan of these rows.
    fn plan_of(rows: &[Row]) -> Result<Plan, Fail> {
        let mut all = [Row::Input { bit: 0 }; 64];
        for (place, row) in all.iter_mut().zip(rows) {
            *place = *row;
        }
        build(all, [0; 64], rows.len()).ok_or_else(|| Fail::new("no plan"))
    }

    // Before the first tick: the memory of each timed row has its window and no mark.
    fn ready<M: WindowMemory>(rt: &impl Abort, plan: &Plan, part: &mut [M]) {
        assert!(rt; plan.counts().timed <= part.len());
        let windows = plan.chain().iter().filter_map(|row| window_of(*row));
        for (memory, (a, b)) in part.iter_mut().zip(windows) {
            assert!(rt; memory.prepare(a, b));
        }
    }

    // Records from the first tick on, by input word and ticks, and the word and ticks of the notes of each.
    fn judges<M: WindowMemory>(
        rt: &impl Abort,
        plan: &Plan,
        part: &mut [M],
        records: &[(u32, u32, &[(u16, u32)])],
    ) {
        ready(rt, plan, part);
        for (word, ticks, notes) in records {
            feeds(rt, plan, *word, *ticks, part, &mut [UNUSED; 4], notes);
        }
    }

    // One record and its notes: they cover the ticks taken, and the other places stay.
    fn feeds<M: WindowMemory>(
        rt: &impl Abort,
        plan: &Plan,
        word: u32,
        ticks: u32,
        part: &mut [M],
        places: &mut [Note],
        notes: &[(u16, u32)],
    ) {
        let inputs = Inputs {
            car: CAR,
            word,
            ticks,
        };
        let fed = feed(plan, inputs, part, places);
        assert_eq!(rt; fed.notes, notes.len());
        let mut taken = 0u32;
        for (place, (word, ticks)) in places.iter().zip(notes) {
            assert_eq!(rt; place.car, CAR);
            assert_eq!(rt; (place.word, place.ticks), (*word, *ticks));
            taken = taken.saturating_add(*ticks);
        }
        assert_eq!(rt; fed.ticks, taken);
        for place in places.iter().skip(notes.len()) {
            assert_eq!(rt; *place, UNUSED);
        }
    }
}
