use crate::store::{end, open, sweep};
use px_model::Session;
use px_xacts::{Begun, Xacts};
use std::test::Fail;

/// What is done, by one of the sessions.
#[derive(Clone, Copy, Debug)]
enum Step {
    /// A begin while the log has so many frames, and so many writes.
    Open(u8, u64, u32),
    Commit(u8),
    RollBack(u8),
    Sweep,
}

/// After each step: the horizon, the low mark, the floor, how many have ended, and whose write is due.
const HISTORY: [(Step, (u64, u64, Option<u64>, u64, Option<u64>)); 12] = [
    (Step::Open(0, 5, 2), (0, 101, Some(5), 0, None)),
    (Step::Open(1, 7, 1), (0, 101, Some(5), 0, None)),
    (Step::Commit(0), (0, 102, Some(7), 1, None)),
    (Step::Open(2, 9, 1), (0, 102, Some(7), 1, None)),
    (Step::RollBack(1), (1, 102, Some(7), 2, Some(1))),
    (Step::Sweep, (1, 102, Some(7), 2, Some(1))),
    (Step::Sweep, (1, 102, Some(7), 2, None)),
    (Step::Open(0, 11, 0), (1, 102, Some(7), 2, None)),
    (Step::Commit(2), (2, 102, Some(7), 3, Some(2))),
    (Step::Sweep, (2, 104, Some(11), 3, None)),
    (Step::Commit(0), (3, 105, None, 3, Some(3))),
    (Step::Sweep, (3, 105, None, 3, None)),
];

#[test]
fn a_history_has_the_marks_computed_by_hand(rt: HostRuntime) -> Result<(), Fail> {
    let alloc = rt.alloc();
    let mut all = Xacts::new(alloc, 100)?;
    for (step, want) in HISTORY {
        let done = match step {
            Step::Open(session, frames, writes) => {
                let session = Session::of(session).ok_or("no session")?;
                let writes = writes.min(2);
                matches!(
                    open(alloc, &mut all, session, frames, writes)?,
                    Begun::Number(_)
                )
            }
            Step::Commit(session) => {
                end(&mut all, Session::of(session).ok_or("no session")?, true)
            }
            Step::RollBack(session) => {
                end(&mut all, Session::of(session).ok_or("no session")?, false)
            }
            Step::Sweep => sweep(&mut all),
        };
        assert!(rt; done, "at {step:?}");
        let due = all.due().map(|due| due.number);
        let got = (all.horizon(), all.low(), all.floor(), all.count(), due);
        assert_eq!(rt; got, want, "at {step:?}");
    }
    Ok(())
}
