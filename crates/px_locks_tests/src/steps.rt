use px_locks::Locks;
use std::alloc::AllocError;
use std::test::Fail;

enum Step {
    Take(u8, &'static [u8], u64),
    Free(u8, &'static [u8]),
    Release(u8, &'static [u8], u64),
}

/// A step, and a key with the number that holds it then.
const STEPS: [(Step, u8, &[u8], Option<u64>); 16] = [
    (Step::Take(1, b"\x01", 3), 1, b"\x01", Some(3)),
    (Step::Take(1, b"\x01", 3), 1, b"\x01", Some(3)),
    (Step::Take(2, b"\x01", 4), 2, b"\x01", Some(4)),
    (Step::Take(1, b"\x01\x00", 4), 1, b"\x01\x00", Some(4)),
    (Step::Take(8, b"\x00", 3), 1, b"\x01", Some(3)),
    (Step::Free(8, b"\x00"), 8, b"\x00", None),
    (Step::Free(1, b"\x01\x00"), 1, b"\x01", Some(3)),
    (Step::Take(1, b"\x01\x00", 3), 1, b"\x01\x00", Some(3)),
    (Step::Free(1, b"\x01"), 1, b"\x01", None),
    (Step::Take(1, b"\x01", 4), 1, b"\x01", Some(4)),
    (Step::Release(1, b"\x01\x00", 3), 1, b"\x01\x00", None),
    (Step::Release(1, b"\x01", 3), 1, b"\x01", Some(4)),
    (Step::Release(2, b"\x01", 5), 2, b"\x01", Some(4)),
    (Step::Release(1, b"\x01", 4), 1, b"\x01", None),
    (Step::Take(2, b"\xff", 5), 2, b"\x01", Some(4)),
    (Step::Release(2, b"\xff", 5), 2, b"\xff", None),
];

/// Takes the key where no other number holds it.
fn take(locks: &mut Locks, table: u8, key: &[u8], number: u64) -> Result<(), AllocError> {
    match locks.holder(table, key) {
        None => locks.take(table, key, number),
        Some(holder) if holder == number => locks.take(table, key, number),
        Some(_) => Ok(()),
    }
}

fn make(locks: &mut Locks, step: &Step) -> Result<(), AllocError> {
    match step {
        Step::Take(table, key, number) => take(locks, *table, key, *number)?,
        Step::Free(table, key) => locks.free(*table, key),
        Step::Release(table, key, number) => locks.release(*table, key, *number),
    }
    Ok(())
}

#[test]
fn each_step_leaves_the_holder_written_down(rt: HostRuntime) -> Result<(), Fail> {
    let mut locks = Locks::new(rt.alloc())?;
    for (done, table, key, want) in &STEPS {
        make(&mut locks, done)?;
        assert_eq!(rt;
            locks.holder(*table, key),
            *want,
            "table {table}, key {key:?}"
        );
    }
    Ok(())
}

/// How many keys are taken, by two numbers in turn.
const KEYS: u16 = 1_000;

#[test]
fn a_release_leaves_the_keys_of_another(rt: HostRuntime) -> Result<(), Fail> {
    let mut locks = Locks::new(rt.alloc())?;
    for n in 0..KEYS {
        take(&mut locks, 1, &n.to_be_bytes(), u64::from(n % 2))?;
    }
    for (number, even, odd) in [(7, Some(0), Some(1)), (0, None, Some(1)), (1, None, None)] {
        for n in 0..KEYS {
            locks.release(1, &n.to_be_bytes(), number);
        }
        for n in 0..KEYS {
            let want = if n % 2 == 0 { even } else { odd };
            assert_eq!(rt; locks.holder(1, &n.to_be_bytes()), want, "key {n}");
        }
    }
    Ok(())
}
