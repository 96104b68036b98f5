use crate::making::{held, xacts};
use px_committed::next_row;
use px_memsite::MemSite;
use px_model::KeyOf;
use std::process::Abort;
use std::test::Fail;

/// `b`, `c` and `d` were written before the opening. Session 0, which committed, wrote `b` and deleted `c`; session 1, which is
/// open, wrote `a` and deleted `d`.
const VERSIONS: [(u8, u32, bool); 7] = [
    (b'b', 3, true),
    (b'c', 4, true),
    (b'd', 5, true),
    (b'b', 12, true),
    (b'c', 12, false),
    (b'a', 13, true),
    (b'd', 13, false),
];

#[test]
fn what_is_committed_is_walked(rt: HostRuntime) -> Result<(), Fail> {
    let all = xacts(rt.alloc())?;
    let mut held = held(rt.alloc(), &VERSIONS)?;
    let mut site = MemSite::new(rt.alloc())?;
    let mut after = None;
    for (key, tag) in [(b"b", 12), (b"d", 5)] {
        let row = next_row(&mut site, &mut held, &all, 1, after.as_ref())?.ok_or("no row is left")?;
        assert_eq!(rt; row.table, 1);
        assert_eq!(rt; row.key.as_slice(), key.as_slice());
        assert_eq!(rt; row.tag, tag);
        after = Some(KeyOf {
            table: row.table,
            key: row.key,
        });
    }
    let end = next_row(&mut site, &mut held, &all, 1, after.as_ref())?;
    assert!(rt; end.is_none());
    Ok(())
}
