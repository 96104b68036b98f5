use crate::making::{held, unlink_oldest};
use px_tidy::Done;
use std::process::Abort;
use std::test::Fail;

/// 3 is done, and 11 and 12 aren't.
const LOW: u64 = 11;

/// The key `a` was written by 3, by 11 and by 12.
const VERSIONS: [(u8, u32); 4] = [(b'a', 3), (b'c', 4), (b'a', 11), (b'a', 12)];

/// Of the two versions that go, the older one is unlinked first: the header changes, its slot, and the slot in front of it.
#[test]
fn the_oldest_version_goes_first(rt: HostRuntime) -> Result<(), Fail> {
    let mut held = held(rt.alloc(), &VERSIONS)?;
    let done = Done::new(rt.alloc(), LOW);
    assert_eq!(rt; unlink_oldest(&mut held, rt.alloc(), &done)?, (3, 3));
    Ok(())
}
