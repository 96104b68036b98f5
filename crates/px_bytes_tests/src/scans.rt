use px_scan::scan;
use std::test::Fail;

/// Frame 1 with a commit, frame 2 with a rollback, and the torn front of frame 3.
const LOG: &[u8; 73] = b"\0\0\0\x12\xee\x74\xf4\x70\0\0\0\0\0\0\0\x01\
    \x02\0\0\0\0\0\0\0\x01\0\0\0\0\0\0\0\x01\0\
    \0\0\0\x12\x95\x99\x2a\xae\0\0\0\0\0\0\0\x02\
    \x03\0\0\0\0\0\0\0\x02\0\0\0\0\0\0\0\0\0\
    \0\0\0\x12\x95";

#[test]
fn a_torn_frame_ends_the_scan(rt: HostRuntime) -> Result<(), Fail> {
    for (number, count, stop) in [(1, 2, 68), (2, 0, 0), (0, 0, 0)] {
        let scanned = scan(rt.alloc(), LOG, number)?;
        assert_eq!(rt; scanned.payloads.len(), count);
        assert_eq!(rt; scanned.stop, stop);
    }
    Ok(())
}
