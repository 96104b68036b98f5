use px_frame::{read_frame, write_frame};
use std::test::Fail;

/// The change that ends transaction 1 as commit 1.
const COMMIT: &[u8; 18] = b"\x02\0\0\0\0\0\0\0\x01\0\0\0\0\0\0\0\x01\0";

/// The frame of that change with number 1.
const FRAME: &[u8; 34] = b"\0\0\0\x12\xee\x74\xf4\x70\0\0\0\0\0\0\0\x01\
    \x02\0\0\0\0\0\0\0\x01\0\0\0\0\0\0\0\x01\0";

#[test]
fn a_commit_is_framed(rt: HostRuntime) -> Result<(), Fail> {
    let mut out = Vec::new(rt.alloc());
    write_frame(&mut out, 1, COMMIT)?;
    assert_eq!(rt; out.as_slice(), FRAME.as_slice());
    assert_eq!(rt; read_frame(&out, 1), Some((COMMIT.as_slice(), 34)));
    assert_eq!(rt; read_frame(&out, 2), None);
    let _last = out.pop();
    assert_eq!(rt; read_frame(&out, 1), None);
    Ok(())
}
