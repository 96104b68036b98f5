use px_bytes::{Fields, put_u8, put_u16, put_u32, put_u64};
use std::test::Fail;

#[test]
fn numbers_are_big_endian(rt: HostRuntime) -> Result<(), Fail> {
    let mut out = Vec::new(rt.alloc());
    put_u8(&mut out, 7)?;
    put_u16(&mut out, 258)?;
    put_u32(&mut out, 64)?;
    put_u64(&mut out, 72_623_859_790_382_856)?;
    let bytes = b"\x07\x01\x02\x00\x00\x00\x40\x01\x02\x03\x04\x05\x06\x07\x08";
    assert_eq!(rt; out.as_slice(), bytes.as_slice());

    let mut fields = Fields::new(&out);
    assert_eq!(rt; fields.left(), 15);
    assert_eq!(rt; fields.take_u8(), Some(7));
    assert_eq!(rt; fields.take_u16(), Some(258));
    assert_eq!(rt; fields.take_u32(), Some(64));
    assert_eq!(rt; fields.take_u64(), Some(72_623_859_790_382_856));
    assert_eq!(rt; fields.take_u8(), None);
    Ok(())
}

#[test]
fn too_few_bytes_stay(rt: HostRuntime) {
    let mut fields = Fields::new(b"\x00\x00\x40");
    assert_eq!(rt; fields.take_u32(), None);
    assert_eq!(rt; fields.take_u64(), None);
    assert!(rt; fields.take_slice(4).is_none());
    assert_eq!(rt; fields.take_slice(2), Some(b"\x00\x00".as_slice()));
    assert_eq!(rt; fields.take_u16(), None);
    assert_eq!(rt; fields.take_u8(), Some(64));
}
