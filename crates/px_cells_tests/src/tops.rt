use px_cells::{Header, Pointer};
use px_recs::{read_header, read_pointer, write_header, write_pointer};
use std::test::Fail;

#[test]
fn headers(rt: HostRuntime) -> Result<(), Fail> {
    let bytes = b"\0\0\0\x03\0\0\0\x02\0\0\x01\0\xff\xff\xff\xff";
    let header = Header {
        slots: 3,
        free_slot: 2,
        rows: 256,
        free_row: 4_294_967_295,
    };
    let mut out = Vec::new(rt.alloc());
    write_header(&header, &mut out)?;
    assert_eq!(rt; out.as_slice(), bytes.as_slice());
    assert_eq!(rt; read_header(bytes), Some(header));
    assert_eq!(rt; read_header(&bytes[1..]), None);
    out.push(0)?;
    assert_eq!(rt; read_header(&out), None);
    Ok(())
}

#[test]
fn row_pointers(rt: HostRuntime) -> Result<(), Fail> {
    for (bytes, pointer) in [
        (
            b"\x01\0\0\0\0\0\x01\x02",
            Some(Pointer {
                used: true,
                head: 258,
            }),
        ),
        (
            b"\0\0\0\0\0\0\0\x07",
            Some(Pointer {
                used: false,
                head: 7,
            }),
        ),
        (
            b"\0\0\0\0\0\0\0\0",
            Some(Pointer {
                used: false,
                head: 0,
            }),
        ),
        (b"\x02\0\0\0\0\0\0\x07", None),
        (b"\x01\x01\0\0\0\0\0\x07", None),
        (b"\x01\0\0\x01\0\0\0\x07", None),
    ] {
        assert_eq!(rt; read_pointer(bytes), pointer);
        if let Some(pointer) = pointer {
            let mut out = Vec::new(rt.alloc());
            write_pointer(&pointer, &mut out)?;
            assert_eq!(rt; out.as_slice(), bytes.as_slice());
        }
    }
    assert_eq!(rt; read_pointer(b"\x01\0\0\0\0\0\x07"), None);
    assert_eq!(rt; read_pointer(b"\x01\0\0\0\0\0\0\x07\0"), None);
    Ok(())
}
