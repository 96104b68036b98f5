use px_bytes::{fnv, fnv_on};

#[test]
fn published_sums(rt: HostRuntime) {
    for (bytes, sum) in [
        (b"".as_slice(), 0x811c_9dc5),
        (b"a".as_slice(), 0xe40c_292c),
        (b"foobar".as_slice(), 0xbf9c_f968),
    ] {
        assert_eq!(rt; fnv(bytes), sum, "of {bytes:?}");
    }
    assert_eq!(rt; fnv_on(fnv(b"foo"), b"bar"), 0xbf9c_f968);
}
