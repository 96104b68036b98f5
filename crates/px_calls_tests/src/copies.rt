use px_calls::Call;
use px_model::{Bytes, KeyOf, Row, RowList, WordList, Write, Writes};
use std::test::Fail;

/// Each copy is proved equal; here it is made, where there is memory.
#[test]
fn copies_are_made(rt: HostRuntime) -> Result<(), Fail> {
    let alloc = rt.alloc();
    let key = Bytes::from_slice(alloc, b"\x01")?;
    let name = KeyOf { table: 1, key }.copy()?;
    let row = Row {
        table: name.table,
        key: name.key,
        tag: 7,
        body: Bytes::from_vec(Vec::from_slice(alloc, b"abc")?),
    };
    let mut writes = Writes::new(alloc);
    writes.push(Write::Put(row.copy()?))?;
    writes.push(Write::Delete {
        table: 1,
        key: row.key.copy()?,
    })?;
    let mut rows = RowList::new(alloc);
    rows.push(row)?;
    let call = Call::Insert {
        table: 1,
        key: Bytes::from_slice(alloc, b"k1")?,
        tag: 7,
        body: Bytes::new(alloc),
    };
    let words = WordList::from_vec(vec![in alloc; Bytes::from_slice(alloc, b"run")?]?).copy()?;
    assert!(rt; matches!(call.copy()?, Call::Insert { tag: 7, .. }));
    assert_eq!(rt;
        rows.copy()?.as_slice()[0].body.as_slice(),
        b"abc".as_slice()
    );
    assert_eq!(rt; writes.copy()?.into_vec().len(), 2);
    assert_eq!(rt; words.as_slice()[0].as_slice(), b"run".as_slice());
    Ok(())
}
