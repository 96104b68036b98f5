// The order of files.
use px_memsite::MemSite;
use px_site::{FileName, Site};
use std::test::Fail;

#[test]
fn files_are_listed_in_order(rt: HostRuntime) -> Result<(), Fail> {
    let mut site = MemSite::new(rt.alloc())?;
    let put = [
        FileName::Index,
        FileName::Xlog(10),
        FileName::Row(2),
        FileName::Xlog(9),
        FileName::Rec(3),
        FileName::Dlog(5),
    ];
    for file in put {
        site.put_file(file, b"x")?;
    }
    site.put_file(FileName::Rec(1), &[])?;
    let order = [
        FileName::Rec(3),
        FileName::Row(2),
        FileName::Dlog(5),
        FileName::Xlog(9),
        FileName::Xlog(10),
        FileName::Index,
    ];
    let mut after = None;
    for file in order {
        assert_eq!(rt; site.list(after), Ok(Some(file)));
        after = Some(file);
    }
    assert_eq!(rt; site.list(after), Ok(None));
    Ok(())
}
