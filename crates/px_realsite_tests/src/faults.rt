use crate::calls::{Call, first_wrong};
use crate::folders::{clear, site_over};
use px_site::{Fault, FileName, Site, SiteError};
use std::fs;
use std::test::Fail;

const LOG: FileName = FileName::Xlog(1);

/// What each call on the file answers, in the order of the trait.
pub fn answers<S: Site>(site: &mut S) -> [Option<SiteError>; 6] {
    [
        site.len(LOG).err(),
        site.read_at(LOG, 0, &mut [0u8; 4]).err(),
        site.write_at(LOG, 0, b"a").err(),
        site.cut(LOG, 0).err(),
        site.sync(LOG).err(),
        site.remove(LOG).err(),
    ]
}

/// The fault of each.
pub const FAULTS: [Option<SiteError>; 6] = [
    Some(SiteError::Fault(Fault::Read)),
    Some(SiteError::Fault(Fault::Read)),
    Some(SiteError::Fault(Fault::Write)),
    Some(SiteError::Fault(Fault::Write)),
    Some(SiteError::Fault(Fault::Sync)),
    Some(SiteError::Fault(Fault::Remove)),
];

#[test]
fn a_file_stands_in_the_place_of_the_folder(rt: HostRuntime) -> Result<(), Fail> {
    let mut site = site_over(&rt, "blocked")?;
    fs::write(&rt, "blocked", "a")?;
    assert_eq!(rt; answers(&mut site), FAULTS);
    assert_eq!(rt; site.list(None), Err(SiteError::Fault(Fault::List)));
    fs::remove_file(&rt, "blocked")?;

    // Once the folder can be had, the calls answer again.
    let calls = [Call::Write(LOG, 0, b"a"), Call::Sync(LOG)];
    assert_eq!(rt; first_wrong(&mut site, &calls), None);
    clear(&rt, "blocked")
}

#[test]
fn a_folder_stands_in_the_place_of_a_file(rt: HostRuntime) -> Result<(), Fail> {
    let mut site = site_over(&rt, "nested")?;
    fs::create_dir(&rt, "nested")?;
    fs::create_dir(&rt, "nested/xlog-1")?;
    assert_eq!(rt; answers(&mut site), FAULTS);
    assert_eq!(rt; site.list(None), Ok(None));
    clear(&rt, "nested")
}

#[test]
fn a_folder_above_is_missing(rt: HostRuntime) -> Result<(), Fail> {
    let mut site = site_over(&rt, "above/below")?;
    assert_eq!(rt;
        site.write_at(LOG, 0, b"a"),
        Err(SiteError::Fault(Fault::Write))
    );
    assert_eq!(rt; site.len(LOG), Ok(0));
    Ok(())
}
