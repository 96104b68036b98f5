use crate::calls::{Call, first_wrong};
use crate::faults::{FAULTS, answers};
use crate::folders::{clear, site_over};
use px_realsite::RealSite;
use px_site::{Fault, FileName, Site, SiteError};
use std::fs;
use std::test::Fail;

const LOG: FileName = FileName::Xlog(1);

/// Whether the site refuses each call, and moved no byte.
fn is_kept_out(site: &mut RealSite<HostRuntime>) -> bool {
    let listed = site.list(None);
    let is_refused = answers(site) == FAULTS && listed == Err(SiteError::Fault(Fault::List));
    let asked = site.traffic();
    is_refused && asked.bytes_read == 0 && asked.bytes_written == 0 && !asked.is_held
}

#[test]
fn one_site_at_a_time_has_a_folder(rt: HostRuntime) -> Result<(), Fail> {
    let mut first = site_over(&rt, "alone")?;
    let made = [Call::Write(LOG, 0, b"a"), Call::Sync(LOG)];
    assert_eq!(rt; first_wrong(&mut first, &made), None);
    let mut second = RealSite::new(rt.clone()?, "alone")?;
    assert!(rt; is_kept_out(&mut second));
    assert_eq!(rt; first_wrong(&mut first, &[Call::Read(LOG, b"a")]), None);

    // Its end frees the folder.
    drop(first);
    assert_eq!(rt; first_wrong(&mut second, &[Call::Read(LOG, b"a")]), None);
    clear(&rt, "alone")
}

#[test]
fn a_folder_that_came_after_it_was_answered_for_is_not_taken(rt: HostRuntime) -> Result<(), Fail> {
    let mut late = site_over(&rt, "late")?;
    assert_eq!(rt; late.list(None), Ok(None));
    {
        let mut other = RealSite::new(rt.clone()?, "late")?;
        assert_eq!(rt; first_wrong(&mut other, &[Call::Write(LOG, 0, b"a")]), None);
    }
    assert!(rt; is_kept_out(&mut late));
    assert!(rt; fs::read(&rt, "late/xlog-1")?.as_slice() == b"a".as_slice());
    clear(&rt, "late")
}

/// What the site says of its last refusal.
fn says(site: &RealSite<HostRuntime>, text: &str) -> Result<bool, Fail> {
    Ok(match site.refusal()? {
        Some(refusal) => refusal.as_str() == text,
        None => false,
    })
}

#[test]
fn a_refusal_says_what_was_refused(rt: HostRuntime) -> Result<(), Fail> {
    let mut site = site_over(&rt, "says")?;
    fs::create_dir(&rt, "says")?;
    fs::create_dir(&rt, "says/xlog-1")?;
    assert_eq!(rt; site.len(LOG), Err(SiteError::Fault(Fault::Read)));
    assert!(rt; says(&site, "says/xlog-1: Is a directory (os error 21)")?);
    let mut second = RealSite::new(rt.clone()?, "says")?;
    assert_eq!(rt; second.len(LOG), Err(SiteError::Fault(Fault::Read)));
    assert!(rt; says(&second, "says is in use by another process")?);
    clear(&rt, "says")
}
