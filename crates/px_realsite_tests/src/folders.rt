//! The folders that the tests work in.
use px_realsite::RealSite;
use std::fs;
use std::test::Fail;

/// A site over the folder of this name, which isn't there yet.
pub fn site_over(rt: &HostRuntime, folder: &str) -> Result<RealSite<HostRuntime>, Fail> {
    clear(rt, folder)?;
    Ok(RealSite::new(rt.clone()?, folder)?)
}

/// Removes the folder with all that is in it.
pub fn clear(rt: &HostRuntime, folder: &str) -> Result<(), Fail> {
    if fs::exists(rt, folder)? {
        fs::remove_dir_all(rt, folder)?;
    }
    Ok(())
}
