use px_calls::Status;
use px_site::Site;

/// What came of a word: the status, and the site, which comes back.
#[derive(Drop)]
pub(crate) struct Ended<W: Site> {
    pub site: W,
    pub status: Status,
}
