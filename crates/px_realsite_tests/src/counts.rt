use crate::calls::{Call, is_right};
use crate::folders::{clear, site_over};
use px_realsite::Syncs;
use px_site::{FileName, Site};
use std::test::Fail;

const LOG: FileName = FileName::Xlog(1);

/// Calls in a row in a folder that isn't there yet. Beside each stands what was asked of the system by its end: calls,
/// bytes read and bytes written.
const ASKED: [(Call, u64, u64, u64); 11] = [
    // Asking for the folder; making it, opening and locking it, and reading its names; making the file, and writing.
    (Call::Write(LOG, 0, b"abc"), 7, 0, 3),
    (Call::Write(LOG, 3, b"de"), 8, 0, 5),
    // A read from each of five places, and one more there that finds the end; and the length.
    (Call::Read(LOG, b"abcde"), 19, 15, 5),
    (Call::ReadEnd(LOG, 5), 20, 15, 5),
    (Call::Cut(LOG, 9), 21, 15, 5),
    (Call::Cut(LOG, 2), 23, 15, 5),
    // The file is synced, and the folder; and the one above it is opened and synced.
    (Call::Sync(LOG), 27, 15, 5),
    (Call::Sync(LOG), 28, 15, 5),
    (Call::List(None, Some(LOG)), 30, 15, 5),
    // The listing has no name more.
    (Call::List(Some(LOG), None), 30, 15, 5),
    (Call::Remove(LOG), 31, 15, 5),
];

#[test]
fn each_call_counts_what_it_asks(rt: HostRuntime) -> Result<(), Fail> {
    let mut site = site_over(&rt, "counts")?;
    for (call, calls, bytes_read, bytes_written) in ASKED {
        assert!(rt; is_right(&mut site, call));
        let asked = site.traffic();
        assert_eq!(rt; asked.calls, calls);
        assert_eq!(rt;
            (asked.bytes_read, asked.bytes_written),
            (bytes_read, bytes_written)
        );
    }
    site.tell(b"told\n")?;
    let asked = site.traffic();
    assert_eq!(rt; (asked.calls, asked.bytes_told), (32, 5));
    let syncs = Syncs {
        files: 2,
        last: Some(LOG),
        are_names_durable: false,
        is_folder_durable: true,
        has_failed: false,
    };
    assert_eq!(rt; asked.syncs, syncs);
    clear(&rt, "counts")
}
