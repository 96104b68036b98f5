use crate::stores::{call, failing_store, told_since};
use px_memsite::MemSite;
use std::alloc::Global;
use std::test::Fail;

/// A script for a new store, and what a crash of its run may leave.
#[derive(Clone, Copy)]
pub(crate) struct Script {
    pub lines: &'static str,
    /// The lines up to and with each commit that is acknowledged.
    pub commits: &'static [usize],
    /// What `dump` tells after so many commits.
    pub dumps: &'static [&'static str],
}

/// A row is written, read and committed, and read by the next transaction.
pub(crate) const READ_AGAIN: Script = Script {
    lines: "a begin\na insert 1 6b31 7 616263\na get 1 6b31\na commit\na begin\na get 1 6b31\n",
    commits: &[4],
    dumps: &["rows 0\n", "rows 1\nrow 1 6b31 7 616263\n"],
};

/// A snapshot stays as it is while another session commits.
pub(crate) const BESIDE_A_SNAPSHOT: Script = Script {
    lines: "a begin\nb begin\na insert 1 01 0 aa\nb get 1 01\na commit\nb get 1 01\nb commit\n",
    commits: &[5],
    dumps: &["rows 0\n", "rows 1\nrow 1 01 0 aa\n"],
};

/// Three sessions commit, the third one over the rows of the first two.
pub(crate) const THREE_COMMITS: Script = Script {
    lines: "a begin\nb begin\na insert 1 02 2 -\nb insert 1 01 1 bb\nb commit\na commit\nc begin\nc delete 1 01\nc update 1 02 3 cc\nc commit\n",
    commits: &[5, 6, 10],
    dumps: &[
        "rows 0\n",
        "rows 1\nrow 1 01 1 bb\n",
        "rows 2\nrow 1 01 1 bb\nrow 1 02 2 -\n",
        "rows 1\nrow 1 02 3 cc\n",
    ],
};

/// The slot of a version that went with a sweep is used again.
pub(crate) const AROUND_A_SWEEP: Script = Script {
    lines: "a begin\na insert 1 01 0 aa\na commit\na begin\na update 1 01 0 bb\na commit\nsweeper\nsweeper\nb begin\nb insert 1 02 0 cc\nb commit\n",
    commits: &[3, 6, 11],
    dumps: &[
        "rows 0\n",
        "rows 1\nrow 1 01 0 aa\n",
        "rows 1\nrow 1 01 0 bb\n",
        "rows 2\nrow 1 01 0 bb\nrow 1 02 0 cc\n",
    ],
};

/// A row is written, read and committed. Where the commit's sync fails, no commit is acknowledged.
pub(crate) const NOT_ACKNOWLEDGED: Script = Script {
    lines: "a begin\na insert 1 6b31 7 616263\na get 1 6b31\na commit\n",
    commits: &[],
    dumps: &["rows 0\n", "rows 1\nrow 1 6b31 7 616263\n"],
};

/// What is told where the sync of its commit fails.
const NOT_SYNCED: &str =
    "opened commits 0 rows 0 redone 0\nbegan 1\ninserted\nrow 7 616263\ndisk fault: sync\n";

/// A store on which that call fails, in or after its making, with what a run of the script told on it, and its exit status.
pub(crate) fn run_with_fault(alloc: Global, number: u64) -> Result<(MemSite, String, u8), Fail> {
    let mut site = failing_store(alloc, &[number])?;
    let before = site.told().len();
    let status = call(alloc, "run", NOT_ACKNOWLEDGED.lines, &mut site)?;
    let told = told_since(alloc, before, &site)?;
    Ok((site, told, status.code()))
}

/// The call whose failure is that of the commit's sync.
pub(crate) fn sync_of_the_commit(alloc: Global) -> Result<u64, Fail> {
    for number in 0..100 {
        let (_site, told, code) = run_with_fault(alloc, number)?;
        if told.as_str() == NOT_SYNCED && code == 6 {
            return Ok(number);
        }
    }
    Err(Fail::new("no failing sync is told"))
}
