use crate::stores::{call, told_since};
use px_memsite::MemSite;
use std::test::Fail;

/// Calls of the program one after the other: whether the site is a new one, the words, the input, what is told, and the
/// exit status.
const CALLS: [(bool, &str, &str, &str, u8); 41] = [
    (true, "make 1 64", "", "made 1 64\n", 0),
    (false, "run", "", "opened commits 0 rows 0 redone 0\n", 0),
    (false, "dump", "", "rows 0\n", 0),
    (false, "make 1 64", "", "not empty\n", 4),
    (false, "make 8 1024", "", "not empty\n", 4),
    // a row is written, read and committed, and is there in the next transaction and the next run
    (true, "make 1 64", "", "made 1 64\n", 0),
    (
        false,
        "run",
        "a begin\na insert 1 6b31 7 616263\na get 1 6b31\na commit\na begin\na get 1 6b31\n",
        "opened commits 0 rows 0 redone 0\nbegan 1\ninserted\nrow 7 616263\ncommitted 1\nbegan 2\nrow 7 616263\n",
        0,
    ),
    (false, "run", "", "opened commits 1 rows 1 redone 2\n", 0),
    (false, "dump", "", "rows 1\nrow 1 6b31 7 616263\n", 0),
    (
        false,
        "run",
        "a begin\na insert 1 01 0 aa\na frobnicate\na commit\n",
        "opened commits 1 rows 1 redone 2\nbegan 1\ninserted\nline 3: not a command\n",
        2,
    ),
    (false, "dump", "", "rows 1\nrow 1 6b31 7 616263\n", 0),
    // a snapshot doesn't see a later commit
    (true, "make 1 64", "", "made 1 64\n", 0),
    (
        false,
        "run",
        "a begin\nb begin\na insert 1 01 0 aa\nb get 1 01\na commit\nb get 1 01\nb commit\n",
        "opened commits 0 rows 0 redone 0\nbegan 1\nbegan 2\ninserted\nnone\ncommitted 1\nnone\nended\n",
        0,
    ),
    // of two overlapping writers of a row the first one wins
    (true, "make 1 64", "", "made 1 64\n", 0),
    (
        false,
        "run",
        "a begin\nb begin\na insert 1 01 0 aa\nb insert 1 01 0 bb\nb get 1 01\n",
        "opened commits 0 rows 0 redone 0\nbegan 1\nbegan 2\ninserted\nconflict 1\nnone\n",
        0,
    ),
    (
        false,
        "run",
        "a begin\nb begin\na insert 1 01 0 aa\na commit\nb update 1 01 0 bb\n",
        "opened commits 0 rows 0 redone 1\nbegan 1\nbegan 2\ninserted\ncommitted 1\nconflict 1\n",
        0,
    ),
    // a version that was rolled back goes with its sweep, in a frame that no sync follows
    (true, "make 1 64", "", "made 1 64\n", 0),
    (
        false,
        "run",
        "a begin\na insert 1 01 0 aa\na rollback\nb begin\nb insert 1 01 0 bb\nstat\nsweeper\nsweeper\nstat\n",
        "opened commits 0 rows 0 redone 0\nbegan 1\ninserted\nrolled back\nbegan 2\ninserted\n\
         stat commits 0 open 1 unswept 1 variations 2 live 0 held 0 frames 3 durable 0 applied 0 redo 0\nswept 1\nidle\n\
         stat commits 0 open 1 unswept 0 variations 1 live 0 held 0 frames 4 durable 0 applied 0 redo 0\n",
        0,
    ),
    // the version that was never committed goes in a frame of the opening, which is synced
    (
        false,
        "run",
        "stat\nsweeper\n",
        "opened commits 0 rows 0 redone 4\n\
         stat commits 0 open 0 unswept 0 variations 0 live 0 held 0 frames 5 durable 5 applied 0 redo 0\nidle\n",
        0,
    ),
    // a snapshot holds the sweeper back, and of a deletion nothing stays
    (true, "make 1 64", "", "made 1 64\n", 0),
    (
        false,
        "run",
        "a begin\na insert 1 01 3 aa\na commit\nb begin\nc begin\nc delete 1 01\nc commit\nd begin\nd insert 1 01 4 bb\nd commit\n\
         b get 1 01\ne begin\ne get 1 01\nsweeper\nsweeper\nb rollback\nsweeper\nsweeper\nstat\n",
        "opened commits 0 rows 0 redone 0\nbegan 1\ninserted\ncommitted 1\nbegan 2\nbegan 3\ndeleted\ncommitted 2\nbegan 4\ninserted\n\
         committed 3\nrow 3 aa\nbegan 5\nrow 4 bb\nswept 1\nidle\nrolled back\nswept 3\nswept 4\n\
         stat commits 3 open 1 unswept 0 variations 1 live 0 held 0 frames 7 durable 6 applied 0 redo 0\n",
        0,
    ),
    // the row below a swept one goes with it
    (true, "make 1 64", "", "made 1 64\n", 0),
    (
        false,
        "run",
        "a begin\na insert 1 01 0 aa\na commit\nb begin\nc begin\nc update 1 01 0 bb\nc commit\nsweeper\nsweeper\nstat\nb commit\nsweeper\nstat\n",
        "opened commits 0 rows 0 redone 0\nbegan 1\ninserted\ncommitted 1\nbegan 2\nbegan 3\nupdated\ncommitted 2\nswept 1\nidle\n\
         stat commits 2 open 1 unswept 1 variations 2 live 0 held 0 frames 4 durable 4 applied 0 redo 0\nended\nswept 3\n\
         stat commits 2 open 0 unswept 0 variations 1 live 0 held 0 frames 5 durable 4 applied 0 redo 0\n",
        0,
    ),
    (
        false,
        "run",
        "stat",
        "opened commits 2 rows 1 redone 5\n\
         stat commits 2 open 0 unswept 0 variations 1 live 0 held 0 frames 5 durable 5 applied 0 redo 0\n",
        0,
    ),
    // the lines of the sweeper and of the numbers have one word, in lower case
    (
        false,
        "run",
        "sweeper\nsweeper \nstat\n",
        "opened commits 2 rows 1 redone 5\nidle\nline 2: not a command\n",
        2,
    ),
    (
        false,
        "run",
        "Sweeper\n",
        "opened commits 2 rows 1 redone 5\nline 1: not a command\n",
        2,
    ),
    (
        false,
        "run",
        "a sweeper\n",
        "opened commits 2 rows 1 redone 5\nline 1: not a command\n",
        2,
    ),
    (
        false,
        "run",
        "STAT\n",
        "opened commits 2 rows 1 redone 5\nline 1: not a command\n",
        2,
    ),
    (
        false,
        "run",
        "sweeper\nstat 1\n",
        "opened commits 2 rows 1 redone 5\nidle\nline 2: not a command\n",
        2,
    ),
    // rows are found by their tags as a snapshot has them
    (true, "make 1 64", "", "made 1 64\n", 0),
    (
        false,
        "run",
        "a begin\na insert 1 01 5 aa\na commit\nb begin\nc begin\nc update 1 01 6 bb\nc commit\nb find 1 5\nb find 1 6\nc begin\nc find 1 5\nc find 1 6\n",
        "opened commits 0 rows 0 redone 0\nbegan 1\ninserted\ncommitted 1\nbegan 2\nbegan 3\nupdated\ncommitted 2\n\
         found 1\nat 01 5 aa\nfound 0\nbegan 4\nfound 0\nfound 1\nat 01 6 bb\n",
        0,
    ),
    // a ticket keeps a row as it was
    (true, "make 1 64", "", "made 1 64\n", 0),
    (
        false,
        "run",
        "a begin\na insert 1 01 3 aa\na hold 1 01\na update 1 01 4 bb\na fetch 1\na fetch 2\na insert 1 02 0 -\na scan 1\nwriter\n",
        "opened commits 0 rows 0 redone 0\nbegan 1\ninserted\nheld 1\nupdated\nrow 3 aa\nno ticket\ninserted\n\
         found 2\nat 01 4 bb\nat 02 0 -\nline 9: not a command\n",
        2,
    ),
    // the last line needs no line feed, and each session's letter is read
    (true, "make 8 16", "", "made 8 16\n", 0),
    (
        false,
        "run",
        "a begin",
        "opened commits 0 rows 0 redone 0\nbegan 1\n",
        0,
    ),
    (
        false,
        "run",
        "b begin\n\n",
        "opened commits 0 rows 0 redone 0\nbegan 1\nline 2: not a command\n",
        2,
    ),
    // where there is no store, and where the words are none
    (true, "run", "a begin\n", "no store\n", 3),
    (false, "dump", "", "no store\n", 3),
    (
        false,
        "make 9 64",
        "",
        "usage: pbxt make N S, run, dump\n",
        1,
    ),
    (
        false,
        "make 1 64 1",
        "",
        "usage: pbxt make N S, run, dump\n",
        1,
    ),
    (false, "", "", "usage: pbxt make N S, run, dump\n", 1),
];

#[test]
fn calls_tell_what_was_written_down(rt: HostRuntime) -> Result<(), Fail> {
    let alloc = rt.alloc();
    let mut site = MemSite::new(alloc)?;
    for (is_new, line, input, want, code) in CALLS {
        if is_new {
            site = MemSite::new(alloc)?;
        }
        let before = site.told().len();
        let status = call(alloc, line, input, &mut site)?;
        let told = told_since(alloc, before, &site)?;
        assert_eq!(rt; told.as_str(), want, "at {line:?} with {input:?}");
        assert_eq!(rt; status.code(), code, "at {line:?} with {input:?}");
    }
    Ok(())
}
