/// Scripts for a new store of one table, whose slots hold bodies of up to 64 bytes; their answers were written down before there was a
/// program. A line is a call, ` > `, and the answer, whose own lines are parted by ` | `.
pub(crate) const SCRIPTS: [&str; 10] = [
    ALONE,
    LATER_COMMIT,
    TWO_WRITERS,
    LATE_WRITER,
    ROLLED_BACK,
    KEPT_FOR_A_SNAPSHOT,
    WAITING_UPDATE,
    CHANGED_TAG,
    REFUSALS,
    FIRST_AND_LAST,
];

const ALONE: &str = "
a begin > began 1
a insert 1 6b31 7 616263 > inserted
a get 1 6b31 > row 7 616263
a commit > committed 1
a begin > began 2
a get 1 6b31 > row 7 616263
";

const LATER_COMMIT: &str = "
a begin > began 1
b begin > began 2
a insert 1 01 0 aa > inserted
b get 1 01 > none
a commit > committed 1
b get 1 01 > none
b commit > ended
";

const TWO_WRITERS: &str = "
a begin > began 1
b begin > began 2
a insert 1 01 0 aa > inserted
b insert 1 01 0 bb > conflict 1
b get 1 01 > none
";

const LATE_WRITER: &str = "
a begin > began 1
b begin > began 2
a insert 1 01 0 aa > inserted
a commit > committed 1
b update 1 01 0 bb > conflict 1
";

const ROLLED_BACK: &str = "
a begin > began 1
a insert 1 01 0 aa > inserted
a rollback > rolled back
b begin > began 2
b insert 1 01 0 bb > inserted
";

const KEPT_FOR_A_SNAPSHOT: &str = "
a begin > began 1
a insert 1 01 3 aa > inserted
a commit > committed 1
b begin > began 2
c begin > began 3
c delete 1 01 > deleted
c commit > committed 2
d begin > began 4
d insert 1 01 4 bb > inserted
d commit > committed 3
b get 1 01 > row 3 aa
e begin > began 5
e get 1 01 > row 4 bb
b rollback > rolled back
";

const WAITING_UPDATE: &str = "
a begin > began 1
a insert 1 01 0 aa > inserted
a commit > committed 1
b begin > began 2
c begin > began 3
c update 1 01 0 bb > updated
c commit > committed 2
b commit > ended
";

const CHANGED_TAG: &str = "
a begin > began 1
a insert 1 01 5 aa > inserted
a commit > committed 1
b begin > began 2
c begin > began 3
c update 1 01 6 bb > updated
c commit > committed 2
b find 1 5 > found 1 | at 01 5 aa
b find 1 6 > found 0
c begin > began 4
c find 1 5 > found 0
c find 1 6 > found 1 | at 01 6 bb
";

const REFUSALS: &str = "
a get 1 01 > no transaction
a begin > began 1
a begin > open already
a get 3 01 > no table
a update 1 01 0 aa > missing
a insert 1 01 0 - > inserted
a insert 1 01 0 aa > duplicate
a get 1 01 > row 0 -
a fetch 1 > no ticket
a hold 1 02 > missing
a hold 1 01 > held 1
a hold 1 01 > held 2
a hold 1 01 > held 3
a hold 1 01 > held 4
a hold 1 01 > limit tickets
a scan 1 > found 1 | at 01 0 -
a delete 1 01 > deleted
a get 1 01 > none
a fetch 4 > row 0 -
a commit > committed 1
";

const FIRST_AND_LAST: &str = "
a begin > began 1
p begin > began 2
a commit > ended
";

/// Two sessions make calls of each kind.
pub(crate) const TWO_SESSIONS: &str = "
a get 1 6b31 > no transaction
a begin > began 1
b begin > began 2
a begin > open already
a insert 1 6b31 7 616263 > inserted
a get 1 6b31 > row 7 616263
b get 1 6b31 > none
b insert 1 6b31 0 - > conflict 1
a insert 1 6b31 0 - > duplicate
a update 1 6b32 0 - > missing
a commit > committed 1
b get 1 6b31 > none
b update 1 6b31 0 - > conflict 1
b commit > ended
b begin > began 3
b hold 1 6b31 > held 1
b update 1 6b31 8 64 > updated
b find 1 7 > found 0
b find 1 8 > found 1 | at 6b31 8 64
b delete 1 6b31 > deleted
b scan 1 > found 0
b fetch 1 > row 7 616263
b rollback > rolled back
b fetch 1 > no transaction
a begin > began 4
a scan 1 > found 1 | at 6b31 7 616263
a insert 1 6b32 8 - > inserted
a commit > committed 2
b begin > began 5
b scan 1 > found 2 | at 6b31 7 616263 | at 6b32 8 -
b get 3 6b31 > no table
";
