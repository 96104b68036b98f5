use crate::told::told;
use px_script::{number_of, parse_line};
use std::test::Fail;

/// Lines with their values.
const INSIDE: &str = "\
a begin > 0 begin
p begin > 15 begin
h commit > 7 commit
a rollback > 0 rollback
a get 1 01 > 0 get 1 .1
a get 0 00 > 0 get 0 .0
b hold 4294967295 ff > 1 hold 4294967295 .255
c delete 10 6b31 > 2 delete 10 .107.49
d fetch 1 > 3 fetch 1
d fetch 0 > 3 fetch 0
e find 1 4294967295 > 4 find 1 4294967295
l find 0 0 > 11 find 0 0
f scan 3 > 5 scan 3
m scan 1000000000 > 12 scan 1000000000
a insert 1 6b31 7 616263 > 0 insert 1 .107.49 7 .97.98.99
k insert 0 ff 4294967295 ff > 10 insert 0 .255 4294967295 .255
a update 8 abcdef 429496729 00 > 0 update 8 .171.205.239 429496729 .0
a insert 1 01 0 - > 0 insert 1 .1 0 none
a insert 1 0a20 0 0a > 0 insert 1 .10.32 0 .10
o hold 1 2d > 14 hold 1 .45
n get 4294967294 01 > 13 get 4294967294 .1
a peek 1 01 > 0 peek 1 .1
p peek 0 7f80 > 15 peek 0 .127.128
writer > Writer
sweeper > Sweeper
compactor > Compactor
checkpointer > Checkpointer
drain > drain
stat > stat";

/// Texts just outside the grammar; the first one is empty.
const OUTSIDE: &str = "
\x20
begin
a
a\x20
\x20a begin
a begin\x20
a  begin
a\tbegin
a begin\r
a begin\0
q begin
` begin
A begin
aa begin
a Begin
a begins
a begin 1
a get 01 01
a get 00 01
a get 4294967296 01
a get +1 01
a get -1 01
a get 1 0
a get 1 010
a get 1 0A
a get 1 0g
a get 1 0x
a get 1 \u{e9}
a get 1 -
a get 1
a get 1 01 01
a get  1 01
a insert 1 01 0
a insert 1 01 0 --
a insert 1 01 0 -0
a insert 1 - 0 aa
a insert 1 01 aa 0
a find 1 01
a fetch
a fetch 1 1
a scan 99999999999999999999
writer 1
Writer
a writer
drain\x20
sweeper\x20
sweeper 1
Sweeper
a sweeper
sweepers
stat\x20
\x20stat
stat 1
STAT
a stat
stats
peek 1 01
a peek 1 0
a save";

#[test]
fn lines_are_read_as_written_down(rt: HostRuntime) -> Result<(), Fail> {
    let alloc = rt.alloc();
    for entry in INSIDE.split('\n') {
        let (text, want) = entry.split_once(" > ").ok_or("no value")?;
        let line = parse_line(alloc, text.as_bytes())?.ok_or("no line")?;
        assert_eq!(rt; told(alloc, &line)?.as_str(), want, "at {text}");
    }
    for text in OUTSIDE.split('\n') {
        assert!(rt;
            parse_line(alloc, text.as_bytes())?.is_none(),
            "at {text:?}"
        );
    }
    Ok(())
}

#[test]
fn numbers_have_a_limit(rt: HostRuntime) {
    for (most, word, want) in [
        (8, "8", Some(8)),
        (8, "9", None),
        (0, "0", Some(0)),
        (1024, "1025", None),
    ] {
        assert_eq!(rt; number_of(most, word.as_bytes()), want, "at {word}");
    }
}
