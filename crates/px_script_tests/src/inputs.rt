use px_model::Bytes;
use px_script::{LONGEST_LINE, Lines, NextLine, parse_line};
use px_source::MemSource;
use std::alloc::Global;
use std::test::Fail;

/// What `next` answers until the end: each line and a line feed, and each other answer in brackets.
fn answers(alloc: Global, source: &mut MemSource) -> Result<String, Fail> {
    let mut lines = Lines::new(alloc);
    let mut text = String::new(alloc);
    'answers: for _ in 0..100 {
        match lines.next(source)? {
            NextLine::Line => {
                text.push_str(str::from_utf8(lines.line())?)?;
                text.push('\n')?;
            }
            NextLine::Fault => text.push_str("[fault]")?,
            NextLine::TooLong => text.push_str("[too long]")?,
            NextLine::LongLine => text.push_str("[long line]")?,
            NextLine::End => {
                text.push_str("[end]")?;
                break;
            }
        }
    }
    Ok(text)
}

fn source_of(alloc: Global, input: &str, piece: usize, fails: &[u8]) -> Result<MemSource, Fail> {
    if piece == 0 {
        return Err(Fail::new("no piece"));
    }
    let bytes = Bytes::from_slice(alloc, input.as_bytes())?;
    Ok(MemSource::new(bytes, piece, Bytes::from_slice(alloc, fails)?))
}

#[test]
fn an_input_has_the_same_lines_in_any_pieces(rt: HostRuntime) -> Result<(), Fail> {
    let alloc = rt.alloc();
    let table = [
        ("", "[end]"),
        ("\n", "\n[end]"),
        ("a begin", "a begin\n[end]"),
        ("a begin\n", "a begin\n[end]"),
        ("a begin\n\n", "a begin\n\n[end]"),
        (
            "\n\na begin\r\n b\nlast one",
            "\n\na begin\r\n b\nlast one\n[end]",
        ),
    ];
    for (input, want) in table {
        for piece in [1, 7, 65_536] {
            let mut source = source_of(alloc, input, piece, &[])?;
            assert_eq!(rt;
                answers(alloc, &mut source)?.as_str(),
                want,
                "at {input:?} in {piece}"
            );
        }
    }
    Ok(())
}

#[test]
fn a_fault_loses_nothing(rt: HostRuntime) -> Result<(), Fail> {
    let alloc = rt.alloc();
    let mut source = source_of(alloc, "a begin\nb begin", 7, &[0, 2])?;
    let want = "[fault][fault]a begin\nb begin\n[end]";
    assert_eq!(rt; answers(alloc, &mut source)?.as_str(), want);
    Ok(())
}

/// `a insert 1 01 TAG ` and so many digits of the body.
fn long_insert(alloc: Global, tag: &str, digits: usize) -> Result<Vec<u8>, Fail> {
    if digits > LONGEST_LINE || tag.len() > 10 {
        return Err(Fail::new("too long a line"));
    }
    let mut line = Vec::from_slice(alloc, b"a insert 1 01 ")?;
    line.extend_from_slice(tag.as_bytes())?;
    line.push(b' ')?;
    let size = line.len() + digits;
    line.resize(size, b'0')?;
    Ok(line)
}

/// How many lines of this size come, and what comes then.
fn count_lines(
    alloc: Global,
    source: &mut MemSource,
    size: usize,
) -> Result<(u64, NextLine), Fail> {
    let mut lines = Lines::new(alloc);
    'lines: for count in 0..1000u64 {
        let next = lines.next(source)?;
        if next != NextLine::Line || lines.line().len() != size {
            return Ok((count, next));
        }
    }
    Err(Fail::new("more lines than are told"))
}

#[test]
fn lines_and_inputs_have_a_greatest_length(rt: HostRuntime) -> Result<(), Fail> {
    let alloc = rt.alloc();
    for (tag, digits, times, want) in [
        ("10", 16_777_198, 100, (64, NextLine::TooLong)),
        ("0", 16_777_200, 1, (1, NextLine::End)),
        ("10", 16_777_200, 1, (0, NextLine::LongLine)),
    ] {
        let mut line = long_insert(alloc, tag, digits)?;
        let size = line.len();
        let is_line = parse_line(alloc, line.as_slice())?.is_some();
        assert_eq!(rt; is_line, size <= LONGEST_LINE, "at {size}");
        line.push(b'\n')?;
        let mut source = MemSource::repeat(Bytes::from_vec(line), times);
        assert_eq!(rt; count_lines(alloc, &mut source, size)?, want, "at {size}");
    }
    Ok(())
}
