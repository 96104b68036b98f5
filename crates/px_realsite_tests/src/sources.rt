use px_model::Bytes;
use px_source::{MemSource, Source, SourceFault};
use std::alloc::{AllocError, Global};
use std::test::Fail;

/// What a source in memory is made of.
#[derive(Clone, Copy)]
enum Input {
    /// Bytes, in pieces of so many, and the calls that fail.
    Pieces(&'static [u8], usize, &'static [u8]),
    /// A line, so many times.
    Repeated(&'static [u8], u64),
}

fn source_of(alloc: Global, input: Input) -> Result<MemSource, AllocError> {
    match input {
        Input::Pieces(bytes, piece, fails) => pieces(alloc, bytes, piece, fails),
        Input::Repeated(line, times) => {
            Ok(MemSource::repeat(Bytes::from_slice(alloc, line)?, times))
        }
    }
}

fn pieces(
    alloc: Global,
    bytes: &[u8],
    piece: usize,
    fails: &[u8],
) -> Result<MemSource, AllocError> {
    let bytes = Bytes::from_slice(alloc, bytes)?;
    let fails = Bytes::from_slice(alloc, fails)?;
    Ok(MemSource::new(bytes, piece.max(1), fails))
}

/// How often a source is asked at most.
const CALLS: usize = 20;

/// All that a source gives to a buffer of so many bytes, call by call: behind each piece a `|`, and an `!` for a fault.
fn given<S: Source>(alloc: Global, source: &mut S, room: usize) -> Result<Vec<u8>, AllocError> {
    let mut told = Vec::new(alloc);
    let mut buf = Vec::new(alloc);
    buf.resize(room, b'?')?;
    for _ in 0..CALLS {
        if !tells(source, &mut buf, &mut told)? {
            break;
        }
    }
    Ok(told)
}

/// Asks once, and answers whether the end wasn't reached.
fn tells<S: Source>(
    source: &mut S,
    buf: &mut [u8],
    told: &mut Vec<u8>,
) -> Result<bool, AllocError> {
    match source.read(buf) {
        Ok(0) => return Ok(false),
        Ok(count) => {
            told.extend_from_slice(&buf[..count])?;
            told.push(b'|')?;
        }
        Err(SourceFault) => told.push(b'!')?,
    }
    Ok(true)
}

#[test]
fn sources_in_memory_give_pieces_faults_and_lines_again(rt: HostRuntime) -> Result<(), Fail> {
    let table: [(Input, usize, &[u8]); 6] = [
        (Input::Pieces(b"abcdefg", 3, b""), 100, b"abc|def|g|"),
        (Input::Pieces(b"abcdefg", 100, b""), 4, b"abcd|efg|"),
        (
            Input::Pieces(b"abcdefg", 3, b"\0\x02\x03"),
            2,
            b"!ab|!!cd|ef|g|",
        ),
        (Input::Pieces(b"", 1, b"\0"), 1, b"!"),
        (Input::Repeated(b"line\n", 3), 7, b"line\nli|ne\nline|\n|"),
        (Input::Repeated(b"line\n", 0), 7, b""),
    ];
    for (input, room, told) in table {
        let mut source = source_of(rt.alloc(), input)?;
        assert_eq!(rt; given(rt.alloc(), &mut source, room)?.as_slice(), told);
    }
    Ok(())
}
