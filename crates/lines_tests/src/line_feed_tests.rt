//! Lines of streams in memory, in pieces of several sizes.

use io_edge::MemSource;
use line_feed::{LineAnswer, LineReader, ShortAnswer};
use std::alloc::Global;
use std::test::Fail;

/// The answers of a new reader up to the end or to the limit: a line as its bytes and `|`, a failed
/// read as `!`, the end as `.`, the limit as `full`.
fn answers(
    alloc: Global,
    input: &[u8],
    pieces: &[usize],
    failing_read: u64,
) -> Result<Vec<u8>, Fail> {
    let bytes = Vec::from_slice(alloc, input)?;
    let pieces = Vec::from_slice(alloc, pieces)?;
    let fails = Vec::from_slice(alloc, &[failing_read])?;
    let mut source = MemSource::new(bytes, pieces, fails);
    let mut reader = LineReader::new(alloc)?;
    let mut text = Vec::new(alloc);
    for _ in 0..20 {
        match reader.next_line(&mut source) {
            LineAnswer::Line => {
                text.extend_from_slice(reader.line())?;
                text.push(b'|')?;
            }
            LineAnswer::TooLong => text.extend_from_slice("too long|".as_bytes())?,
            LineAnswer::End => {
                text.push(b'.')?;
                return Ok(text);
            }
            LineAnswer::Failed => text.push(b'!')?,
            LineAnswer::Full => {
                text.extend_from_slice("full".as_bytes())?;
                return Ok(text);
            }
        }
    }
    Ok(text)
}

#[test]
fn lines_in_pieces_of_any_size(rt: HostRuntime) -> Result<(), Fail> {
    for (input, want) in [
        ("", "."),
        ("one\ntwo\n", "one|two|."),
        ("one\r\ntwo\r\n", "one|two|."),
        ("a\rb\n\rc\r\r\n", "a\rb|\rc\r|."),
        ("\n\r\n\nx\n", "|||x|."),
        ("no\nLF", "no|LF|."),
        ("no LF\r", "no LF|."),
    ] {
        for pieces in [
            [1].as_slice(),
            [2].as_slice(),
            [7].as_slice(),
            [].as_slice(),
        ] {
            let got = answers(rt.alloc(), input.as_bytes(), pieces, 0)?;
            assert_eq!(rt;
                got.as_slice(),
                want.as_bytes(),
                "{input:?} in pieces of {pieces:?}"
            );
        }
    }
    Ok(())
}

#[test]
fn lines_at_the_limit(rt: HostRuntime) -> Result<(), Fail> {
    for (letters, ending, fits) in [
        (65_536, "\nx", true),
        (65_537, "\nx", false),
        (65_535, "\r\nx", true),
        (65_536, "\r\nx", false),
    ] {
        let mut input = vec![in rt.alloc(); b'a'; letters]?;
        let mut want = Vec::new(rt.alloc());
        if fits {
            want.extend_from_slice(input.as_slice())?;
            want.extend_from_slice("|x|.".as_bytes())?;
        } else {
            want.extend_from_slice("too long|x|.".as_bytes())?;
        }
        input.extend_from_slice(ending.as_bytes())?;
        for pieces in [
            [1].as_slice(),
            [2].as_slice(),
            [7].as_slice(),
            [].as_slice(),
        ] {
            let got = answers(rt.alloc(), input.as_slice(), pieces, 0)?;
            assert!(rt;
                got.as_slice() == want.as_slice(),
                "{letters} letters in pieces of {pieces:?}"
            );
        }
    }
    Ok(())
}

#[test]
fn a_failed_read_loses_nothing(rt: HostRuntime) -> Result<(), Fail> {
    for (input, failing_read, want) in [
        ("ab\ncd\n", 1, "!ab|cd|."),
        ("abcd\ne", 2, "!abcd|e|."),
        ("abc\r\nd\n", 3, "!abc|d|."),
        ("ab\ncd", 4, "ab|!cd|."),
    ] {
        let got = answers(rt.alloc(), input.as_bytes(), [2].as_slice(), failing_read)?;
        assert_eq!(rt;
            got.as_slice(),
            want.as_bytes(),
            "{input:?}, read {failing_read} fails"
        );
    }
    Ok(())
}

#[test]
fn a_long_line_is_told_before_its_end(rt: HostRuntime) -> Result<(), Fail> {
    // so many letters behind a line; the read fails that follows the one of the last of them that
    // counts
    for (letters, failing_read, want) in [
        (65_536, 18, ShortAnswer::Failed),
        (65_537, 19, ShortAnswer::Long),
        (70_000, 19, ShortAnswer::Long),
    ] {
        let mut input = Vec::from_slice(rt.alloc(), "ab\n".as_bytes())?;
        for _ in 0..letters {
            input.push(b'x')?;
        }
        let sizes = Vec::from_slice(rt.alloc(), &[3, letters])?;
        let fails = Vec::from_slice(rt.alloc(), &[failing_read])?;
        let mut source = MemSource::new(input, sizes, fails);
        let mut reader = LineReader::new(rt.alloc())?;
        assert_eq!(rt; reader.next_short_line(&mut source), ShortAnswer::Line);
        assert_eq!(rt; reader.line(), "ab".as_bytes());
        let answer = reader.next_short_line(&mut source);
        assert_eq!(rt; answer, want, "{letters} letters");
    }
    Ok(())
}
