use crate::{LINES, LineFault, LineReader};
use cells_base::Text;
use cells_edge::BytesSource;
use std::alloc::{AllocError, Global};
use std::test::Fail;

// The next line of a script, or of another text.
fn next_line(
    reader: &mut LineReader,
    source: &mut BytesSource,
    of_script: bool,
) -> Result<bool, LineFault> {
    if of_script {
        return reader.next_script_line(source);
    }
    reader.next(source)
}

// What a reader gives, each line in brackets, and the fault at its end.
fn shown(
    alloc: Global,
    source: &mut BytesSource,
    limit: u8,
    of_script: bool,
) -> Result<(Vec<u8>, Option<LineFault>), AllocError> {
    let mut all = Vec::new(alloc);
    let mut reader = match LineReader::new(alloc, limit as usize) {
        Ok(reader) => reader,
        Err(_) => return Err(AllocError),
    };
    for _ in 0..u64::MAX {
        match next_line(&mut reader, source, of_script) {
            Ok(true) => {
                all.extend_from_slice(b"[")?;
                all.extend_from_slice(reader.line())?;
                all.extend_from_slice(b"]")?;
            }
            Ok(false) => return Ok((all, None)),
            Err(fault) => return Ok((all, Some(fault))),
        }
    }
    Ok((all, None))
}

#[test]
fn gives_lines_in_any_pieces(rt: HostRuntime) -> Result<(), Fail> {
    let rows = [
        (b"".as_slice(), b"".as_slice(), None),
        (b"\n", b"[]", None),
        (b"ab\ncd\n", b"[ab][cd]", None),
        (b"ab\r\n\ncd", b"[ab\r][][cd]", None),
        (
            b"abcd\nabcde\nf",
            b"[abcd]",
            Some(LineFault::TooLong { line: 2 }),
        ),
        (b"a\nabcdefgh", b"[a]", Some(LineFault::TooLong { line: 2 })),
    ];
    for (text, want, fault) in rows {
        for most in 1..12usize {
            let bytes = Text::from_slice(rt.alloc(), text)?;
            let mut source = BytesSource::new(bytes).in_pieces(most);
            let (all, found) = shown(rt.alloc(), &mut source, 4, false)?;
            assert_eq!(rt; all.as_slice(), want, "in pieces of {most}");
            assert_eq!(rt; found, fault, "in pieces of {most}");
        }
    }
    Ok(())
}

#[test]
fn a_read_that_fails_gives_no_line(rt: HostRuntime) -> Result<(), Fail> {
    let bytes = Text::from_slice(rt.alloc(), b"ab\ncd")?;
    let mut source = BytesSource::new(bytes).in_pieces(1).failing_after(4);
    let (all, found) = shown(rt.alloc(), &mut source, 4, false)?;
    assert_eq!(rt; all.as_slice(), b"[ab]".as_slice());
    assert_eq!(rt; found, Some(LineFault::Read));
    Ok(())
}

#[test]
fn refuses_a_line_behind_the_most_lines(rt: HostRuntime) -> Result<(), Fail> {
    let bytes = vec![in rt.alloc(); b'\n'; 4097]?;
    let mut source = BytesSource::new(Text::from_vec(bytes));
    let mut reader = LineReader::new(rt.alloc(), 1)?;
    for _ in 0..LINES {
        assert_eq!(rt; reader.next(&mut source), Ok(true));
    }
    assert_eq!(rt; reader.next(&mut source), Err(LineFault::TooMany));
    assert_eq!(rt; reader.given(), 4096);
    Ok(())
}

#[test]
fn gives_lines_of_scripts_in_any_pieces(rt: HostRuntime) -> Result<(), Fail> {
    let rows = [
        (b"".as_slice(), b"".as_slice(), None),
        (b"\r\n", b"[]", None),
        (b"ab\r\ncd\n", b"[ab][cd]", None),
        // Of two CRs in front of LF the first stays, as does one in the line or at the end of the text.
        (b"a\r\r\n\rb\n\r", b"[a\r][\rb][\r]", None),
        // A CR that LF drops does not count towards the limit.
        (b"abcd\r\nabcd\n", b"[abcd][abcd]", None),
        (b"abcd", b"[abcd]", None),
        (
            b"ab\r\nabcd\r",
            b"[ab]",
            Some(LineFault::TooLong { line: 2 }),
        ),
        (b"abcde\r\n", b"", Some(LineFault::TooLong { line: 1 })),
        (b"abcd\r\r\n", b"", Some(LineFault::TooLong { line: 1 })),
        (b"a\nabcdefgh", b"[a]", Some(LineFault::TooLong { line: 2 })),
    ];
    for (text, want, fault) in rows {
        for most in 1..12usize {
            let bytes = Text::from_slice(rt.alloc(), text)?;
            let mut source = BytesSource::new(bytes).in_pieces(most);
            let (all, found) = shown(rt.alloc(), &mut source, 4, true)?;
            assert_eq!(rt; all.as_slice(), want, "in pieces of {most}");
            assert_eq!(rt; found, fault, "in pieces of {most}");
        }
    }
    Ok(())
}
