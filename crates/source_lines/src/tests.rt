use crate::{LineReader, ReadError};
use cs_io::MemSource;
use std::alloc::{AllocError, Global};
use std::sync::Wait;
use std::test::Fail;

fn source_of(alloc: Global, bytes: &[u8], most: usize) -> Result<MemSource, AllocError> {
    Ok(MemSource::new(Vec::from_slice(alloc, bytes)?, most, Vec::new(alloc)))
}

fn is_head(alloc: Global, text: &[u8], longest: usize, head: &[u8]) -> Result<bool, Fail> {
    for most in [1, 2, 100] {
        let mut source = source_of(alloc, text, most)?;
        let mut reader = LineReader::new(alloc)?;
        let Ok(found) = reader.read_head(alloc, &mut source, longest) else {
            return Ok(false);
        };
        if found.as_slice() != head {
            return Ok(false);
        }
    }
    Ok(true)
}

#[test]
fn a_head_ends_with_the_line_run(rt: HostRuntime) -> Result<(), Fail> {
    let alloc = rt.alloc();
    assert!(rt; is_head(alloc, b"", 9, b"")?);
    assert!(rt; is_head(alloc, b"run\nstatus\n", 9, b"run\n")?);
    assert!(rt; is_head(alloc, b"rf 3\nrun\nrun\n", 9, b"rf 3\nrun\n")?);
    assert!(rt; is_head(alloc, b"rf 3\nrun", 9, b"rf 3\nrun")?);
    assert!(rt;
        is_head(
            alloc,
            b"run\r\nrun \n run\nrunrun\n",
            99,
            b"run\r\nrun \n run\nrunrun\n"
        )?
    );
    assert!(rt; is_head(alloc, b"\nrun\nx", 99, b"\nrun\n")?);
    assert!(rt; is_head(alloc, b"0123456789\nrun\n", 9, b"0123456789")?);
    assert!(rt; is_head(alloc, b"01234\nrun\n", 9, b"01234\nrun\n")?);
    assert!(rt; is_head(alloc, b"run\n", 0, b"r")?);
    Ok(())
}

// The lines of a text, each behind its length.
fn lines_of<W: Wait>(
    rt: &W,
    alloc: Global,
    reader: &mut LineReader,
    source: &mut MemSource,
) -> Result<Vec<u8>, Fail> {
    let mut lines = Vec::new(alloc);
    for _ in 0..9 {
        let Ok(found) = reader.next_line(rt, source) else {
            lines.push(b'!')?;
            continue;
        };
        if !found {
            return Ok(lines);
        }
        lines.push(b'<')?;
        lines.extend_from_slice(reader.line())?;
        lines.push(b'>')?;
    }
    Ok(lines)
}

#[test]
fn lines_follow_the_head(rt: HostRuntime) -> Result<(), Fail> {
    for (text, lines) in [
        ("", ""),
        ("run\n", ""),
        ("run\nstatus\nstop", "<status><stop>"),
        ("run\n\n\r\nstop\n", "<><\r><stop>"),
        ("run", ""),
    ] {
        for most in [1, 5, 100] {
            let mut source = source_of(rt.alloc(), text.as_bytes(), most)?;
            let mut reader = LineReader::new(rt.alloc())?;
            let head = reader.read_head(rt.alloc(), &mut source, 99);
            assert!(rt; head.is_ok());
            assert_eq!(rt;
                lines_of(&rt, rt.alloc(), &mut reader, &mut source)?.as_slice(),
                lines.as_bytes()
            );
        }
    }
    Ok(())
}

// How many bytes are told of a first line of so many, and of the one that follows it.
fn told_of<W: Wait>(
    rt: &W,
    alloc: Global,
    length: usize,
    most: usize,
) -> Result<(usize, usize), Fail> {
    let mut text = vec![in alloc; b'a'; length]?;
    text.extend_from_slice(b"\nbcd\n")?;
    let mut source = MemSource::new(text, most, Vec::new(alloc));
    let mut reader = LineReader::new(alloc)?;
    let _ = reader.next_line(rt, &mut source);
    let first = reader.line().len();
    let _ = reader.next_line(rt, &mut source);
    Ok((first, reader.line().len()))
}

#[test]
fn long_lines_are_told_in_part(rt: HostRuntime) -> Result<(), Fail> {
    for (length, told) in [
        (4_094, 4_094),
        (4_095, 4_095),
        (4_096, 4_096),
        (4_097, 4_097),
        (4_098, 4_097),
        (9_000, 4_097),
    ] {
        for most in [1, 7, 4_096, 10_000] {
            assert_eq!(rt; told_of(&rt, rt.alloc(), length, most)?, (told, 3));
        }
    }
    Ok(())
}

#[test]
fn a_read_that_fails_is_told(rt: HostRuntime) -> Result<(), Fail> {
    let failing = Vec::from_slice(rt.alloc(), &[1, 3])?;
    let text = Vec::from_slice(rt.alloc(), b"abc\nde")?;
    let mut source = MemSource::new(text, 2, failing);
    let mut reader = LineReader::new(rt.alloc())?;
    let head = reader.read_head(rt.alloc(), &mut source, 99);
    assert_eq!(rt; head.err(), Some(ReadError::Failed));
    assert_eq!(rt;
        lines_of(&rt, rt.alloc(), &mut reader, &mut source)?.as_slice(),
        b"!<c><de>".as_slice()
    );
    Ok(())
}
