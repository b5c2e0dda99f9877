//! Sources and sinks: the forms in memory, at their bounds, and those of the system over readers and writers that are short and
//! then fail.

use cs_base::Failed;
use cs_io::{MemSink, MemSource, Sink, Source, StdSink, StdSource};
use std::io::{self, Read, Write};
use std::test::Fail;

#[test]
fn source_gives_its_bytes_in_pieces(rt: HostRuntime) -> Result<(), Fail> {
    let alloc = rt.alloc();
    let failing = Vec::from_slice(alloc, &[2])?;
    let mut source = MemSource::new(Vec::from_slice(alloc, b"abcde")?, 3, failing);
    let mut buffer = [0; 4];
    let answers = [source.read(&mut buffer), source.read(&mut buffer)];
    assert!(rt; answers == [Ok(3), Err(Failed)]);
    assert!(rt; buffer == *b"abc\0");
    assert!(rt; source.read(&mut buffer) == Ok(2));
    assert!(rt; buffer == *b"dec\0");
    assert!(rt; source.read(&mut buffer) == Ok(0));
    Ok(())
}

#[test]
fn sink_takes_pieces(rt: HostRuntime) -> Result<(), Fail> {
    let alloc = rt.alloc();
    let failing = Vec::from_slice(alloc, &[2])?;
    let mut sink = MemSink::new(alloc, 3, failing);
    let answers = [sink.write(b"abcde"), sink.write(b"de"), sink.write(b"de")];
    assert!(rt; answers == [Ok(3), Err(Failed), Ok(2)]);
    assert!(rt; sink.bytes() == b"abcde".as_slice());
    Ok(())
}

// Reads or writes one byte, and then fails.
#[derive(Drop)]
struct Short {
    has_moved: bool,
}

impl Short {
    fn step(&mut self) -> io::Result<()> {
        if self.has_moved {
            return Err(io::ErrorKind::BrokenPipe.into());
        }
        self.has_moved = true;
        Ok(())
    }
}

impl Read for Short {
    fn read(&mut self, buf: &mut [u8]) -> io::Result<usize> {
        self.step()?;
        match buf.first_mut() {
            Some(first) => {
                *first = b'a';
                Ok(1)
            }
            None => Ok(0),
        }
    }
}

impl Write for Short {
    fn write(&mut self, buf: &[u8]) -> io::Result<usize> {
        self.step()?;
        Ok(buf.len().min(1))
    }

    fn flush(&mut self) -> io::Result<()> {
        Ok(())
    }
}

#[test]
fn a_reader_is_short_and_then_fails(rt: HostRuntime) -> Result<(), Fail> {
    let mut source = StdSource::new(Short { has_moved: false });
    let mut buffer = [0; 3];
    assert!(rt; source.read(&mut buffer) == Ok(1));
    assert!(rt; source.faults().count() == 0);
    assert!(rt; source.read(&mut buffer) == Err(Failed));
    assert!(rt; buffer == *b"a\0\0");
    assert!(rt; source.faults().count() == 1);
    Ok(())
}

#[test]
fn a_writer_is_short_and_then_fails(rt: HostRuntime) -> Result<(), Fail> {
    let mut sink = StdSink::new(Short { has_moved: false });
    assert!(rt; sink.write(b"abc") == Ok(1));
    assert!(rt; sink.faults().count() == 0);
    assert!(rt; sink.write(b"bc") == Err(Failed));
    assert!(rt; sink.faults().count() == 1);
    Ok(())
}
