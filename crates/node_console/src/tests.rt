use crate::command::{Command, ConsoleError};
use crate::reading::read_line;
use cs_base::NodeId;
use std::test::Fail;

fn id(number: u8) -> Result<NodeId, Fail> {
    Ok(NodeId::new(number).ok_or("no node")?)
}

#[test]
fn lines_are_commands(rt: HostRuntime) -> Result<(), Fail> {
    let (first, second) = (id(0)?, id(1)?);
    for (line, command) in [
        ("mark 0 1 up", Command::Mark(first, second, true)),
        ("mark  1 0   down", Command::Mark(second, first, false)),
        ("flush 1", Command::Flush(second)),
        ("merge 00", Command::Merge(first)),
        ("status", Command::Status),
        ("stop", Command::Stop),
    ] {
        assert_eq!(rt; read_line(line.as_bytes(), 2), Ok(command), "{line}");
    }
    Ok(())
}

#[test]
fn other_lines_are_none(rt: HostRuntime) -> Result<(), Fail> {
    for (line, error) in [
        ("", ConsoleError::Unknown),
        (" stop", ConsoleError::Unknown),
        ("stop ", ConsoleError::Unknown),
        ("stop now", ConsoleError::Unknown),
        ("halt", ConsoleError::Unknown),
        ("flush", ConsoleError::Unknown),
        ("flush one", ConsoleError::Unknown),
        ("flush 2", ConsoleError::Number),
        ("merge 99999999999999999999", ConsoleError::Number),
        ("mark 0 1", ConsoleError::Unknown),
        ("mark 0 1 off", ConsoleError::Unknown),
        ("mark 0 0 up", ConsoleError::Number),
        ("mark 0 2 up", ConsoleError::Number),
        ("mark 0 x up", ConsoleError::Unknown),
    ] {
        assert_eq!(rt; read_line(line.as_bytes(), 2), Err(error), "{line}");
    }
    assert_eq!(rt; read_line(b"stop\xff", 2), Err(ConsoleError::Unknown));
    Ok(())
}
