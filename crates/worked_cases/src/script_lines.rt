//! A line of the greatest length, and one longer, as commands.
use reply_text::{Fault, ReadErr};
use script_text::{Command, read_command};
use std::alloc::Global;
use std::test::Fail;

/// `p(0`, so many blanks, and `)`.
fn wide_point(alloc: Global, blanks: usize) -> Result<Vec<u8>, Fail> {
    let mut part = Vec::new(alloc);
    part.extend_from_slice(b"p(0")?;
    for _ in 0..blanks {
        part.push(b' ')?;
    }
    part.push(b')')?;
    Ok(part)
}

/// The line `has q : PART`.
fn question(alloc: Global, part: &[u8]) -> Result<Vec<u8>, Fail> {
    let mut line = Vec::new(alloc);
    line.extend_from_slice(b"has q : ")?;
    line.extend_from_slice(part)?;
    Ok(line)
}

/// Whether the command asks `q` for the point of this part.
fn asks(command: &Command, part: &[u8]) -> bool {
    match command {
        Command::Has { p, point } => {
            p.bytes() == b"q".as_slice() && point.text.bytes() == part && !point.strict
        }
        _ => false,
    }
}

#[test]
fn longest_line(rt: HostRuntime) -> Result<(), Fail> {
    let part = wide_point(rt.alloc(), 65_523)?;
    let line = question(rt.alloc(), part.as_slice())?;
    assert_eq!(rt; line.len(), 65_535);
    let command = read_command(rt.alloc(), line.as_slice())?;
    assert!(rt; asks(&command, part.as_slice()));
    Ok(())
}

#[test]
fn longer_line(rt: HostRuntime) -> Result<(), Fail> {
    let part = wide_point(rt.alloc(), 65_524)?;
    let line = question(rt.alloc(), part.as_slice())?;
    match read_command(rt.alloc(), line.as_slice()) {
        Ok(_) => assert!(rt; false, "read"),
        Err(cause) => assert_eq!(rt; cause, ReadErr::Input(Fault::LineTooLong)),
    }
    Ok(())
}
