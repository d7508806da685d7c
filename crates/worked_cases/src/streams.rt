//! Readers as sources and writers as sinks.
use poly_io::{
    ReadAllErr, ReadAns, SafeSink, SafeSource, Sink, Source, StdSink, StdSource, WriteAns,
    read_all, write_all,
};
use std::io;
use std::io::{Read, Write};
use std::test::Fail;

/// Fails at its second call, and ends after the third.
#[derive(Drop)]
struct Flaky {
    calls: u8,
}

impl Read for Flaky {
    fn read(&mut self, buf: &mut [u8]) -> io::Result<usize> {
        self.calls = self.calls.saturating_add(1);
        if self.calls == 2 {
            return Err(io::Error::other("no line"));
        }
        if self.calls > 3 || buf.is_empty() {
            return Ok(0);
        }
        buf[0] = b'.';
        Ok(1)
    }
}

/// Takes a byte, fails, takes nothing, and fails to flush, in turn.
#[derive(Drop)]
struct Stuck {
    calls: u8,
}

impl Write for Stuck {
    fn write(&mut self, buf: &[u8]) -> io::Result<usize> {
        self.calls = self.calls.saturating_add(1);
        match self.calls {
            2 => Err(io::Error::other("no room")),
            3 => Ok(0),
            _ => Ok(buf.len().min(1)),
        }
    }

    fn flush(&mut self) -> io::Result<()> {
        if self.calls == 4 {
            return Err(io::Error::other("no flush"));
        }
        Ok(())
    }
}

#[test]
fn readers_are_sources(rt: HostRuntime) -> Result<(), Fail> {
    let text = b"a script\nof two lines";
    let mut slice = StdSource::new(text.as_slice());
    let bytes = read_all(rt.alloc(), &mut slice, 100).ok().ok_or("unread")?;
    assert_eq!(rt; bytes.as_slice(), text.as_slice());
    let mut safe = SafeSource::new(rt.alloc(), text, 4)?;
    assert_eq!(rt;
        read_all(rt.alloc(), &mut safe, 20).err(),
        Some(ReadAllErr::TooLong)
    );
    let mut flaky = StdSource::new(Flaky { calls: 0 });
    let mut buf = [0; 4];
    for want in [
        ReadAns::Got(1),
        ReadAns::Failed,
        ReadAns::Got(1),
        ReadAns::End,
    ] {
        assert_eq!(rt; flaky.read(&mut buf), want);
    }
    Ok(())
}

#[test]
fn writers_are_sinks(rt: HostRuntime) -> Result<(), Fail> {
    let mut bytes = Vec::new(rt.alloc());
    let mut sink = StdSink::new(&mut bytes);
    assert_eq!(rt; write_all(&mut sink, b"two replies\n"), Ok(()));
    drop(sink);
    assert_eq!(rt; bytes.as_slice(), b"two replies\n".as_slice());
    let mut safe = SafeSink::new(rt.alloc(), 1);
    assert_eq!(rt; safe.write(b"xy"), WriteAns::Took(1));
    assert_eq!(rt; safe.held(), b"x".as_slice());
    let mut stuck = StdSink::new(Stuck { calls: 0 });
    for want in [
        WriteAns::Took(1),
        WriteAns::Failed,
        WriteAns::Failed,
        WriteAns::Failed,
        WriteAns::Took(1),
    ] {
        assert_eq!(rt; stuck.write(b"yes"), want);
    }
    Ok(())
}
