// Readers and writers that fail: no clause says when one does.
use nr_server::{Fault, run_on};
use nr_service::MachineClock;
use std::hash::RandomState;
use std::io::{self, ErrorKind, Read, Write};
use std::test::Fail;

// Gives line feeds and takes anything, a byte a call, and fails once so many calls were made.
#[derive(Drop)]
struct Device(usize);

impl Read for Device {
    fn read(&mut self, buffer: &mut [u8]) -> io::Result<usize> {
        self.flush()?;
        let count = buffer.len().min(1);
        buffer[..count].fill(b'\n');
        Ok(count)
    }
}

impl Write for Device {
    fn write(&mut self, bytes: &[u8]) -> io::Result<usize> {
        self.flush()?;
        Ok(bytes.len().min(1))
    }

    fn flush(&mut self) -> io::Result<()> {
        self.0 = self.0.checked_sub(1).ok_or(ErrorKind::Other)?;
        Ok(())
    }
}

// Each read fails once, and of a reply each of the 7 writes, which takes a byte, and the flush behind it: past them none does.
#[test]
fn says_what_failed(rt: HostRuntime) -> Result<(), Fail> {
    let keys = RandomState::new(&rt)?;
    for calls in 0..9 {
        let clock = MachineClock { runtime: &rt };
        let ran = run_on(rt.alloc(), keys, Device(calls), Device(9), clock)?;
        assert!(&rt; ran.done == Err(Fault::Read));
    }
    for calls in 0..15 {
        let clock = MachineClock { runtime: &rt };
        let ping = b"PING\n".as_slice();
        let ran = run_on(rt.alloc(), keys, ping, Device(calls), clock)?;
        let expected = if calls < 14 {
            Err(Fault::Write)
        } else {
            Ok(())
        };
        assert!(&rt; ran.done == expected);
    }
    Ok(())
}

// Takes no byte.
#[derive(Drop)]
struct Full;

impl Write for Full {
    fn write(&mut self, _: &[u8]) -> io::Result<usize> {
        Ok(0)
    }

    fn flush(&mut self) -> io::Result<()> {
        Ok(())
    }
}

// A writer that takes no byte is not tried again.
#[test]
fn says_that_none_was_taken(rt: HostRuntime) -> Result<(), Fail> {
    let keys = RandomState::new(&rt)?;
    let clock = MachineClock { runtime: &rt };
    let ran = run_on(rt.alloc(), keys, b"PING\n".as_slice(), Full, clock)?;
    assert!(&rt; ran.done == Err(Fault::Write));
    Ok(())
}

// The reader and the writer come back: what was read is gone from the one, and the other has the replies behind what it held.
#[test]
fn hands_both_back(rt: HostRuntime) -> Result<(), Fail> {
    let keys = RandomState::new(&rt)?;
    let clock = MachineClock { runtime: &rt };
    let reader = b"PING\r\nQUIT\r\n".as_slice();
    let writer = b">".to_vec(rt.alloc())?;
    let ran = run_on(rt.alloc(), keys, reader, writer, clock)?;
    assert!(&rt; ran.done == Ok(()));
    assert!(&rt; ran.reader.is_empty());
    assert!(&rt; ran.writer.as_slice() == b">+PONG\r\n+OK\r\n".as_slice());
    Ok(())
}
