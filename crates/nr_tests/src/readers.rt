// The time that a reader takes.
use nr_resp::Reader;
use std::alloc::Global;
use std::io;
use std::process::Abort;
use std::rt::Clock;
use std::test::Fail;
use std::time::{Duration, Instant};

// The time that a request of this header and so many pieces takes.
fn time_of(
    rt: &(impl Abort + Clock),
    alloc: Global,
    header: &[u8],
    piece: &[u8],
    count: usize,
) -> io::Result<Duration> {
    let mut reader = Reader::new(alloc);
    let mut frames = Vec::new(alloc);
    let start = Instant::now(rt)?;
    assert!(rt; reader.feed(header, &mut frames).is_ok());
    for _ in 0..count {
        assert!(rt; reader.feed(piece, &mut frames).is_ok());
    }
    assert!(rt; reader.feed(b"\r\n", &mut frames).is_ok());
    let elapsed = start.elapsed(rt)?;
    assert!(rt; frames.len() == 1);
    Ok(elapsed)
}

// The least of several times, since another program may take the processor in between.
#[test]
fn a_bulk_takes_time_linear_in_its_bytes(rt: HostRuntime) -> Result<(), Fail> {
    let alloc = rt.alloc();
    let piece = vec![in alloc; b'x'; 16_384]?;
    let mut short = Duration::MAX;
    let mut long = Duration::MAX;
    for _ in 0..9 {
        short = short.min(time_of(&rt, alloc, b"*1\r\n$835584\r\n", &piece, 51)?);
        long = long.min(time_of(&rt, alloc, b"*1\r\n$8388608\r\n", &piece, 512)?);
    }
    let ratio = long.as_micros() / short.as_micros().max(1);
    assert!(rt;
        ratio <= 12,
        "ten times the bytes take {ratio} times the time"
    );
    Ok(())
}
