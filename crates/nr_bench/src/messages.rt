// A message to a thousand connections, beside as many replies of its size.
use crate::bench::Bench;
use crate::no_memory;
use std::alloc::Global;
use std::hash::RandomState;
use std::io;
use std::rt::Runtime;
use std::time::Instant;

/// How many rounds are measured.
const ROUNDS: u32 = 2000;

/// Says to how many connections a PUBLISH sent its message.
pub(crate) fn say_count(rt: &impl Runtime, alloc: Global, keys: RandomState) -> io::Result<()> {
    let mut bench = Bench::new(alloc, keys).map_err(no_memory)?;
    let queue = bench.publish().map_err(no_memory)?;
    let messages = queue.messages();
    println!(rt; "{messages} messages")
}

/// Says how many microseconds a PUBLISH takes, and how many a round of replies.
pub(crate) fn say_times(rt: &impl Runtime, alloc: Global, keys: RandomState) -> io::Result<()> {
    let mut bench = Bench::new(alloc, keys).map_err(no_memory)?;
    let start = Instant::now(rt)?;
    let published = bench.publish_all(ROUNDS);
    let publishing = start.elapsed(rt)?.as_micros();
    let start = Instant::now(rt)?;
    let replied = bench.reply_all(ROUNDS);
    let replying = start.elapsed(rt)?.as_micros();
    published.map_err(no_memory)?;
    replied.map_err(no_memory)?;
    let percent = publishing * 100 / replying.max(1);
    let publish = publishing / ROUNDS as u128;
    let replies = replying / ROUNDS as u128;
    println!(rt;
        "a PUBLISH: {publish} microseconds, replies: {replies} microseconds, ratio: {percent} percent"
    )
}
