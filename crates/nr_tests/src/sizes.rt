// Words and collections larger than any row has: nothing is refused for its size, and all of it comes back.
use nr_blob::{Memory, int_text};
use nr_entry::{ConnId, Setup};
use nr_world::World;
use std::alloc::Global;
use std::hash::RandomState;
use std::process::Abort;
use std::test::Fail;

const CONN: ConnId = ConnId { node: 0, serial: 0 };

/// How many items come with a request, and how many a collection has in the end.
const AT_ONCE: u32 = 1_000;

const ITEMS: u32 = 20_000;

// A server of one node with one connection.
fn opened(alloc: Global, keys: RandomState) -> Result<World, Memory> {
    let setup = Setup::new(1, 2, 1, 1, 1 << 30).unwrap();
    let mut world = World::new(alloc, keys, setup)?;
    world.open(0, 0)?;
    Ok(world)
}

// The head of a request or of an array: how many there are.
fn push_count(count: usize, into: &mut Vec<u8>) -> Result<(), Memory> {
    into.push(b'*')?;
    int_text(count.min(u32::MAX as usize) as i64, into)?;
    into.extend_from_slice(b"\r\n")?;
    Ok(())
}

fn push_bulk(word: &[u8], into: &mut Vec<u8>) -> Result<(), Memory> {
    into.push(b'$')?;
    int_text(word.len() as i64, into)?;
    into.extend_from_slice(b"\r\n")?;
    into.extend_from_slice(word)?;
    into.extend_from_slice(b"\r\n")?;
    Ok(())
}

fn push_number(alloc: Global, number: u32, into: &mut Vec<u8>) -> Result<(), Memory> {
    let mut text = Vec::new(alloc);
    int_text(number as i64, &mut text)?;
    push_bulk(&text, into)
}

fn spaces(text: &[u8]) -> usize {
    text.iter().filter(|byte| **byte == b' ').count()
}

// The words of a text, one behind the other; `%` is this word.
fn push_words(text: &[u8], word: &[u8], into: &mut Vec<u8>) -> Result<(), Memory> {
    for part in text.split(|byte| *byte == b' ') {
        if part == b"%".as_slice() {
            push_bulk(word, into)?;
        } else {
            push_bulk(part, into)?;
        }
    }
    Ok(())
}

// What is handed out for a request.
fn ask(alloc: Global, world: &mut World, request: &[u8]) -> Result<Vec<u8>, Memory> {
    world.feed(CONN, 0, request)?;
    let handed = world.settle()?;
    let mut got = Vec::new(alloc);
    for one in &handed {
        got.extend_from_slice(&one.bytes)?;
    }
    Ok(got)
}

// Whether a request of these words is answered so; in both, `%` is this word.
fn is_answered(
    alloc: Global,
    world: &mut World,
    word: &[u8],
    words: &[u8],
    expected: &[u8],
) -> Result<bool, Memory> {
    let mut request = Vec::new(alloc);
    push_count(spaces(words).saturating_add(1), &mut request)?;
    push_words(words, word, &mut request)?;
    let got = ask(alloc, world, &request)?;
    if expected != b"%".as_slice() {
        return Ok(got.as_slice() == expected);
    }
    let mut bulk = Vec::new(alloc);
    push_bulk(word, &mut bulk)?;
    Ok(got == bulk)
}

// A request of these words and so many numbers behind them, each once or twice.
fn numbered(
    alloc: Global,
    words: &[u8],
    first: u32,
    count: u32,
    is_twice: bool,
) -> Result<Vec<u8>, Memory> {
    let each = if is_twice { 2 } else { 1 };
    let mut request = Vec::new(alloc);
    let behind = (count as usize).saturating_mul(each);
    push_count(
        spaces(words).saturating_add(1).saturating_add(behind),
        &mut request,
    )?;
    push_words(words, b"", &mut request)?;
    for number in first..first.saturating_add(count) {
        for _ in 0..each {
            push_number(alloc, number, &mut request)?;
        }
    }
    Ok(request)
}

// Asks so with each number below a count, a thousand at a time.
fn fill(
    alloc: Global,
    world: &mut World,
    words: &[u8],
    count: u32,
    is_twice: bool,
) -> Result<(), Memory> {
    for turn in 0..count / AT_ONCE {
        let request = numbered(
            alloc,
            words,
            turn.saturating_mul(AT_ONCE),
            AT_ONCE,
            is_twice,
        )?;
        ask(alloc, world, &request)?;
    }
    Ok(())
}

// The array of all numbers below a count.
fn numbers(alloc: Global, count: u32) -> Result<Vec<u8>, Memory> {
    let mut array = Vec::new(alloc);
    push_count(count as usize, &mut array)?;
    for number in 0..count {
        push_number(alloc, number, &mut array)?;
    }
    Ok(array)
}

#[test]
fn no_word_is_too_long(rt: HostRuntime) -> Result<(), Fail> {
    let alloc = rt.alloc();
    let mut world = opened(alloc, RandomState::new(&rt)?)?;
    for size in [4_097usize, 65_537, 1_000_001] {
        let word = vec![in alloc; b'x'; size]?;
        let asked = &mut world;
        assert!(rt; is_answered(alloc, asked, &word, b"FLUSHALL", b"+OK\r\n")?);
        assert!(rt; is_answered(alloc, asked, &word, b"SET % %", b"+OK\r\n")?);
        assert!(rt; is_answered(alloc, asked, &word, b"GET %", b"%")?);
        assert!(rt; is_answered(alloc, asked, &word, b"COPY % c", b":1\r\n")?);
        assert!(rt; is_answered(alloc, asked, &word, b"GET c", b"%")?);
        assert!(rt; is_answered(alloc, asked, &word, b"RPUSH l % b", b":2\r\n")?);
        assert!(rt; is_answered(alloc, asked, &word, b"LSET l 1 %", b"+OK\r\n")?);
        assert!(rt; is_answered(alloc, asked, &word, b"LINDEX l 1", b"%")?);
        assert!(rt; is_answered(alloc, asked, &word, b"COPY l m", b":1\r\n")?);
        assert!(rt; is_answered(alloc, asked, &word, b"LPOP m", b"%")?);
        assert!(rt; is_answered(alloc, asked, &word, b"HSET h % %", b":1\r\n")?);
        assert!(rt; is_answered(alloc, asked, &word, b"COPY h i", b":1\r\n")?);
        assert!(rt; is_answered(alloc, asked, &word, b"HGET i %", b"%")?);
        assert!(rt; is_answered(alloc, asked, &word, b"SADD s %", b":1\r\n")?);
        assert!(rt; is_answered(alloc, asked, &word, b"COPY s t", b":1\r\n")?);
        assert!(rt; is_answered(alloc, asked, &word, b"SISMEMBER t %", b":1\r\n")?);
        assert!(rt; is_answered(alloc, asked, &word, b"ZADD z 1 %", b":1\r\n")?);
        assert!(rt; is_answered(alloc, asked, &word, b"COPY z y", b":1\r\n")?);
        assert!(rt; is_answered(alloc, asked, &word, b"ZSCORE y %", b"$1\r\n1\r\n")?);
    }
    Ok(())
}

// A collection with each number below a count, and a copy of it at `m`.
fn copied(
    rt: &impl Abort,
    alloc: Global,
    keys: RandomState,
    words: &[u8],
    is_twice: bool,
) -> Result<World, Memory> {
    let mut world = opened(alloc, keys)?;
    fill(alloc, &mut world, words, ITEMS, is_twice)?;
    assert!(rt; is_answered(alloc, &mut world, b"", b"COPY k m", b":1\r\n")?);
    Ok(world)
}

#[test]
fn no_list_is_too_long(rt: HostRuntime) -> Result<(), Fail> {
    let alloc = rt.alloc();
    let mut world = copied(&rt, alloc, RandomState::new(&rt)?, b"RPUSH k", false)?;
    let all = numbers(alloc, ITEMS)?;
    assert!(rt; is_answered(alloc, &mut world, b"", b"LRANGE m 0 -1", &all)?);
    Ok(())
}

#[test]
fn no_fields_are_too_many(rt: HostRuntime) -> Result<(), Fail> {
    let alloc = rt.alloc();
    let mut world = copied(&rt, alloc, RandomState::new(&rt)?, b"HSET k", true)?;
    assert!(rt; is_answered(alloc, &mut world, b"", b"HLEN m", b":20000\r\n")?);
    assert!(rt; is_answered(alloc, &mut world, b"", b"HGET m 19999", b"$5\r\n19999\r\n")?);
    Ok(())
}

#[test]
fn no_members_are_too_many(rt: HostRuntime) -> Result<(), Fail> {
    let alloc = rt.alloc();
    let mut world = copied(&rt, alloc, RandomState::new(&rt)?, b"SADD k", false)?;
    assert!(rt; is_answered(alloc, &mut world, b"", b"SCARD m", b":20000\r\n")?);
    assert!(rt; is_answered(alloc, &mut world, b"", b"SISMEMBER m 19999", b":1\r\n")?);
    Ok(())
}

#[test]
fn no_scores_are_too_many(rt: HostRuntime) -> Result<(), Fail> {
    let alloc = rt.alloc();
    let mut world = copied(&rt, alloc, RandomState::new(&rt)?, b"ZADD k", true)?;
    assert!(rt; is_answered(alloc, &mut world, b"", b"ZCARD m", b":20000\r\n")?);
    assert!(rt;
        is_answered(
            alloc,
            &mut world,
            b"",
            b"ZSCORE m 19999",
            b"$5\r\n19999\r\n"
        )?
    );
    Ok(())
}

#[test]
fn no_names_are_too_many(rt: HostRuntime) -> Result<(), Fail> {
    let alloc = rt.alloc();
    let mut world = opened(alloc, RandomState::new(&rt)?)?;
    fill(alloc, &mut world, b"MSET", 70_000, true)?;
    assert!(rt; is_answered(alloc, &mut world, b"", b"DBSIZE", b":70000\r\n")?);
    assert!(rt; is_answered(alloc, &mut world, b"", b"GET 69999", b"$5\r\n69999\r\n")?);
    Ok(())
}
