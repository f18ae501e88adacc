// A machine's copy, what it emits as a list, and a message to many connections, which no row reaches: that each call succeeds is tried here.
use nr_blob::{Blob, Memory};
use nr_emission::{Emissions, Nowhere};
use nr_entry::{ConnId, Entry, Job, JobKind, SessionUpdate, Update};
use nr_machine::Machine;
use nr_model::command::Kind;
use std::alloc::Global;
use std::hash::RandomState;
use std::test::Fail;

// So many words, each the name of a channel or a message.
fn words(alloc: Global, count: usize) -> Result<Vec<Blob>, Memory> {
    let mut words = Vec::new(alloc);
    for _ in 0..count {
        words.push(Blob::from_slice(alloc, b"k")?)?;
    }
    Ok(words)
}

// An entry in which a connection of node 3 asks for this, by so many words.
fn entry(
    alloc: Global,
    serial: u64,
    command: SessionUpdate,
    count: usize,
) -> Result<Entry, Memory> {
    let job = Job {
        conn: ConnId { node: 3, serial },
        number: 0,
        moment: 7,
        kind: JobKind::Update(Update::Session {
            command,
            words: words(alloc, count)?,
        }),
    };
    Ok(Entry::new(3, vec![in alloc; job]?))
}

fn subscribing(alloc: Global, serial: u64) -> Result<Entry, Memory> {
    entry(alloc, serial, SessionUpdate::Subscribe(Kind::Channels), 2)
}

fn publishing(alloc: Global, serial: u64) -> Result<Entry, Memory> {
    entry(alloc, serial, SessionUpdate::Publish, 3)
}

#[test]
fn a_copy_sends_messages(rt: HostRuntime) -> Result<(), Fail> {
    let alloc = rt.alloc();
    let mut machine = Machine::new(alloc, RandomState::new(&rt)?)?.copy()?;
    let mut emissions = Emissions::new(alloc);
    machine.apply(&subscribing(alloc, 1)?, 3, &mut emissions)?;
    machine.apply(&publishing(alloc, 2)?, 3, &mut emissions)?;
    let mut bytes = Vec::new(alloc);
    for emission in emissions.list() {
        bytes.extend_from_slice(&emission.bytes)?;
    }
    let expected =
        b"*3\r\n$9\r\nsubscribe\r\n$1\r\nk\r\n:1\r\n*3\r\n$7\r\nmessage\r\n$1\r\nk\r\n$1\r\nk\r\n:1\r\n";
    assert!(rt; bytes.as_slice() == expected.as_slice());
    Ok(())
}

// A message goes to more connections than a count of 16 bits holds, and its reply counts them.
#[test]
fn many_get_a_message(rt: HostRuntime) -> Result<(), Fail> {
    let alloc = rt.alloc();
    let mut machine = Machine::new(alloc, RandomState::new(&rt)?)?;
    for serial in 0..70_000 {
        machine.apply(&subscribing(alloc, serial)?, 3, &mut Nowhere)?;
    }
    let mut emissions = Emissions::new(alloc);
    machine.apply(&publishing(alloc, 70_000)?, 3, &mut emissions)?;
    assert!(rt; emissions.list().len() == 70_001);
    let mut last = Vec::new(alloc);
    for emission in emissions.list() {
        last.clear();
        last.extend_from_slice(&emission.bytes)?;
    }
    assert!(rt; last.as_slice() == b":70000\r\n".as_slice());
    Ok(())
}
