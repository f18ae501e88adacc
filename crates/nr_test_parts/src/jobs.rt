// What connections of node 0 ask for: one channel, which is also the name of a key, and one text.
use nr_blob::{Blob, Memory};
use nr_entry::{ConnId, Entry, Job, JobKind, Read, SessionUpdate, Update};
use nr_model::command::{Change, Kind, Look, StringsChange, StringsLook};
use std::alloc::Global;

/// How many bytes a message or a value has.
const TEXT_BYTES: usize = 1024;

fn named(alloc: Global, name: &[u8]) -> Result<Vec<Blob>, Memory> {
    let mut words = Vec::with_capacity(alloc, 3)?;
    words.push(Blob::from_slice(alloc, name)?)?;
    words.push(Blob::from_slice(alloc, b"news")?)?;
    Ok(words)
}

fn with_text(alloc: Global, name: &[u8]) -> Result<Vec<Blob>, Memory> {
    let mut words = named(alloc, name)?;
    let mut text = Vec::new(alloc);
    text.resize(TEXT_BYTES, b'x')?;
    words.push(Blob::from(text))?;
    Ok(words)
}

fn entry(alloc: Global, serial: u64, update: Update) -> Result<Entry, Memory> {
    let job = Job {
        conn: ConnId { node: 0, serial },
        number: 0,
        moment: 0,
        kind: JobKind::Update(update),
    };
    Ok(Entry::new(0, vec![in alloc; job]?))
}

/// SUBSCRIBE by a connection.
pub(crate) fn subscribing(alloc: Global, serial: u64) -> Result<Entry, Memory> {
    let command = SessionUpdate::Subscribe(Kind::Channels);
    let words = named(alloc, b"SUBSCRIBE")?;
    entry(alloc, serial, Update::Session { command, words })
}

/// PUBLISH of a text by a connection.
pub(crate) fn publishing(alloc: Global, serial: u64) -> Result<Entry, Memory> {
    let command = SessionUpdate::Publish;
    let words = with_text(alloc, b"PUBLISH")?;
    entry(alloc, serial, Update::Session { command, words })
}

/// SET of a text by a connection.
pub(crate) fn setting(alloc: Global, serial: u64) -> Result<Entry, Memory> {
    let command = Change::Strings(StringsChange::Set);
    let words = with_text(alloc, b"SET")?;
    entry(alloc, serial, Update::Change { command, words })
}

/// GET of what was set.
pub(crate) fn getting(alloc: Global) -> Result<Read, Memory> {
    let command = Look::Strings(StringsLook::Get);
    let words = named(alloc, b"GET")?;
    Ok(Read::Look { command, words })
}
