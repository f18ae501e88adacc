// The keys of the bench: names of 16 bytes, and texts of one letter, stored as a change stores them.
ghost use Rattle.std.specs.Fmt.{signed_decimal};
ghost use Rattle.std.specs.Prelude.{◌≡◌, ◌+◌, None, pos, length, IfOk, OnOk, OnErr};
ghost use Rattle.std.specs.FinMap as map;
ghost use Rattle.nr_model.specs.Keyspace.{live, key_of, Text};

use nr_blob::{Blob, Memory, int_text};
use nr_keyspace::{Db, Keyspace, Value};
use nr_strings::Str;
use std::alloc::Global;

/// How many bytes a name has.
pub(crate) const NAME_BYTES: usize = 16;

// The least number of 16 digits.
const FIRST_NAME: i64 = 1_000_000_000_000_000;

/// The name of a key: 16 digits, others for each number.
pub(crate) fn name(alloc: Global, number: u32) -> Result<Blob, Memory>
    ensures { IfOk result (λ name. name ≡ signed_decimal (pos (1_000_000_000_000_000 + number))) }
{
    let mut text = Vec::with_capacity(alloc, NAME_BYTES)?;
    int_text(FIRST_NAME + number as i64, &mut text)?;
    Ok(Blob::from(text))
}

/// A text of so many bytes.
pub(crate) fn text(alloc: Global, bytes: usize) -> Result<Blob, Memory>
    ensures { IfOk result (λ text. length text ≡ bytes) }
{
    let mut text = Vec::with_capacity(alloc, bytes)?;
    text.resize(bytes, b'x')?;
    Ok(Blob::from(text))
}

/// SET as a change does it, in the first database: a sweep, and then the value in place or a new key. Where memory runs out it has swept
/// alone.
pub(crate) fn set(keyspace: &mut Keyspace, now: u64, name: &Blob, text: &Blob) -> Result<(), Memory>
    ensures ok { OnOk result (keyspace.new ≡ map.insert (live keyspace.old now) (key_of 0 name.now) (record { value = Text text.now; deadline = None })) }
    ensures err { OnErr result (keyspace.new ≡ live keyspace.old now) }
{
    keyspace.sweep(now);
    let value = Value::String(Str::from(text.copy()?));
    if let Some(value) = keyspace.rewrite(Db::FIRST, name, value) {
        keyspace.put(Db::FIRST, name.copy()?, value, None)?;
    }
    Ok(())
}

/// Stores so many keys of the first database, with one deadline or none.
pub(crate) fn fill(
    alloc: Global,
    keyspace: &mut Keyspace,
    keys: u32,
    bytes: usize,
    deadline: Option<i64>,
) -> Result<(), Memory> {
    for number in 0..keys {
        let value = Value::String(Str::from(text(alloc, bytes)?));
        keyspace.put(Db::FIRST, name(alloc, number)?, value, deadline)?;
    }
    Ok(())
}
