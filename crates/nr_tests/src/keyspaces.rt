// Deadlines and databases of a keyspace alone, at moments of the tests' own.
use nr_blob::{Blob, Memory};
use nr_keyspace::{Db, Keyspace, Value};
use std::alloc::Global;
use std::hash::RandomState;
use std::test::Fail;

// Keys of the first database, each with its own name as its value.
fn filled(alloc: Global, keys: RandomState) -> Result<Keyspace, Memory> {
    let mut keyspace = Keyspace::new(alloc, keys)?;
    for (name, deadline) in [(b"a", Some(100)), (b"b", None), (b"c", Some(200))] {
        let value = Value::String(Blob::from_slice(alloc, name)?.into());
        keyspace.put(Db::FIRST, Blob::from_slice(alloc, name)?, value, deadline)?;
    }
    Ok(keyspace)
}

// A key is gone at its deadline, and not before.
#[test]
fn keys_have_deadlines(rt: HostRuntime) -> Result<(), Fail> {
    let mut keyspace = filled(rt.alloc(), RandomState::new(&rt)?)?.copy()?;
    for (now, count) in [(99, 3), (100, 2), (200, 1)] {
        let names = keyspace.matching(rt.alloc(), now, Db::FIRST, b"*")?;
        assert!(rt; names.len() == count, "at {now}");
    }
    let name = Blob::from_slice(rt.alloc(), b"c")?;
    assert!(rt; keyspace.set_deadline(100, Db::FIRST, &name, Some(300))?);
    assert!(rt; keyspace.len(299, Db::FIRST) == 2);
    Ok(())
}
