// HDEL.
ghost use Rattle.std.specs.Prelude.{◌≡◌};
ghost use Rattle.nr_model.specs.Keyspace.{live};
ghost use Rattle.nr_model.specs.Commands.Shape.{staying};
ghost use Rattle.nr_model.specs.Commands.Hashes as hashes;
ghost use Rattle.nr_resp.specs.Done.{Performs};

use crate::hashes::edited::edit_at;
use nr_blob::{Blob, Memory};
use nr_hashes::Hash;
use nr_keyspace::{Db, HashEdit, Keyspace, Touched};
use nr_model::refused::Refused;
use nr_resp::{Failure, Reply};
use std::alloc::Global;

/// `HDEL key field [field ..]`. One look-up of the key, and each field logarithmic in the fields.
pub fn hdel<T: Touched>(
    alloc: Global,
    keyspace: &mut Keyspace,
    now: u64,
    database: Db,
    words: &[Blob],
    touched: &mut T,
) -> Result<Reply, Failure>
    requires { live keyspace.old now ≡ keyspace.old }
    ensures { Performs T.after result keyspace.new database touched.old touched.new
        (staying database (hashes.hdel keyspace.old database words.now)) }
{
    let Some((name, fields)) = words.split_first() else {
        return Err(Failure::Refused(Refused::Syntax));
    };
    let removed = edit_at(alloc, keyspace, now, database, name, Removal { fields })?;
    if removed == 0 {
        return Ok(Reply::Int(0));
    }
    touched.touch(database, name)?;
    Ok(Reply::Int(removed))
}

// Fields that are taken out.
#[derive(Clone, Copy)]
struct Removal<'k> {
    fields: &'k [Blob],
}

impl<'k> HashEdit for Removal<'k> {
    // How many of them there were.
    type Given = i64;

    ghost use Rattle.std.specs.Prelude.{◌≡◌, ◌-ℤ◌, Ok, pos};
    ghost use Rattle.std.specs.FinMap as map;
    ghost use Rattle.nr_model.specs.Commands.Hashes as hashes;

    ghost edits = { λ edit old new given. (given ≡ Ok (pos (map.len old) -ℤ pos (map.len new))) × (new ≡ hashes.without old edit.fields.now) };

    fn edit(self, hash: &mut Hash) -> Result<Result<i64, Refused>, Memory> {
        let before = hash.len();
        remove_all(hash, self.fields);
        Ok(Ok(before as i64 - hash.len() as i64))
    }
}

fn remove_all(hash: &mut Hash, fields: &[Blob])
    ensures { hash.new ≡ hashes.without hash.old fields.now }
{
    for field in fields {
        hash.remove(field);
    }
}
