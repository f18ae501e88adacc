// SMOVE.
ghost use Rattle.std.specs.Prelude.{◌≡◌, false, bytes_eq, Some, Ok, Option};
ghost use Rattle.nr_model.specs.Keyspace.{live, key_of};
ghost use Rattle.nr_model.specs.Sets.{Members};
ghost use Rattle.nr_model.specs.Commands.Held.{members_at};
ghost use Rattle.nr_model.specs.Commands.Shape.{staying};
ghost use Rattle.nr_model.specs.Commands.Sets as sets;
ghost use Rattle.nr_resp.specs.Done.{Performs};

use crate::sets::changing::{insert, take, tell};
use crate::sets::stored::set_at;
use nr_blob::Blob;
use nr_keyspace::{Db, Keyspace, Touched};
use nr_resp::words::three_words;
use nr_resp::{Failure, Reply};
use std::alloc::Global;
use std::slice;

/// `SMOVE source destination member`. It looks at one block of each set.
pub fn move_member<T: Touched>(
    alloc: Global,
    keyspace: &mut Keyspace,
    now: u64,
    database: Db,
    words: &[Blob],
    touched: &mut T,
) -> Result<Reply, Failure>
    requires { live keyspace.old now ≡ keyspace.old }
    ensures { Performs T.after result keyspace.new database touched.old touched.new
        (staying database (sets.move keyspace.old database words.now)) }
{
    let (source, target, member) = three_words(words)?;
    let Some(held) = set_at(keyspace, now, database, source)? else {
        return Ok(Reply::Int(0));
    };
    let is_member = held.contains(member);
    set_at(keyspace, now, database, target)?;
    if !is_member {
        return Ok(Reply::Int(0));
    }
    if source == target {
        return Ok(Reply::Int(1));
    }
    carry(
        alloc, keyspace, now, database, source, target, member, touched,
    )
}

// Takes a member out of one set, and puts it into another.
fn carry<T: Touched>(
    alloc: Global,
    keyspace: &mut Keyspace,
    now: u64,
    database: Db,
    source: &Blob,
    target: &Blob,
    member: &Blob,
    touched: &mut T,
) -> Result<Reply, Failure>
    requires live { live keyspace.old now ≡ keyspace.old }
    requires apart { bytes_eq source.now target.now ≡ false }
    ensures { (held : Members) (others : Option Members)
        → members_at keyspace.old database source.now ≡ Ok (Some held) → members_at keyspace.old database target.now ≡ Ok others
        → Performs T.after result keyspace.new database touched.old touched.new
        (staying database (sets.carried keyspace.old (key_of database source.now) (key_of database target.now) held (sets.or_none others) member.now)) }
{
    let members = slice::from_ref(member);
    take(keyspace, now, database, source, members)?;
    let count = insert(alloc, keyspace, now, database, target, members)?;
    touched.touch(database, source)?;
    tell(database, target, count, touched)?;
    Ok(Reply::Int(1))
}
