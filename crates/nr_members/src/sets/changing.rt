// The commands that put members in and take them out.
ghost use Rattle.std.specs.Prelude.{◌≡◌, ◌<◌, ◌^◌, ◌∷◌, None, IfOk, IfErr, OnOk, pos};
ghost use Rattle.std.specs.FinMap as map;
ghost use Rattle.nr_model.specs.Keyspace.{live, key_of};
ghost use Rattle.nr_model.specs.Replies.{Int};
ghost use Rattle.nr_model.specs.Commands.Shape.{staying, unchanged};
ghost use Rattle.nr_model.specs.Commands.Sets as sets;
ghost use Rattle.nr_resp.specs.Seen.{reply_of};
ghost use Rattle.nr_resp.specs.Done.{Performs};
ghost use Rattle.nr_resp.specs.Failures.{IfRefused};
ghost use Rattle.nr_keyspace.specs.Touched.{Touches};
ghost use Rattle.nr_members.specs.Changed.{IsChanged};

use nr_blob::{Blob, Memory};
use nr_keyspace::{Db, Keyspace, SetEdit, Touched, Value};
use nr_model::refused::Refused;
use nr_resp::{Failure, Reply};
use nr_sets::Set;
use std::alloc::Global;
use std::hash::RandomState;

/// `SADD key member [member ..]`. For each it looks at one block of the set.
pub fn add<T: Touched>(
    alloc: Global,
    keyspace: &mut Keyspace,
    now: u64,
    database: Db,
    words: &[Blob],
    touched: &mut T,
) -> Result<Reply, Failure>
    requires { live keyspace.old now ≡ keyspace.old }
    ensures { Performs T.after result keyspace.new database touched.old touched.new
        (staying database (sets.add keyspace.old database words.now)) }
{
    let Some((name, members)) = words.split_first() else {
        return Err(Failure::Refused(Refused::Syntax));
    };
    let count = insert(alloc, keyspace, now, database, name, members)?;
    Ok(tell(database, name, count, touched)?)
}

/// `SREM key member [member ..]`. For each it looks at one block of the set.
pub fn remove<T: Touched>(
    keyspace: &mut Keyspace,
    now: u64,
    database: Db,
    words: &[Blob],
    touched: &mut T,
) -> Result<Reply, Failure>
    requires { live keyspace.old now ≡ keyspace.old }
    ensures { Performs T.after result keyspace.new database touched.old touched.new
        (staying database (sets.remove keyspace.old database words.now)) }
{
    let Some((name, members)) = words.split_first() else {
        return Err(Failure::Refused(Refused::Syntax));
    };
    let count = take(keyspace, now, database, name, members)?;
    Ok(tell(database, name, count, touched)?)
}

/// Whoever keeps account is told of a key, if so many of its members are new or gone. The reply is their count.
pub(super) fn tell<T: Touched>(
    database: Db,
    name: &Blob,
    count: usize,
    touched: &mut T,
) -> Result<Reply, Memory>
    requires { count < 2 ^ 63 }
    ensures replied { IfOk result (λ reply. reply_of reply ≡ Int (pos count)) }
    ensures touched { OnOk result (Touches T.after touched.old touched.new (sets.touched_by (key_of database name.now) count)) }
{
    if count == 0 {
        return Ok(Reply::Int(0));
    }
    touched.touch(database, name)?;
    Ok(Reply::Int(count as i64))
}

/// Puts members into what a key holds, and says how many are new. A missing key gets a set of its own.
pub(super) fn insert(
    alloc: Global,
    keyspace: &mut Keyspace,
    now: u64,
    database: Db,
    name: &Blob,
    members: &[Blob],
) -> Result<usize, Failure>
    requires { live keyspace.old now ≡ keyspace.old }
    ensures changed { let key = key_of database name.now in IfOk result
        (λ count. IsChanged (sets.add keyspace.old database (name.now ∷ members.now)) keyspace.new key count) }
    ensures refused { IfErr result (λ failure. IfRefused failure
        (λ error. (sets.add keyspace.old database (name.now ∷ members.now) ≡ unchanged keyspace.old error) × (keyspace.new ≡ keyspace.old))) }
{
    let keys = keyspace.keys();
    let insertion = Insertion { keys, members };
    match keyspace.edit_set(now, database, name, insertion)? {
        Some(count) => Ok(count?),
        None => Ok(put(alloc, keyspace, database, name, members)?),
    }
}

// Puts members into a set.
#[derive(Drop)]
struct Insertion<'k> {
    keys: RandomState,
    members: &'k [Blob],
}

impl<'k> SetEdit for Insertion<'k> {
    type Given = usize;

    ghost use Rattle.std.specs.Prelude.{◌≡◌, ◌-◌, ◌<◌, ◌^◌, Ok, IfOk};
    ghost use Rattle.std.specs.FinSet as finset;
    ghost use Rattle.nr_model.specs.Commands.Sets.{with_each};

    ghost edits = { λ insertion old new given. (new ≡ with_each old insertion.members.now) × (given ≡ Ok (finset.len new - finset.len old)) × IfOk given (λ n. n < 2 ^ 63) };

    fn edit(self, set: &mut Set) -> Result<Result<usize, Refused>, Memory> {
        Ok(Ok(set.insert_each(self.keys, self.members)?))
    }
}

// A missing key holds these members, if there are any.
fn put(
    alloc: Global,
    keyspace: &mut Keyspace,
    database: Db,
    name: &Blob,
    members: &[Blob],
) -> Result<usize, Memory>
    ensures { let key = key_of database name.now in map.get keyspace.old key ≡ None → IfOk result
        (λ count. IsChanged (sets.added keyspace.old key members.now None) keyspace.new key count) }
{
    let keys = keyspace.keys();
    let mut set = Set::new(alloc);
    let count = set.insert_each(keys, members)?;
    if count == 0 {
        return Ok(0);
    }
    keyspace.put(database, name.copy()?, Value::from(set), None)?;
    Ok(count)
}

/// Takes members out of what a key holds, and says how many were there.
pub(super) fn take(
    keyspace: &mut Keyspace,
    now: u64,
    database: Db,
    name: &Blob,
    members: &[Blob],
) -> Result<usize, Failure>
    requires { live keyspace.old now ≡ keyspace.old }
    ensures changed { let key = key_of database name.now in IfOk result
        (λ count. IsChanged (sets.remove keyspace.old database (name.now ∷ members.now)) keyspace.new key count) }
    ensures refused { IfErr result (λ failure. IfRefused failure
        (λ error. (sets.remove keyspace.old database (name.now ∷ members.now) ≡ unchanged keyspace.old error) × (keyspace.new ≡ keyspace.old))) }
{
    match keyspace.edit_set(now, database, name, Removal { members })? {
        Some(count) => Ok(count?),
        None => Ok(0),
    }
}

// Takes members out of a set.
#[derive(Drop)]
struct Removal<'k> {
    members: &'k [Blob],
}

impl<'k> SetEdit for Removal<'k> {
    type Given = usize;

    ghost use Rattle.std.specs.Prelude.{◌≡◌, ◌-◌, ◌<◌, ◌^◌, Ok, IfOk};
    ghost use Rattle.std.specs.FinSet as finset;
    ghost use Rattle.nr_model.specs.Commands.Sets.{without_each};

    ghost edits = { λ removal old new given. (new ≡ without_each old removal.members.now) × (given ≡ Ok (finset.len old - finset.len new)) × IfOk given (λ n. n < 2 ^ 63) };

    fn edit(self, set: &mut Set) -> Result<Result<usize, Refused>, Memory> {
        Ok(Ok(set.remove_each(self.members)))
    }
}
