// The commands that make one set of several.
ghost use Rattle.std.specs.Prelude.{◌≡◌, ◌++◌, ◌∷◌, [], Ok, Err, IfOk, IfErr, OnOk, map};
ghost use Rattle.std.specs.Map.Iter.{deref};
ghost use Rattle.nr_model.specs.Keyspace.{live, key_of};
ghost use Rattle.nr_model.specs.Replies as replies;
ghost use Rattle.nr_model.specs.Sets.{listed};
ghost use Rattle.nr_model.specs.Commands.Reading.{read_then};
ghost use Rattle.nr_model.specs.Commands.Shape.{staying};
ghost use Rattle.nr_model.specs.Commands.Sets as sets;
ghost use Rattle.nr_resp.specs.Seen.{reply_of};
ghost use Rattle.nr_resp.specs.Shown.{item_reply, shown_reply};
ghost use Rattle.nr_resp.specs.Done.{Answers, IsDone, Performs};
ghost use Rattle.nr_resp.specs.Failures.{IfRefused};
ghost use Rattle.nr_sets.specs.Lent.{lent};

use crate::sets::stored::set_at;
use nr_blob::{Blob, Memory};
use nr_keyspace::{Db, Keyspace, Touched, Value};
use nr_model::command::Combination;
use nr_model::refused::Refused;
use nr_resp::{Failure, Item, Reply, Shown};
use nr_sets::{Set, difference, intersection, union};
use std::alloc::Global;

/// `SINTER key [key ..]`, `SUNION key [key ..]`, `SDIFF key [key ..]`. SINTER walks the smallest set and SDIFF the first, in O(n log n) where that is
/// a table, and for each member they look at one block of the others; SUNION is O(n log n) in the members of all. The members are lent.
pub fn combine<'k>(
    alloc: Global,
    combination: Combination,
    keyspace: &'k Keyspace,
    now: u64,
    database: Db,
    names: &'k [Blob],
) -> Result<Shown<'k>, Failure>
    ensures { Answers result (sets.combine combination (live keyspace.now now) database names.now) }
{
    let members = combined(alloc, combination, keyspace, now, database, names)?;
    Ok(bulks(alloc, &members)?)
}

// An array of bulks, each lent.
fn bulks<'k>(alloc: Global, members: &[&'k [u8]]) -> Result<Shown<'k>, Memory>
    ensures { IfOk result (λ shown. shown_reply shown ≡ replies.array (map replies.Bulk (map deref members.now))) }
{
    let mut items = Vec::with_capacity(alloc, members.len())?;
    for member in members {
        items.push(Item::Bulk(*member))?;
    }
    Ok(Shown::Items(items))
}

// What keys hold as sets, made one, in byte order.
fn combined<'k>(
    alloc: Global,
    combination: Combination,
    keyspace: &'k Keyspace,
    now: u64,
    database: Db,
    names: &[Blob],
) -> Result<Vec<&'k [u8]>, Failure>
    ensures members { IfOk result (λ members. read_then (sets.sets_at (live keyspace.now now) database names.now)
        (λ held. Ok (listed (sets.combined combination held))) ≡ Ok (map deref members.items)) }
    ensures refused { IfErr result
        (λ failure. IfRefused failure (λ error. sets.sets_at (live keyspace.now now) database names.now ≡ Err error)) }
{
    let held = sets_at(alloc, keyspace, now, database, names)?;
    Ok(joined(alloc, combination, &held)?)
}

/// What keys hold as sets, the kinds of all being looked at.
pub(super) fn sets_at<'k>(
    alloc: Global,
    keyspace: &'k Keyspace,
    now: u64,
    database: Db,
    names: &[Blob],
) -> Result<Vec<Option<&'k Set>>, Failure>
    ensures sets { IfOk result (λ held. sets.sets_at (live keyspace.now now) database names.now ≡ Ok (map lent held.items)) }
    ensures refused { IfErr result
        (λ failure. IfRefused failure (λ error. sets.sets_at (live keyspace.now now) database names.now ≡ Err error)) }
{
    let mut held = Vec::new(alloc);
    for name in names {
        push(&mut held, set_at(keyspace, now, database, name)?)?;
    }
    Ok(held)
}

fn push<'k>(held: &mut Vec<Option<&'k Set>>, next: Option<&'k Set>) -> Result<(), Memory>
    ensures { OnOk result (held.new.items ≡ held.old.items ++ next.entry ∷ []) }
{
    held.push(next)?;
    Ok(())
}

fn joined<'k>(
    alloc: Global,
    combination: Combination,
    held: &[Option<&'k Set>],
) -> Result<Vec<&'k [u8]>, Memory>
    ensures { IfOk result (λ members. map deref members.items ≡ listed (sets.combined combination (map lent held.now))) }
{
    match combination {
        Combination::Intersection => intersection(alloc, held, 0),
        Combination::Union => union(alloc, held),
        Combination::Difference => difference(alloc, held),
    }
}

/// `SINTERSTORE destination key [key ..]`, `SUNIONSTORE destination key [key ..]`, `SDIFFSTORE destination key [key ..]`. Beside what the
/// commands without STORE cost, each member is copied and put in, for which it looks at one block of the new set.
pub fn combine_store<T: Touched>(
    alloc: Global,
    combination: Combination,
    keyspace: &mut Keyspace,
    now: u64,
    database: Db,
    words: &[Blob],
    touched: &mut T,
) -> Result<Reply, Failure>
    requires { live keyspace.old now ≡ keyspace.old }
    ensures { Performs T.after result keyspace.new database touched.old touched.new
        (staying database (sets.combine_store combination keyspace.old database words.now)) }
{
    let Some((target, names)) = words.split_first() else {
        return Err(Failure::Refused(Refused::Syntax));
    };
    let set = combined_set(alloc, combination, keyspace, now, database, names)?;
    Ok(put_result(keyspace, now, database, target, set, touched)?)
}

// What keys hold as sets, made one of its own.
fn combined_set(
    alloc: Global,
    combination: Combination,
    keyspace: &Keyspace,
    now: u64,
    database: Db,
    names: &[Blob],
) -> Result<Set, Failure>
    ensures set { IfOk result (λ set. read_then (sets.sets_at (live keyspace.now now) database names.now)
        (λ held. Ok (sets.combined combination held)) ≡ Ok set) }
    ensures refused { IfErr result
        (λ failure. IfRefused failure (λ error. sets.sets_at (live keyspace.now now) database names.now ≡ Err error)) }
{
    let held = sets_at(alloc, keyspace, now, database, names)?;
    let members = joined(alloc, combination, &held)?;
    Ok(Set::collect(alloc, keyspace.keys(), &members)?)
}

// The key holds the set, whatever it held, and has no deadline. An empty set is no key.
fn put_result<T: Touched>(
    keyspace: &mut Keyspace,
    now: u64,
    database: Db,
    target: &Blob,
    set: Set,
    touched: &mut T,
) -> Result<Reply, Memory>
    requires { live keyspace.old now ≡ keyspace.old }
    ensures { IfOk result (λ reply. IsDone T.after (reply_of reply) keyspace.new database touched.old touched.new
        (staying database (sets.replaced_by keyspace.old (key_of database target.now) set))) }
{
    let len = set.len();
    if len == 0 {
        return clear(keyspace, now, database, target, touched);
    }
    keyspace.put(database, target.copy()?, Value::from(set), None)?;
    touched.touch(database, target)?;
    Ok(Reply::Int(len as i64))
}

// The key goes, if it is there.
fn clear<T: Touched>(
    keyspace: &mut Keyspace,
    now: u64,
    database: Db,
    name: &Blob,
    touched: &mut T,
) -> Result<Reply, Memory>
    requires { live keyspace.old now ≡ keyspace.old }
    ensures { IfOk result (λ reply. IsDone T.after (reply_of reply) keyspace.new database touched.old touched.new
        (staying database (sets.cleared keyspace.old (key_of database name.now)))) }
{
    if keyspace.remove(now, database, name).is_none() {
        return Ok(Reply::Int(0));
    }
    touched.touch(database, name)?;
    Ok(Reply::Int(0))
}
