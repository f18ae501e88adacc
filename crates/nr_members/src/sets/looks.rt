// The commands that look at one set.
ghost use Rattle.std.specs.Prelude.{◌≡◌, map, IfOk};
ghost use Rattle.std.specs.FinSet as finset;
ghost use Rattle.nr_model.specs.Keyspace.{live};
ghost use Rattle.nr_model.specs.Replies.{Bulk};
ghost use Rattle.nr_model.specs.Sets.{listed};
ghost use Rattle.nr_model.specs.Commands.Sets as sets;
ghost use Rattle.nr_resp.specs.Seen.{reply_of};
ghost use Rattle.nr_resp.specs.Shown.{item_reply};
ghost use Rattle.nr_resp.specs.Done.{Answers};
ghost use Rattle.nr_sets.specs.Lent.{lent};

use crate::sets::stored::{len_of, membership, set_at};
use nr_blob::{Blob, Memory};
use nr_keyspace::{Db, Keyspace};
use nr_model::refused::Refused;
use nr_resp::words::{one_word, two_words};
use nr_resp::{Failure, Item, Reply, Shown};
use nr_sets::{Set, has};
use std::alloc::Global;

/// `SISMEMBER key member`. It looks at one block of the set.
pub fn is_member<'k>(
    keyspace: &'k Keyspace,
    now: u64,
    database: Db,
    words: &'k [Blob],
) -> Result<Shown<'k>, Failure>
    ensures { Answers result (sets.is_member (live keyspace.now now) database words.now) }
{
    let (name, member) = two_words(words)?;
    let held = set_at(keyspace, now, database, name)?;
    Ok(Shown::Owned(membership(has(held, member))))
}

/// `SMISMEMBER key member [member ..]`. For each it looks at one block of the set.
pub fn are_members<'k>(
    alloc: Global,
    keyspace: &'k Keyspace,
    now: u64,
    database: Db,
    words: &'k [Blob],
) -> Result<Shown<'k>, Failure>
    ensures { Answers result (sets.are_members (live keyspace.now now) database words.now) }
{
    let Some((name, members)) = words.split_first() else {
        return Err(Failure::Refused(Refused::Syntax));
    };
    let held = set_at(keyspace, now, database, name)?;
    Ok(Shown::Owned(Reply::array(memberships(alloc, held, members)?)))
}

fn memberships(alloc: Global, held: Option<&Set>, members: &[Blob]) -> Result<Vec<Reply>, Memory>
    ensures { IfOk result
        (λ replies. map reply_of replies.items ≡ map (λ member. sets.membership (finset.contains (lent held.entry) member)) members.now) }
{
    let mut replies = Vec::with_capacity(alloc, members.len())?;
    for member in members {
        replies.push(membership(has(held, member)))?;
    }
    Ok(replies)
}

/// `SCARD key`. Constant.
pub fn card<'k>(
    keyspace: &'k Keyspace,
    now: u64,
    database: Db,
    words: &'k [Blob],
) -> Result<Shown<'k>, Failure>
    ensures { Answers result (sets.card (live keyspace.now now) database words.now) }
{
    let name = one_word(words)?;
    let held = set_at(keyspace, now, database, name)?;
    Ok(Shown::Owned(Reply::Int(len_of(held) as i64)))
}

/// `SMEMBERS key`. Linear in the members, which are lent, and O(n log n) in those of a table, which are sorted.
pub fn members<'k>(
    alloc: Global,
    keyspace: &'k Keyspace,
    now: u64,
    database: Db,
    words: &'k [Blob],
) -> Result<Shown<'k>, Failure>
    ensures { Answers result (sets.members (live keyspace.now now) database words.now) }
{
    let name = one_word(words)?;
    let held = set_at(keyspace, now, database, name)?;
    Ok(Shown::Items(members_of(alloc, held)?))
}

// The members of a set, lent, and none where it is missing.
fn members_of<'k>(alloc: Global, held: Option<&'k Set>) -> Result<Vec<Item<'k>>, Memory>
    ensures { IfOk result (λ items. map item_reply items.items ≡ map Bulk (listed (lent held.entry))) }
{
    match held {
        Some(held) => items_of(alloc, held),
        None => Ok(Vec::new(alloc)),
    }
}

fn items_of<'k>(alloc: Global, held: &'k Set) -> Result<Vec<Item<'k>>, Memory>
    ensures { IfOk result (λ items. map item_reply items.items ≡ map Bulk (listed held.now)) }
{
    let mut items = Vec::with_capacity(alloc, held.len())?;
    for member in held.members()? {
        items.push(Item::Bulk(member))?;
    }
    Ok(items)
}
