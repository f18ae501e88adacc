// The commands on hashes that only look.
ghost use Rattle.std.specs.Prelude.{◌≡◌, ◌<◌, ◌^◌, IfOk, [], map};
ghost use Rattle.std.specs.Option.{option_map};
ghost use Rattle.std.specs.FinMap as finmap;
ghost use Rattle.nr_model.specs.Hashes.{in_turn};
ghost use Rattle.nr_model.specs.Keyspace.{live};
ghost use Rattle.nr_model.specs.Replies as replies;
ghost use Rattle.nr_model.specs.Commands.Strings as strings;
ghost use Rattle.nr_model.specs.Commands.Hashes as hashes;
ghost use Rattle.nr_resp.specs.Seen.{reply_of};
ghost use Rattle.nr_resp.specs.Done.{Answers};
ghost use Rattle.nr_resp.specs.Shown.{item_reply, shown_reply};

use crate::hashes::stored::{has_field, hash_at, value_in};
use nr_blob::{Blob, Memory};
use nr_hashes::Hash;
use nr_keyspace::{Db, Keyspace};
use nr_model::refused::Refused;
use nr_resp::words::{one_word, two_words};
use nr_resp::{Failure, Item, Reply, Shown};
use std::alloc::Global;

/// `HGET key field`. It looks at one block of the hash.
pub fn hget<'k>(
    keyspace: &'k Keyspace,
    now: u64,
    database: Db,
    words: &'k [Blob],
) -> Result<Shown<'k>, Failure>
    ensures { Answers result (hashes.hget (live keyspace.now now) database words.now) }
{
    let (name, field) = two_words(words)?;
    let hash = hash_at(keyspace, now, database, name)?;
    Ok(bulk_or_null(value_in(hash, field)))
}

// A value as a bulk, lent, and the null bulk for none.
fn bulk_or_null<'k>(value: Option<&'k [u8]>) -> Shown<'k>
    ensures { shown_reply result ≡ strings.bulk_or_null (option_map (λ value. value.now) value.entry) }
{
    match value {
        Some(value) => Shown::Bulk(value),
        None => Shown::Owned(Reply::NullBulk),
    }
}

/// `HMGET key field [field ..]`. One look-up of the key, and each field logarithmic in the fields.
pub fn hmget<'k>(
    alloc: Global,
    keyspace: &'k Keyspace,
    now: u64,
    database: Db,
    words: &'k [Blob],
) -> Result<Shown<'k>, Failure>
    ensures { Answers result (hashes.hmget (live keyspace.now now) database words.now) }
{
    let Some((name, fields)) = words.split_first() else {
        return Err(Failure::Refused(Refused::Syntax));
    };
    let hash = hash_at(keyspace, now, database, name)?;
    Ok(Shown::Items(values_at(alloc, hash, fields)?))
}

// The value at each field, lent, and the null bulk where there is none.
fn values_at<'k>(
    alloc: Global,
    hash: Option<&'k Hash>,
    fields: &[Blob],
) -> Result<Vec<Item<'k>>, Memory>
    ensures { IfOk result
        (λ items. map item_reply items.items
        ≡ map (λ field. strings.bulk_or_null (finmap.get (hashes.or_none (option_map (λ hash. hash.now) hash.entry)) field)) fields.now) }
{
    let mut items = Vec::with_capacity(alloc, fields.len())?;
    for field in fields {
        items.push(item_of(value_in(hash, field)))?;
    }
    Ok(items)
}

fn item_of<'k>(value: Option<&'k [u8]>) -> Item<'k>
    ensures { item_reply result ≡ strings.bulk_or_null (option_map (λ value. value.now) value.entry) }
{
    match value {
        Some(value) => Item::Bulk(value),
        None => Item::Null,
    }
}

/// `HLEN key`
pub fn hlen<'k>(
    keyspace: &'k Keyspace,
    now: u64,
    database: Db,
    words: &'k [Blob],
) -> Result<Shown<'k>, Failure>
    ensures { Answers result (hashes.hlen (live keyspace.now now) database words.now) }
{
    let name = one_word(words)?;
    let hash = hash_at(keyspace, now, database, name)?;
    Ok(Shown::Owned(Reply::Int(len_of(hash) as i64)))
}

// How many fields. Constant.
fn len_of(hash: Option<&Hash>) -> usize
    ensures len { result ≡ finmap.len (hashes.or_none (option_map (λ hash. hash.now) hash.entry)) }
    ensures small { result < 2 ^ 63 }
{
    match hash {
        Some(hash) => hash.len(),
        None => 0,
    }
}

/// `HEXISTS key field`. It looks at one block of the hash.
pub fn hexists<'k>(
    keyspace: &'k Keyspace,
    now: u64,
    database: Db,
    words: &'k [Blob],
) -> Result<Shown<'k>, Failure>
    ensures { Answers result (hashes.hexists (live keyspace.now now) database words.now) }
{
    let (name, field) = two_words(words)?;
    let hash = hash_at(keyspace, now, database, name)?;
    Ok(Shown::Owned(one_if(has_field(hash, field))))
}

fn one_if(so: bool) -> Reply
    ensures { reply_of result ≡ hashes.one_if so }
{
    Reply::Int(if so { 1 } else { 0 })
}

/// `HSTRLEN key field`. It looks at one block of the hash.
pub fn hstrlen<'k>(
    keyspace: &'k Keyspace,
    now: u64,
    database: Db,
    words: &'k [Blob],
) -> Result<Shown<'k>, Failure>
    ensures { Answers result (hashes.hstrlen (live keyspace.now now) database words.now) }
{
    let (name, field) = two_words(words)?;
    let hash = hash_at(keyspace, now, database, name)?;
    let value = bytes_of(value_in(hash, field));
    Ok(Shown::Owned(Reply::Int(value.len() as i64)))
}

// The bytes of a value, lent, and none of no value.
fn bytes_of<'k>(value: Option<&'k [u8]>) -> &'k [u8]
    ensures { result.now ≡ strings.or_empty (option_map (λ value. value.now) value.entry) }
{
    match value {
        Some(value) => value,
        None => &[],
    }
}

/// `HKEYS key`. Linear in the fields, and O(n log n) in those of a table, which are sorted.
pub fn hkeys<'k>(
    alloc: Global,
    keyspace: &'k Keyspace,
    now: u64,
    database: Db,
    words: &'k [Blob],
) -> Result<Shown<'k>, Failure>
    ensures { Answers result (hashes.listed finmap.keys (live keyspace.now now) database words.now) }
{
    let name = one_word(words)?;
    let Some(hash) = hash_at(keyspace, now, database, name)? else {
        return Ok(no_items(alloc));
    };
    Ok(Shown::Items(fields_of(alloc, hash)?))
}

// An array of nothing.
fn no_items<'k>(alloc: Global) -> Shown<'k>
    ensures { shown_reply result ≡ replies.array [] }
{
    Shown::Items(Vec::new(alloc))
}

// The fields, lent, in byte order.
fn fields_of<'k>(alloc: Global, hash: &'k Hash) -> Result<Vec<Item<'k>>, Memory>
    ensures { IfOk result (λ items. map item_reply items.items ≡ map replies.Bulk (finmap.keys hash.now)) }
{
    let mut items = Vec::with_capacity(alloc, hash.len())?;
    for field in hash.fields()? {
        items.push(Item::Bulk(field))?;
    }
    Ok(items)
}

/// `HVALS key`. Linear in the fields, and O(n log n) in those of a table, which are sorted.
pub fn hvals<'k>(
    alloc: Global,
    keyspace: &'k Keyspace,
    now: u64,
    database: Db,
    words: &'k [Blob],
) -> Result<Shown<'k>, Failure>
    ensures { Answers result (hashes.listed finmap.values (live keyspace.now now) database words.now) }
{
    let name = one_word(words)?;
    let Some(hash) = hash_at(keyspace, now, database, name)? else {
        return Ok(no_items(alloc));
    };
    Ok(Shown::Items(values_of(alloc, hash)?))
}

// The values, lent, by the byte order of their fields.
fn values_of<'k>(alloc: Global, hash: &'k Hash) -> Result<Vec<Item<'k>>, Memory>
    ensures { IfOk result (λ items. map item_reply items.items ≡ map replies.Bulk (finmap.values hash.now)) }
{
    let mut items = Vec::with_capacity(alloc, hash.len())?;
    for value in hash.values()? {
        items.push(Item::Bulk(value))?;
    }
    Ok(items)
}

/// `HGETALL key`. Linear in the fields, and O(n log n) in those of a table, which are sorted.
pub fn hgetall<'k>(
    alloc: Global,
    keyspace: &'k Keyspace,
    now: u64,
    database: Db,
    words: &'k [Blob],
) -> Result<Shown<'k>, Failure>
    ensures { Answers result (hashes.listed in_turn (live keyspace.now now) database words.now) }
{
    let name = one_word(words)?;
    let Some(hash) = hash_at(keyspace, now, database, name)? else {
        return Ok(no_items(alloc));
    };
    Ok(Shown::Items(pairs_of(alloc, hash)?))
}

// Each field and its value in turn, lent, by the fields' byte order.
fn pairs_of<'k>(alloc: Global, hash: &'k Hash) -> Result<Vec<Item<'k>>, Memory>
    ensures { IfOk result (λ items. map item_reply items.items ≡ map replies.Bulk (in_turn hash.now)) }
{
    let mut items = Vec::with_capacity(alloc, 2 * hash.len())?;
    for (field, value) in hash.pairs()? {
        items.push(Item::Bulk(field))?;
        items.push(Item::Bulk(value))?;
    }
    Ok(items)
}
