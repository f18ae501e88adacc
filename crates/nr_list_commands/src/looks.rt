// The commands on lists that only look.
ghost use Rattle.std.specs.Prelude.{◌≡◌, ◌<◌, ◌^◌, All, Ok, IfOk, IfErr, length, map, pos};
ghost use Rattle.std.specs.Option.{option_map};
ghost use Rattle.nr_model.specs.Keyspace.{live};
ghost use Rattle.nr_model.specs.Strings.{range};
ghost use Rattle.nr_model.specs.Lists.{item_at};
ghost use Rattle.nr_model.specs.Replies.{Bulk, Int};
ghost use Rattle.nr_model.specs.Commands.Reading.{fault};
ghost use Rattle.nr_model.specs.Commands.Strings.{bulk_or_null};
ghost use Rattle.nr_model.specs.Commands.Lists as lists;
ghost use Rattle.nr_resp.specs.Seen.{reply_of};
ghost use Rattle.nr_resp.specs.Done.{Answers};
ghost use Rattle.nr_resp.specs.Shown.{item_reply, shown_reply};

use crate::places::{PlaceOptions, place_options};
use crate::stored::items_at;
use crate::words::range_request;
use nr_blob::{Blob, Memory};
use nr_keyspace::{Db, Keyspace};
use nr_lists::List;
use nr_model::refused::Refused;
use nr_resp::words::{integer, one_word, two_words};
use nr_resp::{Failure, Item, Reply, Shown};
use std::alloc::Global;

/// `LLEN key`
pub fn len<'k>(
    keyspace: &'k Keyspace,
    now: u64,
    database: Db,
    words: &'k [Blob],
) -> Result<Shown<'k>, Failure>
    ensures { Answers result (lists.llen (live keyspace.now now) database words.now) }
{
    let name = one_word(words)?;
    let list = items_at(keyspace, now, database, name)?;
    Ok(Shown::Owned(Reply::Int(len_of(list))))
}

// How many items a list has, and 0 for no list.
fn len_of(list: Option<&List>) -> i64
    ensures { result ≡ pos (length (lists.or_no_items (option_map (λ list. list.now) list.entry))) }
{
    match list {
        Some(list) => list.len() as i64,
        None => 0,
    }
}

/// `LINDEX key index`
pub fn index<'k>(
    keyspace: &'k Keyspace,
    now: u64,
    database: Db,
    words: &'k [Blob],
) -> Result<Shown<'k>, Failure>
    ensures { Answers result (lists.lindex (live keyspace.now now) database words.now) }
{
    let (name, index) = index_request(words)?;
    let list = items_at(keyspace, now, database, name)?;
    Ok(item_or_null(list, index))
}

fn index_request<'k>(words: &'k [Blob]) -> Result<(&'k Blob, i64), Refused>
    ensures request { IfOk result (λ request. lists.index_request words.now ≡ Ok (request.0.now, request.1)) }
    ensures refused { IfErr result (λ why. lists.index_request words.now ≡ fault why) }
{
    let (name, index) = two_words(words)?;
    Ok((name, integer(index)?))
}

// The item at an index, lent, and the null bulk where there is none.
#[tactic(auto, using(crate::proofs::NoItems::no_item))]
fn item_or_null<'k>(list: Option<&'k List>, index: i64) -> Shown<'k>
    ensures { shown_reply result ≡ bulk_or_null (item_at index (lists.or_no_items (option_map (λ list. list.now) list.entry))) }
{
    let Some(list) = list else {
        return Shown::Owned(Reply::NullBulk);
    };
    match list.get(index) {
        Some(item) => Shown::Bulk(item),
        None => Shown::Owned(Reply::NullBulk),
    }
}

/// `LRANGE key start end`. Linear in what is shown.
pub fn range<'k>(
    alloc: Global,
    keyspace: &'k Keyspace,
    now: u64,
    database: Db,
    words: &'k [Blob],
) -> Result<Shown<'k>, Failure>
    ensures { Answers result (lists.lrange (live keyspace.now now) database words.now) }
{
    let request = range_request(words)?;
    let list = items_at(keyspace, now, database, request.name)?;
    let items = range_of(alloc, list, request.first, request.last)?;
    Ok(Shown::Items(items))
}

// The items of a range, lent, and none of no list.
#[tactic(auto, using(crate::proofs::NoItems::no_range))]
fn range_of<'k>(
    alloc: Global,
    list: Option<&'k List>,
    first: i64,
    last: i64,
) -> Result<Vec<Item<'k>>, Memory>
    ensures { IfOk result (λ items. map item_reply items.items
        ≡ map Bulk (range first last (lists.or_no_items (option_map (λ list. list.now) list.entry)))) }
{
    match list {
        Some(list) => lent_range(alloc, list, first, last),
        None => Ok(Vec::new(alloc)),
    }
}

fn lent_range<'k>(
    alloc: Global,
    list: &'k List,
    first: i64,
    last: i64,
) -> Result<Vec<Item<'k>>, Memory>
    ensures { IfOk result (λ items. map item_reply items.items ≡ map Bulk (range first last list.now)) }
{
    let shown = list.range(first, last);
    let mut items = Vec::with_capacity(alloc, shown.len())?;
    for item in shown {
        items.push(Item::Bulk(item))?;
    }
    Ok(items)
}

/// `LPOS key item [RANK rank] [COUNT count] [MAXLEN len]`. Linear in what is looked at.
pub fn positions<'k>(
    alloc: Global,
    keyspace: &'k Keyspace,
    now: u64,
    database: Db,
    words: &'k [Blob],
) -> Result<Shown<'k>, Failure>
    ensures { Answers result (lists.lpos (live keyspace.now now) database words.now) }
{
    let [name, item, words @ ..] = words else {
        return Err(Failure::Refused(Refused::Syntax));
    };
    let options = place_options(words)?;
    let list = items_at(keyspace, now, database, name)?;
    let places = places_in(alloc, list, item, options)?;
    Ok(Shown::Owned(places_reply(alloc, options, &places)?))
}

// Where an item stands, and nowhere in no list.
#[tactic(auto, using(crate::proofs::NoItems::no_places))]
fn places_in(
    alloc: Global,
    list: Option<&List>,
    item: &Blob,
    options: PlaceOptions,
) -> Result<Vec<usize>, Memory>
    ensures places { IfOk result (λ places. places.items
        ≡ lists.places_in options item.now (lists.or_no_items (option_map (λ list. list.now) list.entry))) }
    ensures small { IfOk result (λ places. All (λ place. place < 2 ^ 63) places.items) }
{
    match list {
        Some(list) => found_in(list, item, options),
        None => Ok(Vec::new(alloc)),
    }
}

fn found_in(list: &List, item: &Blob, options: PlaceOptions) -> Result<Vec<usize>, Memory>
    ensures places { IfOk result (λ places. places.items ≡ lists.places_in options item.now list.now) }
    ensures small { IfOk result (λ places. All (λ place. place < 2 ^ 63) places.items) }
{
    list.positions(
        item.bytes(),
        options.rank,
        options.count.unwrap_or(1),
        options.most,
    )
}

// One place or the null bulk, and with COUNT all of them.
fn places_reply(alloc: Global, options: PlaceOptions, places: &[usize]) -> Result<Reply, Memory>
    requires { All (λ place. place < 2 ^ 63) places.now }
    ensures { IfOk result (λ reply. reply_of reply ≡ lists.places_reply options.count places.now) }
{
    if options.count.is_some() {
        return Ok(Reply::array(numbers(alloc, places)?));
    }
    match places.first() {
        Some(place) => Ok(Reply::Int(*place as i64)),
        None => Ok(Reply::NullBulk),
    }
}

fn numbers(alloc: Global, places: &[usize]) -> Result<Vec<Reply>, Memory>
    requires { All (λ place. place < 2 ^ 63) places.now }
    ensures { IfOk result (λ replies. map reply_of replies.items ≡ map (λ place. Int (pos place)) places.now) }
{
    let mut replies = Vec::with_capacity(alloc, places.len())?;
    for place in places {
        replies.push(Reply::Int(*place as i64))?;
    }
    Ok(replies)
}
