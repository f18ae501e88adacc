// The commands on strings that only look.
ghost use Rattle.std.specs.Prelude.{◌≡◌, Ok, IfOk, IfErr, length, map, pos};
ghost use Rattle.std.specs.Option.{option_map};
ghost use Rattle.nr_model.specs.Keyspace.{live};
ghost use Rattle.nr_model.specs.Strings.{range, bit_at};
ghost use Rattle.nr_model.specs.Commands.Reading.{fault, read_then};
ghost use Rattle.nr_model.specs.Replies.{Int};
ghost use Rattle.nr_model.specs.Commands.Strings as strings;
ghost use Rattle.nr_resp.specs.Seen.{reply_of};
ghost use Rattle.nr_resp.specs.Done.{Answers};
ghost use Rattle.nr_resp.specs.Shown.{item_reply};

use crate::strings::bits::{bit_number, bit_offset};
use crate::strings::stored::{bulk_or_null, text_at};
use nr_blob::{Blob, Memory};
use nr_keyspace::{Db, Keyspace};
use nr_model::refused::Refused;
use nr_resp::words::{integer, is_word, one_word, three_words, two_words};
use nr_resp::{Failure, Item, Reply, Shown};
use nr_strings::Str;
use std::alloc::Global;

/// `GET key`
pub fn get<'k>(
    keyspace: &'k Keyspace,
    now: u64,
    database: Db,
    words: &'k [Blob],
) -> Result<Shown<'k>, Failure>
    ensures { Answers result (strings.get (live keyspace.now now) database words.now) }
{
    let name = one_word(words)?;
    let text = text_at(keyspace, now, database, name)?;
    Ok(bulk_or_null(text))
}

/// `STRLEN key`
pub fn strlen<'k>(
    keyspace: &'k Keyspace,
    now: u64,
    database: Db,
    words: &'k [Blob],
) -> Result<Shown<'k>, Failure>
    ensures { Answers result (strings.strlen (live keyspace.now now) database words.now) }
{
    let name = one_word(words)?;
    Ok(Shown::Owned(length_at(keyspace, now, database, name)?))
}

/// The length of the text that a key holds, as a reply: 0 where it is missing.
pub(super) fn length_at(
    keyspace: &Keyspace,
    now: u64,
    database: Db,
    name: &Blob,
) -> Result<Reply, Refused>
    ensures length { IfOk result (λ reply. read_then (strings.text_at (live keyspace.now now) database name.now)
        (λ text. Ok (Int (pos (length (strings.or_empty text))))) ≡ Ok (reply_of reply)) }
    ensures refused { IfErr result (λ why. strings.text_at (live keyspace.now now) database name.now ≡ fault why) }
{
    let text = bytes_of(text_at(keyspace, now, database, name)?);
    Ok(Reply::Int(text.len() as i64))
}

/// The bytes of a text, lent, and none of no text.
pub(super) fn bytes_of<'k>(text: Option<&'k Str>) -> &'k [u8]
    ensures { result.now ≡ strings.or_empty (option_map (λ text. text.now) text.entry) }
{
    match text {
        Some(text) => text.bytes(),
        None => &[],
    }
}

/// `GETRANGE key start end`
pub fn get_range<'k>(
    keyspace: &'k Keyspace,
    now: u64,
    database: Db,
    words: &'k [Blob],
) -> Result<Shown<'k>, Failure>
    ensures { Answers result (strings.get_range (live keyspace.now now) database words.now) }
{
    let request = range_request(words)?;
    let text = text_at(keyspace, now, database, request.name)?;
    Ok(Shown::Bulk(range_of(text, request.first, request.last)))
}

#[derive(Drop)]
struct RangeRequest<'k> {
    name: &'k Blob,
    first: i64,
    last: i64,
}

fn range_request<'k>(words: &'k [Blob]) -> Result<RangeRequest<'k>, Refused>
    ensures request { IfOk result
        (λ request. strings.range_request words.now ≡ Ok (record { name = request.name.now; first = request.first; last = request.last })) }
    ensures refused { IfErr result (λ why. strings.range_request words.now ≡ fault why) }
{
    let (name, first, last) = three_words(words)?;
    let first = integer(first)?;
    let last = integer(last)?;
    Ok(RangeRequest { name, first, last })
}

// The range of a text, lent, and none of no text.
fn range_of<'k>(text: Option<&'k Str>, first: i64, last: i64) -> &'k [u8]
    ensures { result.now ≡ range first last (strings.or_empty (option_map (λ text. text.now) text.entry)) }
{
    match text {
        Some(text) => text.range(first, last),
        None => &[],
    }
}

/// `GETBIT key offset`
pub fn get_bit<'k>(
    keyspace: &'k Keyspace,
    now: u64,
    database: Db,
    words: &'k [Blob],
) -> Result<Shown<'k>, Failure>
    ensures { Answers result (strings.get_bit (live keyspace.now now) database words.now) }
{
    let (name, offset) = get_bit_request(words)?;
    let text = text_at(keyspace, now, database, name)?;
    Ok(Shown::Owned(bit_number(bit_of(text, offset))))
}

fn get_bit_request<'k>(words: &'k [Blob]) -> Result<(&'k Blob, u32), Refused>
    ensures request { IfOk result (λ request. strings.get_bit_request words.now ≡ Ok (request.0.now, request.1)) }
    ensures refused { IfErr result (λ why. strings.get_bit_request words.now ≡ fault why) }
{
    let (name, offset) = two_words(words)?;
    Ok((name, bit_offset(offset)?))
}

// The bit of a text at an offset, not set where there is no text.
fn bit_of(text: Option<&Str>, offset: u32) -> bool
    ensures { result ≡ bit_at (strings.or_empty (option_map (λ text. text.now) text.entry)) offset }
{
    match text {
        Some(text) => text.bit(offset as u64),
        None => false,
    }
}

/// `BITCOUNT key [start end [BYTE | BIT]]`
pub fn bit_count<'k>(
    keyspace: &'k Keyspace,
    now: u64,
    database: Db,
    words: &'k [Blob],
) -> Result<Shown<'k>, Failure>
    ensures { Answers result (strings.bit_count (live keyspace.now now) database words.now) }
{
    let (name, range) = count_request(words)?;
    let text = text_at(keyspace, now, database, name)?;
    Ok(Shown::Owned(Reply::Int(count_of(text, range)?)))
}

// What is counted: from one byte or bit to another.
#[derive(Clone, Copy)]
struct CountRange {
    first: i64,
    last: i64,
    bits: bool,
}

fn count_request<'k>(words: &'k [Blob]) -> Result<(&'k Blob, CountRange), Refused>
    ensures request { IfOk result (λ request. strings.count_request words.now
        ≡ Ok (request.0.now, record { first = request.1.first; last = request.1.last; bits = request.1.bits })) }
    ensures refused { IfErr result (λ why. strings.count_request words.now ≡ fault why) }
{
    let Some((name, words)) = words.split_first() else {
        return Err(Refused::Syntax);
    };
    Ok((name, count_range(words)?))
}

fn count_range(words: &[Blob]) -> Result<CountRange, Refused>
    ensures range { IfOk result
        (λ range. strings.count_range words.now ≡ Ok (record { first = range.first; last = range.last; bits = range.bits })) }
    ensures refused { IfErr result (λ why. strings.count_range words.now ≡ fault why) }
{
    let Some((first, words)) = words.split_first() else {
        return Ok(CountRange {
            first: 0,
            last: -1,
            bits: false,
        });
    };
    count_to(integer(first)?, words)
}

fn count_to(first: i64, words: &[Blob]) -> Result<CountRange, Refused>
    ensures range { IfOk result
        (λ range. strings.count_to first words.now ≡ Ok (record { first = range.first; last = range.last; bits = range.bits })) }
    ensures refused { IfErr result (λ why. strings.count_to first words.now ≡ fault why) }
{
    let Some((last, words)) = words.split_first() else {
        return Err(Refused::Syntax);
    };
    let last = integer(last)?;
    let bits = counts_bits(words)?;
    Ok(CountRange { first, last, bits })
}

fn counts_bits(words: &[Blob]) -> Result<bool, Refused>
    ensures bits { IfOk result (λ bits. strings.counts_bits words.now ≡ Ok bits) }
    ensures refused { IfErr result (λ why. strings.counts_bits words.now ≡ fault why) }
{
    let Some((unit, others)) = words.split_first() else {
        return Ok(false);
    };
    if !others.is_empty() {
        return Err(Refused::Syntax);
    }
    if is_word("bit", unit) {
        return Ok(true);
    }
    if is_word("byte", unit) {
        return Ok(false);
    }
    Err(Refused::Syntax)
}

// How many bits of a text are set in a range, none where there is no text.
fn count_of(text: Option<&Str>, range: CountRange) -> Result<i64, Memory>
    ensures { IfOk result (λ n. n ≡ pos (strings.counted
        (record { first = range.first; last = range.last; bits = range.bits }) (strings.or_empty (option_map (λ text. text.now) text.entry)))) }
{
    match text {
        Some(text) => counted(text, range),
        None => Ok(0),
    }
}

fn counted(text: &Str, range: CountRange) -> Result<i64, Memory>
    ensures { IfOk result (λ n. n ≡ pos (strings.counted (record { first = range.first; last = range.last; bits = range.bits }) text.now)) }
{
    // Its bits could not be numbered. No memory holds so many bytes.
    if let Some(refused) = Memory::at_last((text.len() as u64).saturating_mul(16)) {
        return Err(refused);
    }
    if range.bits {
        return Ok(text.count_bits(range.first, range.last) as i64);
    }
    Ok(text.count_bytes(range.first, range.last) as i64)
}

/// `MGET key [key ..]`
pub fn mget<'k>(
    alloc: Global,
    keyspace: &'k Keyspace,
    now: u64,
    database: Db,
    names: &[Blob],
) -> Result<Shown<'k>, Failure>
    ensures { Answers result (strings.mget (live keyspace.now now) database names.now) }
{
    let items = items_at(alloc, keyspace, now, database, names)?;
    Ok(Shown::Items(items))
}

fn items_at<'k>(
    alloc: Global,
    keyspace: &'k Keyspace,
    now: u64,
    database: Db,
    names: &[Blob],
) -> Result<Vec<Item<'k>>, Memory>
    ensures { IfOk result
        (λ items. map item_reply items.items
        ≡ map (λ name. strings.bulk_or_nothing (strings.text_at (live keyspace.now now) database name)) names.now) }
{
    let mut items = Vec::with_capacity(alloc, names.len())?;
    for name in names {
        items.push(item_at(keyspace, now, database, name))?;
    }
    Ok(items)
}

// The text of a key, lent, and the null bulk where there is none.
fn item_at<'k>(keyspace: &'k Keyspace, now: u64, database: Db, name: &Blob) -> Item<'k>
    ensures { item_reply result ≡ strings.bulk_or_nothing (strings.text_at (live keyspace.now now) database name.now) }
{
    match text_at(keyspace, now, database, name) {
        Ok(text) => item_of(text),
        Err(_) => Item::Null,
    }
}

fn item_of<'k>(text: Option<&'k Str>) -> Item<'k>
    ensures { item_reply result ≡ strings.bulk_or_null (option_map (λ text. text.now) text.entry) }
{
    match text {
        Some(text) => Item::Bulk(text.bytes()),
        None => Item::Null,
    }
}
