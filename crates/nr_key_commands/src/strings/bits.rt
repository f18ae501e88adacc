// Bits of strings.
ghost use Rattle.std.specs.Prelude.{◌≡◌, Ok, Err, IfOk, OnOk, IfErr, fold};
ghost use Rattle.std.specs.Option.{option_map};
ghost use Rattle.nr_model.specs.Keyspace.{live, key_of};
ghost use Rattle.nr_model.specs.Strings.{joined_two, joined_bits};
ghost use Rattle.nr_model.specs.Commands.Shape.{staying};
ghost use Rattle.nr_model.specs.Commands.Reading.{fault, read_then};
ghost use Rattle.nr_model.specs.Commands.Strings as strings;
ghost use Rattle.nr_strings.specs.Joins.{function_of};
ghost use Rattle.nr_resp.specs.Seen.{reply_of};
ghost use Rattle.nr_resp.specs.Done.{IsDone, Performs};
ghost use Rattle.nr_resp.specs.Failures.{IfRefused};

use crate::keys::remove;
use crate::strings::looks::bytes_of;
use crate::strings::setting::store;
use crate::strings::stored::text_at;
use nr_blob::{Blob, Memory, read_int};
use nr_keyspace::{Db, Keyspace, Touched};
use nr_model::refused::Refused;
use nr_resp::words::is_word;
use nr_resp::{Failure, Reply};
use nr_strings::{BitOperation, Str};
use std::alloc::Global;

/// The offset of a bit that a word spells, from 0 to 2^32 - 1.
pub(super) fn bit_offset(word: &Blob) -> Result<u32, Refused>
    ensures offset { IfOk result (λ offset. strings.bit_offset word.now ≡ Ok offset) }
    ensures refused { IfErr result (λ why. strings.bit_offset word.now ≡ fault why) }
{
    match read_int(word.bytes()) {
        Some(offset) => bit_offset_of(offset),
        None => Err(Refused::BitOffset),
    }
}

fn bit_offset_of(offset: i64) -> Result<u32, Refused>
    ensures offset { IfOk result (λ n. strings.bit_offset_of offset ≡ Ok n) }
    ensures refused { IfErr result (λ why. strings.bit_offset_of offset ≡ fault why) }
{
    if offset < 0 || offset > u32::MAX as i64 {
        return Err(Refused::BitOffset);
    }
    Ok(offset as u32)
}

/// The bit that a word spells, 0 or 1.
pub(super) fn bit_value(word: &Blob) -> Result<bool, Refused>
    ensures bit { IfOk result (λ bit. strings.bit_value word.now ≡ Ok bit) }
    ensures refused { IfErr result (λ why. strings.bit_value word.now ≡ fault why) }
{
    match read_int(word.bytes()) {
        Some(n) => bit_of(n),
        None => Err(Refused::BitValue),
    }
}

fn bit_of(n: i64) -> Result<bool, Refused>
    ensures bit { IfOk result (λ bit. strings.bit_of n ≡ Ok bit) }
    ensures refused { IfErr result (λ why. strings.bit_of n ≡ fault why) }
{
    if n == 0 {
        return Ok(false);
    }
    if n == 1 {
        return Ok(true);
    }
    Err(Refused::BitValue)
}

/// A bit as a reply: 1 where it is set.
pub(super) fn bit_number(is_set: bool) -> Reply
    ensures { reply_of result ≡ strings.bit_number is_set }
{
    Reply::Int(is_set as i64)
}

/// `BITOP AND | OR | XOR | NOT destkey key [key ..]`
pub fn bit_op<T: Touched>(
    alloc: Global,
    keyspace: &mut Keyspace,
    now: u64,
    database: Db,
    words: &[Blob],
    touched: &mut T,
) -> Result<Reply, Failure>
    requires { live keyspace.old now ≡ keyspace.old }
    ensures { Performs T.after result keyspace.new database touched.old touched.new
        (staying database (strings.bit_op keyspace.old database words.now)) }
{
    let [word, target, sources @ ..] = words else {
        return Err(Failure::Refused(Refused::Syntax));
    };
    if let Some(operation) = joining(word) {
        let text = joined(alloc, keyspace, now, database, operation, sources)?;
        return Ok(put_result(keyspace, now, database, target, text, touched)?);
    }
    if !is_word("not", word) {
        return Err(Failure::Refused(Refused::Syntax));
    }
    invert_into(alloc, keyspace, now, database, target, sources, touched)
}

fn joining(word: &Blob) -> Option<BitOperation>
    ensures { option_map function_of result ≡ strings.joining word.now }
{
    if is_word("and", word) {
        return Some(BitOperation::And);
    }
    if is_word("or", word) {
        return Some(BitOperation::Or);
    }
    if is_word("xor", word) {
        return Some(BitOperation::Xor);
    }
    None
}

// What keys hold, joined: the first is copied, the others are read where they lie.
fn joined(
    alloc: Global,
    keyspace: &Keyspace,
    now: u64,
    database: Db,
    operation: BitOperation,
    sources: &[Blob],
) -> Result<Str, Failure>
    ensures joined { IfOk result (λ text. read_then (strings.texts_at (live keyspace.now now) database sources.now)
        (λ texts. Ok (joined_bits (function_of operation) texts)) ≡ Ok text) }
    ensures refused { IfErr result
        (λ failure. IfRefused failure (λ error. strings.texts_at (live keyspace.now now) database sources.now ≡ Err error)) }
{
    let Some((first, others)) = sources.split_first() else {
        return Ok(Str::new(alloc));
    };
    let first = text_at(keyspace, now, database, first)?;
    let mut text = copied(alloc, first)?;
    join_others(&mut text, keyspace, now, database, operation, others)?;
    Ok(text)
}

// A text of its own, empty where there is none.
fn copied(alloc: Global, text: Option<&Str>) -> Result<Str, Memory>
    ensures { IfOk result (λ copied. copied ≡ strings.or_empty (option_map (λ text. text.now) text.entry)) }
{
    match text {
        Some(text) => text.copy(),
        None => Ok(Str::new(alloc)),
    }
}

fn join_others(
    text: &mut Str,
    keyspace: &Keyspace,
    now: u64,
    database: Db,
    operation: BitOperation,
    names: &[Blob],
) -> Result<(), Failure>
    ensures joined { OnOk result (read_then (strings.texts_at (live keyspace.now now) database names.now)
        (λ texts. Ok (fold (joined_two (function_of operation)) text.old texts)) ≡ Ok text.new) }
    ensures refused { IfErr result
        (λ failure. IfRefused failure (λ error. strings.texts_at (live keyspace.now now) database names.now ≡ Err error)) }
{
    for name in names {
        let other = text_at(keyspace, now, database, name)?;
        text.join_bits(operation, bytes_of(other))?;
    }
    Ok(())
}

fn invert_into<T: Touched>(
    alloc: Global,
    keyspace: &mut Keyspace,
    now: u64,
    database: Db,
    target: &Blob,
    sources: &[Blob],
    touched: &mut T,
) -> Result<Reply, Failure>
    requires { live keyspace.old now ≡ keyspace.old }
    ensures { Performs T.after result keyspace.new database touched.old touched.new
        (staying database (strings.inverted_at keyspace.old database target.now sources.now)) }
{
    let Some((source, others)) = sources.split_first() else {
        return Err(Failure::Refused(Refused::Syntax));
    };
    if !others.is_empty() {
        return Err(Failure::Refused(Refused::NotOfSeveral));
    }
    let held = text_at(keyspace, now, database, source)?;
    let mut text = copied(alloc, held)?;
    text.invert();
    Ok(put_result(keyspace, now, database, target, text, touched)?)
}

// The key holds the text, whatever it held, and has no deadline. An empty text is no key.
fn put_result<T: Touched>(
    keyspace: &mut Keyspace,
    now: u64,
    database: Db,
    target: &Blob,
    text: Str,
    touched: &mut T,
) -> Result<Reply, Memory>
    requires { live keyspace.old now ≡ keyspace.old }
    ensures { IfOk result (λ reply. IsDone T.after (reply_of reply) keyspace.new database touched.old touched.new
        (staying database (strings.result_at keyspace.old (key_of database target.now) text))) }
{
    if text.bytes().is_empty() {
        remove(keyspace, now, database, target, touched)?;
        return Ok(Reply::Int(0));
    }
    let len = text.bytes().len();
    store(keyspace, database, target, text, touched)?;
    Ok(Reply::Int(len as i64))
}
