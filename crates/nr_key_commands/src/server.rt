// The commands of the section on connections and the server.
ghost use Rattle.std.specs.Prelude.{◌≡◌, ◌<◌, ◌^◌, ℕ, Ok, IfOk, OnOk, IfErr, fold, decimal};
ghost use Rattle.nr_model.specs.Replies.{Bulk};
ghost use Rattle.nr_resp.specs.Seen.{reply_of};
ghost use Rattle.nr_model.specs.Keyspace.{live, how_many_databases};
ghost use Rattle.nr_model.specs.Commands.Shape.{staying};
ghost use Rattle.nr_model.specs.Commands.Reading.{fault};
ghost use Rattle.nr_model.specs.Commands.Server as server;
ghost use Rattle.nr_resp.specs.Done.{Answers, Performs};

use crate::databases::{database_index, database_of};
use nr_blob::{Blob, Memory, int_text, read_int};
use nr_keyspace::{Db, Keyspace, Touched};
use nr_model::refused::Refused;
use nr_resp::words::{is_word, one_word, two_words};
use nr_resp::{Failure, Reply, Shown};
use std::alloc::Global;

/// `PING [message]`
pub fn ping<'k>(words: &'k [Blob]) -> Result<Shown<'k>, Failure>
    ensures { Answers result (server.ping words.now) }
{
    let Some((message, others)) = words.split_first() else {
        return Ok(Shown::Owned(Reply::Simple("PONG")));
    };
    if !others.is_empty() {
        return Err(Failure::Refused(Refused::PingArity));
    }
    Ok(Shown::Bulk(message.bytes()))
}

/// `ECHO message`
pub fn echo<'k>(words: &'k [Blob]) -> Result<Shown<'k>, Failure>
    ensures { Answers result (server.echo words.now) }
{
    let message = one_word(words)?;
    Ok(Shown::Bulk(message.bytes()))
}

/// `TIME`
pub fn time(alloc: Global, now: u64) -> Result<Reply, Memory>
    ensures { IfOk result (λ reply. reply_of reply ≡ server.time now) }
{
    let mut parts = Vec::new(alloc);
    parts.push(number(alloc, now / 1000)?)?;
    parts.push(number(alloc, now % 1000 * 1000)?)?;
    Ok(Reply::array(parts))
}

// The text of a number, as a bulk.
fn number(alloc: Global, n: u64) -> Result<Reply, Memory>
    requires { n < 2 ^ 63 }
    ensures { IfOk result (λ reply. reply_of reply ≡ Bulk (decimal n)) }
{
    let mut text = Vec::new(alloc);
    int_text(n as i64, &mut text)?;
    Ok(Reply::Bulk(Blob::from(text)))
}

/// `DBSIZE`
pub fn db_size(keyspace: &Keyspace, now: u64, database: Db) -> Reply
    ensures { reply_of result ≡ server.db_size (live keyspace.now now) database }
{
    Reply::Int(keyspace.len(now, database) as i64)
}

/// `SELECT index`
pub fn select<T: Touched>(
    keyspace: &Keyspace,
    database: &mut Db,
    words: &[Blob],
    touched: &T,
) -> Result<Reply, Failure>
    ensures { Performs T.after result keyspace.now database.new touched.now touched.now (server.select keyspace.now database.old words.now) }
{
    let index = one_word(words)?;
    *database = database_index(index)?;
    Ok(Reply::Simple("OK"))
}

/// `FLUSHDB [ASYNC | SYNC]`
pub fn flush_db<T: Touched>(
    keyspace: &mut Keyspace,
    now: u64,
    database: Db,
    words: &[Blob],
    touched: &mut T,
) -> Result<Reply, Failure>
    requires { live keyspace.old now ≡ keyspace.old }
    ensures { Performs T.after result keyspace.new database touched.old touched.new
        (staying database (server.flush_db keyspace.old database words.now)) }
{
    flush_words(words)?;
    touched.touch_all(keyspace, now, database, database)?;
    keyspace.clear(database);
    Ok(Reply::Simple("OK"))
}

// Nothing, or one word that says whether to wait: there is nothing to wait for.
fn flush_words(words: &[Blob]) -> Result<(), Refused>
    ensures ok { OnOk result (server.flush_words words.now ≡ Ok tt) }
    ensures refused { IfErr result (λ why. server.flush_words words.now ≡ fault why) }
{
    let Some((word, others)) = words.split_first() else {
        return Ok(());
    };
    if !others.is_empty() {
        return Err(Refused::Syntax);
    }
    if is_word("async", word) || is_word("sync", word) {
        return Ok(());
    }
    Err(Refused::Syntax)
}

/// `FLUSHALL [ASYNC | SYNC]`
pub fn flush_all<T: Touched>(
    keyspace: &mut Keyspace,
    now: u64,
    words: &[Blob],
    touched: &mut T,
) -> Result<Reply, Failure>
    requires { live keyspace.old now ≡ keyspace.old }
    ensures { (database : ℕ) → Performs T.after result keyspace.new database touched.old touched.new
        (staying database (server.flush_all keyspace.old words.now)) }
{
    flush_words(words)?;
    touch_everything(keyspace, now, touched)?;
    keyspace.clear_all();
    Ok(Reply::Simple("OK"))
}

fn touch_everything<T: Touched>(
    keyspace: &Keyspace,
    now: u64,
    touched: &mut T,
) -> Result<(), Memory>
    ensures { OnOk result (touched.new ≡ fold T.after touched.old (server.named_below (live keyspace.now now) how_many_databases)) }
{
    for database in Db::all() {
        touched.touch_all(keyspace, now, database, database)?;
    }
    Ok(())
}

/// `SWAPDB index index`
pub fn swap_db<T: Touched>(
    keyspace: &mut Keyspace,
    now: u64,
    words: &[Blob],
    touched: &mut T,
) -> Result<Reply, Failure>
    requires { live keyspace.old now ≡ keyspace.old }
    ensures { (database : ℕ) → Performs T.after result keyspace.new database touched.old touched.new
        (staying database (server.swap_db keyspace.old words.now)) }
{
    let (a, b) = swap_request(words)?;
    if a == b {
        return Ok(Reply::Simple("OK"));
    }
    touch_both(keyspace, now, a, b, touched)?;
    keyspace.swap(a, b);
    Ok(Reply::Simple("OK"))
}

fn swap_request(words: &[Blob]) -> Result<(Db, Db), Refused>
    ensures request { IfOk result (λ pair. server.swap_request words.now ≡ Ok (pair.0, pair.1)) }
    ensures refused { IfErr result (λ why. server.swap_request words.now ≡ fault why) }
{
    let (first, second) = two_words(words)?;
    let a = index_or(Refused::FirstDatabase, first)?;
    let b = index_or(Refused::SecondDatabase, second)?;
    Ok((database_of(a)?, database_of(b)?))
}

// An integer of 32 bits, or this refusal.
fn index_or(why: Refused, word: &Blob) -> Result<i64, Refused>
    ensures index { IfOk result (λ n. server.index_or why word.now ≡ Ok n) }
    ensures refused { IfErr result (λ other. server.index_or why word.now ≡ fault other) }
{
    let Some(index) = read_int(word.bytes()) else {
        return Err(why);
    };
    if index < i32::MIN as i64 || index > i32::MAX as i64 {
        return Err(why);
    }
    Ok(index)
}

fn touch_both<T: Touched>(
    keyspace: &Keyspace,
    now: u64,
    a: Db,
    b: Db,
    touched: &mut T,
) -> Result<(), Memory>
    ensures { OnOk result (touched.new ≡ fold T.after touched.old (server.in_both a b (live keyspace.now now))) }
{
    touched.touch_all(keyspace, now, a, a)?;
    touched.touch_all(keyspace, now, a, b)?;
    touched.touch_all(keyspace, now, b, a)?;
    touched.touch_all(keyspace, now, b, b)
}
