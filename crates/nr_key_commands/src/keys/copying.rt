// COPY, and its options.
ghost use Rattle.std.specs.Prelude.{◌≡◌, ◌<◌, ◌≤◌, ◌∷◌, length, true, false, not, ◌&&◌, Ok, IfOk, IfErr};
ghost use Rattle.std.specs.FinMap as map;
ghost use Rattle.nr_model.specs.Keyspace.{live, key_of};
ghost use Rattle.nr_model.specs.Commands.Shape.{staying};
ghost use Rattle.nr_model.specs.Commands.Reading.{fault, read_options};
ghost use Rattle.nr_model.specs.Commands.Keys as keys;
ghost use Rattle.nr_resp.specs.Done.{Performs};

use crate::databases::database_index;
use crate::keys::stored::{copy_of, give};
use nr_blob::Blob;
use nr_keyspace::{Db, Keyspace, Touched};
use nr_model::refused::Refused;
use nr_resp::words::is_word;
use nr_resp::{Failure, Reply};
use std::alloc::Global;
use std::marker::Model;

// The words behind the two keys, DB index and REPLACE, in any order.
#[derive(Drop)]
struct CopyOptions {
    // Where the copy is put.
    database: Db,
    // Whether it takes the place of what is there.
    replace: bool,
}

impl Model for CopyOptions {
    ghost use Rattle.nr_model.specs.Commands.Keys as keys;

    ghost Value = { keys.CopyOptions };

    ghost view = { λ options. record { database = options.database; replace = options.replace } };
}

/// `COPY source destination [DB index] [REPLACE]`
pub fn copy<T: Touched>(
    alloc: Global,
    keyspace: &mut Keyspace,
    now: u64,
    database: Db,
    words: &[Blob],
    touched: &mut T,
) -> Result<Reply, Failure>
    requires { live keyspace.old now ≡ keyspace.old }
    ensures { Performs T.after result keyspace.new database touched.old touched.new
        (staying database (keys.copy keyspace.old database words.now)) }
{
    let [source, target, words @ ..] = words else {
        return Err(Failure::Refused(Refused::Syntax));
    };
    let options = copy_options(database, words)?;
    if database == options.database && source == target {
        return Err(Failure::Refused(Refused::SameObject));
    }
    copy_key(
        alloc, keyspace, now, database, source, target, options, touched,
    )
}

// Puts what a key of the database holds under another key once more.
fn copy_key<T: Touched>(
    alloc: Global,
    keyspace: &mut Keyspace,
    now: u64,
    database: Db,
    source: &Blob,
    target: &Blob,
    options: CopyOptions,
    touched: &mut T,
) -> Result<Reply, Failure>
    requires { live keyspace.old now ≡ keyspace.old }
    ensures { Performs T.after result keyspace.new database touched.old touched.new
        (staying database (keys.copied keyspace.old options.replace (key_of options.database target.now)
        (map.get keyspace.old (key_of database source.now)))) }
{
    if is_kept(keyspace, now, target, &options) {
        return Ok(Reply::Int(0));
    }
    let Some(held) = copy_of(alloc, keyspace, now, database, source)? else {
        return Ok(Reply::Int(0));
    };
    give(keyspace, options.database, target, held)?;
    touched.touch(options.database, target)?;
    Ok(Reply::Int(1))
}

// Whether something is there whose place the copy may not take.
fn is_kept(keyspace: &Keyspace, now: u64, target: &Blob, options: &CopyOptions) -> bool
    ensures { result ≡ not options.now.replace && map.contains_key (live keyspace.now now) (key_of options.now.database target.now) }
{
    !options.replace && keyspace.get(now, options.database, target).is_some()
}

// The options that the words say.
fn copy_options(database: Db, words: &[Blob]) -> Result<CopyOptions, Refused>
    ensures options { IfOk result (λ options. read_options keys.copy_option (record { database = database; replace = false }) words.now ≡ Ok options) }
    ensures refused { IfErr result (λ why. read_options keys.copy_option (record { database = database; replace = false }) words.now ≡ fault why) }
{
    let mut options = CopyOptions {
        database,
        replace: false,
    };
    let mut left = words;
    while let Some((word, behind)) = left.split_first() {
        left = read_option(&mut options, word, behind)?;
    }
    Ok(options)
}

// Reads one option, and gives the words behind it.
fn read_option<'k>(
    options: &mut CopyOptions,
    word: &Blob,
    behind: &'k [Blob],
) -> Result<&'k [Blob], Refused>
    ensures read { IfOk result (λ left. read_options keys.copy_option options.old (word.now ∷ behind.now) ≡ read_options keys.copy_option options.new left.now) }
    ensures refused { IfErr result (λ why. read_options keys.copy_option options.old (word.now ∷ behind.now) ≡ fault why) }
    ensures fewer { IfOk result (λ left. length left.now ≤ length behind.now) }
{
    if is_word("replace", word) {
        options.replace = true;
        return Ok(behind);
    }
    if !is_word("db", word) {
        return Err(Refused::Syntax);
    }
    let Some((index, behind)) = behind.split_first() else {
        return Err(Refused::Syntax);
    };
    options.database = database_index(index)?;
    Ok(behind)
}
