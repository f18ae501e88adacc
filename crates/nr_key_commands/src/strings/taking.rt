// The commands that give a string and take its key out, or give the key another deadline.
ghost use Rattle.std.specs.Prelude.{◌≡◌, Ok, IfOk, IfErr, OnOk, OnErr, OnSome, IfNone};
ghost use Rattle.std.specs.FinMap as map;
ghost use Rattle.nr_model.specs.Keyspace.{live, key_of};
ghost use Rattle.nr_model.specs.Commands.Shape.{staying};
ghost use Rattle.nr_model.specs.Commands.Reading.{fault};
ghost use Rattle.nr_model.specs.Commands.Strings as strings;
ghost use Rattle.nr_resp.specs.Done.{Performs};
ghost use Rattle.nr_key_commands.specs.Expired.{given_to, re_expired_at, touched_by};
ghost use Rattle.nr_keyspace.specs.Touched.{Touches};

use crate::strings::options::{GetExOptions, get_ex_options};
use crate::strings::setting::owned_bulk;
use crate::strings::stored::text_at;
use nr_blob::{Blob, Memory};
use nr_keyspace::deadline::hold_until;
use nr_keyspace::{Db, Keyspace, Touched};
use nr_model::refused::Refused;
use nr_resp::words::one_word;
use nr_resp::{Failure, Reply};
use nr_strings::Str;

/// `GETDEL key`
pub fn get_del<T: Touched>(
    keyspace: &mut Keyspace,
    now: u64,
    database: Db,
    words: &[Blob],
    touched: &mut T,
) -> Result<Reply, Failure>
    requires { live keyspace.old now ≡ keyspace.old }
    ensures { Performs T.after result keyspace.new database touched.old touched.new
        (staying database (strings.get_del keyspace.old database words.now)) }
{
    let name = one_word(words)?;
    let Some(text) = take(keyspace, now, database, name)? else {
        return Ok(Reply::NullBulk);
    };
    touched.touch(database, name)?;
    Ok(Reply::Bulk(Blob::from(text)))
}

// Takes a key out, and gives its text. A key of another kind is refused, and stays.
fn take(
    keyspace: &mut Keyspace,
    now: u64,
    database: Db,
    name: &Blob,
) -> Result<Option<Str>, Refused>
    ensures text { IfOk result (λ text. strings.text_at (live keyspace.old now) database name.now ≡ Ok text) }
    ensures removed { IfOk result (λ text. OnSome text (keyspace.new ≡ map.remove keyspace.old (key_of database name.now))) }
    ensures missing { IfOk result (λ text. IfNone text (keyspace.new ≡ keyspace.old)) }
    ensures refused { IfErr result (λ why. strings.text_at (live keyspace.old now) database name.now ≡ fault why) }
    ensures unchanged { OnErr result (keyspace.new ≡ keyspace.old) }
{
    if text_at(keyspace, now, database, name)?.is_none() {
        return Ok(None);
    }
    match keyspace.remove(now, database, name) {
        Some(value) => Ok(Some(value.into_text()?)),
        None => Ok(None),
    }
}

/// `GETEX key [EX seconds | PX milliseconds | EXAT second | PXAT millisecond | PERSIST]`
pub fn get_ex<T: Touched>(
    keyspace: &mut Keyspace,
    now: u64,
    database: Db,
    words: &[Blob],
    touched: &mut T,
) -> Result<Reply, Failure>
    requires { live keyspace.old now ≡ keyspace.old }
    ensures { Performs T.after result keyspace.new database touched.old touched.new
        (staying database (strings.get_ex now keyspace.old database words.now)) }
{
    let Some((name, others)) = words.split_first() else {
        return Err(Failure::Refused(Refused::Syntax));
    };
    let options = get_ex_options(now, others)?;
    get_ex_with(keyspace, now, database, name, options, touched)
}

#[tactic(auto, using(crate::proofs::Expired::get_ex_given))]
fn get_ex_with<T: Touched>(
    keyspace: &mut Keyspace,
    now: u64,
    database: Db,
    name: &Blob,
    options: GetExOptions,
    touched: &mut T,
) -> Result<Reply, Failure>
    requires { live keyspace.old now ≡ keyspace.old }
    ensures { let key = key_of database name.now in Performs T.after result keyspace.new database touched.old touched.new
        (staying database (strings.get_ex_at now keyspace.old key options (map.get keyspace.old key))) }
{
    let text = owned_bulk(text_at(keyspace, now, database, name)?)?;
    re_expire(keyspace, now, database, name, options, touched)?;
    Ok(text)
}

// The key has the deadline that the options give it, if they give it any.
fn re_expire<T: Touched>(
    keyspace: &mut Keyspace,
    now: u64,
    database: Db,
    name: &Blob,
    options: GetExOptions,
    touched: &mut T,
) -> Result<(), Memory>
    requires { live keyspace.old now ≡ keyspace.old }
    ensures keyspace { let key = key_of database name.now in let held = map.get keyspace.old key in OnOk result
        (keyspace.new ≡ re_expired_at now keyspace.old key held (given_to options held)) }
    ensures touched { let key = key_of database name.now in OnOk result
        (Touches T.after touched.old touched.new (touched_by key (given_to options (map.get keyspace.old key)))) }
{
    let Some(held) = keyspace.deadline(now, database, name) else {
        return Ok(());
    };
    let Some(deadline) = options.deadline_given(held) else {
        return Ok(());
    };
    hold_until(keyspace, now, database, name, deadline)?;
    touched.touch(database, name)
}
