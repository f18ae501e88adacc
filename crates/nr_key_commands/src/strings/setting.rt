// The commands that store a string in the place of whatever a key held.
ghost use Rattle.std.specs.Prelude.{◌≡◌, ◌∷◌, [], None, Some, Ok, IfOk, IfErr, OnOk};
ghost use Rattle.std.specs.FinMap as map;
ghost use Rattle.std.specs.Option.{option_map};
ghost use Rattle.nr_model.specs.Keyspace.{live, key_of, Text};
ghost use Rattle.nr_model.specs.Commands.Reading.{fault};
ghost use Rattle.nr_model.specs.Commands.Shape.{staying};
ghost use Rattle.nr_model.specs.Commands.Keys.{held_until};
ghost use Rattle.nr_model.specs.Commands.Strings as strings;
ghost use Rattle.nr_resp.specs.Seen.{reply_of};
ghost use Rattle.nr_resp.specs.Done.{Performs};
ghost use Rattle.nr_keyspace.specs.Touched.{Touches};

use crate::strings::options::{SetOptions, set_options};
use crate::strings::stored::{owned, text_at};
use nr_blob::{Blob, Memory};
use nr_keyspace::deadline::remove;
use nr_keyspace::{Db, Keyspace, Touched, Value, is_live};
use nr_model::command::{Timing, Unit};
use nr_model::refused::{Expiring, Refused};
use nr_resp::words::{positive_expiry, three_words, two_words};
use nr_resp::{Failure, Reply};
use nr_strings::Str;

/// `SET key value [NX | XX] [GET] [EX seconds | PX milliseconds | EXAT second | PXAT millisecond | KEEPTTL]`
pub fn set<T: Touched>(
    keyspace: &mut Keyspace,
    now: u64,
    database: Db,
    words: &[Blob],
    touched: &mut T,
) -> Result<Reply, Failure>
    requires { live keyspace.old now ≡ keyspace.old }
    ensures { Performs T.after result keyspace.new database touched.old touched.new
        (staying database (strings.set now keyspace.old database words.now)) }
{
    // Without options nothing is asked of the key.
    if let [name, text] = words {
        store_text(keyspace, database, name, text, touched)?;
        return Ok(Reply::Simple("OK"));
    }
    let [name, text, others @ ..] = words else {
        return Err(Failure::Refused(Refused::Syntax));
    };
    let options = set_options(now, others)?;
    set_with(keyspace, now, database, name, text, options, touched)
}

fn set_with<T: Touched>(
    keyspace: &mut Keyspace,
    now: u64,
    database: Db,
    name: &Blob,
    text: &Blob,
    options: SetOptions,
    touched: &mut T,
) -> Result<Reply, Failure>
    requires { live keyspace.old now ≡ keyspace.old }
    ensures { let key = key_of database name.now in Performs T.after result keyspace.new database touched.old touched.new
        (staying database (strings.set_at now keyspace.old key text.now options (map.get keyspace.old key))) }
{
    let old = owned_bulk(asked(keyspace, now, database, name, options.get)?)?;
    let held = keyspace.deadline(now, database, name);
    if options.is_unmet(held) {
        return Ok(old);
    }
    let deadline = options.deadline_after(held);
    store_with(keyspace, now, database, name, text, deadline, touched)?;
    if options.get {
        return Ok(old);
    }
    Ok(Reply::Simple("OK"))
}

// What the key holds, where that is asked for.
fn asked<'k>(
    keyspace: &'k Keyspace,
    now: u64,
    database: Db,
    name: &Blob,
    is_asked: bool,
) -> Result<Option<&'k Str>, Refused>
    ensures text { IfOk result
        (λ text. strings.asked is_asked (map.get (live keyspace.now now) (key_of database name.now)) ≡ Ok (option_map (λ text. text.now) text)) }
    ensures refused { IfErr result
        (λ why. strings.asked is_asked (map.get (live keyspace.now now) (key_of database name.now)) ≡ fault why) }
{
    if !is_asked {
        return Ok(None);
    }
    text_at(keyspace, now, database, name)
}

/// `SETNX key value`
pub fn set_nx<T: Touched>(
    keyspace: &mut Keyspace,
    now: u64,
    database: Db,
    words: &[Blob],
    touched: &mut T,
) -> Result<Reply, Failure>
    requires { live keyspace.old now ≡ keyspace.old }
    ensures { Performs T.after result keyspace.new database touched.old touched.new
        (staying database (strings.set_nx keyspace.old database words.now)) }
{
    let (name, text) = two_words(words)?;
    if keyspace.get(now, database, name).is_some() {
        return Ok(Reply::Int(0));
    }
    store_text(keyspace, database, name, text, touched)?;
    Ok(Reply::Int(1))
}

/// `SETEX key seconds value`, `PSETEX key milliseconds value`
pub fn set_ex<T: Touched>(
    unit: Unit,
    keyspace: &mut Keyspace,
    now: u64,
    database: Db,
    words: &[Blob],
    touched: &mut T,
) -> Result<Reply, Failure>
    ensures { Performs T.after result keyspace.new database touched.old touched.new
        (staying database (strings.set_ex unit now keyspace.old database words.now)) }
{
    let (name, deadline, text) = set_ex_request(unit, now, words)?;
    store_until(keyspace, database, name, text, deadline, touched)?;
    Ok(Reply::Simple("OK"))
}

// The key, its deadline and its text.
fn set_ex_request<'k>(
    unit: Unit,
    now: u64,
    words: &'k [Blob],
) -> Result<(&'k Blob, i64, &'k Blob), Refused>
    ensures request { IfOk result
        (λ read. strings.set_ex_request unit now words.now ≡ Ok (record { name = read.0.now; deadline = read.1; text = read.2.now })) }
    ensures refused { IfErr result (λ why. strings.set_ex_request unit now words.now ≡ fault why) }
{
    let (name, time, text) = three_words(words)?;
    let deadline = positive_expiry(set_ex_expiring(unit), from_now(unit), now, time)?;
    Ok((name, deadline, text))
}

fn set_ex_expiring(unit: Unit) -> Expiring
    ensures { result ≡ strings.set_ex_expiring unit }
{
    match unit {
        Unit::Seconds => Expiring::SetEx,
        Unit::Milliseconds => Expiring::PSetEx,
    }
}

fn from_now(unit: Unit) -> Timing
    ensures { result ≡ strings.from_now unit }
{
    match unit {
        Unit::Seconds => Timing::InSeconds,
        Unit::Milliseconds => Timing::InMilliseconds,
    }
}

/// `GETSET key value`
pub fn get_set<T: Touched>(
    keyspace: &mut Keyspace,
    now: u64,
    database: Db,
    words: &[Blob],
    touched: &mut T,
) -> Result<Reply, Failure>
    requires { live keyspace.old now ≡ keyspace.old }
    ensures { Performs T.after result keyspace.new database touched.old touched.new
        (staying database (strings.get_set keyspace.old database words.now)) }
{
    let (name, text) = two_words(words)?;
    let old = owned_bulk(text_at(keyspace, now, database, name)?)?;
    store_text(keyspace, database, name, text, touched)?;
    Ok(old)
}

/// A text as a bulk, copied, and the null bulk for none.
pub(super) fn owned_bulk(text: Option<&Str>) -> Result<Reply, Memory>
    ensures { IfOk result (λ reply. reply_of reply ≡ strings.bulk_or_null (option_map (λ text. text.now) text.entry)) }
{
    match text {
        Some(text) => Ok(Reply::Bulk(Blob::from(text.copy()?))),
        None => Ok(Reply::NullBulk),
    }
}

// The key holds the text, whatever it held, until the deadline if there is one. It is gone at once where that isn't after now.
fn store_with<T: Touched>(
    keyspace: &mut Keyspace,
    now: u64,
    database: Db,
    name: &Blob,
    text: &Blob,
    deadline: Option<i64>,
    touched: &mut T,
) -> Result<(), Memory>
    requires { live keyspace.old now ≡ keyspace.old }
    ensures keyspace { OnOk result
        (keyspace.new ≡ held_until now keyspace.old (key_of database name.now) (record { value = Text text.now; deadline = deadline })) }
    ensures touched { OnOk result (Touches T.after touched.old touched.new (key_of database name.now ∷ [])) }
{
    if !is_live(now, deadline) {
        remove(keyspace, now, database, name);
        return touched.touch(database, name);
    }
    match deadline {
        Some(deadline) => store_until(keyspace, database, name, text, deadline, touched),
        None => store_text(keyspace, database, name, text, touched),
    }
}

/// The key holds the text until the deadline, whatever it held. The text and the name are copied once.
pub(super) fn store_until<T: Touched>(
    keyspace: &mut Keyspace,
    database: Db,
    name: &Blob,
    text: &Blob,
    deadline: i64,
    touched: &mut T,
) -> Result<(), Memory>
    ensures keyspace { OnOk result
        (keyspace.new ≡ map.insert keyspace.old (key_of database name.now) (record { value = Text text.now; deadline = Some deadline })) }
    ensures touched { OnOk result (Touches T.after touched.old touched.new (key_of database name.now ∷ [])) }
{
    let value = Value::from(owned(text)?);
    keyspace.put(database, name.copy()?, value, Some(deadline))?;
    touched.touch(database, name)
}

/// The key holds the text, whatever it held, and has no deadline. The text is copied into the block of a string that is there, where it needs one, fits and takes at least
/// half of it; the name is copied where the key is not yet there or has a deadline.
pub(super) fn store_text<T: Touched>(
    keyspace: &mut Keyspace,
    database: Db,
    name: &Blob,
    text: &Blob,
    touched: &mut T,
) -> Result<(), Memory>
    ensures keyspace { OnOk result (keyspace.new ≡ map.insert keyspace.old (key_of database name.now) (strings.plain text.now)) }
    ensures touched { OnOk result (Touches T.after touched.old touched.new (key_of database name.now ∷ [])) }
{
    if !keyspace.write_text(database, name, text.bytes())? {
        keyspace.put(database, name.copy()?, Value::from(owned(text)?), None)?;
    }
    touched.touch(database, name)
}

/// The same of a text that is owned. The name is copied where the key is not yet there or has a deadline.
pub(super) fn store<T: Touched>(
    keyspace: &mut Keyspace,
    database: Db,
    name: &Blob,
    text: Str,
    touched: &mut T,
) -> Result<(), Memory>
    ensures keyspace { OnOk result (keyspace.new ≡ map.insert keyspace.old (key_of database name.now) (strings.plain text)) }
    ensures touched { OnOk result (Touches T.after touched.old touched.new (key_of database name.now ∷ [])) }
{
    let value = Value::from(text);
    if let Some(value) = keyspace.rewrite(database, name, value) {
        keyspace.put(database, name.copy()?, value, None)?;
    }
    touched.touch(database, name)
}
