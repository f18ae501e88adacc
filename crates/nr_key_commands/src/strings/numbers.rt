// Strings that spell numbers, counted up and down in place.
ghost use Rattle.std.specs.Prelude.{◌≡◌, Ok, Err, IfOk, OnOk, IfErr, pos, negsuc};
ghost use Rattle.std.specs.Fmt.{signed_decimal};
ghost use Rattle.std.specs.FinMap as map;
ghost use Rattle.nr_model.specs.Keyspace.{live, key_of};
ghost use Rattle.nr_model.specs.Commands.Shape.{staying};
ghost use Rattle.nr_model.specs.Commands.Reading as reading;
ghost use Rattle.nr_model.specs.Commands.Reading.{fault, read_then};
ghost use Rattle.nr_model.specs.Commands.Strings as strings;
ghost use Rattle.nr_resp.specs.Done.{Performs};
ghost use Rattle.nr_resp.specs.Failures.{IfRefused};

use nr_blob::{Blob, Memory, read_int};
use nr_keyspace::{Db, Keyspace, OnString, StringEdit, Touched, Value};
use nr_model::refused::Refused;
use nr_resp::words::{integer, narrowed, one_word, two_words};
use nr_resp::{Failure, Reply};
use nr_strings::Str;
use std::alloc::Global;

/// `INCR key`
pub fn incr<T: Touched>(
    alloc: Global,
    keyspace: &mut Keyspace,
    now: u64,
    database: Db,
    words: &[Blob],
    touched: &mut T,
) -> Result<Reply, Failure>
    requires { live keyspace.old now ≡ keyspace.old }
    ensures { Performs T.after result keyspace.new database touched.old touched.new
        (staying database (strings.incr keyspace.old database (pos 1) words.now)) }
{
    let name = one_word(words)?;
    increase(alloc, keyspace, now, database, name, 1, touched)
}

/// `DECR key`
pub fn decr<T: Touched>(
    alloc: Global,
    keyspace: &mut Keyspace,
    now: u64,
    database: Db,
    words: &[Blob],
    touched: &mut T,
) -> Result<Reply, Failure>
    requires { live keyspace.old now ≡ keyspace.old }
    ensures { Performs T.after result keyspace.new database touched.old touched.new
        (staying database (strings.incr keyspace.old database (negsuc 0) words.now)) }
{
    let name = one_word(words)?;
    increase(alloc, keyspace, now, database, name, -1, touched)
}

/// `INCRBY key increment`
pub fn incr_by<T: Touched>(
    alloc: Global,
    keyspace: &mut Keyspace,
    now: u64,
    database: Db,
    words: &[Blob],
    touched: &mut T,
) -> Result<Reply, Failure>
    requires { live keyspace.old now ≡ keyspace.old }
    ensures { Performs T.after result keyspace.new database touched.old touched.new
        (staying database (strings.incr_by keyspace.old database words.now)) }
{
    let (name, by) = incr_request(words)?;
    increase(alloc, keyspace, now, database, name, by, touched)
}

fn incr_request<'k>(words: &'k [Blob]) -> Result<(&'k Blob, i64), Refused>
    ensures request { IfOk result (λ request. strings.incr_request words.now ≡ Ok (request.0.now, request.1)) }
    ensures refused { IfErr result (λ why. strings.incr_request words.now ≡ fault why) }
{
    let (name, by) = two_words(words)?;
    Ok((name, integer(by)?))
}

/// `DECRBY key decrement`
pub fn decr_by<T: Touched>(
    alloc: Global,
    keyspace: &mut Keyspace,
    now: u64,
    database: Db,
    words: &[Blob],
    touched: &mut T,
) -> Result<Reply, Failure>
    requires { live keyspace.old now ≡ keyspace.old }
    ensures { Performs T.after result keyspace.new database touched.old touched.new
        (staying database (strings.decr_by keyspace.old database words.now)) }
{
    let (name, by) = decr_request(words)?;
    increase(alloc, keyspace, now, database, name, by, touched)
}

fn decr_request<'k>(words: &'k [Blob]) -> Result<(&'k Blob, i64), Refused>
    ensures request { IfOk result (λ request. strings.decr_request words.now ≡ Ok (request.0.now, request.1)) }
    ensures refused { IfErr result (λ why. strings.decr_request words.now ≡ fault why) }
{
    let (name, by) = incr_request(words)?;
    Ok((name, opposite(by)?))
}

fn opposite(n: i64) -> Result<i64, Refused>
    ensures opposite { IfOk result (λ by. strings.opposite n ≡ Ok by) }
    ensures refused { IfErr result (λ why. strings.opposite n ≡ fault why) }
{
    match narrowed(-(n as i128)) {
        Some(by) => Ok(by),
        None => Err(Refused::DecrementOverflow),
    }
}

// Adds to the number that a key holds, in place. A missing key counts as 0.
fn increase<T: Touched>(
    alloc: Global,
    keyspace: &mut Keyspace,
    now: u64,
    database: Db,
    name: &Blob,
    by: i64,
    touched: &mut T,
) -> Result<Reply, Failure>
    requires { live keyspace.old now ≡ keyspace.old }
    ensures { Performs T.after result keyspace.new database touched.old touched.new
        (staying database (strings.increased keyspace.old database name.now by)) }
{
    let edit = Increment { by };
    let edited = keyspace.edit(now, database, name, OnString { edit })?;
    let sum = match edited {
        Some(sum) => sum?,
        None => put_sum(alloc, keyspace, database, name, by)?,
    };
    touched.touch(database, name)?;
    Ok(Reply::Int(sum))
}

// Adds to the number that a text spells.
#[derive(Drop)]
struct Increment {
    by: i64,
}

impl StringEdit for Increment {
    type Given = i64;

    ghost use Rattle.std.specs.Prelude.{◌≡◌, Ok, IfOk, IfErr};
    ghost use Rattle.std.specs.Fmt.{signed_decimal};
    ghost use Rattle.nr_model.specs.Commands.Reading as reading;
    ghost use Rattle.nr_model.specs.Commands.Reading.{fault, read_then};
    ghost use Rattle.nr_model.specs.Commands.Strings as strings;

    ghost edits = { λ edit old new given.
        let sum = read_then (reading.integer old) (λ n. strings.sum_of n edit.by) in
        IfOk given (λ n. (sum ≡ Ok n) × (new ≡ signed_decimal n)) × IfErr given (λ why. sum ≡ fault why) };

    fn edit(self, text: &mut Str) -> Result<Result<i64, Refused>, Memory> {
        match sum_in(text, self.by) {
            Ok(sum) => {
                text.write_int(sum)?;
                Ok(Ok(sum))
            }
            Err(why) => Ok(Err(why)),
        }
    }
}

// The sum of the number that a text spells and another.
fn sum_in(text: &Str, by: i64) -> Result<i64, Refused>
    ensures sum { IfOk result (λ sum. read_then (reading.integer text.now) (λ n. strings.sum_of n by) ≡ Ok sum) }
    ensures refused { IfErr result (λ why. read_then (reading.integer text.now) (λ n. strings.sum_of n by) ≡ fault why) }
{
    match read_int(text.bytes()) {
        Some(n) => sum_of(n, by),
        None => Err(Refused::NotAnInteger),
    }
}

fn sum_of(n: i64, by: i64) -> Result<i64, Refused>
    ensures sum { IfOk result (λ sum. strings.sum_of n by ≡ Ok sum) }
    ensures refused { IfErr result (λ why. strings.sum_of n by ≡ fault why) }
{
    match narrowed(n as i128 + by as i128) {
        Some(sum) => Ok(sum),
        None => Err(Refused::Overflow),
    }
}

// A missing key becomes the text of what was added to 0.
fn put_sum(
    alloc: Global,
    keyspace: &mut Keyspace,
    database: Db,
    name: &Blob,
    by: i64,
) -> Result<i64, Failure>
    ensures sum { IfOk result (λ sum. strings.sum_of (pos 0) by ≡ Ok sum) }
    ensures put { IfOk result
        (λ sum. keyspace.new ≡ map.insert keyspace.old (key_of database name.now) (strings.plain (signed_decimal sum))) }
    ensures refused { IfErr result
        (λ failure. IfRefused failure (λ error. (strings.sum_of (pos 0) by ≡ Err error) × (keyspace.new ≡ keyspace.old))) }
{
    let sum = sum_of(0, by)?;
    put_number(alloc, keyspace, database, name, sum)?;
    Ok(sum)
}

// A key that is not there becomes the text of a number.
fn put_number(
    alloc: Global,
    keyspace: &mut Keyspace,
    database: Db,
    name: &Blob,
    n: i64,
) -> Result<(), Memory>
    ensures { OnOk result (keyspace.new ≡ map.insert keyspace.old (key_of database name.now) (strings.plain (signed_decimal n))) }
{
    let mut text = Str::new(alloc);
    text.write_int(n)?;
    keyspace.put(database, name.copy()?, Value::from(text), None)
}
