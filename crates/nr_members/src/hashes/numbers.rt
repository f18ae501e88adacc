// Values of fields that spell numbers, counted up and down.
ghost use Rattle.std.specs.Prelude.{◌≡◌, Ok, IfOk, IfErr};
ghost use Rattle.std.specs.Option.{option_map};
ghost use Rattle.std.specs.Fmt.{signed_decimal};
ghost use Rattle.nr_model.specs.Keyspace.{live};
ghost use Rattle.nr_model.specs.Commands.Shape.{staying};
ghost use Rattle.nr_model.specs.Numbers.{int_value};
ghost use Rattle.nr_model.specs.Commands.Reading as reading;
ghost use Rattle.nr_model.specs.Commands.Reading.{fault};
ghost use Rattle.nr_model.specs.declared.refused.Refused.TheVariants as refusals;
ghost use Rattle.nr_model.specs.Commands.Strings as strings;
ghost use Rattle.nr_model.specs.Commands.Hashes as hashes;
ghost use Rattle.nr_resp.specs.Done.{Performs};

use crate::hashes::edited::edit_at;
use nr_blob::{Blob, Memory, int_text, read_int};
use nr_hashes::Hash;
use nr_keyspace::{Db, HashEdit, Keyspace, Touched};
use nr_model::refused::Refused;
use nr_resp::words::{integer, narrowed, three_words};
use nr_resp::{Failure, Reply};
use std::alloc::Global;
use std::hash::RandomState;

/// `HINCRBY key field increment`. It looks at one block of the hash.
pub fn hincr_by<T: Touched>(
    alloc: Global,
    keyspace: &mut Keyspace,
    now: u64,
    database: Db,
    words: &[Blob],
    touched: &mut T,
) -> Result<Reply, Failure>
    requires { live keyspace.old now ≡ keyspace.old }
    ensures { Performs T.after result keyspace.new database touched.old touched.new
        (staying database (hashes.hincr_by keyspace.old database words.now)) }
{
    let (name, field, by) = increment_request(words)?;
    let keys = keyspace.keys();
    let increment = Increment {
        alloc,
        keys,
        field,
        by,
    };
    let sum = edit_at(alloc, keyspace, now, database, name, increment)?;
    touched.touch(database, name)?;
    Ok(Reply::Int(sum))
}

// The key, the field, and what is added to it.
fn increment_request<'k>(words: &'k [Blob]) -> Result<(&'k Blob, &'k Blob, i64), Refused>
    ensures request { IfOk result
        (λ request. hashes.increment_request words.now ≡ Ok (record { name = request.0.now; field = request.1.now; by = request.2 })) }
    ensures refused { IfErr result (λ why. hashes.increment_request words.now ≡ fault why) }
{
    let (name, field, by) = three_words(words)?;
    Ok((name, field, integer(by)?))
}

// Adds to the number that the value of a field spells.
#[derive(Clone, Copy)]
struct Increment<'k> {
    alloc: Global,
    keys: RandomState,
    field: &'k Blob,
    by: i64,
}

impl<'k> HashEdit for Increment<'k> {
    // The sum.
    type Given = i64;

    ghost use Rattle.std.specs.Prelude.{◌≡◌, Ok, IfOk, IfErr};
    ghost use Rattle.std.specs.Fmt.{signed_decimal};
    ghost use Rattle.std.specs.FinMap as map;
    ghost use Rattle.nr_model.specs.Commands.Reading.{fault};
    ghost use Rattle.nr_model.specs.Commands.Hashes as hashes;

    ghost edits = { λ edit old new given.
        let sum = hashes.sum_in old edit.field.now edit.by in
        IfOk given (λ n. (sum ≡ Ok n) × (new ≡ map.insert old edit.field.now (signed_decimal n))) × IfErr given (λ why. sum ≡ fault why) };

    fn edit(self, hash: &mut Hash) -> Result<Result<i64, Refused>, Memory> {
        match sum_in(hash, self.field, self.by) {
            Ok(sum) => {
                let text = number(self.alloc, sum)?;
                hash.insert(self.keys, self.field, text.bytes())?;
                Ok(Ok(sum))
            }
            Err(why) => Ok(Err(why)),
        }
    }
}

// The sum of the number that the value of a field spells and another.
fn sum_in(hash: &Hash, field: &Blob, by: i64) -> Result<i64, Refused>
    ensures sum { IfOk result (λ sum. hashes.sum_in hash.now field.now by ≡ Ok sum) }
    ensures refused { IfErr result (λ why. hashes.sum_in hash.now field.now by ≡ fault why) }
{
    let n = number_of(hash.get(field))?;
    sum_of(n, by)
}

// The number that a value spells, 0 of no value.
fn number_of(value: Option<&[u8]>) -> Result<i64, Refused>
    ensures number { IfOk result (λ n. hashes.number_of (option_map (λ value. value.now) value.entry) ≡ Ok n) }
    ensures refused { IfErr result (λ why. hashes.number_of (option_map (λ value. value.now) value.entry) ≡ fault why) }
{
    match value {
        Some(value) => integer_of(value),
        None => Ok(0),
    }
}

fn integer_of(value: &[u8]) -> Result<i64, Refused>
    ensures number { IfOk result (λ n. reading.integer_or refusals.HashNotAnInteger (int_value value.now) ≡ Ok n) }
    ensures refused { IfErr result (λ why. reading.integer_or refusals.HashNotAnInteger (int_value value.now) ≡ fault why) }
{
    match read_int(value) {
        Some(n) => Ok(n),
        None => Err(Refused::HashNotAnInteger),
    }
}

fn sum_of(n: i64, by: i64) -> Result<i64, Refused>
    ensures sum { IfOk result (λ sum. strings.sum_of n by ≡ Ok sum) }
    ensures refused { IfErr result (λ why. strings.sum_of n by ≡ fault why) }
{
    match narrowed(n as i128 + by as i128) {
        Some(sum) => Ok(sum),
        None => Err(Refused::Overflow),
    }
}

// The text of a number.
fn number(alloc: Global, n: i64) -> Result<Blob, Memory>
    ensures { IfOk result (λ text. text ≡ signed_decimal n) }
{
    let mut text = Vec::new(alloc);
    int_text(n, &mut text)?;
    Ok(Blob::from(text))
}
