// The commands that set fields of a hash.
ghost use Rattle.std.specs.Prelude.{◌≡◌, ◌∷◌, Ok, IfOk, OnOk, IfErr, IfSome, IfNone};
ghost use Rattle.nr_model.specs.Keyspace.{live};
ghost use Rattle.nr_model.specs.Hashes.{Hash};
ghost use Rattle.nr_model.specs.Commands.Shape.{staying};
ghost use Rattle.nr_model.specs.Commands.Reading.{fault};
ghost use Rattle.nr_model.specs.Commands.Hashes as hashes;
ghost use Rattle.nr_resp.specs.Seen.{reply_of};
ghost use Rattle.nr_resp.specs.Done.{Performs};
ghost use Rattle.nr_members.specs.HashesSet.{odd_words, set_reply};

use crate::hashes::edited::edit_at;
use crate::hashes::stored::{has_field, hash_at};
use nr_blob::{Blob, Memory};
use nr_hashes::Hash;
use nr_keyspace::{Db, HashEdit, Keyspace, Touched};
use nr_model::refused::Refused;
use nr_resp::words::three_words;
use nr_resp::{Failure, Reply};
use std::alloc::Global;
use std::hash::RandomState;

// The two commands that set fields with their values.
#[derive(Clone, Copy)]
enum Setting {
    // HSET.
    Counted,
    // HMSET.
    Plain,
}

/// `HSET key field value [field value ..]`. One look-up of the key where it is there, and each field logarithmic in the fields.
pub fn hset<T: Touched>(
    alloc: Global,
    keyspace: &mut Keyspace,
    now: u64,
    database: Db,
    words: &[Blob],
    touched: &mut T,
) -> Result<Reply, Failure>
    requires { live keyspace.old now ≡ keyspace.old }
    ensures { Performs T.after result keyspace.new database touched.old touched.new
        (staying database (hashes.hset keyspace.old database words.now)) }
{
    set_fields(
        Setting::Counted,
        alloc,
        keyspace,
        now,
        database,
        words,
        touched,
    )
}

/// `HMSET key field value [field value ..]`. Costs what HSET does.
pub fn hmset<T: Touched>(
    alloc: Global,
    keyspace: &mut Keyspace,
    now: u64,
    database: Db,
    words: &[Blob],
    touched: &mut T,
) -> Result<Reply, Failure>
    requires { live keyspace.old now ≡ keyspace.old }
    ensures { Performs T.after result keyspace.new database touched.old touched.new
        (staying database (hashes.hmset keyspace.old database words.now)) }
{
    set_fields(
        Setting::Plain,
        alloc,
        keyspace,
        now,
        database,
        words,
        touched,
    )
}

fn set_fields<T: Touched>(
    setting: Setting,
    alloc: Global,
    keyspace: &mut Keyspace,
    now: u64,
    database: Db,
    words: &[Blob],
    touched: &mut T,
) -> Result<Reply, Failure>
    requires { live keyspace.old now ≡ keyspace.old }
    ensures { Performs T.after result keyspace.new database touched.old touched.new
        (staying database (hashes.set_fields (odd_words setting) (set_reply setting) keyspace.old database words.now)) }
{
    let (name, words) = set_request(odd_words(setting), words)?;
    let keys = keyspace.keys();
    let pairs = SetPairs { keys, words };
    let added = edit_at(alloc, keyspace, now, database, name, pairs)?;
    touched.touch(database, name)?;
    Ok(set_reply(setting, added))
}

// Why an odd number of words is refused.
fn odd_words(setting: Setting) -> Refused
    ensures { result ≡ odd_words setting }
{
    match setting {
        Setting::Counted => Refused::HSetArity,
        Setting::Plain => Refused::HMSetArity,
    }
}

// The reply where so many fields are new.
fn set_reply(setting: Setting, added: i64) -> Reply
    ensures { reply_of result ≡ set_reply setting added }
{
    match setting {
        Setting::Counted => Reply::Int(added),
        Setting::Plain => Reply::Simple("OK"),
    }
}

// The key, and fields with their values.
fn set_request(odd: Refused, words: &[Blob]) -> Result<(&Blob, &[Blob]), Refused>
    ensures request { IfOk result (λ request. hashes.set_request odd words.now ≡ Ok (record { name = request.0.now; pairs = request.1.now })) }
    ensures refused { IfErr result (λ why. hashes.set_request odd words.now ≡ fault why) }
{
    let Some((name, pairs)) = words.split_first() else {
        return Err(Refused::Syntax);
    };
    if pairs.len() % 2 != 0 {
        return Err(odd);
    }
    Ok((name, pairs))
}

// Fields that are set, each in front of its value.
#[derive(Clone, Copy)]
struct SetPairs<'k> {
    keys: RandomState,
    words: &'k [Blob],
}

impl<'k> HashEdit for SetPairs<'k> {
    // How many of them are new.
    type Given = i64;

    ghost use Rattle.std.specs.Prelude.{◌≡◌, ◌-ℤ◌, Ok, pos};
    ghost use Rattle.std.specs.FinMap as map;
    ghost use Rattle.nr_model.specs.Commands.Hashes as hashes;

    ghost edits = { λ edit old new given. (given ≡ Ok (pos (map.len new) -ℤ pos (map.len old))) × (new ≡ hashes.with_fields old edit.words.now) };

    fn edit(self, hash: &mut Hash) -> Result<Result<i64, Refused>, Memory> {
        let before = hash.len();
        insert_all(hash, self.keys, self.words)?;
        Ok(Ok(hash.len() as i64 - before as i64))
    }
}

// Each field has its value, whatever it had. Where memory runs out a front of them has.
fn insert_all(hash: &mut Hash, keys: RandomState, words: &[Blob]) -> Result<(), Memory>
    ensures { OnOk result (hash.new ≡ hashes.with_fields hash.old words.now) }
{
    let mut left = words;
    while let Some((field, value, others)) = first_pair(left) {
        hash.insert(keys, field, value.bytes())?;
        left = others;
    }
    Ok(())
}

// A field, its value, and the words behind them.
fn first_pair(words: &[Blob]) -> Option<(&Blob, &Blob, &[Blob])>
    ensures first { IfSome result (λ first. words.now ≡ first.0.now ∷ first.1.now ∷ first.2.now) }
    ensures none { IfNone result ((hash : Hash) → hashes.with_fields hash words.now ≡ hash) }
{
    let [field, value, others @ ..] = words else {
        return None;
    };
    Some((field, value, others))
}

/// `HSETNX key field value`. It looks at one block of the hash.
pub fn hset_nx<T: Touched>(
    alloc: Global,
    keyspace: &mut Keyspace,
    now: u64,
    database: Db,
    words: &[Blob],
    touched: &mut T,
) -> Result<Reply, Failure>
    requires { live keyspace.old now ≡ keyspace.old }
    ensures { Performs T.after result keyspace.new database touched.old touched.new
        (staying database (hashes.hset_nx keyspace.old database words.now)) }
{
    let (name, field, value) = three_words(words)?;
    if has_field(hash_at(keyspace, now, database, name)?, field) {
        return Ok(Reply::Int(0));
    }
    let keys = keyspace.keys();
    let pair = Pair { keys, field, value };
    edit_at(alloc, keyspace, now, database, name, pair)?;
    touched.touch(database, name)?;
    Ok(Reply::Int(1))
}

// A field that is set to a value.
#[derive(Clone, Copy)]
struct Pair<'k> {
    keys: RandomState,
    field: &'k Blob,
    value: &'k Blob,
}

impl<'k> HashEdit for Pair<'k> {
    type Given = ();

    ghost use Rattle.std.specs.Prelude.{◌≡◌, Ok};
    ghost use Rattle.std.specs.FinMap as map;

    ghost edits = { λ edit old new given. (given ≡ Ok tt) × (new ≡ map.insert old edit.field.now edit.value.now) };

    fn edit(self, hash: &mut Hash) -> Result<Result<(), Refused>, Memory> {
        hash.insert(self.keys, self.field, self.value.bytes())?;
        Ok(Ok(()))
    }
}
