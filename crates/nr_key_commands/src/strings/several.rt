// The commands that store several strings at once.
ghost use Rattle.std.specs.Prelude.{◌≡◌, ◌<◌, ◌∷◌, [], Some, None, cond, length, map, IfSome, IfNone, OnOk};
ghost use Rattle.std.specs.List.{list_any};
ghost use Rattle.std.specs.FinMap as finmap;
ghost use Rattle.nr_model.specs.Keyspace.{live, key_of};
ghost use Rattle.nr_model.specs.Commands.Shape.{staying};
ghost use Rattle.nr_model.specs.Commands.Strings as strings;
ghost use Rattle.nr_resp.specs.Done.{Performs};
ghost use Rattle.nr_key_commands.specs.Pairs.{couples};
ghost use Rattle.nr_keyspace.specs.Touched.{Touches};

use crate::strings::setting::store_text;
use nr_blob::{Blob, Memory};
use nr_keyspace::{Db, Keyspace, Touched};
use nr_model::refused::Refused;
use nr_resp::{Failure, Reply};

/// `MSET key value [key value ..]`
pub fn mset<T: Touched>(
    keyspace: &mut Keyspace,
    database: Db,
    words: &[Blob],
    touched: &mut T,
) -> Result<Reply, Failure>
    ensures { Performs T.after result keyspace.new database touched.old touched.new
        (staying database (strings.mset keyspace.old database words.now)) }
{
    if !are_pairs(words) {
        return Err(Failure::Refused(Refused::MSetArity));
    }
    store_all(keyspace, database, words, touched)?;
    Ok(Reply::Simple("OK"))
}

/// `MSETNX key value [key value ..]`
pub fn mset_nx<T: Touched>(
    keyspace: &mut Keyspace,
    now: u64,
    database: Db,
    words: &[Blob],
    touched: &mut T,
) -> Result<Reply, Failure>
    requires { live keyspace.old now ≡ keyspace.old }
    ensures { Performs T.after result keyspace.new database touched.old touched.new
        (staying database (strings.mset_nx keyspace.old database words.now)) }
{
    if !are_pairs(words) {
        return Err(Failure::Refused(Refused::MSetNxArity));
    }
    if any_is_there(keyspace, now, database, words) {
        return Ok(Reply::Int(0));
    }
    store_all(keyspace, database, words, touched)?;
    Ok(Reply::Int(1))
}

// Whether each key has its text.
#[tactic(auto, using(crate::proofs::Couples::pairs_couples))]
fn are_pairs(words: &[Blob]) -> bool
    ensures { strings.pairs words.now ≡ cond result (Some (couples words.now)) None }
{
    words.len() % 2 == 0
}

// A key, its text, and the words behind them.
fn first_pair<'k>(words: &'k [Blob]) -> Option<(&'k Blob, &'k Blob, &'k [Blob])>
    ensures first { IfSome result (λ first. couples words.now ≡ (first.0.now, first.1.now) ∷ couples first.2.now) }
    ensures shorter { IfSome result (λ first. length first.2.now < length words.now) }
    ensures none { IfNone result (couples words.now ≡ []) }
{
    let [name, text, others @ ..] = words else {
        return None;
    };
    Some((name, text, others))
}

// Whether a key of the pairs is there.
fn any_is_there(keyspace: &Keyspace, now: u64, database: Db, words: &[Blob]) -> bool
    requires { live keyspace.now now ≡ keyspace.now }
    ensures { result ≡ list_any (λ pair. finmap.contains_key keyspace.now (key_of database pair.0)) (couples words.now) }
{
    let mut left = words;
    while let Some((name, _, others)) = first_pair(left) {
        if keyspace.get(now, database, name).is_some() {
            return true;
        }
        left = others;
    }
    false
}

// Each key holds its text, whatever it held, and has no deadline.
fn store_all<T: Touched>(
    keyspace: &mut Keyspace,
    database: Db,
    words: &[Blob],
    touched: &mut T,
) -> Result<(), Memory>
    ensures keyspace { OnOk result (keyspace.new ≡ strings.with_pairs keyspace.old database (couples words.now)) }
    ensures touched { OnOk result (Touches T.after touched.old touched.new (map (λ pair. key_of database pair.0) (couples words.now))) }
{
    let mut left = words;
    while let Some((name, text, others)) = first_pair(left) {
        store_text(keyspace, database, name, text, touched)?;
        left = others;
    }
    Ok(())
}
