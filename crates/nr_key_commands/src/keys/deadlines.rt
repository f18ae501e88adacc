// The commands that give a key another deadline, or none.
ghost use Rattle.std.specs.Prelude.{◌≡◌};
ghost use Rattle.std.specs.FinMap as map;
ghost use Rattle.nr_model.specs.Keyspace.{live, key_of};
ghost use Rattle.nr_model.specs.Commands.Shape.{staying};
ghost use Rattle.nr_model.specs.Commands.Keys as keys;
ghost use Rattle.nr_resp.specs.Done.{Performs};

use crate::keys::conditions::{are_met, conditions_from};
use nr_blob::Blob;
use nr_keyspace::deadline::hold_until;
use nr_keyspace::{Db, Keyspace, Touched};
use nr_model::command::Timing;
use nr_model::refused::{Expiring, Refused};
use nr_resp::words::{expiry, one_word, unsupported_option};
use nr_resp::{Conditions, Failure, Reply};
use std::alloc::Global;

/// `EXPIRE key seconds [NX | XX | GT | LT]`, `PEXPIRE`, `EXPIREAT`, `PEXPIREAT`
pub fn expire<T: Touched>(
    alloc: Global,
    timing: Timing,
    keyspace: &mut Keyspace,
    now: u64,
    database: Db,
    words: &[Blob],
    touched: &mut T,
) -> Result<Reply, Failure>
    requires { live keyspace.old now ≡ keyspace.old }
    ensures { Performs T.after result keyspace.new database touched.old touched.new
        (staying database (keys.expire timing now keyspace.old database words.now)) }
{
    let Some((name, words)) = words.split_first() else {
        return Err(Failure::Refused(Refused::Syntax));
    };
    let Some((number, words)) = words.split_first() else {
        return Err(Failure::Refused(Refused::Syntax));
    };
    let deadline = expiry(expiring_of(timing), timing, now, number)?;
    match conditions_from(words) {
        Ok(conditions) => {
            let conditions = conditions.compatible()?;
            redate(keyspace, now, database, name, deadline, conditions, touched)
        }
        Err(word) => Ok(unsupported_option(alloc, word)?),
    }
}

fn expiring_of(timing: Timing) -> Expiring
    ensures { result ≡ keys.expiring_of timing }
{
    match timing {
        Timing::InSeconds => Expiring::Expire,
        Timing::InMilliseconds => Expiring::PExpire,
        Timing::AtSecond => Expiring::ExpireAt,
        Timing::AtMillisecond => Expiring::PExpireAt,
    }
}

// Gives a key another deadline where the conditions hold of the one that it has.
fn redate<T: Touched>(
    keyspace: &mut Keyspace,
    now: u64,
    database: Db,
    name: &Blob,
    deadline: i64,
    conditions: Conditions,
    touched: &mut T,
) -> Result<Reply, Failure>
    requires { live keyspace.old now ≡ keyspace.old }
    ensures { Performs T.after result keyspace.new database touched.old touched.new
        (staying database (keys.redated now keyspace.old (key_of database name.now) conditions deadline (map.get keyspace.old (key_of database name.now)))) }
{
    let Some(before) = keyspace.deadline(now, database, name) else {
        return Ok(Reply::Int(0));
    };
    if !are_met(conditions, before, deadline) {
        return Ok(Reply::Int(0));
    }
    hold_until(keyspace, now, database, name, Some(deadline))?;
    touched.touch(database, name)?;
    Ok(Reply::Int(1))
}

/// `PERSIST key`
pub fn persist<T: Touched>(
    keyspace: &mut Keyspace,
    now: u64,
    database: Db,
    words: &[Blob],
    touched: &mut T,
) -> Result<Reply, Failure>
    requires { live keyspace.old now ≡ keyspace.old }
    ensures { Performs T.after result keyspace.new database touched.old touched.new
        (staying database (keys.persist keyspace.old database words.now)) }
{
    let name = one_word(words)?;
    let Some(Some(_)) = keyspace.deadline(now, database, name) else {
        return Ok(Reply::Int(0));
    };
    keyspace.set_deadline(now, database, name, None)?;
    touched.touch(database, name)?;
    Ok(Reply::Int(1))
}
