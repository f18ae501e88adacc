// What a key holds, as a set.
ghost use Rattle.std.specs.Prelude.{◌≡◌, ◌<◌, ◌^◌, Ok, IfOk, IfErr};
ghost use Rattle.std.specs.FinSet as finset;
ghost use Rattle.std.specs.Option.{option_map};
ghost use Rattle.std.specs.Map.Iter.{deref};
ghost use Rattle.nr_model.specs.Keyspace.{live};
ghost use Rattle.nr_model.specs.Commands.Held.{members_at};
ghost use Rattle.nr_model.specs.Commands.Reading.{fault};
ghost use Rattle.nr_model.specs.Commands.Sets as sets;
ghost use Rattle.nr_resp.specs.Seen.{reply_of};
ghost use Rattle.nr_sets.specs.Lent.{lent};

use nr_blob::Blob;
use nr_keyspace::{Db, Keyspace};
use nr_model::refused::Refused;
use nr_resp::Reply;
use nr_sets::Set;

/// The set that a key holds. A key of another kind is refused.
pub(super) fn set_at<'k>(
    keyspace: &'k Keyspace,
    now: u64,
    database: Db,
    name: &Blob,
) -> Result<Option<&'k Set>, Refused>
    ensures held { IfOk result (λ held. members_at (live keyspace.now now) database name.now ≡ Ok (option_map deref held)) }
    ensures refused { IfErr result (λ why. members_at (live keyspace.now now) database name.now ≡ fault why) }
{
    match keyspace.get(now, database, name) {
        Some(value) => Ok(Some(value.as_set()?)),
        None => Ok(None),
    }
}

/// How many members a set has, none where it is missing.
pub(super) fn len_of(held: Option<&Set>) -> usize
    ensures len { result ≡ finset.len (lent held.entry) }
    ensures small { result < 2 ^ 63 }
{
    match held {
        Some(held) => held.len(),
        None => 0,
    }
}

/// 1 for a member.
pub(super) fn membership(is_member: bool) -> Reply
    ensures { reply_of result ≡ sets.membership is_member }
{
    Reply::Int(is_member as i64)
}
