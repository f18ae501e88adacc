// What a key holds, as a sorted set.
ghost use Rattle.std.specs.Prelude.{◌≡◌, Ok, IfOk, IfErr};
ghost use Rattle.std.specs.Option.{option_map};
ghost use Rattle.nr_model.specs.Keyspace.{live};
ghost use Rattle.nr_model.specs.Commands.Reading.{fault};
ghost use Rattle.nr_model.specs.Commands.SortedSets as sorted_sets;

use nr_blob::Blob;
use nr_keyspace::{Db, Keyspace};
use nr_model::refused::Refused;
use nr_zsets::Zset;

/// The sorted set that a key holds, none where it is missing. A key of another kind is refused.
pub(crate) fn zset_at<'k>(
    keyspace: &'k Keyspace,
    now: u64,
    database: Db,
    name: &Blob,
) -> Result<Option<&'k Zset>, Refused>
    ensures zset { IfOk result
        (λ zset. sorted_sets.sorted_at (live keyspace.now now) database name.now ≡ Ok (sorted_sets.or_none (option_map (λ zset. zset.now) zset))) }
    ensures refused { IfErr result (λ why. sorted_sets.sorted_at (live keyspace.now now) database name.now ≡ fault why) }
{
    match keyspace.get(now, database, name) {
        Some(value) => Ok(Some(value.as_sorted_set()?)),
        None => Ok(None),
    }
}
