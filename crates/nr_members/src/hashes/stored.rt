// What a key holds, as a hash.
ghost use Rattle.std.specs.Prelude.{◌≡◌, Ok, IfOk, IfErr};
ghost use Rattle.std.specs.Option.{option_map};
ghost use Rattle.std.specs.FinMap as map;
ghost use Rattle.nr_model.specs.Keyspace.{live};
ghost use Rattle.nr_model.specs.Commands.Reading.{fault};
ghost use Rattle.nr_model.specs.Commands.Hashes as hashes;

use nr_blob::Blob;
use nr_hashes::Hash;
use nr_keyspace::{Db, Keyspace};
use nr_model::refused::Refused;

/// The hash that a key holds, none where it is missing. A key of another kind is refused.
pub(super) fn hash_at<'k>(
    keyspace: &'k Keyspace,
    now: u64,
    database: Db,
    name: &Blob,
) -> Result<Option<&'k Hash>, Refused>
    ensures hash { IfOk result (λ hash. hashes.hash_at (live keyspace.now now) database name.now ≡ Ok (hashes.or_none (option_map (λ hash. hash.now) hash))) }
    ensures refused { IfErr result (λ why. hashes.hash_at (live keyspace.now now) database name.now ≡ fault why) }
{
    match keyspace.get(now, database, name) {
        Some(value) => Ok(Some(value.as_hash()?)),
        None => Ok(None),
    }
}

/// The value at a field, none where the field or the hash is missing. Its cost is that of [`Hash::get`].
pub(super) fn value_in<'k>(hash: Option<&'k Hash>, field: &Blob) -> Option<&'k [u8]>
    ensures { option_map (λ value. value.now) result ≡ map.get (hashes.or_none (option_map (λ hash. hash.now) hash.entry)) field.now }
{
    match hash {
        Some(hash) => hash.get(field),
        None => None,
    }
}

/// Whether a field is there. Its cost is that of [`Hash::contains`].
pub(super) fn has_field(hash: Option<&Hash>, field: &Blob) -> bool
    ensures { result ≡ map.contains_key (hashes.or_none (option_map (λ hash. hash.now) hash.entry)) field.now }
{
    match hash {
        Some(hash) => hash.contains(field),
        None => false,
    }
}
