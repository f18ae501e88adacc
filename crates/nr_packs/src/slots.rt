// In which block of a table a field stands.
ghost use Rattle.std.specs.Prelude.{◌≡◌, ◌≤◌, ◌<◌, ◌*◌, ◌^◌, ◌⊎◌};
ghost use Rattle.nr_packs.specs.Tables.{hash, slot};

use std::hash::{BuildHasher, Hasher, RandomState};

// The hash of a field. Linear in its bytes.
fn hash_of(keys: &RandomState, field: &[u8]) -> u64
    ensures { result ≡ hash keys.now field.now }
{
    let mut hasher = keys.build_hasher();
    hasher.write(field);
    hasher.finish()
}

/// The block of a field among so many.
pub(crate) fn slot_of(keys: &RandomState, level: usize, count: usize, field: &[u8]) -> usize
    requires some { 0 < level }
    requires least { level ≤ count }
    requires most { count ≤ 2 * level }
    requires small { level < 2 ^ 63 }
    ensures slot { result ≡ slot level count (hash keys.now field.now) }
    ensures within { result < count }
{
    let left = (hash_of(keys, field) % (2 * level as u64)) as usize;
    if left < count { left } else { left - level }
}

/// The level from which so many blocks go on: twice the one before where there are twice as many blocks.
pub(crate) fn raised(level: usize, count: usize) -> usize
    requires some { 0 < level }
    requires least { level ≤ count }
    requires most { count ≤ 2 * level }
    requires small { count < 2 ^ 63 }
    ensures { ((result ≡ level) × (count < 2 * level)) ⊎ ((result ≡ count) × (count ≡ 2 * level)) }
{
    if count == 2 * level { count } else { level }
}
