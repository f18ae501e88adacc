// How a table grows: by one block at a time.
ghost use Rattle.std.specs.Prelude.{◌≡◌, ◌<◌, ◌*◌, length};
ghost use Rattle.nr_model.specs.Bytes.{Bytes};
ghost use Rattle.nr_packs.specs.Tables.{held, pairs_of, IsSpread};

use crate::packed::Packed;
use crate::parts::part;
use crate::slots::raised;
use nr_blob::Memory;
use std::alloc::Global;
use std::hash::RandomState;

/// How many pairs there are for each block before there is one block more.
const MANY: usize = 8;

/// Makes one block more where those that there are hold many pairs. Nothing else is seen to change, whether or not memory runs out.
pub(crate) fn grow(
    alloc: Global,
    keys: &RandomState,
    level: &mut usize,
    packs: &mut Vec<Packed>,
    len: usize,
) -> Result<(), Memory>
    requires { IsSpread keys.now level.old packs.old.items }
    ensures spread { IsSpread keys.now level.new packs.new.items }
    ensures same { (field : Bytes) → held field (pairs_of packs.new.items) ≡ held field (pairs_of packs.old.items) }
{
    if len / MANY < packs.len() {
        return Ok(());
    }
    *level = raised(*level, packs.len());
    split(alloc, keys, *level, packs)?;
    Ok(())
}

// Parts the block whose turn it is in two: itself, and a new one behind all others.
fn split(
    alloc: Global,
    keys: &RandomState,
    level: usize,
    packs: &mut Vec<Packed>,
) -> Result<(), Memory>
    requires spread { IsSpread keys.now level packs.old.items }
    requires below { length packs.old.items < 2 * level }
    ensures spread { IsSpread keys.now level packs.new.items }
    ensures same { (field : Bytes) → held field (pairs_of packs.new.items) ≡ held field (pairs_of packs.old.items) }
{
    let count = packs.len();
    let place = count - level;
    let stays = part(alloc, keys, level, count + 1, place, &packs[place])?;
    let goes = part(alloc, keys, level, count + 1, count, &packs[place])?;
    packs.push(goes)?;
    packs[place] = stays;
    Ok(())
}
