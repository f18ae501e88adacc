// ZADD and ZINCRBY.
ghost use Rattle.std.specs.Prelude.{◌≡◌};
ghost use Rattle.nr_model.specs.Keyspace.{live};
ghost use Rattle.nr_model.specs.Commands.Shape.{staying};
ghost use Rattle.nr_model.specs.Commands.SortedSets as sorted_sets;
ghost use Rattle.nr_resp.specs.Done.{Performs};

use crate::changing::change_at;
use crate::scoring::adding::Addition;
use crate::scoring::raising::Increment;
use crate::scoring::reading::{AddRequest, RaiseRequest, add_request, raise_request};
use nr_blob::Blob;
use nr_keyspace::{Db, Keyspace, Touched};
use nr_resp::{Failure, Reply};
use std::alloc::Global;

mod adding;
mod raising;
pub(crate) mod reading;

/// `ZADD key [NX | XX] [GT | LT] [CH] [INCR] score member [score member ..]`. One look-up of the key, and each member logarithmic.
pub fn zadd<T: Touched>(
    alloc: Global,
    keyspace: &mut Keyspace,
    now: u64,
    database: Db,
    words: &[Blob],
    touched: &mut T,
) -> Result<Reply, Failure>
    requires { live keyspace.old now ≡ keyspace.old }
    ensures { Performs T.after result keyspace.new database touched.old touched.new
        (staying database (sorted_sets.zadd keyspace.old database words.now)) }
{
    let AddRequest {
        name,
        options,
        pairs,
    } = add_request(alloc, words)?;
    let addition = Addition {
        alloc,
        options: &options,
        pairs: &pairs,
    };
    change_at(alloc, keyspace, now, database, name, addition, touched)
}

/// `ZINCRBY key increment member`. Logarithmic.
pub fn zincr_by<T: Touched>(
    alloc: Global,
    keyspace: &mut Keyspace,
    now: u64,
    database: Db,
    words: &[Blob],
    touched: &mut T,
) -> Result<Reply, Failure>
    requires { live keyspace.old now ≡ keyspace.old }
    ensures { Performs T.after result keyspace.new database touched.old touched.new
        (staying database (sorted_sets.zincr_by keyspace.old database words.now)) }
{
    let RaiseRequest { name, by, member } = raise_request(words)?;
    let increment = Increment { alloc, member, by };
    change_at(alloc, keyspace, now, database, name, increment, touched)
}
