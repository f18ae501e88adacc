// ZPOPMIN and ZPOPMAX.
ghost use Rattle.std.specs.Prelude.{◌≡◌};
ghost use Rattle.nr_model.specs.Keyspace.{live};
ghost use Rattle.nr_model.specs.Commands.Shape.{staying};
ghost use Rattle.nr_model.specs.Commands.SortedSets as sorted_sets;
ghost use Rattle.nr_resp.specs.Done.{Performs};

use crate::changing::change_at;
use crate::popping::reading::{PopRequest, pop_request};
use crate::popping::taking::Taking;
use nr_blob::Blob;
use nr_keyspace::{Db, Keyspace, Touched};
use nr_model::command::Direction;
use nr_resp::{Failure, Reply};
use std::alloc::Global;

mod reading;
mod taking;

/// `ZPOPMIN key [count]` and `ZPOPMAX key [count]`. One look-up of the key, and each member logarithmic.
pub fn pop<T: Touched>(
    alloc: Global,
    direction: Direction,
    keyspace: &mut Keyspace,
    now: u64,
    database: Db,
    words: &[Blob],
    touched: &mut T,
) -> Result<Reply, Failure>
    requires { live keyspace.old now ≡ keyspace.old }
    ensures { Performs T.after result keyspace.new database touched.old touched.new
        (staying database (sorted_sets.pop direction keyspace.old database words.now)) }
{
    let PopRequest { name, count } = pop_request(words)?;
    let taking = Taking {
        alloc,
        direction,
        count,
    };
    change_at(alloc, keyspace, now, database, name, taking, touched)
}
