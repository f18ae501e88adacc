// The commands of the section on sorted sets.
ghost use Rattle.std.specs.Prelude.{◌≡◌};
ghost use Rattle.nr_model.specs.Keyspace.{live};
ghost use Rattle.nr_model.specs.Commands.Shape.{staying};
ghost use Rattle.nr_model.specs.Commands.SortedSets as sorted_sets;
ghost use Rattle.nr_resp.specs.Done.{Answers, Performs};

use nr_blob::Blob;
use nr_keyspace::{Db, Keyspace, Touched};
use nr_model::command::{SortedSetsChange, SortedSetsLook};
use nr_ranked::{looks, popping, ranges, removing, scoring, storing};
use nr_resp::{Failure, Reply, Shown};
use std::alloc::Global;

/// A command that only looks. The words are those behind the name.
pub(super) fn look<'k>(
    alloc: Global,
    keyspace: &'k Keyspace,
    now: u64,
    database: Db,
    command: SortedSetsLook,
    words: &'k [Blob],
) -> Result<Shown<'k>, Failure>
    ensures { Answers result (sorted_sets.look command now (live keyspace.now now) database words.now) }
{
    match command {
        SortedSetsLook::ZScore => looks::zscore(alloc, keyspace, now, database, words),
        SortedSetsLook::ZMScore => looks::zmscore(alloc, keyspace, now, database, words),
        SortedSetsLook::ZCard => looks::zcard(keyspace, now, database, words),
        SortedSetsLook::Rank(direction) => looks::rank(direction, keyspace, now, database, words),
        SortedSetsLook::ZCount => ranges::count_scores(keyspace, now, database, words),
        SortedSetsLook::ZLexCount => ranges::count_members(keyspace, now, database, words),
        SortedSetsLook::Range(form) => ranges::range(alloc, form, keyspace, now, database, words),
    }
}

/// A command that may change a keyspace whose keys are all live. The words are those behind the name.
pub(super) fn change<T: Touched>(
    alloc: Global,
    keyspace: &mut Keyspace,
    now: u64,
    database: Db,
    command: SortedSetsChange,
    words: &[Blob],
    touched: &mut T,
) -> Result<Reply, Failure>
    requires { live keyspace.old now ≡ keyspace.old }
    ensures { Performs T.after result keyspace.new database touched.old touched.new
        (staying database (sorted_sets.change command now keyspace.old database words.now)) }
{
    match command {
        SortedSetsChange::ZAdd => scoring::zadd(alloc, keyspace, now, database, words, touched),
        SortedSetsChange::ZIncrBy => {
            scoring::zincr_by(alloc, keyspace, now, database, words, touched)
        }
        SortedSetsChange::ZRem => removing::zrem(alloc, keyspace, now, database, words, touched),
        SortedSetsChange::RemRange(by) => {
            removing::remove_range(alloc, by, keyspace, now, database, words, touched)
        }
        SortedSetsChange::Pop(direction) => {
            popping::pop(alloc, direction, keyspace, now, database, words, touched)
        }
        SortedSetsChange::JoinStore(joining) => {
            storing::join_store(joining, alloc, keyspace, now, database, words, touched)
        }
    }
}
