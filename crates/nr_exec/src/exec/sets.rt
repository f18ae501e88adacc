// The commands of the section on sets.
ghost use Rattle.std.specs.Prelude.{◌≡◌};
ghost use Rattle.nr_model.specs.Keyspace.{live};
ghost use Rattle.nr_model.specs.Commands.Shape.{staying};
ghost use Rattle.nr_model.specs.Commands.Sets as sets;
ghost use Rattle.nr_resp.specs.Done.{Answers, Performs};

use nr_blob::Blob;
use nr_keyspace::{Db, Keyspace, Touched};
use nr_members::sets::{changing, combining, counting, looks, moving};
use nr_model::command::{SetsChange, SetsLook};
use nr_resp::{Failure, Reply, Shown};
use std::alloc::Global;

/// A command that only looks. The words are those behind the name.
pub(super) fn look<'k>(
    alloc: Global,
    keyspace: &'k Keyspace,
    now: u64,
    database: Db,
    command: SetsLook,
    words: &'k [Blob],
) -> Result<Shown<'k>, Failure>
    ensures { Answers result (sets.look command now (live keyspace.now now) database words.now) }
{
    match command {
        SetsLook::SIsMember => looks::is_member(keyspace, now, database, words),
        SetsLook::SMIsMember => looks::are_members(alloc, keyspace, now, database, words),
        SetsLook::SCard => looks::card(keyspace, now, database, words),
        SetsLook::SMembers => looks::members(alloc, keyspace, now, database, words),
        SetsLook::Combine(combination) => {
            combining::combine(alloc, combination, keyspace, now, database, words)
        }
        SetsLook::SInterCard => counting::inter_card(alloc, keyspace, now, database, words),
    }
}

/// A command that may change a keyspace whose keys are all live. The words are those behind the name.
pub(super) fn change<T: Touched>(
    alloc: Global,
    keyspace: &mut Keyspace,
    now: u64,
    database: Db,
    command: SetsChange,
    words: &[Blob],
    touched: &mut T,
) -> Result<Reply, Failure>
    requires { live keyspace.old now ≡ keyspace.old }
    ensures { Performs T.after result keyspace.new database touched.old touched.new
        (staying database (sets.change command now keyspace.old database words.now)) }
{
    match command {
        SetsChange::SAdd => changing::add(alloc, keyspace, now, database, words, touched),
        SetsChange::SRem => changing::remove(keyspace, now, database, words, touched),
        SetsChange::SMove => moving::move_member(alloc, keyspace, now, database, words, touched),
        SetsChange::CombineStore(combination) => combining::combine_store(
            alloc,
            combination,
            keyspace,
            now,
            database,
            words,
            touched,
        ),
    }
}
