// The commands of the section on lists.
ghost use Rattle.std.specs.Prelude.{◌≡◌};
ghost use Rattle.nr_model.specs.Keyspace.{live};
ghost use Rattle.nr_model.specs.Commands.Shape.{staying};
ghost use Rattle.nr_model.specs.Commands.Lists as lists;
ghost use Rattle.nr_resp.specs.Done.{Answers, Performs};

use nr_blob::Blob;
use nr_keyspace::{Db, Keyspace, Touched};
use nr_list_commands::{looks, moving, popping, pushing, writing};
use nr_model::command::{ListsChange, ListsLook};
use nr_resp::{Failure, Reply, Shown};
use std::alloc::Global;

/// A command that only looks. The words are those behind the name.
pub(super) fn look<'k>(
    alloc: Global,
    keyspace: &'k Keyspace,
    now: u64,
    database: Db,
    command: ListsLook,
    words: &'k [Blob],
) -> Result<Shown<'k>, Failure>
    ensures { Answers result (lists.look command now (live keyspace.now now) database words.now) }
{
    match command {
        ListsLook::LLen => looks::len(keyspace, now, database, words),
        ListsLook::LRange => looks::range(alloc, keyspace, now, database, words),
        ListsLook::LIndex => looks::index(keyspace, now, database, words),
        ListsLook::LPos => looks::positions(alloc, keyspace, now, database, words),
    }
}

/// A command that may change a keyspace whose keys are all live. The words are those behind the name.
pub(super) fn change<T: Touched>(
    alloc: Global,
    keyspace: &mut Keyspace,
    now: u64,
    database: Db,
    command: ListsChange,
    words: &[Blob],
    touched: &mut T,
) -> Result<Reply, Failure>
    requires { live keyspace.old now ≡ keyspace.old }
    ensures { Performs T.after result keyspace.new database touched.old touched.new
        (staying database (lists.change command now keyspace.old database words.now)) }
{
    match command {
        ListsChange::Push(end) => {
            pushing::push(alloc, end, keyspace, now, database, words, touched)
        }
        ListsChange::PushX(end) => pushing::push_x(end, keyspace, now, database, words, touched),
        ListsChange::Pop(end) => popping::pop(alloc, end, keyspace, now, database, words, touched),
        ListsChange::LSet => writing::set(keyspace, now, database, words, touched),
        ListsChange::LTrim => writing::trim(keyspace, now, database, words, touched),
        ListsChange::LInsert => writing::insert(keyspace, now, database, words, touched),
        ListsChange::LRem => writing::remove(keyspace, now, database, words, touched),
        ListsChange::LMove => moving::move_item(alloc, keyspace, now, database, words, touched),
        ListsChange::RPopLPush => {
            moving::rpoplpush(alloc, keyspace, now, database, words, touched)
        }
        ListsChange::LMPop => popping::pop_first(alloc, keyspace, now, database, words, touched),
    }
}
