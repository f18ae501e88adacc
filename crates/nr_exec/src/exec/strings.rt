// The commands of the section on strings.
ghost use Rattle.std.specs.Prelude.{◌≡◌};
ghost use Rattle.nr_model.specs.Keyspace.{live};
ghost use Rattle.nr_model.specs.Commands.Shape.{staying};
ghost use Rattle.nr_model.specs.Commands.Strings as strings;
ghost use Rattle.nr_resp.specs.Done.{Answers, Performs};

use nr_blob::Blob;
use nr_key_commands::strings::{bits, looks, numbers, setting, several, taking, writing};
use nr_keyspace::{Db, Keyspace, Touched};
use nr_model::command::{StringsChange, StringsLook};
use nr_resp::{Failure, Reply, Shown};
use std::alloc::Global;

/// A command that only looks. The words are those behind the name.
pub(super) fn look<'k>(
    alloc: Global,
    keyspace: &'k Keyspace,
    now: u64,
    database: Db,
    command: StringsLook,
    words: &'k [Blob],
) -> Result<Shown<'k>, Failure>
    ensures { Answers result (strings.look command now (live keyspace.now now) database words.now) }
{
    match command {
        StringsLook::Get => looks::get(keyspace, now, database, words),
        StringsLook::MGet => looks::mget(alloc, keyspace, now, database, words),
        StringsLook::StrLen => looks::strlen(keyspace, now, database, words),
        StringsLook::GetRange | StringsLook::SubStr => {
            looks::get_range(keyspace, now, database, words)
        }
        StringsLook::GetBit => looks::get_bit(keyspace, now, database, words),
        StringsLook::BitCount => looks::bit_count(keyspace, now, database, words),
    }
}

/// A command that may change a keyspace whose keys are all live. The words are those behind the name.
pub(super) fn change<T: Touched>(
    alloc: Global,
    keyspace: &mut Keyspace,
    now: u64,
    database: Db,
    command: StringsChange,
    words: &[Blob],
    touched: &mut T,
) -> Result<Reply, Failure>
    requires { live keyspace.old now ≡ keyspace.old }
    ensures { Performs T.after result keyspace.new database touched.old touched.new
        (staying database (strings.change command now keyspace.old database words.now)) }
{
    match command {
        StringsChange::Set => setting::set(keyspace, now, database, words, touched),
        StringsChange::SetNx => setting::set_nx(keyspace, now, database, words, touched),
        StringsChange::SetEx(unit) => {
            setting::set_ex(unit, keyspace, now, database, words, touched)
        }
        StringsChange::GetSet => setting::get_set(keyspace, now, database, words, touched),
        StringsChange::GetDel => taking::get_del(keyspace, now, database, words, touched),
        StringsChange::GetEx => taking::get_ex(keyspace, now, database, words, touched),
        StringsChange::MSet => several::mset(keyspace, database, words, touched),
        StringsChange::MSetNx => several::mset_nx(keyspace, now, database, words, touched),
        StringsChange::Append => writing::append(keyspace, now, database, words, touched),
        StringsChange::SetRange => {
            writing::set_range(alloc, keyspace, now, database, words, touched)
        }
        StringsChange::Incr => numbers::incr(alloc, keyspace, now, database, words, touched),
        StringsChange::Decr => numbers::decr(alloc, keyspace, now, database, words, touched),
        StringsChange::IncrBy => {
            numbers::incr_by(alloc, keyspace, now, database, words, touched)
        }
        StringsChange::DecrBy => {
            numbers::decr_by(alloc, keyspace, now, database, words, touched)
        }
        StringsChange::SetBit => writing::set_bit(alloc, keyspace, now, database, words, touched),
        StringsChange::BitOp => bits::bit_op(alloc, keyspace, now, database, words, touched),
    }
}
