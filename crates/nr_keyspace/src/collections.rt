// What commands do to lists, hashes, sets and sorted sets, where they lie.
ghost use Rattle.std.specs.Prelude.{◌≡◌, IfOk, OnErr, Result, List as Items};
ghost use Rattle.nr_model.specs.Bytes.{Bytes};
ghost use Rattle.nr_model.specs.Hashes as hashes;
ghost use Rattle.nr_model.specs.Sets as sets;
ghost use Rattle.nr_model.specs.SortedSets as sorted_sets;
ghost use Rattle.nr_model.specs.declared.refused.Refused as refusals;

use crate::edit::Edit;
use crate::value::Value;
use nr_blob::Memory;
use nr_hashes::Hash;
use nr_lists::List;
use nr_model::refused::Refused;
use nr_sets::Set;
use nr_zsets::Zset;

/// What a command does to a list, in place.
pub trait ListEdit: Drop {
    /// What the command is told of the list.
    type Given;

    /// A list, what becomes of it, and what the command is told, or why it is refused.
    ghost edits: { Self → Items Bytes → Items Bytes → Result Self.Given refusals.Refused → Type 0 };

    /// Where it is refused the list is as it was. Where memory runs out nothing is said of it.
    fn edit(self, list: &mut List) -> Result<Result<Self::Given, Refused>, Memory>
        ensures ok { IfOk result (λ given. edits self list.old list.new given) }
        ensures refused { IfOk result (λ given. OnErr given (list.new ≡ list.old)) };
}

/// What a command does to a value that has to be a list. A value of another kind is refused, and stays as it was. Want of memory is
/// handed on, and nothing is said of the value then.
#[derive(Drop)]
pub struct OnList<E> {
    /// What is done to the list.
    pub edit: E,
}

impl<E: ListEdit> Edit for OnList<E> {
    ghost use Rattle.nr_keyspace.specs.Edited.{EditsItems};

    type Given = Result<Result<E::Given, Refused>, Memory>;

    ghost edits = { λ on old new given. EditsItems (E.edits on.edit) old new given };

    fn edit(self, value: &mut Value) -> Result<Result<Result<E::Given, Refused>, Memory>, Memory> {
        match value {
            Value::List(list) => Ok(self.edit.edit(list)),
            _ => Ok(Ok(Err(Refused::WrongType))),
        }
    }
}

/// What a command does to a hash, in place.
pub trait HashEdit: Drop {
    /// What the command is told of the hash.
    type Given;

    /// A hash, what becomes of it, and what the command is told, or why it is refused.
    ghost edits: { Self → hashes.Hash → hashes.Hash → Result Self.Given refusals.Refused → Type 0 };

    /// Where it is refused the hash is as it was. Where memory runs out nothing is said of it.
    fn edit(self, hash: &mut Hash) -> Result<Result<Self::Given, Refused>, Memory>
        ensures ok { IfOk result (λ given. edits self hash.old hash.new given) }
        ensures refused { IfOk result (λ given. OnErr given (hash.new ≡ hash.old)) };
}

/// What a command does to a value that has to be a hash. A value of another kind is refused, and stays as it was. Want of memory is
/// handed on, and nothing is said of the value then.
#[derive(Drop)]
pub struct OnHash<E> {
    /// What is done to the hash.
    pub edit: E,
}

impl<E: HashEdit> Edit for OnHash<E> {
    ghost use Rattle.nr_keyspace.specs.Edited.{EditsFields};

    type Given = Result<Result<E::Given, Refused>, Memory>;

    ghost edits = { λ on old new given. EditsFields (E.edits on.edit) old new given };

    fn edit(self, value: &mut Value) -> Result<Result<Result<E::Given, Refused>, Memory>, Memory> {
        match value {
            Value::Hash(hash) => Ok(self.edit.edit(hash)),
            _ => Ok(Ok(Err(Refused::WrongType))),
        }
    }
}

/// What a command does to a set, in place.
pub trait SetEdit: Drop {
    /// What the command is told of the set.
    type Given;

    /// A set, what becomes of it, and what the command is told, or why it is refused.
    ghost edits: { Self → sets.Members → sets.Members → Result Self.Given refusals.Refused → Type 0 };

    /// Where it is refused the set is as it was. Where memory runs out nothing is said of it.
    fn edit(self, set: &mut Set) -> Result<Result<Self::Given, Refused>, Memory>
        ensures ok { IfOk result (λ given. edits self set.old set.new given) }
        ensures refused { IfOk result (λ given. OnErr given (set.new ≡ set.old)) };
}

/// What a command does to a value that has to be a set. A value of another kind is refused, and stays as it was. Want of memory is
/// handed on, and nothing is said of the value then.
#[derive(Drop)]
pub struct OnSet<E> {
    /// What is done to the set.
    pub edit: E,
}

impl<E: SetEdit> Edit for OnSet<E> {
    ghost use Rattle.nr_keyspace.specs.Edited.{EditsMembers};

    type Given = Result<Result<E::Given, Refused>, Memory>;

    ghost edits = { λ on old new given. EditsMembers (E.edits on.edit) old new given };

    fn edit(self, value: &mut Value) -> Result<Result<Result<E::Given, Refused>, Memory>, Memory> {
        match value {
            Value::Set(set) => Ok(self.edit.edit(set)),
            _ => Ok(Ok(Err(Refused::WrongType))),
        }
    }
}

/// What a command does to a sorted set, in place.
pub trait SortedSetEdit: Drop {
    /// What the command is told of the sorted set.
    type Given;

    /// A sorted set, what becomes of it, and what the command is told, or why it is refused.
    ghost edits: { Self → sorted_sets.Scores → sorted_sets.Scores → Result Self.Given refusals.Refused → Type 0 };

    /// Where it is refused the sorted set is as it was. Where memory runs out nothing is said of it.
    fn edit(self, zset: &mut Zset) -> Result<Result<Self::Given, Refused>, Memory>
        ensures ok { IfOk result (λ given. edits self zset.old zset.new given) }
        ensures refused { IfOk result (λ given. OnErr given (zset.new ≡ zset.old)) };
}

/// What a command does to a value that has to be a sorted set. A value of another kind is refused, and stays as it was. Want of memory is
/// handed on, and nothing is said of the value then.
#[derive(Drop)]
pub struct OnSortedSet<E> {
    /// What is done to the sorted set.
    pub edit: E,
}

impl<E: SortedSetEdit> Edit for OnSortedSet<E> {
    ghost use Rattle.nr_keyspace.specs.Edited.{EditsScores};

    type Given = Result<Result<E::Given, Refused>, Memory>;

    ghost edits = { λ on old new given. EditsScores (E.edits on.edit) old new given };

    fn edit(self, value: &mut Value) -> Result<Result<Result<E::Given, Refused>, Memory>, Memory> {
        match value {
            Value::SortedSet(zset) => Ok(self.edit.edit(zset)),
            _ => Ok(Ok(Err(Refused::WrongType))),
        }
    }
}
