// What a key holds, as a list.
ghost use Rattle.std.specs.Prelude.{◌≡◌, ◌<◌, length, None, Ok, Err, IfOk, IfErr, OnOk, List as Items};
ghost use Rattle.std.specs.Option.{option_map};
ghost use Rattle.nr_model.specs.Bytes.{Bytes};
ghost use Rattle.nr_model.specs.Keyspace.{live, key_of, Items as list_of};
ghost use Rattle.nr_model.specs.Commands.Held as held;
ghost use Rattle.nr_model.specs.Commands.Reading.{fault};
ghost use Rattle.nr_resp.specs.Failures.{IfRefused};
ghost use Rattle.nr_list_commands.specs.Relisted.{Relists};

use nr_blob::{Blob, Memory};
use nr_keyspace::{Db, Keyspace, ListEdit, Value};
use nr_lists::List;
use nr_model::refused::Refused;
use nr_resp::Failure;

/// The list that a key holds. A key of another kind is refused.
pub(crate) fn items_at<'k>(
    keyspace: &'k Keyspace,
    now: u64,
    database: Db,
    name: &Blob,
) -> Result<Option<&'k List>, Refused>
    ensures items { IfOk result (λ list. held.items_at (live keyspace.now now) database name.now ≡ Ok (option_map (λ list. list.now) list)) }
    ensures refused { IfErr result (λ why. held.items_at (live keyspace.now now) database name.now ≡ fault why) }
{
    match keyspace.get(now, database, name) {
        Some(value) => Ok(Some(value.as_list()?)),
        None => Ok(None),
    }
}

/// What a command does to a list, in place. It refuses none.
pub(crate) trait Relisting: Drop {
    /// What the command is told of the list.
    type Given;

    /// A list, what becomes of it, and what the command is told.
    ghost edits: { Self → Items Bytes → Items Bytes → Self.Given → Type 0 };

    /// Where memory runs out nothing is said of the list.
    fn edit(self, list: &mut List) -> Result<Self::Given, Memory>
        ensures { IfOk result (λ given. edits self list.old list.new given) };
}

// As an edit that may refuse a list.
#[derive(Drop)]
struct Unrefused<E> {
    edit: E,
}

impl<E: Relisting> ListEdit for Unrefused<E> {
    ghost use Rattle.nr_list_commands.specs.Relisted.{unrefused};

    type Given = E::Given;

    ghost edits = { λ all old new given. unrefused (E.edits all.edit) old new given };

    fn edit(self, list: &mut List) -> Result<Result<E::Given, Refused>, Memory> {
        let given = self.edit.edit(list)?;
        Ok(Ok(given))
    }
}

/// Has the list of a key edited, in place, with one hash of the key's name; with nothing left in it there is no key any more. `None`
/// without the key. A key of another kind is refused, and stays.
pub(crate) fn edit_items<E: Relisting>(
    keyspace: &mut Keyspace,
    now: u64,
    database: Db,
    name: &Blob,
    edit: E,
) -> Result<Option<E::Given>, Failure>
    requires { live keyspace.old now ≡ keyspace.old }
    ensures edited { IfOk result (λ given. Relists (E.edits edit) keyspace.old keyspace.new (key_of database name.now)
        (held.items_at keyspace.old database name.now) given) }
    ensures live { OnOk result (live keyspace.new now ≡ keyspace.new) }
    ensures refused { IfErr result (λ failure. IfRefused failure
        (λ error. (held.items_at keyspace.old database name.now ≡ Err error) × (keyspace.new ≡ keyspace.old))) }
{
    match keyspace.edit_list(now, database, name, Unrefused { edit })? {
        Some(given) => Ok(Some(given?)),
        None => Ok(None),
    }
}

/// A key that is missing holds a list from now on. Its name is copied.
#[tactic(auto, using(crate::proofs::Relisted::kept_new))]
pub(crate) fn put_items(
    keyspace: &mut Keyspace,
    database: Db,
    name: &Blob,
    list: List,
) -> Result<(), Memory>
    requires missing { held.items_at keyspace.old database name.now ≡ Ok None }
    requires some { 0 < length list }
    ensures { OnOk result (keyspace.new ≡ held.kept_under keyspace.old (key_of database name.now) (list_of list)) }
{
    keyspace.put(database, name.copy()?, Value::from(list), None)?;
    Ok(())
}
