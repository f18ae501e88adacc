// Edits of the lists, hashes, sets and sorted sets that keys hold. Here alone a key goes with what was left in it.
ghost use Rattle.std.specs.Prelude.{◌≡◌, cond, IfOk};
ghost use Rattle.std.specs.FinMap as map;
ghost use Rattle.nr_model.specs.Keyspace as model;
ghost use Rattle.nr_model.specs.Commands.Held.{items_of, fields_of, members_of, scores_of};
ghost use Rattle.nr_keyspace.specs.Edited.{IsEditedRead, without};
ghost use Rattle.nr_keyspace.specs.Joined.{key_of};

use crate::collections::{
    HashEdit, ListEdit, OnHash, OnList, OnSet, OnSortedSet, SetEdit, SortedSetEdit,
};
use crate::db::Db;
use crate::keyspace::Keyspace;
use nr_blob::{Blob, Memory};
use nr_hashes::Hash;
use nr_lists::List;
use nr_model::refused::Refused;
use nr_sets::Set;
use nr_zsets::Zset;

// An edit that tells too whether nothing is left.
#[derive(Drop)]
struct Telling<E> {
    edit: E,
}

impl<E: ListEdit> ListEdit for Telling<E> {
    ghost use Rattle.nr_model.specs.Keyspace as model;
    ghost use Rattle.nr_keyspace.specs.Edited.{EditsTelling};

    type Given = (E::Given, bool);

    ghost edits = { λ telling old new given. EditsTelling model.Items (E.edits telling.edit) old new given };

    fn edit(self, list: &mut List) -> Result<Result<(E::Given, bool), Refused>, Memory> {
        match self.edit.edit(list)? {
            Ok(given) => Ok(Ok((given, list.len() == 0))),
            Err(why) => Ok(Err(why)),
        }
    }
}

impl<E: HashEdit> HashEdit for Telling<E> {
    ghost use Rattle.nr_model.specs.Keyspace as model;
    ghost use Rattle.nr_keyspace.specs.Edited.{EditsTelling};

    type Given = (E::Given, bool);

    ghost edits = { λ telling old new given. EditsTelling model.Fields (E.edits telling.edit) old new given };

    fn edit(self, hash: &mut Hash) -> Result<Result<(E::Given, bool), Refused>, Memory> {
        match self.edit.edit(hash)? {
            Ok(given) => Ok(Ok((given, hash.len() == 0))),
            Err(why) => Ok(Err(why)),
        }
    }
}

impl<E: SetEdit> SetEdit for Telling<E> {
    ghost use Rattle.nr_model.specs.Keyspace as model;
    ghost use Rattle.nr_keyspace.specs.Edited.{EditsTelling};

    type Given = (E::Given, bool);

    ghost edits = { λ telling old new given. EditsTelling model.Members (E.edits telling.edit) old new given };

    fn edit(self, set: &mut Set) -> Result<Result<(E::Given, bool), Refused>, Memory> {
        match self.edit.edit(set)? {
            Ok(given) => Ok(Ok((given, set.len() == 0))),
            Err(why) => Ok(Err(why)),
        }
    }
}

impl<E: SortedSetEdit> SortedSetEdit for Telling<E> {
    ghost use Rattle.nr_model.specs.Keyspace as model;
    ghost use Rattle.nr_keyspace.specs.Edited.{EditsTelling};

    type Given = (E::Given, bool);

    ghost edits = { λ telling old new given. EditsTelling model.Scores (E.edits telling.edit) old new given };

    fn edit(self, zset: &mut Zset) -> Result<Result<(E::Given, bool), Refused>, Memory> {
        match self.edit.edit(zset)? {
            Ok(given) => Ok(Ok((given, zset.len() == 0))),
            Err(why) => Ok(Err(why)),
        }
    }
}

// Takes a live key out where nothing is left in it.
fn take_emptied(keyspace: &mut Keyspace, now: u64, database: Db, name: &Blob, is_emptied: bool)
    ensures { keyspace.new ≡ cond is_emptied (without keyspace.old now (key_of database name.now)) keyspace.old }
{
    if is_emptied {
        keyspace.remove(now, database, name);
    }
}

impl Keyspace {
    /// Has the list of a live key edited, in place, with one hash of its name; its deadline stays, and with nothing left in it the key is
    /// taken out. `None` where no such key is live. A key of another kind is refused. Where it is refused nothing changes; where memory runs
    /// out nothing is said of the keyspace.
    pub fn edit_list<E: ListEdit>(
        &mut self,
        now: u64,
        database: Db,
        name: &Blob,
        edit: E,
    ) -> Result<Option<Result<E::Given, Refused>>, Memory>
        ensures { let key = key_of database name.now in IfOk result
            (λ given. IsEditedRead items_of model.Items (E.edits edit) self.old self.new key (map.get (model.live self.old now) key) given) }
    {
        let edit = Telling { edit };
        let Some(edited) = self.edit(now, database, name, OnList { edit })? else {
            return Ok(None);
        };
        let (given, is_emptied) = match edited? {
            Ok(told) => told,
            Err(why) => return Ok(Some(Err(why))),
        };
        take_emptied(self, now, database, name, is_emptied);
        Ok(Some(Ok(given)))
    }

    /// Has the hash of a live key edited, in place, with one hash of its name; its deadline stays, and with nothing left in it the key is
    /// taken out. `None` where no such key is live. A key of another kind is refused. Where it is refused nothing changes; where memory runs
    /// out nothing is said of the keyspace.
    pub fn edit_hash<E: HashEdit>(
        &mut self,
        now: u64,
        database: Db,
        name: &Blob,
        edit: E,
    ) -> Result<Option<Result<E::Given, Refused>>, Memory>
        ensures { let key = key_of database name.now in IfOk result
            (λ given. IsEditedRead fields_of model.Fields (E.edits edit) self.old self.new key (map.get (model.live self.old now) key) given) }
    {
        let edit = Telling { edit };
        let Some(edited) = self.edit(now, database, name, OnHash { edit })? else {
            return Ok(None);
        };
        let (given, is_emptied) = match edited? {
            Ok(told) => told,
            Err(why) => return Ok(Some(Err(why))),
        };
        take_emptied(self, now, database, name, is_emptied);
        Ok(Some(Ok(given)))
    }

    /// Has the set of a live key edited, in place, with one hash of its name; its deadline stays, and with nothing left in it the key is
    /// taken out. `None` where no such key is live. A key of another kind is refused. Where it is refused nothing changes; where memory runs
    /// out nothing is said of the keyspace.
    pub fn edit_set<E: SetEdit>(
        &mut self,
        now: u64,
        database: Db,
        name: &Blob,
        edit: E,
    ) -> Result<Option<Result<E::Given, Refused>>, Memory>
        ensures { let key = key_of database name.now in IfOk result
            (λ given. IsEditedRead members_of model.Members (E.edits edit) self.old self.new key (map.get (model.live self.old now) key) given) }
    {
        let edit = Telling { edit };
        let Some(edited) = self.edit(now, database, name, OnSet { edit })? else {
            return Ok(None);
        };
        let (given, is_emptied) = match edited? {
            Ok(told) => told,
            Err(why) => return Ok(Some(Err(why))),
        };
        take_emptied(self, now, database, name, is_emptied);
        Ok(Some(Ok(given)))
    }

    /// Has the sorted set of a live key edited, in place, with one hash of its name; its deadline stays, and with nothing left in it the key is
    /// taken out. `None` where no such key is live. A key of another kind is refused. Where it is refused nothing changes; where memory runs
    /// out nothing is said of the keyspace.
    pub fn edit_sorted_set<E: SortedSetEdit>(
        &mut self,
        now: u64,
        database: Db,
        name: &Blob,
        edit: E,
    ) -> Result<Option<Result<E::Given, Refused>>, Memory>
        ensures { let key = key_of database name.now in IfOk result
            (λ given. IsEditedRead scores_of model.Scores (E.edits edit) self.old self.new key (map.get (model.live self.old now) key) given) }
    {
        let edit = Telling { edit };
        let Some(edited) = self.edit(now, database, name, OnSortedSet { edit })? else {
            return Ok(None);
        };
        let (given, is_emptied) = match edited? {
            Ok(told) => told,
            Err(why) => return Ok(Some(Err(why))),
        };
        take_emptied(self, now, database, name, is_emptied);
        Ok(Some(Ok(given)))
    }
}
