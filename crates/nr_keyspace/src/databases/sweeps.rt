// When what is gone is seen no more, and when its memory is given back. All that hides a key stands here: no other module sets the
// moment of a sweep, or takes out all that is gone at once.
ghost use Rattle.std.specs.Prelude.{◌≡◌, true, None, IsSome, IfSome};
ghost use Rattle.nr_model.specs.Keyspace as model;
ghost use Rattle.nr_keyspace.specs.Seen.{seen_after, is_seen_after};
ghost use Rattle.nr_keyspace.specs.Swept.{IsSweptInTurn};

use crate::databases::Databases;
use crate::db::Db;
use crate::moment::is_live;
use std::cmp;

/// The latest sweep, and whose turn the next one is.
#[derive(Clone, Copy)]
pub(crate) struct Sweeps {
    // The latest moment of a sweep, if one may hide a key.
    latest: Option<u64>,
    // The database that the next sweep looks at.
    turn: Db,
}

// The moment at which what is stored and live is what is seen and live now.
fn later(latest: Option<u64>, now: u64) -> u64
    ensures { (keyspace : model.Keyspace) → model.live (seen_after latest keyspace) now ≡ model.live keyspace result }
{
    match latest {
        Some(latest) => cmp::max(latest, now),
        None => now,
    }
}

// The latest sweep, where a key with this deadline is seen after it. Else each key that is gone is taken out for good, and nothing is hidden.
fn settle(databases: &mut Databases, latest: Option<u64>, deadline: Option<i64>) -> Option<u64>
    ensures same { seen_after result databases.new ≡ seen_after latest databases.old }
    ensures seen { is_seen_after result deadline ≡ true }
    ensures kept { is_seen_after latest deadline ≡ true → (result ≡ latest) × (databases.new ≡ databases.old) }
{
    let moment = latest?;
    if is_live(moment, deadline) {
        return latest;
    }
    databases.sweep(moment);
    None
}

// Takes a few of the keys out that are gone at the moment, of the database whose turn it is. The turn passes on exactly where none of
// them is left there.
fn sweep_in_turn(databases: &mut Databases, turn: &mut Db, now: u64)
    ensures same_live { model.live databases.new now ≡ model.live databases.old now }
    ensures swept { IsSweptInTurn now turn.old turn.new databases.old databases.new }
{
    if databases.sweep_some(now, *turn) {
        return;
    }
    *turn = turn.next();
}

impl Sweeps {
    /// There was none.
    pub(crate) fn none() -> Sweeps
        ensures { result.latest ≡ None }
    {
        Sweeps {
            latest: None,
            turn: Db::FIRST,
        }
    }

    /// The moment at which what is stored and live is what is seen and live now.
    pub(crate) fn later(self, now: u64) -> u64
        ensures { (keyspace : model.Keyspace) → model.live (seen_after self.latest keyspace) now ≡ model.live keyspace result }
    {
        later(self.latest, now)
    }

    /// A key with this deadline would be seen from now on. What is seen is what was. Where the latest sweep would hide the key, each key
    /// that is gone is taken out.
    pub(crate) fn settle(&mut self, databases: &mut Databases, deadline: Option<i64>)
        ensures same { seen_after self.new.latest databases.new ≡ seen_after self.old.latest databases.old }
        ensures seen { is_seen_after self.new.latest deadline ≡ true }
        ensures kept { is_seen_after self.old.latest deadline ≡ true → (self.new.latest ≡ self.old.latest) × (databases.new ≡ databases.old) }
        ensures turn { self.new.turn ≡ self.old.turn }
    {
        self.latest = settle(databases, self.latest, deadline);
    }

    /// What is gone at the moment is seen no more, and a few of its keys are taken out, of the database whose turn it is.
    pub(crate) fn sweep(&mut self, databases: &mut Databases, now: u64)
        ensures seen { seen_after self.new.latest databases.new ≡ model.live (seen_after self.old.latest databases.old) now }
        ensures hides { IsSome self.new.latest }
        ensures swept { IfSome self.new.latest (λ moment. IsSweptInTurn moment self.old.turn self.new.turn databases.old databases.new) }
    {
        let now = later(self.latest, now);
        sweep_in_turn(databases, &mut self.turn, now);
        self.latest = Some(now);
    }
}
