// Which of the sixteen databases: a number that can't be out of range.
ghost use Rattle.std.specs.Prelude.{ℕ, get_or, ◌≡◌, ◌<◌, ◌↔◌, ◌+◌, ◌%◌, IsSome, IfSome};
ghost use Rattle.nr_model.specs.Keyspace.{how_many_databases};

use std::array;
use std::marker::Model;

pub(crate) const DATABASES: usize = 16;

/// A database's number, from 0 to 15.
#[derive(Clone, Copy, Debug, PartialEq, Eq, PartialOrd, Ord)]
pub struct Db {
    index: u8,
}

impl Model for Db {
    ghost use Rattle.std.specs.Prelude.{ℕ, ◌<◌};
    ghost use Rattle.nr_model.specs.Keyspace.{how_many_databases};

    ghost Value = { ℕ };

    ghost view = { λ d. d.index };

    ghost invariant = { λ d. d.index < how_many_databases };

    ghost inverse = { λ index. record { index = index } };
}

impl Db {
    /// The database in which a connection begins.
    pub const FIRST: Db = Db { index: 0 };

    /// Each of them, in order.
    pub fn all() -> [Db; DATABASES]
        ensures { (index other : ℕ) → index < how_many_databases → get_or result index other ≡ index }
    {
        array::from_fn(
            |index|
                requires { index < how_many_databases }
                ensures { result ≡ index }
            { Db { index: index as u8 } },
        )
    }

    /// `None` at 16 and above.
    pub fn new(index: usize) -> Option<Db>
        ensures exists { IsSome result ↔ (index < how_many_databases) }
        ensures value { IfSome result (λ database. database ≡ index) }
    {
        if index < DATABASES {
            Some(Db { index: index as u8 })
        } else {
            None
        }
    }

    /// The one behind, and the first behind the last.
    pub(crate) fn next(self) -> Db
        ensures { result ≡ (self + 1) % how_many_databases }
    {
        Db {
            index: (self.index + 1) % DATABASES as u8,
        }
    }

    pub fn index(self) -> usize
        ensures value { result ≡ self }
        ensures below { result < how_many_databases }
    {
        self.index as usize
    }
}
