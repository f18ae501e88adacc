// Databases, as words name them.
ghost use Rattle.std.specs.Prelude.{◌≡◌, Ok, IfOk, IfErr};
ghost use Rattle.nr_model.specs.Commands.Reading as reading;
ghost use Rattle.nr_model.specs.Commands.Reading.{fault};

use nr_blob::Blob;
use nr_keyspace::Db;
use nr_model::refused::Refused;
use nr_resp::words::integer;

/// The database whose index a word spells, from 0 to 15.
pub(crate) fn database_index(word: &Blob) -> Result<Db, Refused>
    ensures database { IfOk result (λ database. reading.database_index word.now ≡ Ok database) }
    ensures refused { IfErr result (λ why. reading.database_index word.now ≡ fault why) }
{
    database_of(integer(word)?)
}

/// The database of an index, from 0 to 15.
pub(crate) fn database_of(index: i64) -> Result<Db, Refused>
    ensures database { IfOk result (λ database. reading.database_of index ≡ Ok database) }
    ensures refused { IfErr result (λ why. reading.database_of index ≡ fault why) }
{
    if index < 0 || index > 15 {
        return Err(Refused::NoSuchDatabase);
    }
    match Db::new(index as usize) {
        Some(database) => Ok(database),
        None => Err(Refused::NoSuchDatabase),
    }
}
