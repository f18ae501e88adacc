// What a key holds. A kind of value is a variant, and what is asked of a kind stands here: no command matches on a value.
ghost use Rattle.std.specs.Prelude.{◌≡◌, Ok, IfOk, IfErr, OnOk, OnErr};
ghost use Rattle.nr_model.specs.Keyspace.{Scores, Text};
ghost use Rattle.nr_model.specs.Commands.Held.{items_of, fields_of, members_of, scores_of};
ghost use Rattle.nr_model.specs.Commands.Keys.{kind_of};
ghost use Rattle.nr_model.specs.Commands.Reading.{fault};
ghost use Rattle.nr_model.specs.Commands.Strings.{text_of};
ghost use Rattle.nr_keyspace.specs.Values.{value_of};

use nr_blob::Memory;
use nr_hashes::Hash;
use nr_lists::List;
use nr_model::refused::Refused;
use nr_sets::Set;
use nr_strings::Str;
use nr_zsets::Zset;
use std::alloc::Global;

/// The value of a key. What is larger than a string stands in a block of its own, so that a string needs no more room than without it. To drop
/// a value is linear in it.
#[derive(Drop)]
pub enum Value {
    /// A string of bytes.
    String(Str),
    /// Items in order.
    List(List),
    /// Fields with their values.
    Hash(Hash),
    /// Members, each once.
    Set(Set),
    /// Members with their scores, in order.
    SortedSet(Box<Zset>),
}

impl From<Str> for Value {
    ghost use Rattle.std.specs.Prelude.{◌≡◌};
    ghost use Rattle.nr_model.specs.Keyspace.{Text};
    ghost use Rattle.nr_keyspace.specs.Values.{value_of};

    ghost from_gives = { λ bytes value. value_of value ≡ Text bytes };

    fn from(bytes: Str) -> Self {
        Value::String(bytes)
    }
}

impl From<List> for Value {
    ghost use Rattle.std.specs.Prelude.{◌≡◌};
    ghost use Rattle.nr_model.specs.Keyspace.{Items};
    ghost use Rattle.nr_keyspace.specs.Values.{value_of};

    ghost from_gives = { λ list value. value_of value ≡ Items list };

    fn from(list: List) -> Self {
        Value::List(list)
    }
}

impl From<Hash> for Value {
    ghost use Rattle.std.specs.Prelude.{◌≡◌};
    ghost use Rattle.nr_model.specs.Keyspace.{Fields};
    ghost use Rattle.nr_keyspace.specs.Values.{value_of};

    ghost from_gives = { λ hash value. value_of value ≡ Fields hash };

    fn from(hash: Hash) -> Self {
        Value::Hash(hash)
    }
}

impl From<Set> for Value {
    ghost use Rattle.std.specs.Prelude.{◌≡◌};
    ghost use Rattle.nr_model.specs.Keyspace.{Members};
    ghost use Rattle.nr_keyspace.specs.Values.{value_of};

    ghost from_gives = { λ set value. value_of value ≡ Members set };

    fn from(set: Set) -> Self {
        Value::Set(set)
    }
}

impl Value {
    /// A sorted set as a value.
    pub fn sorted_set(alloc: Global, zset: Zset) -> Result<Value, Memory>
        ensures { IfOk result (λ value. value_of value ≡ Scores zset) }
    {
        Ok(Value::SortedSet(Box::new(alloc, zset)?))
    }

    /// The same value once more. Linear in its size.
    pub fn copy(&self, alloc: Global) -> Result<Value, Memory>
        ensures { IfOk result (λ value. value_of value ≡ value_of self.now) }
    {
        match self {
            Value::String(text) => Ok(Value::String(text.copy()?)),
            Value::List(list) => Ok(Value::List(list.copy()?)),
            Value::Hash(hash) => Ok(Value::Hash(hash.copy()?)),
            Value::Set(set) => Ok(Value::Set(set.copy()?)),
            Value::SortedSet(zset) => Value::sorted_set(alloc, zset.copy()?),
        }
    }

    /// Becomes a string of these bytes. A string's block is kept as `Str::write` keeps it. Where memory runs out nothing is changed.
    pub(crate) fn write(&mut self, alloc: Global, text: &[u8]) -> Result<(), Memory>
        ensures ok { OnOk result (value_of self.new ≡ Text text.now) }
        ensures err { OnErr result (value_of self.new ≡ value_of self.old) }
    {
        if let Value::String(held) = self {
            held.write(text)?;
            return Ok(());
        }
        *self = Value::String(Str::from_slice(alloc, text)?);
        Ok(())
    }

    /// The name of its kind, as TYPE answers it.
    pub fn kind(&self) -> &'static str
        ensures { result.now ≡ kind_of (value_of self.now) }
    {
        match self {
            Value::String(_) => "string",
            Value::List(_) => "list",
            Value::Hash(_) => "hash",
            Value::Set(_) => "set",
            Value::SortedSet(_) => "zset",
        }
    }

    /// The string that it is. A value of another kind is refused.
    pub fn as_text(&self) -> Result<&Str, Refused>
        ensures text { IfOk result (λ text. text_of (value_of self.now) ≡ Ok text.now) }
        ensures refused { IfErr result (λ why. text_of (value_of self.now) ≡ fault why) }
    {
        match self {
            Value::String(text) => Ok(text),
            _ => Err(Refused::WrongType),
        }
    }

    /// The string that it was. A value of another kind is refused, and dropped.
    pub fn into_text(self) -> Result<Str, Refused>
        ensures text { IfOk result (λ text. text_of (value_of self) ≡ Ok text) }
        ensures refused { IfErr result (λ why. text_of (value_of self) ≡ fault why) }
    {
        match self {
            Value::String(string) => Ok(string),
            _ => Err(Refused::WrongType),
        }
    }

    /// The list that it is. A value of another kind is refused.
    pub fn as_list(&self) -> Result<&List, Refused>
        ensures items { IfOk result (λ list. items_of (value_of self.now) ≡ Ok list.now) }
        ensures refused { IfErr result (λ why. items_of (value_of self.now) ≡ fault why) }
    {
        match self {
            Value::List(list) => Ok(list),
            _ => Err(Refused::WrongType),
        }
    }

    /// The hash that it is. A value of another kind is refused.
    pub fn as_hash(&self) -> Result<&Hash, Refused>
        ensures fields { IfOk result (λ hash. fields_of (value_of self.now) ≡ Ok hash.now) }
        ensures refused { IfErr result (λ why. fields_of (value_of self.now) ≡ fault why) }
    {
        match self {
            Value::Hash(hash) => Ok(hash),
            _ => Err(Refused::WrongType),
        }
    }

    /// The set that it is. A value of another kind is refused.
    pub fn as_set(&self) -> Result<&Set, Refused>
        ensures members { IfOk result (λ set. members_of (value_of self.now) ≡ Ok set.now) }
        ensures refused { IfErr result (λ why. members_of (value_of self.now) ≡ fault why) }
    {
        match self {
            Value::Set(set) => Ok(set),
            _ => Err(Refused::WrongType),
        }
    }

    /// The sorted set that it is. A value of another kind is refused.
    pub fn as_sorted_set(&self) -> Result<&Zset, Refused>
        ensures scores { IfOk result (λ zset. scores_of (value_of self.now) ≡ Ok zset.now) }
        ensures refused { IfErr result (λ why. scores_of (value_of self.now) ≡ fault why) }
    {
        match self {
            Value::SortedSet(zset) => Ok(zset),
            _ => Err(Refused::WrongType),
        }
    }
}
