// What commands do to the value of a key, where it lies.
ghost use Rattle.std.specs.Prelude.{◌≡◌, IfOk, IfErr, OnErr, Result};
ghost use Rattle.nr_model.specs.Bytes.{Bytes};
ghost use Rattle.nr_model.specs.Keyspace as model;
ghost use Rattle.nr_model.specs.declared.refused.Refused as refusals;
ghost use Rattle.nr_keyspace.specs.Values.{value_of};

use crate::value::Value;
use nr_blob::Memory;
use nr_model::refused::Refused;
use nr_strings::Str;

/// What a command does to the value of a live key, in place.
pub trait Edit: Drop {
    /// What the command is told of the value.
    type Given;

    /// A value, what becomes of it, and what the command is told.
    ghost edits: { Self → model.Value → model.Value → Self.Given → Type 0 };

    /// Where memory runs out the value is as it was.
    fn edit(self, value: &mut Value) -> Result<Self::Given, Memory>
        ensures ok { IfOk result (λ given. edits self (value_of value.old) (value_of value.new) given) }
        ensures err { OnErr result (value_of value.new ≡ value_of value.old) };
}

/// What a command does to a string, in place.
pub trait StringEdit: Drop {
    /// What the command is told of the string.
    type Given;

    /// A string, what becomes of it, and what the command is told, or why it is refused.
    ghost edits: { Self → Bytes → Bytes → Result Self.Given refusals.Refused → Type 0 };

    /// Where it is refused, or memory runs out, the string is as it was.
    fn edit(self, text: &mut Str) -> Result<Result<Self::Given, Refused>, Memory>
        ensures ok { IfOk result (λ given. edits self text.old text.new given) }
        ensures refused { IfOk result (λ given. OnErr given (text.new ≡ text.old)) }
        ensures err { OnErr result (text.new ≡ text.old) };
}

/// What a command does to a value that has to be a string. A value of another kind is refused, and stays as it was.
#[derive(Drop)]
pub struct OnString<E> {
    /// What is done to the string.
    pub edit: E,
}

impl<E: StringEdit> Edit for OnString<E> {
    ghost use Rattle.nr_keyspace.specs.Edited.{EditsText};

    type Given = Result<E::Given, Refused>;

    ghost edits = { λ on old new given. EditsText (E.edits on.edit) old new given };

    fn edit(self, value: &mut Value) -> Result<Result<E::Given, Refused>, Memory> {
        match value {
            Value::String(text) => {
                let given = self.edit.edit(text)?;
                Ok(given)
            }
            _ => Ok(Err(Refused::WrongType)),
        }
    }
}
