// What a key holds, as a string.
ghost use Rattle.std.specs.Prelude.{◌≡◌, Ok, IfOk, IfErr};
ghost use Rattle.std.specs.Option.{option_map};
ghost use Rattle.nr_model.specs.Keyspace.{live};
ghost use Rattle.nr_model.specs.Commands.Reading.{fault};
ghost use Rattle.nr_model.specs.Commands.Strings as strings;
ghost use Rattle.nr_resp.specs.Shown.{shown_reply};

use nr_blob::{Blob, Memory};
use nr_keyspace::{Db, Keyspace};
use nr_model::refused::Refused;
use nr_resp::{Reply, Shown};
use nr_strings::Str;

/// The text that a key holds. A key of another kind is refused.
pub(super) fn text_at<'k>(
    keyspace: &'k Keyspace,
    now: u64,
    database: Db,
    name: &Blob,
) -> Result<Option<&'k Str>, Refused>
    ensures text { IfOk result (λ text. strings.text_at (live keyspace.now now) database name.now ≡ Ok (option_map (λ text. text.now) text)) }
    ensures refused { IfErr result (λ why. strings.text_at (live keyspace.now now) database name.now ≡ fault why) }
{
    match keyspace.get(now, database, name) {
        Some(value) => Ok(Some(value.as_text()?)),
        None => Ok(None),
    }
}

/// A word as a text, copied.
pub(super) fn owned(word: &Blob) -> Result<Str, Memory>
    ensures { IfOk result (λ text. text ≡ word.now) }
{
    Ok(Str::from(word.copy()?))
}

/// A text as a bulk, lent, and the null bulk for none.
pub(super) fn bulk_or_null<'k>(text: Option<&'k Str>) -> Shown<'k>
    ensures { shown_reply result ≡ strings.bulk_or_null (option_map (λ text. text.now) text.entry) }
{
    match text {
        Some(text) => Shown::Bulk(text.bytes()),
        None => Shown::Owned(Reply::NullBulk),
    }
}
