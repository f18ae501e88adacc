// Words that several commands on lists read.
ghost use Rattle.std.specs.Prelude.{◌≡◌, Ok, IfOk, IfErr};
ghost use Rattle.nr_model.specs.Commands.Reading.{fault};
ghost use Rattle.nr_model.specs.Commands.Strings as strings;
ghost use Rattle.nr_model.specs.Commands.Lists as lists;

use nr_blob::Blob;
use nr_model::command::End;
use nr_model::refused::Refused;
use nr_resp::words::{integer, is_word, three_words};

/// A key, and the first and the last index of a range.
#[derive(Drop)]
pub(crate) struct RangeRequest<'k> {
    pub(crate) name: &'k Blob,
    pub(crate) first: i64,
    pub(crate) last: i64,
}

/// The words of LRANGE and LTRIM.
pub(crate) fn range_request<'k>(words: &'k [Blob]) -> Result<RangeRequest<'k>, Refused>
    ensures request { IfOk result
        (λ request. strings.range_request words.now ≡ Ok (record { name = request.name.now; first = request.first; last = request.last })) }
    ensures refused { IfErr result (λ why. strings.range_request words.now ≡ fault why) }
{
    let (name, first, last) = three_words(words)?;
    let first = integer(first)?;
    let last = integer(last)?;
    Ok(RangeRequest { name, first, last })
}

/// The end that a word names.
pub(crate) fn end_of(word: &Blob) -> Result<End, Refused>
    ensures end { IfOk result (λ end. lists.end_of_word word.now ≡ Ok end) }
    ensures refused { IfErr result (λ why. lists.end_of_word word.now ≡ fault why) }
{
    if is_word("left", word) {
        return Ok(End::Left);
    }
    if is_word("right", word) {
        return Ok(End::Right);
    }
    Err(Refused::Syntax)
}
