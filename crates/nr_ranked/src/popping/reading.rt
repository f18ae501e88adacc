// What ZPOPMIN and ZPOPMAX read.
ghost use Rattle.std.specs.Prelude.{◌≡◌, Ok, IfOk, IfErr};
ghost use Rattle.nr_model.specs.Commands.Reading.{fault};
ghost use Rattle.nr_model.specs.Commands.SortedSets as sorted_sets;

use nr_blob::Blob;
use nr_model::refused::Refused;
use nr_resp::words::natural;

/// A key, and how many members it loses.
#[derive(Clone, Copy)]
pub(super) struct PopRequest<'k> {
    pub(super) name: &'k Blob,
    pub(super) count: usize,
}

/// What both commands read: one member where no count is given.
pub(super) fn pop_request<'k>(words: &'k [Blob]) -> Result<PopRequest<'k>, Refused>
    ensures request { IfOk result (λ request. sorted_sets.pop_request words.now ≡ Ok (record { name = request.name.now; count = request.count })) }
    ensures refused { IfErr result (λ why. sorted_sets.pop_request words.now ≡ fault why) }
{
    let Some((name, words)) = words.split_first() else {
        return Err(Refused::Syntax);
    };
    let Some((count, words)) = words.split_first() else {
        return Ok(PopRequest { name, count: 1 });
    };
    let count = natural(Refused::NotPositive, count)?;
    if !words.is_empty() {
        return Err(Refused::Syntax);
    }
    Ok(PopRequest { name, count })
}
