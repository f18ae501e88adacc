// What the commands that tell of ranges read.
ghost use Rattle.std.specs.Prelude.{◌≡◌, Ok, Err, IfOk, IfErr};
ghost use Rattle.std.specs.Option.{option_map};
ghost use Rattle.nr_model.specs.Commands.Shape.{refusal};
ghost use Rattle.nr_model.specs.Commands.Reading.{fault};
ghost use Rattle.nr_model.specs.Commands.SortedSets as sorted_sets;
ghost use Rattle.nr_ranked.specs.Options.{options_of};
ghost use Rattle.nr_ranked.specs.Reading.{ends_of};

use crate::ranges::ends::{RangeEnds, ends_in};
use crate::ranges::options::{RangeOptions, options_in};
use nr_blob::Blob;
use nr_model::command::{RangeBy, RangeForm};
use nr_model::refused::Refused;
use nr_resp::words::three_words;

/// A key, and the ends of a range of it.
#[derive(Clone, Copy)]
pub(crate) struct EndsRequest<'k> {
    pub(crate) name: &'k Blob,
    pub(crate) ends: RangeEnds<'k>,
}

/// What the commands read that count a range or take it out.
pub(crate) fn ends_request<'k>(by: RangeBy, words: &'k [Blob]) -> Result<EndsRequest<'k>, Refused>
    ensures request { IfOk result
        (λ request. sorted_sets.ends_request by words.now ≡ Ok (record { name = request.name.now; ends = ends_of request.ends })) }
    ensures refused { IfErr result (λ why. sorted_sets.ends_request by words.now ≡ fault why) }
{
    let (name, a, b) = three_words(words)?;
    let ends = ends_in(by, false, a, b)?;
    Ok(EndsRequest { name, ends })
}

/// A key, the ends of a range of it, and how it is told.
#[derive(Clone, Copy)]
pub(super) struct RangeRequest<'k> {
    pub(super) name: &'k Blob,
    pub(super) ends: RangeEnds<'k>,
    pub(super) options: RangeOptions,
}

/// What ZRANGE and its like read. The ends are read by what the options say of them, and in front of the options' own faults.
pub(super) fn range_request<'k>(
    form: RangeForm,
    words: &'k [Blob],
) -> Result<RangeRequest<'k>, Refused>
    ensures request { IfOk result
        (λ request. sorted_sets.range_request form words.now
        ≡ Ok (record { name = request.name.now; ends = ends_of request.ends; options = options_of request.options })) }
    ensures refused { IfErr result (λ why. sorted_sets.range_request form words.now ≡ fault why) }
{
    let [name, a, b, words @ ..] = words else {
        return Err(Refused::Syntax);
    };
    let (options, fault) = options_in(form, words);
    let ends = ends_in(options.by, options.reversed, a, b)?;
    let options = without_fault(options, fault)?;
    Ok(RangeRequest {
        name,
        ends,
        options,
    })
}

fn without_fault(options: RangeOptions, fault: Option<Refused>) -> Result<RangeOptions, Refused>
    ensures options { IfOk result
        (λ same. sorted_sets.without_fault (record { options = options_of options; fault = option_map refusal fault }) ≡ Ok (options_of same)) }
    ensures refused { IfErr result
        (λ why. sorted_sets.without_fault (record { options = options_of options; fault = option_map refusal fault }) ≡ Err (refusal why)) }
{
    match fault {
        Some(why) => Err(why),
        None => options.fitting(),
    }
}
