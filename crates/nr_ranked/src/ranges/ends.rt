// The ends of a range.
ghost use Rattle.std.specs.Prelude.{◌≡◌, ℤ, Ok, IfOk, IfErr};
ghost use Rattle.nr_model.specs.Bytes.{Bytes};
ghost use Rattle.nr_model.specs.SortedSets as model;
ghost use Rattle.nr_model.specs.Commands.Reading.{fault};
ghost use Rattle.nr_model.specs.Commands.SortedSets as sorted_sets;
ghost use Rattle.nr_model.specs.declared.refused.Refused.TheVariants as refusals;
ghost use Rattle.nr_zbounds.specs.Seen.{seen_score, seen_bytes};
ghost use Rattle.nr_zbounds.specs.Ranges.{seen_bounds};
ghost use Rattle.nr_ranked.specs.Reading.{ends_of};

use nr_blob::Blob;
use nr_model::command::RangeBy;
use nr_model::refused::Refused;
use nr_resp::words::integer;
use nr_zbounds::{Bounds, ByteBound, ScoreBound, read_byte_bound, read_score_bound};

/// The ends of a range: places, of which those below 0 count from the end, or bounds.
#[derive(Clone, Copy)]
pub(crate) enum RangeEnds<'k> {
    Places(i64, i64),
    Within(Bounds<'k>),
}

/// The ends that two words spell, the first being the lower end unless the range is reversed; places are told from the end where it is.
pub(super) fn ends_in<'k>(
    by: RangeBy,
    reversed: bool,
    a: &'k Blob,
    b: &'k Blob,
) -> Result<RangeEnds<'k>, Refused>
    ensures ends { IfOk result (λ ends. sorted_sets.ends_of by reversed a.now b.now ≡ Ok (ends_of ends)) }
    ensures refused { IfErr result (λ why. sorted_sets.ends_of by reversed a.now b.now ≡ fault why) }
{
    match by {
        RangeBy::Places => Ok(RangeEnds::Places(integer(a)?, integer(b)?)),
        RangeBy::Scores => {
            let (a, b) = (score_bound(a)?, score_bound(b)?);
            Ok(RangeEnds::Within(score_ends(reversed, a, b)))
        }
        RangeBy::Members => {
            let (a, b) = (byte_bound(a)?, byte_bound(b)?);
            Ok(RangeEnds::Within(member_ends(reversed, a, b)))
        }
    }
}

fn score_bound(word: &Blob) -> Result<ScoreBound, Refused>
    ensures bound { IfOk result (λ bound. sorted_sets.bound_or refusals.ScoreBound (model.score_bound word.now) ≡ Ok (seen_score bound)) }
    ensures refused { IfErr result (λ why. sorted_sets.bound_or {A = ℤ} refusals.ScoreBound (model.score_bound word.now) ≡ fault why) }
{
    match read_score_bound(word.bytes()) {
        Some(bound) => Ok(bound),
        None => Err(Refused::ScoreBound),
    }
}

fn byte_bound(word: &Blob) -> Result<ByteBound<'_>, Refused>
    ensures bound { IfOk result (λ bound. sorted_sets.bound_or refusals.MemberBound (model.byte_bound word.now) ≡ Ok (seen_bytes bound)) }
    ensures refused { IfErr result (λ why. sorted_sets.bound_or {A = Bytes} refusals.MemberBound (model.byte_bound word.now) ≡ fault why) }
{
    match read_byte_bound(word.bytes()) {
        Some(bound) => Ok(bound),
        None => Err(Refused::MemberBound),
    }
}

fn score_ends<'k>(reversed: bool, a: ScoreBound, b: ScoreBound) -> Bounds<'k>
    ensures { seen_bounds result ≡ sorted_sets.score_ends reversed (seen_score a) (seen_score b) }
{
    if reversed {
        Bounds::ByScore(b, a)
    } else {
        Bounds::ByScore(a, b)
    }
}

fn member_ends<'k>(reversed: bool, a: ByteBound<'k>, b: ByteBound<'k>) -> Bounds<'k>
    ensures { seen_bounds result ≡ sorted_sets.member_ends reversed (seen_bytes a.entry) (seen_bytes b.entry) }
{
    if reversed {
        Bounds::ByBytes(b, a)
    } else {
        Bounds::ByBytes(a, b)
    }
}
