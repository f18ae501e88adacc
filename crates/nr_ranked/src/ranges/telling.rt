// The members of a range, told in a direction, counted, or taken out.
ghost use Rattle.std.specs.Prelude.{◌≡◌, ◌<◌, ◌^◌, None, IfOk, OnOk, OnErr, length, map};
ghost use Rattle.std.specs.Option.{option_map};
ghost use Rattle.nr_model.specs.SortedSets.{ranked, told_range, without};
ghost use Rattle.nr_model.specs.SortedSets as model;
ghost use Rattle.nr_model.specs.Strings.{range_start, range_end};
ghost use Rattle.nr_model.specs.declared.command.Direction.TheVariants.{Ascending};
ghost use Rattle.nr_zsets.specs.Lists.{shown};
ghost use Rattle.nr_zbounds.specs.Ranges.{seen_bounds};
ghost use Rattle.nr_ranked.specs.Options.{limit_of};
ghost use Rattle.nr_ranked.specs.Reading.{ends_of, most_of};

use crate::ranges::ends::RangeEnds;
use crate::ranges::options::Limit;
use nr_blob::{Memory, end_of, start_of};
use nr_model::command::Direction;
use nr_zbounds::Bounds;
use nr_zsets::Zset;
use std::alloc::Global;

/// Lends the members of a range, in the direction in which they are told.
pub(super) fn told_in<'k>(
    alloc: Global,
    zset: &'k Zset,
    ends: &RangeEnds<'_>,
    direction: Direction,
    limit: Option<Limit>,
) -> Result<Vec<(&'k [u8], i64)>, Memory>
    ensures { IfOk result (λ told. map shown told.items ≡ told_range (ends_of ends.now) direction (option_map limit_of limit) zset.now) }
{
    match ends {
        RangeEnds::Places(first, last) => {
            let (from, to) = places(zset.len(), *first, *last);
            zset.by_place(direction, from, to)
        }
        RangeEnds::Within(bounds) => told_within(alloc, zset, bounds, direction, limit),
    }
}

// Where a range of so many items begins, and where it ends.
fn places(len: usize, first: i64, last: i64) -> (usize, usize)
    ensures from { result.0 ≡ range_start len first }
    ensures to { result.1 ≡ range_end len last }
{
    (start_of(len, first), end_of(len, last))
}

fn told_within<'k>(
    alloc: Global,
    zset: &'k Zset,
    bounds: &Bounds<'_>,
    direction: Direction,
    limit: Option<Limit>,
) -> Result<Vec<(&'k [u8], i64)>, Memory>
    ensures { IfOk result
        (λ told. map shown told.items ≡ told_range (model.Within (seen_bounds bounds.now)) direction (option_map limit_of limit) zset.now) }
{
    let Some(Limit { offset, count }) = limit else {
        return zset.between(bounds, direction, 0, None);
    };
    if offset < 0 {
        return Ok(Vec::new(alloc));
    }
    zset.between(bounds, direction, offset as usize, most_of(count))
}

// So many at most; a count below 0 is no limit.
fn most_of(count: i64) -> Option<usize>
    ensures { result ≡ most_of count }
{
    if count < 0 {
        return None;
    }
    Some(count as usize)
}

/// How many members a range has.
pub(super) fn count_in(zset: &Zset, ends: &RangeEnds<'_>) -> usize
    ensures count { result ≡ length (told_range (ends_of ends.now) Ascending None zset.now) }
    ensures small { result < 2 ^ 63 }
{
    match ends {
        RangeEnds::Places(first, last) => {
            let (from, to) = places(zset.len(), *first, *last);
            to.saturating_sub(from)
        }
        RangeEnds::Within(bounds) => zset.count(bounds),
    }
}

/// Takes the members of a range out. Where memory runs out nothing is changed.
pub(crate) fn take_out(zset: &mut Zset, ends: &RangeEnds<'_>) -> Result<(), Memory>
    ensures removed { OnOk result (zset.new ≡ without (told_range (ends_of ends.now) Ascending None zset.old) zset.old) }
    ensures err { OnErr result (zset.new ≡ zset.old) }
{
    match ends {
        RangeEnds::Places(first, last) => {
            let (from, to) = places(zset.len(), *first, *last);
            zset.remove_by_place(from, to)?;
            Ok(())
        }
        RangeEnds::Within(bounds) => {
            zset.remove_between(bounds)?;
            Ok(())
        }
    }
}
