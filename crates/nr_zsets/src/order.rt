// The order of members, by their scores and of equal scores by their bytes, the cuts through it, and what is between bounds.
ghost use Rattle.std.specs.Prelude.{not, bytes_eq};
ghost use Rattle.nr_model.specs.SortedSets.{is_between};
ghost use Rattle.nr_zbounds.specs.Ranges.{seen_bounds, is_from, is_up_to};
ghost use Rattle.nr_zsets.specs.Scores.{is_before};

use nr_ordered::{Cut, Test};
use nr_zbounds::Bounds;

/// The cut in front of a member with this score.
#[derive(Clone, Copy)]
pub(crate) struct Before<'a> {
    pub(crate) member: &'a [u8],
    pub(crate) score: i64,
}

impl<'a> Cut for Before<'a> {
    ghost parts = { λ before. is_before (before.member.now, before.score) };

    fn is_behind(&self, member: &[u8], score: i64) -> bool {
        if score != self.score {
            return score < self.score;
        }
        member.cmp(&self.member).is_lt()
    }
}

/// The cut in front of the first that stands at or behind the lower end of a range.
#[derive(Clone, Copy)]
pub(crate) struct LowerEnd<'a, 'b> {
    pub(crate) bounds: &'a Bounds<'b>,
}

impl<'a, 'b> Cut for LowerEnd<'a, 'b> {
    ghost parts = { λ cut scored. not (is_from (seen_bounds cut.bounds.now) scored) };

    fn is_behind(&self, member: &[u8], score: i64) -> bool {
        !self.bounds.is_from(member, score)
    }
}

/// The cut behind the last that stands at or before the upper end of a range.
#[derive(Clone, Copy)]
pub(crate) struct UpperEnd<'a, 'b> {
    pub(crate) bounds: &'a Bounds<'b>,
}

impl<'a, 'b> Cut for UpperEnd<'a, 'b> {
    ghost parts = { λ cut. is_up_to (seen_bounds cut.bounds.now) };

    fn is_behind(&self, member: &[u8], score: i64) -> bool {
        self.bounds.is_up_to(member, score)
    }
}

/// What is between bounds.
#[derive(Clone, Copy)]
pub(crate) struct Between<'a, 'b> {
    pub(crate) bounds: &'a Bounds<'b>,
}

impl<'a, 'b> Test for Between<'a, 'b> {
    ghost passing = { λ between. is_between (seen_bounds between.bounds.now) };

    fn passes(&self, member: &[u8], score: i64) -> bool {
        self.bounds.holds(member, score)
    }
}

/// What has these bytes as its member.
#[derive(Clone, Copy)]
pub(crate) struct Named<'a> {
    pub(crate) member: &'a [u8],
}

impl<'a> Test for Named<'a> {
    ghost passing = { λ named scored. bytes_eq named.member.now scored.0 };

    fn passes(&self, member: &[u8], _: i64) -> bool {
        self.member == member
    }
}
