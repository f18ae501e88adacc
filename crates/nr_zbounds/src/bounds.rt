// The bounds of a range of members.
ghost use Rattle.std.specs.Prelude.{◌≡◌};
ghost use Rattle.nr_model.specs.SortedSets as model;
ghost use Rattle.nr_zbounds.specs.Ranges.{seen_bounds, is_from, is_up_to};

use crate::bound::{ByteBound, ScoreBound};

/// The ends of a range: of scores, or of members by their bytes, whatever their scores are.
#[derive(Clone, Copy, Debug)]
pub enum Bounds<'a> {
    ByScore(ScoreBound, ScoreBound),
    ByBytes(ByteBound<'a>, ByteBound<'a>),
}

impl<'a> Bounds<'a> {
    /// Whether a member stands at or behind the lower end.
    pub fn is_from(&self, member: &[u8], score: i64) -> bool
        ensures { result ≡ is_from (seen_bounds self.now) (member.now, score) }
    {
        match self {
            Bounds::ByScore(min, _) => min.is_lower_bound_of(&score),
            Bounds::ByBytes(min, _) => min.is_lower_bound_of(&member),
        }
    }

    /// Whether a member stands at or before the upper end.
    pub fn is_up_to(&self, member: &[u8], score: i64) -> bool
        ensures { result ≡ is_up_to (seen_bounds self.now) (member.now, score) }
    {
        match self {
            Bounds::ByScore(_, max) => max.is_upper_bound_of(&score),
            Bounds::ByBytes(_, max) => max.is_upper_bound_of(&member),
        }
    }

    /// Whether a member stands between both ends.
    pub fn holds(&self, member: &[u8], score: i64) -> bool
        ensures { result ≡ model.is_between (seen_bounds self.now) (member.now, score) }
    {
        self.is_from(member, score) && self.is_up_to(member, score)
    }
}
