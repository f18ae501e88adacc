// The members of a set, one after another.
ghost use Rattle.std.specs.Prelude.{◌≡◌};
ghost use Rattle.std.specs.Map.{keys_of};
ghost use Rattle.std.specs.Map.Iter.{TakesFirst, deref};
ghost use Rattle.nr_model.specs.Bytes.{Bytes};
ghost use Rattle.nr_packs.specs.Packed.{entries_in};

use nr_packs::{Listed, first_pair};
use std::marker::Model;

// The members that are left, in the form that they are held in.
#[derive(Drop)]
enum Rest<'a> {
    Packed(&'a [u8]),
    Listed(Listed<'a>),
}

/// Members, lent, in byte order. It is seen as those that are left.
#[derive(Drop)]
pub struct Members<'a> {
    rest: Rest<'a>,
}

impl<'a> Model for Members<'a> {
    ghost use Rattle.std.specs.Prelude.{List};
    ghost use Rattle.std.specs.Map.{keys_of};
    ghost use Rattle.nr_model.specs.Bytes.{Bytes};

    ghost Value = { List Bytes };

    ghost use Rattle.nr_sets.specs.Listed.{left};

    ghost view = { λ members. keys_of (left members.rest) };
}

impl<'a> Members<'a> {
    /// The members in a block.
    pub(crate) fn packed(bytes: &'a [u8]) -> Members<'a>
        ensures { result ≡ keys_of (entries_in bytes.now) }
    {
        Members {
            rest: Rest::Packed(bytes),
        }
    }

    /// The members in a table.
    pub(crate) fn listed(members: Listed<'a>) -> Members<'a>
        ensures { result ≡ keys_of members.entry }
    {
        Members {
            rest: Rest::Listed(members),
        }
    }
}

impl<'a> Iterator for Members<'a> {
    ghost use Rattle.std.specs.Iterator.{YieldsFirstBy, item_count};

    type Item = &'a [u8];

    ghost next_gives = { YieldsFirstBy (λ member. member.now) (λ members. members) };

    ghost remaining = { item_count (λ members. members) };

    fn next(&mut self) -> Option<&'a [u8]> {
        match &mut self.rest {
            Rest::Packed(bytes) => next_packed(bytes),
            Rest::Listed(members) => next_listed(members),
        }
    }
}

// The member that stands first, which is taken off.
fn next_packed<'a>(bytes: &mut &'a [u8]) -> Option<&'a [u8]>
    ensures { TakesFirst (deref {X = Bytes}) (keys_of (entries_in bytes.old.now)) result (keys_of (entries_in bytes.new.now)) }
{
    let Some((member, _, others)) = first_pair(bytes) else {
        return None;
    };
    *bytes = others;
    Some(member)
}

fn next_listed<'a>(members: &mut Listed<'a>) -> Option<&'a [u8]>
    ensures { TakesFirst (deref {X = Bytes}) (keys_of members.old) result (keys_of members.new) }
{
    let Some((member, _)) = members.next() else {
        return None;
    };
    Some(member)
}
