// The pairs of a hash, one after another.
ghost use Rattle.std.specs.Prelude.{◌≡◌};
ghost use Rattle.std.specs.Map.{keys_of, values_of};
ghost use Rattle.std.specs.Map.Iter.{TakesFirst, deref_pair};
ghost use Rattle.nr_model.specs.Bytes.{Bytes};
ghost use Rattle.nr_packs.specs.Packed.{entries_in};

use nr_packs::{Listed, first_pair};
use std::marker::Model;

// The pairs that are left, in the form that they are held in.
#[derive(Drop)]
enum Rest<'a> {
    Packed(&'a [u8]),
    Listed(Listed<'a>),
}

/// Fields with their values, lent, by the fields' byte order. It is seen as those that are left.
#[derive(Drop)]
pub struct Pairs<'a> {
    rest: Rest<'a>,
}

impl<'a> Model for Pairs<'a> {
    ghost use Rattle.std.specs.Prelude.{List};
    ghost use Rattle.nr_model.specs.Bytes.{Bytes};

    ghost Value = { List (Bytes × Bytes) };

    ghost use Rattle.nr_hashes.specs.Listed.{left};

    ghost view = { λ pairs. left pairs.rest };
}

impl<'a> Pairs<'a> {
    /// The pairs of a block.
    pub(crate) fn packed(bytes: &'a [u8]) -> Pairs<'a>
        ensures { result ≡ entries_in bytes.now }
    {
        Pairs {
            rest: Rest::Packed(bytes),
        }
    }

    /// The pairs of a table.
    pub(crate) fn listed(pairs: Listed<'a>) -> Pairs<'a>
        ensures { result ≡ pairs.entry }
    {
        Pairs {
            rest: Rest::Listed(pairs),
        }
    }
}

impl<'a> Iterator for Pairs<'a> {
    ghost use Rattle.std.specs.Iterator.{YieldsFirstBy, item_count};

    type Item = (&'a [u8], &'a [u8]);

    ghost next_gives = { YieldsFirstBy (λ pair. (pair.0.now, pair.1.now)) (λ pairs. pairs) };

    ghost remaining = { item_count (λ pairs. pairs) };

    fn next(&mut self) -> Option<(&'a [u8], &'a [u8])> {
        match &mut self.rest {
            Rest::Packed(bytes) => next_packed(bytes),
            Rest::Listed(pairs) => pairs.next(),
        }
    }
}

// The pair that stands first, which is taken off.
fn next_packed<'a>(bytes: &mut &'a [u8]) -> Option<(&'a [u8], &'a [u8])>
    ensures { TakesFirst (deref_pair {K = Bytes} {X = Bytes}) (entries_in bytes.old.now) result (entries_in bytes.new.now) }
{
    let Some((field, value, others)) = first_pair(bytes) else {
        return None;
    };
    *bytes = others;
    Some((field, value))
}

/// Fields, lent, in byte order. It is seen as those that are left.
#[derive(Drop)]
pub struct Fields<'a> {
    pairs: Pairs<'a>,
}

impl<'a> Model for Fields<'a> {
    ghost use Rattle.std.specs.Prelude.{List};
    ghost use Rattle.std.specs.Map.{keys_of};
    ghost use Rattle.nr_model.specs.Bytes.{Bytes};

    ghost Value = { List Bytes };

    ghost view = { λ fields. keys_of fields.pairs };
}

impl<'a> Fields<'a> {
    /// The fields of pairs.
    pub(crate) fn of(pairs: Pairs<'a>) -> Fields<'a>
        ensures { result ≡ keys_of pairs.entry }
    {
        Fields { pairs }
    }
}

impl<'a> Iterator for Fields<'a> {
    ghost use Rattle.std.specs.Iterator.{YieldsFirstBy, item_count};

    type Item = &'a [u8];

    ghost next_gives = { YieldsFirstBy (λ field. field.now) (λ fields. fields) };

    ghost remaining = { item_count (λ fields. fields) };

    fn next(&mut self) -> Option<&'a [u8]> {
        let Some((field, _)) = self.pairs.next() else {
            return None;
        };
        Some(field)
    }
}

/// Values, lent, by their fields' byte order. It is seen as those that are left.
#[derive(Drop)]
pub struct Values<'a> {
    pairs: Pairs<'a>,
}

impl<'a> Model for Values<'a> {
    ghost use Rattle.std.specs.Prelude.{List};
    ghost use Rattle.std.specs.Map.{values_of};
    ghost use Rattle.nr_model.specs.Bytes.{Bytes};

    ghost Value = { List Bytes };

    ghost view = { λ values. values_of values.pairs };
}

impl<'a> Values<'a> {
    /// The values of pairs.
    pub(crate) fn of(pairs: Pairs<'a>) -> Values<'a>
        ensures { result ≡ values_of pairs.entry }
    {
        Values { pairs }
    }
}

impl<'a> Iterator for Values<'a> {
    ghost use Rattle.std.specs.Iterator.{YieldsFirstBy, item_count};

    type Item = &'a [u8];

    ghost next_gives = { YieldsFirstBy (λ value. value.now) (λ values. values) };

    ghost remaining = { item_count (λ values. values) };

    fn next(&mut self) -> Option<&'a [u8]> {
        let Some((_, value)) = self.pairs.next() else {
            return None;
        };
        Some(value)
    }
}
