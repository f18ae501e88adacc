// Where an index or a side points to. An index below 0 counts from the end.
ghost use Rattle.std.specs.Prelude.{◌≡◌, ◌<◌, ◌^◌, IfSome};
ghost use Rattle.nr_model.specs.Lists.{place_of, beside};

use nr_model::command::Side;

/// The place of an index among so many items.
pub(crate) fn place(len: usize, index: i64) -> Option<usize>
    ensures place { result ≡ place_of len index }
    ensures bound { IfSome result (λ place. place < len) }
{
    if index < 0 {
        let nth = index.unsigned_abs() as usize;
        return if nth <= len { Some(len - nth) } else { None };
    }
    let place = index as usize;
    if place < len { Some(place) } else { None }
}

/// The place at a side of another.
pub(crate) fn beside(side: Side, place: usize) -> usize
    requires { place < 2 ^ 63 }
    ensures { result ≡ beside side place }
{
    match side {
        Side::Before => place,
        Side::After => place + 1,
    }
}
