// Where a range of so many items begins and ends. An index below 0 counts from the end.
ghost use Rattle.std.specs.Prelude.{◌≡◌, ◌≤◌};
ghost use Rattle.nr_model.specs.Strings.{range_start, range_end};

use std::cmp;

/// The place of the first item of a range, of so many items.
pub fn start_of(len: usize, index: i64) -> usize
    ensures start { result ≡ range_start len index }
    ensures bound { result ≤ len }
{
    if index < 0 {
        return len.saturating_sub(index.unsigned_abs() as usize);
    }
    cmp::min(index as usize, len)
}

/// The place behind the last item of a range, of so many items.
pub fn end_of(len: usize, index: i64) -> usize
    ensures end { result ≡ range_end len index }
    ensures bound { result ≤ len }
{
    if index < 0 {
        return len.saturating_sub(index.unsigned_abs() as usize - 1);
    }
    cmp::min(index as usize + 1, len)
}
