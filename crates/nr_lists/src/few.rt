// The items of a small list, lent: their lengths, and their bytes behind one another.
ghost use Rattle.std.specs.Prelude.{◌≡◌, ◌≤◌, ◌<◌, ◌^◌, ◌++◌, [], length, take, drop, slice_get, IfNone};
ghost use Rattle.std.specs.Option.{option_map, option_to_list};
ghost use Rattle.nr_model.specs.Lists.{seen_from};
ghost use Rattle.nr_lists.specs.Packed.{total, cut};

use nr_model::command::End;
use std::marker::Model;

/// A few short items, lent. They are seen as a list of byte lists.
#[derive(Drop)]
pub(crate) struct Few<'a> {
    pub(crate) lens: &'a [u8],
    pub(crate) bytes: &'a [u8],
}

impl<'a> Model for Few<'a> {
    ghost use Rattle.std.specs.Prelude.{◌≡◌, List, length};
    ghost use Rattle.nr_model.specs.Bytes.{Bytes};
    ghost use Rattle.nr_lists.specs.Packed.{total, cut};

    ghost Value = { List Bytes };

    ghost view = { λ items. cut items.lens.now items.bytes.now };

    ghost invariant = { λ items. total items.lens.now ≡ length items.bytes.now };
}

impl<'a> Few<'a> {
    /// The items of these lengths.
    pub(crate) fn new(lens: &'a [u8], bytes: &'a [u8]) -> Few<'a>
        requires { total lens.now ≡ length bytes.now }
        ensures { result ≡ cut lens.now bytes.now }
    {
        Few { lens, bytes }
    }

    /// How many. Constant.
    pub(crate) fn len(&self) -> usize
        ensures len { result ≡ length self.now }
        ensures small { result < 2 ^ 63 }
    {
        self.lens.len()
    }

    /// The item at a place. Linear in the items in front of it.
    pub(crate) fn get(&self, place: usize) -> Option<&'a [u8]>
        ensures { option_map (λ item. item.now) result ≡ slice_get self.now place }
    {
        item_at(self.lens, self.bytes, place)
    }

    /// The items in front of a place, and those from it on. Linear in those in front.
    pub(crate) fn split_at(&self, place: usize) -> (Few<'a>, Few<'a>)
        requires { place ≤ length self.now }
        ensures before { result.0 ≡ take place self.now }
        ensures behind { result.1 ≡ drop place self.now }
    {
        parted(self.lens, self.bytes, place)
    }

    /// Takes the item at an end off. Constant.
    pub(crate) fn take(&mut self, end: End) -> Option<&'a [u8]>
        ensures item { seen_from end self.old ≡ option_to_list (option_map (λ item. item.now) result) ++ seen_from end self.new }
        ensures none { IfNone result (self.old ≡ []) }
    {
        match end {
            End::Left => take_first(&mut self.lens, &mut self.bytes),
            End::Right => take_last(&mut self.lens, &mut self.bytes),
        }
    }
}

// The sum of lengths.
fn total(lens: &[u8]) -> usize
    requires { total lens.now < 2 ^ 63 }
    ensures { result ≡ total lens.now }
{
    let mut total = 0;
    for len in lens {
        total += usize::from(*len);
    }
    total
}

/// How many of so many bytes are in front of an item. Linear in the items in front of it.
pub(crate) fn offset(lens: &[u8], bytes: usize, place: usize) -> usize
    requires place { place ≤ length lens.now }
    requires whole { total lens.now ≡ bytes }
    requires small { bytes < 2 ^ 63 }
    ensures offset { result ≡ total (take place lens.now) }
    ensures within { result ≤ bytes }
{
    let (before, _) = lens.split_at(place);
    total(before)
}

// The item at a place.
fn item_at<'a>(lens: &[u8], bytes: &'a [u8], place: usize) -> Option<&'a [u8]>
    requires { total lens.now ≡ length bytes.now }
    ensures { option_map (λ item. item.now) result ≡ slice_get (cut lens.now bytes.now) place }
{
    if place >= lens.len() {
        return None;
    }
    let (_, behind) = bytes.split_at(offset(lens, bytes.len(), place));
    let (item, _) = behind.split_at(usize::from(lens[place]));
    Some(item)
}

// The items in front of a place, and those from it on.
fn parted<'a>(lens: &'a [u8], bytes: &'a [u8], place: usize) -> (Few<'a>, Few<'a>)
    requires whole { total lens.now ≡ length bytes.now }
    requires place { place ≤ length (cut lens.now bytes.now) }
    ensures before { result.0 ≡ take place (cut lens.now bytes.now) }
    ensures behind { result.1 ≡ drop place (cut lens.now bytes.now) }
{
    let (before, behind) = bytes.split_at(offset(lens, bytes.len(), place));
    let (lens_before, lens_behind) = lens.split_at(place);
    (Few::new(lens_before, before), Few::new(lens_behind, behind))
}

// Takes the first item off bytes, and its length off the lengths.
fn take_first<'a>(lens: &mut &'a [u8], bytes: &mut &'a [u8]) -> Option<&'a [u8]>
    requires { total lens.old.now ≡ length bytes.old.now }
    ensures item { cut lens.old.now bytes.old.now ≡ option_to_list (option_map (λ item. item.now) result) ++ cut lens.new.now bytes.new.now }
    ensures whole { total lens.new.now ≡ length bytes.new.now }
    ensures none { IfNone result (cut lens.old.now bytes.old.now ≡ []) }
{
    let Some((len, others)) = lens.split_first() else {
        return None;
    };
    let (item, behind) = bytes.split_at(usize::from(*len));
    *lens = others;
    *bytes = behind;
    Some(item)
}

// Takes the last item off bytes, and its length off the lengths.
fn take_last<'a>(lens: &mut &'a [u8], bytes: &mut &'a [u8]) -> Option<&'a [u8]>
    requires { total lens.old.now ≡ length bytes.old.now }
    ensures item { cut lens.old.now bytes.old.now ≡ cut lens.new.now bytes.new.now ++ option_to_list (option_map (λ item. item.now) result) }
    ensures whole { total lens.new.now ≡ length bytes.new.now }
    ensures none { IfNone result (cut lens.old.now bytes.old.now ≡ []) }
{
    let Some((len, others)) = lens.split_last() else {
        return None;
    };
    let (before, item) = bytes.split_at(bytes.len() - usize::from(*len));
    *lens = others;
    *bytes = before;
    Some(item)
}
