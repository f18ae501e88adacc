// How many nodes of a tree were looked at.
ghost use Rattle.std.specs.Prelude.{◌≡◌, ◌+◌, ◌<◌};

use std::marker::Model;
use std::sync::ledger::{Blank, Book, Ledger, Share};

/// How many nodes of a tree were looked at. It takes no bytes, and only looking at a node changes it.
#[derive(Drop)]
pub struct Ticks<L: Ledger> {
    book: Book<L>,
    share: Share<L>,
}

impl<L: Ledger> Model for Ticks<L> {
    ghost use Rattle.std.specs.Prelude.{ℕ, ◌<◌};

    ghost Value = { ℕ };

    ghost view = { λ t. t.book.total };

    ghost invariant = { λ t. 0 < t.share.parts };
}

impl<L: Ledger> Ticks<L> {
    /// None, in a ledger of its own.
    pub fn new(blank: Blank) -> Ticks<L>
        requires name { blank.name ≡ L.name }
        requires parts { blank.parts ≡ L.parts }
        requires some { 0 < L.parts }
        ensures { result ≡ 0 }
    {
        let (book, share) = blank.open();
        Ticks { book, share }
    }

    /// One more.
    pub(crate) fn tick(&mut self)
        ensures { self.new ≡ self.old + 1 }
    {
        self.book.add(&mut self.share, 1);
    }
}
