// What was noted.
ghost use Rattle.std.specs.Borrow.{ftrue};
ghost use Rattle.std.specs.Prelude.{◌≡◌, List, [], ◌∷◌, ◌++◌};

use std::marker::{Model, PhantomData};

/// What was noted, in order. It takes no memory, and its methods do nothing when the program runs: only proofs read it.
#[derive(Drop)]
pub struct Noted<T> {
    of: PhantomData<T>,
    pub ghost items: { List T },
}

impl<T> Model for Noted<T> {
    ghost also_owns = { λ _. ftrue };
}

// It owns nothing.
unsafe impl<T> Send for Noted<T> {}

unsafe impl<T> Sync for Noted<T> {}

impl<T> Noted<T> {
    /// Nothing was noted yet.
    pub fn new() -> Noted<T>
        ensures { result.items ≡ [] }
    {
        Noted { of: PhantomData }
    }

    /// Notes this one.
    pub fn note(&mut self, _item: &T)
        ensures { self.new.items ≡ self.old.items ++ _item.now ∷ [] }
    {}
}
