// All bytes that went one way.
ghost use Rattle.std.specs.Borrow.{ftrue};
ghost use Rattle.std.specs.Prelude.{◌≡◌, ℕ, List, [], ◌++◌};

use std::marker::Model;

/// All bytes that went one way, in order. It takes no memory, and its methods do nothing when the program runs: only proofs read it.
#[derive(Drop)]
pub struct Transcript {
    pub ghost bytes: { List ℕ },
}

impl Model for Transcript {
    ghost also_owns = { λ _. ftrue };
}

// It owns nothing.
unsafe impl Send for Transcript {}

unsafe impl Sync for Transcript {}

impl Transcript {
    /// None went yet.
    pub fn new() -> Transcript
        ensures { result.bytes ≡ [] }
    {
        Transcript {}
    }

    /// These went.
    pub fn note(&mut self, _bytes: &[u8])
        ensures { self.new.bytes ≡ self.old.bytes ++ _bytes.now }
    {}
}
