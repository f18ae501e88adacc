// Whether a worker goes on: asked before each of its turns.

/// What a worker is told before a turn.
#[derive(Clone, Copy, Debug, PartialEq, Eq)]
pub enum Go {
    /// It takes the turn.
    On,
    /// It gives the processor away, and asks again.
    Hold,
    /// It takes none any more.
    Stop,
}

/// It is asked before each turn of a worker of a node. Turns count from 0.
pub trait Gate {
    ghost use Rattle.std.specs.Prelude.{ℕ};
    ghost use Rattle.nr_service.specs.declared.gate.Go.{Go};

    // What it said before a turn of a worker of a node.
    ghost says: { Self → ℕ → ℕ → ℕ → Go → Type 0 } = { λ _ _ _ _ _. Unit {0} };

    fn turn(&self, node: usize, worker: usize, turn: u64) -> Go
        ensures { says self.now node worker turn result };
}

/// Every turn is taken.
#[derive(Clone, Copy, Debug)]
pub struct Open;

impl Gate for Open {
    ghost use Rattle.std.specs.Prelude.{◌≡◌};
    ghost use Rattle.nr_service.specs.declared.gate.Go.TheVariants as told;

    ghost says = { λ _ _ _ _ go. go ≡ told.On };

    fn turn(&self, _: usize, _: usize, _: u64) -> Go {
        Go::On
    }
}
