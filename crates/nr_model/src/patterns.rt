// Patterns: worked rows, and the law that the test which computes is the relation.

ghost use Rattle.std.specs.Prelude.{◌≡◌, ◌↔◌, ℕ, List, true};
ghost use Rattle.nr_model.specs.Patterns.{Matches, matches};
ghost use Rattle.nr_model.specs.Rows.Patterns.{PatternRows};

/// What some patterns match, by computation.
fn pattern_rows()
    ensures { PatternRows }
{}

/// The test that computes is the relation.
fn pattern_law()
    ensures { (p x : List ℕ) → (matches p x ≡ true ↔ Matches p x) }
{}
