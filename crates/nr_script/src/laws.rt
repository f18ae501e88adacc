// Laws of the definitions.
ghost use Rattle.nr_script.specs.Said.{SaidIsRead, ReadIsSaid};
ghost use Rattle.nr_script.specs.Spellings.{ReadIsSpelled, SpelledIsRead, ShownIsSpelled};

/// The bytes that are read from a text are those that it spells, and what shows bytes spells them.
fn spellings()
    ensures only { ReadIsSpelled }
    ensures found { SpelledIsRead }
    ensures shown { ShownIsSpelled }
{}

/// A line is read as a step where it says that step, and only there.
fn lines()
    ensures found { SaidIsRead }
    ensures only { ReadIsSaid }
{}
