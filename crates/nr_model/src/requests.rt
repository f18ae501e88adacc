// The frames of requests: worked rows, and the laws of their definitions.

ghost use Rattle.nr_model.specs.Requests.Laws.{CutLaw, RestLaw, StepLaw, FuelLaw, FrontLaw, EachIsFound, EachIsSpelled};
ghost use Rattle.nr_model.specs.Rows.Requests.{WholeRows, UnfinishedRows, BrokenRows, FaultTexts};

/// What the definitions give for single inputs.
fn request_rows()
    ensures whole { WholeRows }
    ensures unfinished { UnfinishedRows }
    ensures broken { BrokenRows }
    ensures texts { FaultTexts }
{}

/// However bytes are cut into pieces, their frames are the same, and what is left of them is less than a request.
fn pieces()
    ensures cut { CutLaw }
    ensures rest { RestLaw }
    ensures step { StepLaw }
    ensures fuel { FuelLaw }
    ensures front { FrontLaw }
{}

/// What stands at the front of bytes is a request only where a spelling of it stands there, and each spelling of a request
/// is that request, whatever follows it.
fn one_reading()
    ensures only { EachIsFound }
    ensures found { EachIsSpelled }
{}
