// The laws of a server of several nodes.

ghost use Rattle.nr_model.specs.Nodes.Explained.{NodesLaw};
ghost use Rattle.nr_model.specs.Nodes.Settling.{SettlingLaw};

/// Whatever steps several nodes take, and whatever is refused to them for memory, one sequence explains it: it holds each executed job of each
/// connection once and in order, each connection has received a beginning of what one sequential Redis emits for it along the sequence,
/// every replica that is up is that Redis after its part, and what was answered stands before what was asked for later.
fn nodes_law()
    ensures { NodesLaw }
{}

/// Rounds of steps, taken until nothing is done in one, settle several nodes: nothing waits or is held any more, every node has passed the
/// whole log, and each connection of a node that is up was answered all that it asked for, unless it is from before the node came back. The
/// rounds are at most three more than the jobs that were left.
fn settling_law()
    ensures { SettlingLaw }
{}
