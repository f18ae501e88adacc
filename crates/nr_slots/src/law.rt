// What the rule of the slots says of the seats.
ghost use Rattle.nr_slots.specs.Law.{HoldsOfSeats};

/// A law: whenever the rule of the slots holds, which is between any two steps, these facts hold of what each worker and the combiner did.
/// What was lifted is what was posted, or all but its last; the answers name what was lifted, or all but its last; what was collected
/// is what was answered, or all but its last; and of the batches posted at most one has no answer that was collected. A worker in whose slot
/// no batch is offered has posted none but those that were lifted.
pub fn slots_law()
    ensures { HoldsOfSeats }
{}
