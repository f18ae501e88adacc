// What stories say of one sequential Redis.
ghost use Rattle.nr_world_service.specs.Led.{StoryLaw};

/// Whatever story may have led to what answers, or is left of it where memory ran out, one sequence explains the events by which it happened, in the order in which it happened: what
/// was handed out for each connection is a beginning of what one sequential Redis emits for it along that sequence.
pub fn story_law()
    ensures { StoryLaw }
{}
