// Why a service ends.

use nr_blob::Memory;

/// Why a service ended.
#[derive(Clone, Copy, Debug, PartialEq, Eq)]
pub enum Ended {
    /// The gate said so.
    Stopped,
    /// Memory ran out.
    Memory(Memory),
    /// Every node is down.
    Down,
    /// The device can't wait any more.
    Device,
}

impl From<Memory> for Ended {
    ghost use Rattle.std.specs.Prelude.{◌≡◌};
    ghost use Rattle.nr_service.specs.declared.ended.Ended.TheVariants as endings;

    ghost from_gives = { λ memory ended. ended ≡ endings.Memory memory };

    fn from(memory: Memory) -> Ended {
        Ended::Memory(memory)
    }
}
