ghost use Rattle.std.specs.Prelude.{◌≡◌};
ghost use Rattle.lagworld.specs.Events.{first_event_cause};
ghost use Rattle.lagworld.specs.Faults.{world_fault_number};
ghost use Rattle.lagworld.specs.declared.fault.WorldFault.TheVariants.{NoMemory as OutOfMemory};

use lagscript::BadWorld;

/// Why a world cannot be made, or why an event did not act. The numbers are 1, 2, 4, 5 and 6; number 3 is what a system
/// refuses, which is a `Reply` (profile).
#[derive(Clone, Copy, Debug, PartialEq, Eq)]
pub enum WorldFault {
    /// 1: the event names a cable that does not exist.
    NoCable,
    /// 2: the event names a system that does not exist.
    NoSystem,
    /// 4: the most events that a world allows, 2^63, have acted.
    Spent,
    /// 5: memory was refused. For an event, this comes before a system's refusal; for `World::new`, it may come before
    /// any other reason.
    NoMemory,
    /// 6: the configuration is refused. Only `World::new` returns it.
    BadConfig(BadWorld),
}

impl WorldFault {
    /// The number of the fault: 1, 2, 4, 5 or 6 (profile).
    pub fn number(&self) -> u8
        ensures { result ≡ world_fault_number self.now }
    {
        match self {
            WorldFault::NoCable => 1,
            WorldFault::NoSystem => 2,
            WorldFault::Spent => 4,
            WorldFault::NoMemory => 5,
            WorldFault::BadConfig(_) => 6,
        }
    }

    /// The first of three reasons to refuse an event, if there is one. The arguments say whether the cable that it names
    /// exists, whether its system exists, and whether the most events have acted (profile).
    pub fn first_of_event(cable: bool, system: bool, spent: bool) -> Option<WorldFault>
        ensures { result ≡ first_event_cause cable system spent }
    {
        if !cable {
            return Some(WorldFault::NoCable);
        }
        if !system {
            return Some(WorldFault::NoSystem);
        }
        if spent {
            return Some(WorldFault::Spent);
        }
        None
    }
}

/// Where a list of events stopped, and why (profile).
#[derive(Clone, Copy, Debug, PartialEq, Eq)]
pub struct RunFault {
    /// How many events acted.
    pub done: usize,
    /// Why the next event did not act.
    pub fault: WorldFault,
}

impl From<std::alloc::AllocError> for WorldFault {
    ghost from_gives = { λ refused fault. fault ≡ OutOfMemory };

    fn from(_refused: std::alloc::AllocError) -> WorldFault {
        WorldFault::NoMemory
    }
}
