ghost use Rattle.std.specs.Prelude.{◌≡◌};
ghost use Rattle.lagmodel.specs.World.{peer};
ghost use Rattle.lagworld.specs.Events.{has_system};
ghost use Rattle.lagworld.specs.Messages.{side_numbered};
ghost use Rattle.lagworld.specs.Sides.{model_side};
ghost use Rattle.lagworld.specs.State.{by_side};

/// One of the two systems.
#[derive(Clone, Copy, Debug, PartialEq, Eq)]
pub(crate) enum Side {
    /// System 1.
    One,
    /// System 2.
    Two,
}

impl Side {
    /// The other system.
    pub(crate) fn peer(self) -> Side
        ensures { model_side result ≡ peer (model_side self) }
    {
        match self {
            Side::One => Side::Two,
            Side::Two => Side::One,
        }
    }

    /// The port of this system, where a cable joins these ports of system 1 and of system 2.
    pub(crate) fn port(self, one: u16, two: u16) -> u16
        ensures { result ≡ by_side (model_side self) one two }
    {
        match self {
            Side::One => one,
            Side::Two => two,
        }
    }
}

/// System 1 for the number 1, else system 2; callers have refused every other number.
pub(crate) fn side_numbered(number: u8) -> Side
    ensures { model_side result ≡ side_numbered number }
{
    if number == 1 { Side::One } else { Side::Two }
}

/// Whether the system that an event names exists; true if it names none.
pub(crate) fn has_system(number: Option<u8>) -> bool
    ensures { result ≡ has_system number }
{
    match number {
        None => true,
        Some(number) => number == 1 || number == 2,
    }
}
