ghost use Rattle.std.specs.Prelude.{◌≡◌};
ghost use Rattle.distributor.specs.Conversations.{preference_of};
ghost use Rattle.distributor.specs.Chains.{assignment_port, is_flushing, is_held_on, is_wanted, names_port};
ghost use Rattle.distributor.specs.Changes.{wants_marker, awaits_response};

/// The state of a conversation (profile). Ports are port numbers. `preferred` is the port that the next frame goes on
/// once the conversation is free, if that port distributes then.
#[derive(Clone, Copy, Debug, PartialEq, Eq)]
pub enum Assignment {
    /// The conversation is on no port: its next frame may go on any port that distributes in the aggregator.
    Free {
        preferred: Option<u16>,
    },
    /// The frames of the conversation go on this port.
    On(u16),
    /// The conversation is to leave this port: its frames are held until a marker is sent there.
    Wanted {
        port: u16,
        preferred: Option<u16>,
    },
    /// A marker with the identifier `id` was sent on this port. Frames are held until its response comes, or until the
    /// 30th tick after it, when another marker is wanted. `age` is how many ticks have passed since the marker, 0 to
    /// 29.
    Flushing {
        port: u16,
        id: u32,
        preferred: Option<u16>,
        age: u8,
    },
}

impl Assignment {
    /// The port that the conversation prefers.
    pub(crate) fn preferred(&self) -> Option<u16>
        ensures { result ≡ preference_of self.now }
    {
        match *self {
            Assignment::On(_) => None,
            Assignment::Free { preferred }
            | Assignment::Wanted { preferred, .. }
            | Assignment::Flushing { preferred, .. } => preferred,
        }
    }

    /// The port on which the conversation is On, Wanted or Flushing; None if it is free.
    pub(crate) fn port(&self) -> Option<u16>
        ensures { result ≡ assignment_port self.now }
    {
        match *self {
            Assignment::Free { .. } => None,
            Assignment::On(port)
            | Assignment::Wanted { port, .. }
            | Assignment::Flushing { port, .. } => Some(port),
        }
    }

    /// Whether the conversation is On, Wanted or Flushing on this port.
    pub(crate) fn names_port(&self, port: u16) -> bool
        ensures { result ≡ names_port port self.now }
    {
        match *self {
            Assignment::Free { .. } => false,
            Assignment::On(p)
            | Assignment::Wanted { port: p, .. }
            | Assignment::Flushing { port: p, .. } => p == port,
        }
    }

    /// Whether the conversation is held on this port: Wanted or Flushing there (profile).
    pub fn is_held_on(&self, port: u16) -> bool
        ensures { result ≡ is_held_on port self.now }
    {
        match *self {
            Assignment::Free { .. } | Assignment::On(_) => false,
            Assignment::Wanted { port: held, .. } | Assignment::Flushing { port: held, .. } => held
                == port,
        }
    }

    /// Whether the conversation waits for a marker to be sent on its port.
    pub(crate) fn is_wanted(&self) -> bool
        ensures { result ≡ is_wanted self.now }
    {
        matches!(*self, Assignment::Wanted { .. })
    }

    /// Whether the conversation waits for the response to a marker.
    pub(crate) fn is_flushing(&self) -> bool
        ensures { result ≡ is_flushing self.now }
    {
        matches!(*self, Assignment::Flushing { .. })
    }

    /// Whether the conversation waits for a marker to be sent on this port.
    pub(crate) fn wants_marker(&self, port: u16) -> bool
        ensures { result ≡ wants_marker port self.now }
    {
        matches!(*self, Assignment::Wanted { port: p, .. } if p == port)
    }

    /// Whether the conversation waits for the response to the marker `id` on this port.
    pub(crate) fn awaits_response(&self, port: u16, id: u32) -> bool
        ensures { result ≡ awaits_response port id self.now }
    {
        matches!(*self, Assignment::Flushing { port: p, id: n, .. } if p == port && n == id)
    }
}
