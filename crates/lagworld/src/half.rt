ghost use Rattle.std.specs.Prelude.{◌≡◌};
ghost use Rattle.lagworld.specs.Inner.{half_state};
ghost use Rattle.lagworld.specs.HalfCalls.{HalfTicks, HalfSenses, HalfMoves};

use crate::histories::{Flow, PortHistory};
use crate::reply::Reply;
use lagsystem::System;
use lagtypes::AggId;

/// One system, with the histories of its ports and the records of its conversations.
#[derive(Drop)]
pub(crate) struct Half<F> {
    pub(crate) system: System<F>,
    pub(crate) histories: Vec<PortHistory>,
    pub(crate) flows: Vec<Vec<Flow>>,
}

impl<F: Fn(u16, usize) -> usize + Drop> Half<F> {
    /// Ticks the system this many times; a tick is 100 ms.
    pub(crate) fn tick(&mut self, count: u16)
        ensures ticks { HalfTicks (F.post self.old.system.algorithm) count (half_state self.old) (half_state self.new) }
        ensures algorithm { self.new.system.algorithm ≡ self.old.system.algorithm }
    {
        let mut done = 0;
        while done < count {
            self.system.tick();
            done += 1;
        }
    }

    /// Tells the system that the link of a port is up or down.
    pub(crate) fn sense(&mut self, port: u16, up: bool) -> Reply
        ensures senses { HalfSenses (F.post self.old.system.algorithm) port up (half_state self.old) result (half_state self.new) }
        ensures algorithm { self.new.system.algorithm ≡ self.old.system.algorithm }
    {
        match self.system.set_link(port, up) {
            Ok(()) => Reply::Sensed(up),
            Err(fault) => Reply::Refused(fault),
        }
    }

    /// Moves a conversation to a port.
    pub(crate) fn move_to(&mut self, agg: AggId, conv: u16, port: u16) -> Reply
        ensures moves { HalfMoves (F.post self.old.system.algorithm) agg conv port (half_state self.old) result (half_state self.new) }
        ensures algorithm { self.new.system.algorithm ≡ self.old.system.algorithm }
    {
        match self.system.move_conversation(agg, conv, port) {
            Ok(()) => Reply::Moved,
            Err(fault) => Reply::Refused(fault),
        }
    }
}
