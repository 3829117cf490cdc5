ghost use Rattle.std.specs.Prelude.{◌≡◌, map};
ghost use Rattle.lagworld.specs.HalfCalls.{HalfConfigures, HalfRestarts, change_counted};
ghost use Rattle.lagworld.specs.Events.{most_events};
ghost use Rattle.lagworld.specs.WorldCalls.{WorldConfigures, WorldRestarts, world_state};
ghost use Rattle.lagworld.specs.Inner.{half_state};
ghost use Rattle.lagworld.specs.Messages.{side_numbered};
ghost use Rattle.lagworld.specs.Sound.{AreBelow, IsSound, both_algorithms};

use crate::half::Half;
use crate::histories::PortHistory;
use crate::inner::Inner;
use crate::link::empty_all;
use crate::reply::Reply;
use crate::side::side_numbered;
use cables::Cable;
use lagsystem::{PortChange, System};

/// Counts one more change for each port of a system whose own parameters an event changed.
fn count_changes<F: Fn(u16, usize) -> usize + Drop>(
    system: &System<F>,
    histories: &mut Vec<PortHistory>,
)
    requires { AreBelow most_events histories.old.items }
    ensures { histories.new.items ≡ map (change_counted system.now.state) histories.old.items }
{
    for index in 0..histories.len() {
        let history = &mut histories[index];
        history.record_party(system.party(history.number));
    }
}

impl<F: Fn(u16, usize) -> usize + Drop> Half<F> {
    /// Restarts this system.
    fn restart(&mut self)
        requires { AreBelow most_events self.old.histories.items }
        ensures restarts { HalfRestarts (F.post self.old.system.algorithm) (half_state self.old) (half_state self.new) }
        ensures algorithm { self.new.system.algorithm ≡ self.old.system.algorithm }
    {
        self.system.restart();
        count_changes(&self.system, &mut self.histories);
    }

    /// Gives a port of this system another key, priority or Aggregation bit.
    fn configure(&mut self, port: u16, change: PortChange) -> Reply
        requires { AreBelow most_events self.old.histories.items }
        ensures configures { HalfConfigures (F.post self.old.system.algorithm) port change (half_state self.old)
            result (half_state self.new) }
        ensures algorithm { self.new.system.algorithm ≡ self.old.system.algorithm }
    {
        let answer = self.system.configure(port, change);
        count_changes(&self.system, &mut self.histories);
        match answer {
            Ok(changed) => Reply::Configured(changed),
            Err(fault) => Reply::Refused(fault),
        }
    }
}

impl<C: Cable, F: Fn(u16, usize) -> usize + Drop> Inner<C, F> {
    /// Restarts a system; what is on the cables is lost.
    pub(crate) fn restart(&mut self, system: u8) -> Reply
        requires { IsSound (world_state C.items C.limit self.old) }
        ensures restarts { WorldRestarts (both_algorithms (F.post self.old.one.system.algorithm) (F.post self.old.two.system.algorithm))
            (side_numbered system) (world_state C.items C.limit self.old) result (world_state C.items C.limit self.new) }
        ensures acted { self.new.acted ≡ self.old.acted }
        ensures algorithm_one { self.new.one.system.algorithm ≡ self.old.one.system.algorithm }
        ensures algorithm_two { self.new.two.system.algorithm ≡ self.old.two.system.algorithm }
    {
        empty_all(&mut self.links);
        self.half_mut(side_numbered(system)).restart();
        Reply::Restarted
    }

    /// Gives a port of a system another key, priority or Aggregation bit.
    pub(crate) fn configure(&mut self, system: u8, port: u16, change: PortChange) -> Reply
        requires { IsSound (world_state C.items C.limit self.old) }
        ensures configures { WorldConfigures (both_algorithms (F.post self.old.one.system.algorithm) (F.post self.old.two.system.algorithm))
            (side_numbered system) port change (world_state C.items C.limit self.old) result (world_state C.items C.limit self.new) }
        ensures acted { self.new.acted ≡ self.old.acted }
        ensures algorithm_one { self.new.one.system.algorithm ≡ self.old.one.system.algorithm }
        ensures algorithm_two { self.new.two.system.algorithm ≡ self.old.two.system.algorithm }
    {
        let half = self.half_mut(side_numbered(system));
        half.configure(port, change)
    }
}
