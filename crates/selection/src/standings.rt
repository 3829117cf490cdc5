ghost use Rattle.std.specs.Prelude.{◌≡◌, ◌+◌, ◌<◌, ℕ};
ghost use Rattle.lagtypes.specs.Group.{group_of};
ghost use Rattle.selection.specs.Standing.{Tells, aggregator_after, goes_with, standing, standing_at, with_occupant, with_port};

use crate::view::PortView;
use lagtypes::{AggId, Choice, Group};

/// How an aggregator stands to a port that chooses.
#[derive(Clone, Copy, Debug)]
pub(crate) enum Standing {
    /// No port occupies the aggregator.
    Empty,
    /// The aggregator has an occupant, and all occupants have the port's group, which is not Individual.
    Joinable,
    /// The aggregator has an occupant, and the port cannot join.
    Taken,
}

impl Standing {
    /// How the aggregator stands once this port occupies it too.
    fn with(self, port: &PortView, group: &Group, occupant: &PortView) -> Standing
        requires { group.now ≡ group_of port.now.party port.now.partner }
        ensures { result ≡ with_occupant (goes_with port.now occupant.now) self }
    {
        if matches!(self, Standing::Taken) {
            return self;
        }
        if !port.is_individual() && occupant.has_group(group) {
            Standing::Joinable
        } else {
            Standing::Taken
        }
    }
}

/// How 64 aggregators in a row stand to a port: one walk over the views tells of all of them.
#[derive(Clone, Copy, Debug)]
pub(crate) struct Standings {
    /// The number of the aggregator before the first of them; 0 if the first is aggregator 1.
    before: u16,
    list: [Standing; 64],
}

impl Standings {
    /// How the 64 aggregators after this number stand to the port.
    pub(crate) fn after(before: u16, views: &[PortView], port: &PortView) -> Standings
        ensures before { result.before ≡ before }
        ensures tells { Tells views.now port.now result.before result.list }
    {
        let group = port.group();
        let mut list = [Standing::Empty; 64];
        for view in views {
            note(&mut list, before, port, &group, view);
        }
        Standings { before, list }
    }

    /// How this aggregator stands to the port. If it is beyond those that are known, the next 64 become known.
    pub(crate) fn of(&mut self, agg: AggId, views: &[PortView], port: &PortView) -> Standing
        requires tells { Tells views.now port.now self.old.before self.old.list }
        requires after { self.old.before < agg.0 }
        ensures standing { result ≡ standing views.now port.now agg }
        ensures tells { Tells views.now port.now self.new.before self.new.list }
        ensures after { self.new.before < agg.0 }
    {
        if agg.0 - self.before > 64 {
            *self = Standings::after(agg.0 - 1, views, port);
        }
        self.list[usize::from(agg.0 - self.before - 1)]
    }
}

/// Notes the choice of a port in the standings of the 64 aggregators after a number.
fn note(list: &mut [Standing; 64], before: u16, port: &PortView, group: &Group, view: &PortView)
    requires { group.now ≡ group_of port.now.party port.now.partner }
    ensures { (place : ℕ) → place < 64 → standing_at list.new place ≡ with_port (aggregator_after before place) port.now view.now
        (standing_at list.old place) }
{
    if let Choice::Selected(agg) | Choice::Standby(agg) = view.choice {
        if before < agg.0 && agg.0 - before <= 64 {
            let place = usize::from(agg.0 - before - 1);
            list[place] = list[place].with(port, group, view);
        }
    }
}
