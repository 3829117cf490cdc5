ghost use Rattle.std.specs.Prelude.{◌≡◌, ◌↔◌, ◌||◌, IsTrue};
ghost use Rattle.std.specs.List.Sorted.{IsStrictlyIncreasing};
ghost use Rattle.lagtypes.specs.Group.{group_of, individual};
ghost use Rattle.lagtypes.specs.Same.{same_group, same_system};
ghost use Rattle.selection.specs.Views.{AreViews, has_waited, is_eligible, has_chosen, stands_by, numbers, find_view};
ghost use Rattle.selection.specs.Views.{is_detached_or_waiting};
ghost use Rattle.selection.specs.Standing.{has_side};

use lagtypes::{AggId, Choice, End, Group, Party};

/// How far the mux machine of a port has come, as the Selection Logic needs it (6.4.15).
#[derive(Clone, Copy, Debug, Default, PartialEq, Eq)]
pub enum Stage {
    /// DETACHED.
    #[default]
    Detached,
    /// WAITING; `expired` is whether wait_while has expired.
    Waiting { expired: bool },
    /// ATTACHED or COLLECTING_DISTRIBUTING: the port is attached to its aggregator.
    Joined,
}

/// What the Selection Logic reads of a port (6.4.7, 6.4.8).
#[derive(Clone, Copy, Debug, Default, PartialEq, Eq)]
pub struct PortView {
    /// The port number.
    pub number: u16,
    /// The operational parameters of the port's own side, the Actor.
    pub party: Party,
    /// The operational parameters of the Partner, as recorded.
    pub partner: Party,
    /// port_enabled: whether the link is up.
    pub enabled: bool,
    /// Whether the receive machine is in CURRENT or DEFAULTED, so that the partner is known or has its default values.
    pub settled: bool,
    /// The state of the mux machine.
    pub stage: Stage,
    /// Selected, with the aggregator that the port was given.
    pub choice: Choice,
}

impl Stage {
    /// Whether it is DETACHED or WAITING.
    fn is_detached_or_waiting(self) -> bool
        ensures { result ≡ is_detached_or_waiting self }
    {
        !matches!(self, Stage::Joined)
    }

    /// Whether it is WAITING and wait_while has expired.
    fn has_waited(self) -> bool
        ensures { result ≡ has_waited self }
    {
        matches!(self, Stage::Waiting { expired: true })
    }
}

impl PortView {
    /// Whether the port is SELECTED and was given this aggregator.
    pub(crate) fn has_chosen(&self, agg: AggId) -> bool
        ensures { result ≡ has_chosen agg self.now.choice }
    {
        match self.choice {
            Choice::Unselected | Choice::Standby(_) => false,
            Choice::Selected(given) => given == agg,
        }
    }

    /// Whether the port is STANDBY and was given this aggregator.
    pub(crate) fn stands_by(&self, agg: AggId) -> bool
        ensures { result ≡ stands_by agg self.now.choice }
    {
        match self.choice {
            Choice::Unselected | Choice::Selected(_) => false,
            Choice::Standby(given) => given == agg,
        }
    }

    // promise: eligible, waited long enough, and a list that `members` may get, are as defined
    // contract: `PortView::is_eligible`, `has_waited`, `are_views`
    /// Whether the port may choose an aggregator now: its link is up, its receive machine is in CURRENT or DEFAULTED,
    /// its mux machine is in DETACHED, it is UNSELECTED, and its partner is not its own system (6.4.14, profile).
    pub fn is_eligible(&self) -> bool
        ensures { result ≡ is_eligible self.now }
    {
        self.enabled
            && self.settled
            && matches!(self.stage, Stage::Detached)
            && matches!(self.choice, Choice::Unselected)
            && !self.partner_is_own_system()
    }

    /// Whether the partner's system is the port's own.
    fn partner_is_own_system(&self) -> bool
        ensures { result ≡ same_system self.now.partner.system self.now.party.system }
    {
        self.partner.system == self.party.system
    }

    /// Whether the mux machine of the port is in DETACHED or WAITING.
    pub(crate) fn is_detached_or_waiting(&self) -> bool
        ensures { result ≡ is_detached_or_waiting self.now.stage }
    {
        self.stage.is_detached_or_waiting()
    }

    /// Whether the port is in WAITING and wait_while has expired (6.4.14).
    pub fn has_waited(&self) -> bool
        ensures { result ≡ has_waited self.now.stage }
    {
        self.stage.has_waited()
    }

    /// Whether the link is Individual.
    pub(crate) fn is_individual(&self) -> bool
        ensures { result ≡ individual self.now.party self.now.partner }
    {
        !(self.party.aggregatable && self.partner.aggregatable)
    }

    /// The group (LAG ID) of the link.
    pub(crate) fn group(&self) -> Group
        ensures { result ≡ group_of self.now.party self.now.partner }
    {
        Group::of(&self.party, &self.partner)
    }

    /// Whether the link has this group. What tells most groups apart is compared first.
    pub(crate) fn has_group(&self, group: &Group) -> bool
        ensures { result ≡ same_group (group_of self.now.party self.now.partner) group.now }
    {
        self.has_partner_in(group) && self.group() == *group
    }

    /// Whether an end of this group has the partner's key and system.
    fn has_partner_in(&self, group: &Group) -> bool
        ensures { result ≡ (has_side group.now.lower self.now.partner || has_side group.now.upper self.now.partner) }
    {
        has_side(&group.lower(), &self.partner) || has_side(&group.upper(), &self.partner)
    }
}

/// Whether the end has the key and the system of these parameters.
fn has_side(end: &End, party: &Party) -> bool
    ensures { result ≡ has_side end.now party.now }
{
    end.key == party.key && end.system == party.system
}

/// The view of the port with this number.
pub(crate) fn find_view(views: &[PortView], port: u16) -> Option<PortView>
    ensures { result ≡ find_view views.now port }
{
    for view in views {
        if view.number == port {
            return Some(*view);
        }
    }
    None
}

/// Whether the port numbers ascend strictly.
fn is_rising(views: &[PortView]) -> bool
    ensures { IsTrue result ↔ IsStrictlyIncreasing (numbers views.now) }
{
    views.is_sorted_by(|view, next| view.number < next.number)
}

/// Whether these can be the views of the ports of one system: at most 64, with strictly ascending port numbers
/// (profile).
pub fn are_views(views: &[PortView]) -> bool
    ensures { IsTrue result ↔ AreViews views.now }
{
    views.len() <= 64 && is_rising(views)
}
