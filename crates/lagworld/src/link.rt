ghost use Rattle.std.specs.Prelude.{◌≡◌, ◌<◌, length, map, slice_get, slice_set, IsSomeAnd};
ghost use Rattle.lagworld.specs.Inner.{link_state, link_states};
ghost use Rattle.lagworld.specs.Lending.{LendsDirection};
ghost use Rattle.lagworld.specs.Sides.{model_side};
ghost use Rattle.lagworld.specs.State.{by_side, cut, emptied, joined};
ghost use Rattle.std.specs.Borrow.{sem};

use crate::side::Side;
use cables::Cable;

/// A cable and the ports that it joins (profile).
#[derive(Drop)]
pub(crate) struct Link<C: Cable> {
    /// The port of system 1.
    pub(crate) one: u16,
    /// The port of system 2.
    pub(crate) two: u16,
    /// Whether the cable is whole, not cut.
    pub(crate) whole: bool,
    /// The items on it towards system 1.
    pub(crate) to_one: C,
    /// The items on it towards system 2.
    pub(crate) to_two: C,
}

impl<C: Cable> Link<C> {
    /// The port at a system's end of the cable.
    pub(crate) fn port_at(&self, side: Side) -> u16
        ensures { result ≡ by_side (model_side side) self.now.one self.now.two }
    {
        side.port(self.one, self.two)
    }

    /// What is on the cable towards a system.
    pub(crate) fn towards(&self, side: Side) -> &C
        ensures { result.now ≡ by_side (model_side side) self.now.to_one self.now.to_two }
    {
        match side {
            Side::One => &self.to_one,
            Side::Two => &self.to_two,
        }
    }

    /// What is on the cable towards a system, to be changed.
    pub(crate) fn towards_mut(&mut self, side: Side) -> &mut C
        ensures* writes_back { sem 𝓛 (LendsDirection C.row self.entry side result) }
        ensures value { result.now ≡ by_side (model_side side) self.old.to_one self.old.to_two }
    {
        match side {
            Side::One => &mut self.to_one,
            Side::Two => &mut self.to_two,
        }
    }

    /// Cuts the cable; all that is on it is lost.
    pub(crate) fn cut(&mut self)
        ensures { link_state C.items C.limit self.new ≡ cut (link_state C.items C.limit self.old) }
    {
        self.whole = false;
        self.empty();
    }

    /// All that is on the cable is lost.
    pub(crate) fn empty(&mut self)
        ensures { link_state C.items C.limit self.new ≡ emptied (link_state C.items C.limit self.old) }
    {
        self.to_one.clear();
        self.to_two.clear();
    }

    /// Makes the cable whole again.
    pub(crate) fn join(&mut self)
        ensures { link_state C.items C.limit self.new ≡ joined (link_state C.items C.limit self.old) }
    {
        self.whole = true;
    }
}

/// Cuts the cable at an index.
pub(crate) fn cut_at<C: Cable>(links: &mut Vec<Link<C>>, index: usize)
    requires { index < length links.old.items }
    ensures { IsSomeAnd (slice_get (link_states C.items C.limit links.old.items) index)
        (λ l. link_states C.items C.limit links.new.items ≡ slice_set (link_states C.items C.limit links.old.items) index (cut l)) }
{
    let link = &mut links[index];
    link.cut();
}

/// Makes the cable at an index whole again. What was on it when it was cut stays lost, and its ports learn it only by
/// Sense.
pub(crate) fn join_at<C: Cable>(links: &mut Vec<Link<C>>, index: usize)
    requires { index < length links.old.items }
    ensures { IsSomeAnd (slice_get (link_states C.items C.limit links.old.items) index)
        (λ l. link_states C.items C.limit links.new.items ≡ slice_set (link_states C.items C.limit links.old.items) index (joined l)) }
{
    let link = &mut links[index];
    link.join();
}

/// What a system learns about a cable: the ports that it joins, and whether it is whole.
#[derive(Clone, Copy)]
pub(crate) struct LinkStatus {
    pub(crate) one: u16,
    pub(crate) two: u16,
    pub(crate) whole: bool,
}

/// What a system learns about the cable at an index.
pub(crate) fn link_status<C: Cable>(links: &Vec<Link<C>>, index: usize) -> LinkStatus
    requires { index < length links.now.items }
    ensures { IsSomeAnd (slice_get (link_states C.items C.limit links.now.items) index) (λ l. (result.one ≡ l.one) × (result.two ≡ l.two)
        × (result.whole ≡ l.whole)) }
{
    let link = &links[index];
    LinkStatus {
        one: link.one,
        two: link.two,
        whole: link.whole,
    }
}

/// All that is on any cable is lost.
pub(crate) fn empty_all<C: Cable>(links: &mut Vec<Link<C>>)
    ensures { link_states C.items C.limit links.new.items ≡ map emptied (link_states C.items C.limit links.old.items) }
{
    for index in 0..links.len() {
        let link = &mut links[index];
        link.empty();
    }
}
