ghost use Rattle.std.specs.Prelude.{◌≡◌, ◌<◌, Some, drop, is_some, length, map, slice_get, slice_set, true, IsSomeAnd};
ghost use Rattle.lagworld.specs.Asking.{WorldLoses, lost_reply};
ghost use Rattle.lagworld.specs.Events.{has_cable};
ghost use Rattle.lagworld.specs.WorldCalls.{world_state};
ghost use Rattle.lagworld.specs.Inner.{link_state, link_states};
ghost use Rattle.lagworld.specs.Messages.{item_value, side_numbered};
ghost use Rattle.lagworld.specs.Sides.{model_side};
ghost use Rattle.lagworld.specs.State.{towards, without_first};

use crate::inner::Inner;
use crate::link::Link;
use crate::reply::Reply;
use crate::side::{Side, side_numbered};
use cables::Cable;

/// Takes the first item off; returns whether there was one.
fn lose_first<C: Cable>(cable: &mut C) -> bool
    ensures lost { result ≡ is_some (slice_get (map item_value (C.items cable.old)) 0) }
    ensures rest { map item_value (C.items cable.new) ≡ drop 1 (map item_value (C.items cable.old)) }
    ensures limit { C.limit cable.new ≡ C.limit cable.old }
{
    cable.pop().is_some()
}

impl<C: Cable> Link<C> {
    /// Loses the first item on this cable towards a system; returns whether there was one.
    fn lose(&mut self, side: Side) -> bool
        ensures rest { link_state C.items C.limit self.new ≡ without_first (model_side side) (link_state C.items C.limit self.old) }
        ensures lost { result ≡ is_some (slice_get (towards (model_side side) (link_state C.items C.limit self.old)) 0) }
    {
        lose_first(self.towards_mut(side))
    }
}

/// Loses the first item towards a system on the cable at an index; returns whether there was one.
fn lose_at<C: Cable>(links: &mut Vec<Link<C>>, index: usize, side: Side) -> bool
    requires { index < length links.old.items }
    ensures { IsSomeAnd (slice_get (link_states C.items C.limit links.old.items) index)
        (λ l. (link_states C.items C.limit links.new.items ≡ slice_set (link_states C.items C.limit links.old.items) index
        (without_first (model_side side) l)) × (result ≡ is_some (slice_get (towards (model_side side) l) 0))) }
{
    let link = &mut links[index];
    link.lose(side)
}

/// The reply to `Lose`: whether there was an item to lose.
fn lost_reply(lost: bool) -> Reply
    ensures { result ≡ lost_reply lost }
{
    if lost { Reply::Lost } else { Reply::Empty }
}

impl<C: Cable, F: Fn(u16, usize) -> usize + Drop> Inner<C, F> {
    /// Loses the first item on a cable towards a system.
    pub(crate) fn lose(&mut self, cable: u16, system: u8) -> Reply
        requires there { has_cable (world_state C.items C.limit self.old) (Some cable) ≡ true }
        ensures loses { WorldLoses (side_numbered system) cable (world_state C.items C.limit self.old) result
            (world_state C.items C.limit self.new) }
        ensures acted { self.new.acted ≡ self.old.acted }
        ensures algorithm_one { self.new.one.system.algorithm ≡ self.old.one.system.algorithm }
        ensures algorithm_two { self.new.two.system.algorithm ≡ self.old.two.system.algorithm }
    {
        let side = side_numbered(system);
        let index = self.link_index_of(cable);
        lost_reply(lose_at(&mut self.links, index, side))
    }
}
