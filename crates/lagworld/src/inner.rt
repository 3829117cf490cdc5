ghost use Rattle.std.specs.Prelude.{◌≡◌, ◌<◌, ◌+◌, IfErr, IfOk, None, Some, true, length};
ghost use Rattle.lagworld.specs.declared.reply.Reply.{Reply};
ghost use Rattle.lagworld.specs.Inner.{link_states};
ghost use Rattle.lagworld.specs.State.{cut, joined};
ghost use Rattle.distributor.specs.Calls.{PicksIndexes};
ghost use Rattle.lagworld.specs.Events.{DoesEvent, OnLink, WorldSteps, with_link_at, cause, cause_or_no_memory, has_cable, may_take_memory};
ghost use Rattle.lagworld.specs.declared.fault.WorldFault.TheVariants.{NoMemory as OutOfMemory};
ghost use Rattle.lagworld.specs.WorldCalls.{WorldMoves, WorldSenses, WorldTicks, world_state};
ghost use Rattle.lagworld.specs.Lending.{LendsHalf, half_of};
ghost use Rattle.lagworld.specs.Messages.{side_numbered};
ghost use Rattle.std.specs.Borrow.{sem};
ghost use Rattle.lagworld.specs.Sound.{IsSound, both_algorithms};

use crate::fault::WorldFault;
use crate::half::Half;
use crate::link::{Link, cut_at, join_at, link_status};
use crate::reply::Reply;
use crate::side::{Side, has_system, side_numbered};
use cables::Cable;
use lagscript::Event;
use lagtypes::AggId;
use std::alloc::Global;

/// The fields of a `World`. Its calls are proved on this struct, so that contracts of `World` name no field.
#[derive(Drop)]
pub(crate) struct Inner<C: Cable, F> {
    pub(crate) alloc: Global,
    pub(crate) one: Half<F>,
    pub(crate) two: Half<F>,
    pub(crate) links: Vec<Link<C>>,
    /// How many events have acted so far.
    pub(crate) acted: u64,
}

/// The most events that may act, 2^63, so that no count overflows.
const MOST_EVENTS: u64 = 9_223_372_036_854_775_808;

impl<C: Cable, F: Fn(u16, usize) -> usize + Drop> Inner<C, F> {
    /// The half of a system.
    pub(crate) fn half(&self, side: Side) -> &Half<F>
        ensures { result.now ≡ half_of side self.now }
    {
        match side {
            Side::One => &self.one,
            Side::Two => &self.two,
        }
    }

    /// The half of a system, to be changed.
    pub(crate) fn half_mut(&mut self, side: Side) -> &mut Half<F>
        ensures* writes_back { sem 𝓛 (LendsHalf C.row F.row self.entry side result) }
        ensures value { result.now ≡ half_of side self.old }
    {
        match side {
            Side::One => &mut self.one,
            Side::Two => &mut self.two,
        }
    }

    /// Whether the cable that an event names exists; true if it names none.
    pub(crate) fn has_cable(&self, number: Option<u16>) -> bool
        ensures { result ≡ has_cable (world_state C.items C.limit self.now) number }
    {
        match number {
            None => true,
            Some(number) => number != 0 && usize::from(number) <= self.links.len(),
        }
    }

    /// Why an event is refused, leaving memory aside: the first reason that holds.
    fn cause(&self, event: &Event) -> Option<WorldFault>
        ensures { result ≡ cause (world_state C.items C.limit self.now) event.now }
    {
        let cable = self.has_cable(event.cable());
        let system = has_system(event.system());
        WorldFault::first_of_event(cable, system, self.acted >= MOST_EVENTS)
    }

    /// Plays an event, or refuses it.
    pub(crate) fn step(&mut self, event: &Event) -> Result<Reply, WorldFault>
        requires one { PicksIndexes (F.pre self.old.one.system.algorithm) (F.post self.old.one.system.algorithm) }
        requires two { PicksIndexes (F.pre self.old.two.system.algorithm) (F.post self.old.two.system.algorithm) }
        requires sound { IsSound (world_state C.items C.limit self.old) }
        ensures accepted { IfOk result (λ reply. cause (world_state C.items C.limit self.old) event.now ≡ None) }
        ensures steps { IfOk result
            (λ reply. WorldSteps (both_algorithms (F.post self.old.one.system.algorithm) (F.post self.old.two.system.algorithm))
            (world_state C.items C.limit self.old) event.now reply (world_state C.items C.limit self.new)) }
        ensures refused { IfErr result (λ fault. fault ≡ cause_or_no_memory (cause (world_state C.items C.limit self.old) event.now)) }
        ensures memory { IfErr result (λ fault. cause (world_state C.items C.limit self.old) event.now ≡ None
            → may_take_memory event.now ≡ true) }
        ensures unchanged { IfErr result (λ fault. world_state C.items C.limit self.new ≡ world_state C.items C.limit self.old) }
        ensures algorithm_one { self.new.one.system.algorithm ≡ self.old.one.system.algorithm }
        ensures algorithm_two { self.new.two.system.algorithm ≡ self.old.two.system.algorithm }
    {
        match self.cause(event) {
            Some(fault) => return Err(fault),
            None => {}
        }
        let reply = self.play(event)?;
        self.acted += 1;
        Ok(reply)
    }

    /// Plays an event whose system and cable exist.
    fn play(&mut self, event: &Event) -> Result<Reply, WorldFault>
        requires one { PicksIndexes (F.pre self.old.one.system.algorithm) (F.post self.old.one.system.algorithm) }
        requires two { PicksIndexes (F.pre self.old.two.system.algorithm) (F.post self.old.two.system.algorithm) }
        requires sound { IsSound (world_state C.items C.limit self.old) }
        requires accepted { cause (world_state C.items C.limit self.old) event.now ≡ None }
        ensures does { IfOk result
            (λ reply. DoesEvent (both_algorithms (F.post self.old.one.system.algorithm) (F.post self.old.two.system.algorithm))
            (world_state C.items C.limit self.old) event.now reply (world_state C.items C.limit self.new)) }
        ensures refused { IfErr result (λ fault. fault ≡ OutOfMemory) }
        ensures memory { IfErr result (λ fault. may_take_memory event.now ≡ true) }
        ensures unchanged { IfErr result (λ fault. world_state C.items C.limit self.new ≡ world_state C.items C.limit self.old) }
        ensures acted { self.new.acted ≡ self.old.acted }
        ensures algorithm_one { self.new.one.system.algorithm ≡ self.old.one.system.algorithm }
        ensures algorithm_two { self.new.two.system.algorithm ≡ self.old.two.system.algorithm }
    {
        match event {
            Event::Tick(system, count) => Ok(self.tick(*system, *count)),
            Event::Move(system, agg, conv, port) => {
                Ok(self.move_to(*system, *agg, *conv, *port))
            }
            Event::Emit(system, port) => self.emit(*system, *port),
            Event::Deliver(cable, system) => self.deliver(*cable, *system),
            Event::Repeat(cable, system) => self.repeat(*cable, *system),
            Event::Offer(system, agg, frame) => self.offer(*system, *agg, frame),
            Event::Force(system, agg, conv) => Ok(self.force(*system, *agg, *conv)),
            Event::Lose(cable, system) => Ok(self.lose(*cable, *system)),
            Event::Cut(cable) => Ok(self.cut(*cable)),
            Event::Join(cable) => Ok(self.join(*cable)),
            Event::Sense(cable, system) => Ok(self.sense(*cable, *system)),
            Event::Restart(system) => Ok(self.restart(*system)),
            Event::Configure(system, port, change) => {
                Ok(self.configure(*system, *port, *change))
            }
        }
    }

    /// Plays this many ticks of a system.
    fn tick(&mut self, system: u8, count: u16) -> Reply
        ensures acted { self.new.acted ≡ self.old.acted }
        ensures ticks { WorldTicks (both_algorithms (F.post self.old.one.system.algorithm) (F.post self.old.two.system.algorithm))
            (side_numbered system) count (world_state C.items C.limit self.old) result (world_state C.items C.limit self.new) }
        ensures algorithm_one { self.new.one.system.algorithm ≡ self.old.one.system.algorithm }
        ensures algorithm_two { self.new.two.system.algorithm ≡ self.old.two.system.algorithm }
    {
        self.half_mut(side_numbered(system)).tick(count);
        Reply::Ticked
    }

    /// Moves a conversation of a system to a port.
    fn move_to(&mut self, system: u8, agg: AggId, conv: u16, port: u16) -> Reply
        ensures acted { self.new.acted ≡ self.old.acted }
        ensures moves { WorldMoves (both_algorithms (F.post self.old.one.system.algorithm) (F.post self.old.two.system.algorithm))
            (side_numbered system) agg conv port (world_state C.items C.limit self.old) result (world_state C.items C.limit self.new) }
        ensures algorithm_one { self.new.one.system.algorithm ≡ self.old.one.system.algorithm }
        ensures algorithm_two { self.new.two.system.algorithm ≡ self.old.two.system.algorithm }
    {
        let half = self.half_mut(side_numbered(system));
        half.move_to(agg, conv, port)
    }

    /// The index of a cable that exists.
    pub(crate) fn link_index_of(&self, cable: u16) -> usize
        requires { has_cable (world_state C.items C.limit self.now) (Some cable) ≡ true }
        ensures at { cable ≡ result + 1 }
        ensures within { result < length self.now.links.items }
    {
        match usize::from(cable).checked_sub(1) {
            Some(index) => index,
            None => 0,
        }
    }

    /// Cuts a cable.
    fn cut(&mut self, cable: u16) -> Reply
        requires there { has_cable (world_state C.items C.limit self.old) (Some cable) ≡ true }
        ensures cut { OnLink cable (λ i l. (result ≡ Reply.Cut)
            × (world_state C.items C.limit self.new ≡ with_link_at i (cut l) (world_state C.items C.limit self.old)))
            (link_states C.items C.limit self.old.links.items) }
        ensures acted { self.new.acted ≡ self.old.acted }
        ensures algorithm_one { self.new.one.system.algorithm ≡ self.old.one.system.algorithm }
        ensures algorithm_two { self.new.two.system.algorithm ≡ self.old.two.system.algorithm }
    {
        let index = self.link_index_of(cable);
        cut_at(&mut self.links, index);
        Reply::Cut
    }

    /// Joins a cable.
    fn join(&mut self, cable: u16) -> Reply
        requires there { has_cable (world_state C.items C.limit self.old) (Some cable) ≡ true }
        ensures joined { OnLink cable (λ i l. (result ≡ Reply.Joined)
            × (world_state C.items C.limit self.new ≡ with_link_at i (joined l) (world_state C.items C.limit self.old)))
            (link_states C.items C.limit self.old.links.items) }
        ensures acted { self.new.acted ≡ self.old.acted }
        ensures algorithm_one { self.new.one.system.algorithm ≡ self.old.one.system.algorithm }
        ensures algorithm_two { self.new.two.system.algorithm ≡ self.old.two.system.algorithm }
    {
        let index = self.link_index_of(cable);
        join_at(&mut self.links, index);
        Reply::Joined
    }

    /// Tells a system whether a cable is whole.
    fn sense(&mut self, cable: u16, system: u8) -> Reply
        requires there { has_cable (world_state C.items C.limit self.old) (Some cable) ≡ true }
        ensures senses { WorldSenses (both_algorithms (F.post self.old.one.system.algorithm) (F.post self.old.two.system.algorithm))
            (side_numbered system) cable (world_state C.items C.limit self.old) result (world_state C.items C.limit self.new) }
        ensures acted { self.new.acted ≡ self.old.acted }
        ensures algorithm_one { self.new.one.system.algorithm ≡ self.old.one.system.algorithm }
        ensures algorithm_two { self.new.two.system.algorithm ≡ self.old.two.system.algorithm }
    {
        let side = side_numbered(system);
        let index = self.link_index_of(cable);
        let status = link_status(&self.links, index);
        let half = self.half_mut(side);
        half.sense(side.port(status.one, status.two), status.whole)
    }
}
