ghost use Rattle.std.specs.Prelude.{◌≡◌, IfErr, IfOk, None, true};
ghost use Rattle.distributor.specs.Calls.{PicksIndexes};
ghost use Rattle.lagmodel.specs.World.{Side, Happens};
ghost use Rattle.lagmodel.specs.Law.{OnePartner, EndsAgree, InOrder};
ghost use Rattle.lagworld.specs.Events.{WorldRuns, WorldSteps, cause, cause_or_no_memory, may_take_memory, model_event};
ghost use Rattle.lagworld.specs.Making.{IsMade, RefusesToMake, refusal_with};
ghost use Rattle.lagworld.specs.Sound.{HeadlineFacts, IsSound, IsStart, RunStops, RunsInModel, both_algorithms};
ghost use Rattle.lagworld.specs.ModelWorld.{world_setup, model_world};

use crate::fault::{RunFault, WorldFault};
use crate::inner::Inner;
use crate::reply::Reply;
use cables::Cable;
use lagscript::{Event, WorldConfig};
use std::alloc::Global;
use std::marker::Model;

/// Two systems, the cables between them, and records of what was sent, received and collected. `C` is the type of one
/// direction of a cable. `F` is the type of the distribution algorithms; each system has one (profile).
#[derive(Drop)]
pub struct World<C: Cable, F> {
    pub(crate) inner: Inner<C, F>,
}

impl<C: Cable, F> Model for World<C, F> {
    ghost use Rattle.lagworld.specs.WorldCalls.{world_state, world_value};
    ghost use Rattle.lagworld.specs.Sound.{IsSound};
    ghost use Rattle.lagworld.specs.State.{WorldValue};

    ghost Value = { WorldValue F };

    ghost view = { λ w. world_value C.items C.limit w.inner };

    ghost invariant = { λ w. IsSound (world_state C.items C.limit w.inner) };
}

impl<C: Cable, F: Fn(u16, usize) -> usize + Drop> World<C, F> {
    // promise: `new` returns the first reason to refuse, or `NoMemory`; else both systems are in their first states, every cable is whole
    //    and empty, and nothing is counted, taken, sent, collected or forced
    // contract: `World::new` (`accepted`, `refused`, `made`, `start`)
    /// Makes both systems in their first states, and every cable whole and empty. `one` and `two` are the distribution
    /// algorithms of system 1 and system 2. `lines` has the two directions of each cable; the first of them leads to
    /// system 1. Refused as `BadConfig` with the first of these reasons: `System` (what `System::new` refuses of system
    /// 1, then of system 2), `SameSystem` (equal identifiers), `CableEnd` (the first cable with an end that is no port,
    /// or that an earlier cable has), `Lines` (not as many lines as cables, or one that is not empty). `NoMemory` may
    /// come before any of these (profile).
    pub fn new(
        alloc: Global,
        config: WorldConfig,
        one: F,
        two: F,
        lines: Vec<(C, C)>,
    ) -> Result<World<C, F>, WorldFault>
        requires one { PicksIndexes (F.pre one) (F.post one) }
        requires two { PicksIndexes (F.pre two) (F.post two) }
        ensures accepted { IfOk result (λ world. refusal_with C.items config lines.items ≡ None) }
        ensures made { IfOk result (λ world. IsMade C.items C.limit config lines.items world.state) }
        ensures start { IfOk result (λ world. IsStart world.state) }
        ensures algorithm_one { IfOk result (λ world. world.one ≡ one) }
        ensures algorithm_two { IfOk result (λ world. world.two ≡ two) }
        ensures refused { IfErr result (λ fault. RefusesToMake (refusal_with C.items config lines.items) fault) }
    {
        let inner = Inner::new(alloc, config, one, two, lines)?;
        Ok(World { inner })
    }

    // promise: one event does what its row says: the system answers as every call promises, and that decides the reply, the items on the
    //    cable and the records
    // contract: `step` (`steps`: `WorldSteps`)
    // promise: an event is one of the law's; an item stands for the message that its stamp and the reading of its octets give
    // contract: `step` (`happens`)
    // promise: an event is refused with the first cause: no such cable, no such system, 2^63 events have acted. Else it acts, or is refused
    //    with `NoMemory`, as Emit, Deliver, Repeat and Offer alone may be. A refusal changes nothing
    // contract: `step` (`accepted`, `refused`, `unchanged`, `memory`), `events_have_limits` (`memory`, `most`)
    // not said: that the others allocate none
    // promise: both configurations and the ports that cables join stay
    // contract: `step`, `run` (`fixed`)
    /// Plays one event and returns its reply. Refused in this order: `NoCable` and `NoSystem` if the event names one
    /// that does not exist, `Spent` if 2^63 events have acted, `NoMemory`; then nothing has changed. Only Emit,
    /// Deliver, Repeat and Offer may take memory. What a system refuses is not a fault but the reply `Refused`
    /// (profile).
    pub fn step(&mut self, event: &Event) -> Result<Reply, WorldFault>
        requires one { PicksIndexes (F.pre self.old.one) (F.post self.old.one) }
        requires two { PicksIndexes (F.pre self.old.two) (F.post self.old.two) }
        ensures accepted { IfOk result (λ reply. cause self.old.state event.now ≡ None) }
        ensures steps { IfOk result (λ reply. WorldSteps (both_algorithms (F.post self.old.one) (F.post self.old.two))
            self.old.state event.now reply
            self.new.state) }
        ensures happens { IfOk result (λ reply. Happens (world_setup self.old.state) (model_event event.now) (model_world self.old.state)
            (model_world self.new.state)) }
        ensures refused { IfErr result (λ fault. fault ≡ cause_or_no_memory (cause self.old.state event.now)) }
        ensures memory { IfErr result (λ fault. cause self.old.state event.now ≡ None → may_take_memory event.now ≡ true) }
        ensures unchanged { IfErr result (λ fault. self.new.state ≡ self.old.state) }
        ensures fixed { world_setup self.new.state ≡ world_setup self.old.state }
        ensures sound { IsSound self.new.state }
        ensures algorithm_one { self.new.one ≡ self.old.one }
        ensures algorithm_two { self.new.two ≡ self.old.two }
    {
        self.inner.step(event)
    }

    /// The allocator. Reading `inner` also shows the prover the invariant of the world, which `run` needs before its
    /// first event.
    fn alloc(&self) -> Global
        ensures { IsSound self.now.state }
    {
        self.inner.alloc
    }

    // promise: the headline
    // contract: `World::run`, above
    /// Plays events in order and returns their replies. If an event is refused, `run` stops there: `RunFault` says how
    /// many events acted and why the next did not. Memory for all replies is taken first, so `NoMemory` may come before
    /// any event acted. Whatever is returned, these hold of the world afterwards (profile; 6.3.6, 6.2.4):
    /// - ports of one system that distribute in one aggregator name one partner system and key (`one_partner`);
    /// - the two distributing ends of a cable name the same group (LAG ID), unless one of them changed since it sent the
    ///   LACPDU that its peer took last, or runs on defaults (`agree`);
    /// - what is collected of a conversation that was never forced is a subsequence of what was sent (`in_order`): nothing
    ///   comes twice, since no two of its frames have one serial (`counts_from_zero` of `carries`), and nothing overtakes.
    ///
    /// `each_world_keeps_the_headline` says the same of each world on the way.
    #[tactic(auto, using(crate::proofs::Running::agree_of, crate::proofs::Running::in_order_of))]
    pub fn run(&mut self, events: &[Event]) -> Result<Vec<Reply>, RunFault>
        requires one { PicksIndexes (F.pre self.old.one) (F.post self.old.one) }
        requires two { PicksIndexes (F.pre self.old.two) (F.post self.old.two) }
        ensures ran { IfOk result (λ replies. WorldRuns (both_algorithms (F.post self.old.one) (F.post self.old.two))
            self.old.state events.now
            replies.items self.new.state) }
        ensures happened { IfOk result (λ replies. RunsInModel self.old.state events.now self.new.state) }
        ensures stopped { IfErr result
            (λ stop. RunStops (both_algorithms (F.post self.old.one) (F.post self.old.two)) self.old.state events.now stop
            self.new.state) }
        ensures one_partner { (s : Side) → OnePartner ((model_world self.new.state).view s) }
        ensures agree { EndsAgree (world_setup self.new.state) (model_world self.new.state) }
        ensures in_order { InOrder (model_world self.new.state) }
        ensures carries { HeadlineFacts self.new.state }
        ensures sound { IsSound self.new.state }
        ensures fixed { world_setup self.new.state ≡ world_setup self.old.state }
        ensures algorithm_one { self.new.one ≡ self.old.one }
        ensures algorithm_two { self.new.two ≡ self.old.two }
    {
        let alloc = self.alloc();
        let mut replies = match Vec::with_capacity(alloc, events.len()) {
            Ok(replies) => replies,
            Err(_) => {
                return Err(RunFault {
                    done: 0,
                    fault: WorldFault::NoMemory,
                });
            }
        };
        let mut done = 0;
        while done < events.len() {
            match self.step(&events[done]) {
                Ok(reply) => replies.push_reserved(reply),
                Err(fault) => return Err(RunFault { done, fault }),
            }
            done += 1;
        }
        Ok(replies)
    }
}
