ghost use Rattle.std.specs.Prelude.{◌≡◌, [], ◌∷◌, None, IfErr, IfOk, IfSome, length, map};
ghost use Rattle.distributor.specs.Calls.{PicksIndexes};
ghost use Rattle.lagsystem.specs.First.{config_refusal as refusal_of_one};
ghost use Rattle.lagsystem.specs.Sound.{PortsAgree};
ghost use Rattle.lagworld.specs.WorldCalls.{world_state};
ghost use Rattle.lagworld.specs.Inner.{half_state, link_states, flow_value};
ghost use Rattle.lagworld.specs.Making.{IsFirstHalf, IsMade, RefusesToMake, are_empty_lines, first_flows};
ghost use Rattle.lagworld.specs.Making.{first_links, first_history, first_histories, first_aggregator_flows, has_empty_directions};
ghost use Rattle.lagworld.specs.Making.{empty_flow, refusal_with};
ghost use Rattle.lagworld.specs.Sound.{IsStart};
ghost use Rattle.lagworld.specs.declared.fault.WorldFault.TheVariants.{NoMemory as OutOfMemory};

use crate::fault::WorldFault;
use crate::half::Half;
use crate::histories::{Flow, PortHistory};
use crate::inner::Inner;
use crate::link::Link;
use cables::Cable;
use lagscript::{BadWorld, WorldConfig};
use lagsystem::{Config, PortConfig, System};
use lagtypes::{Party, PortId, SystemId};
use std::alloc::{AllocError, Global};

/// The history of a port before any event.
fn first_history(system: SystemId, port: &PortConfig) -> PortHistory
    ensures { result ≡ first_history system port.now }
{
    let party = Party {
        system,
        key: port.key,
        port: PortId {
            priority: port.priority,
            number: port.number,
        },
        aggregatable: port.aggregatable,
    };
    PortHistory {
        number: port.number,
        party,
        count: 0,
        taken: None,
    }
}

/// The histories of all ports before any event, in order.
fn first_histories(
    alloc: Global,
    system: SystemId,
    ports: &[PortConfig],
) -> Result<Vec<PortHistory>, AllocError>
    ensures { IfOk result (λ histories. histories.items ≡ first_histories system ports.now) }
{
    let mut histories = Vec::with_capacity(alloc, ports.len())?;
    for port in ports {
        histories.push_reserved(first_history(system, port));
    }
    Ok(histories)
}

/// The record of a conversation before any event.
fn first_flow(alloc: Global) -> Flow
    ensures { flow_value result ≡ empty_flow }
{
    Flow {
        sent: Vec::new(alloc),
        collected: Vec::new(alloc),
        forced: false,
    }
}

/// The records of an aggregator's conversations, of this many, before any event.
fn first_aggregator_flows(alloc: Global, count: usize) -> Result<Vec<Flow>, AllocError>
    ensures { IfOk result (λ conversations. map flow_value conversations.items ≡ first_aggregator_flows count) }
{
    let mut conversations = Vec::with_capacity(alloc, count)?;
    let mut made = 0;
    while made < count {
        conversations.push_reserved(first_flow(alloc));
        made += 1;
    }
    Ok(conversations)
}

/// The records of this many aggregators with this many conversations each, before any event.
fn first_flows(
    alloc: Global,
    count: usize,
    conversations: usize,
) -> Result<Vec<Vec<Flow>>, AllocError>
    ensures { IfOk result (λ rows. map (λ xs. map flow_value xs.items) rows.items ≡ first_flows count conversations) }
{
    let mut rows = Vec::with_capacity(alloc, count)?;
    let mut made = 0;
    while made < count {
        let row = first_aggregator_flows(alloc, conversations)?;
        rows.push_reserved(row);
        made += 1;
    }
    Ok(rows)
}

impl<F: Fn(u16, usize) -> usize + Drop> Half<F> {
    /// A system in its first state, with its histories and records. The configuration is one that is accepted.
    fn new(alloc: Global, config: Config, algorithm: F) -> Result<Half<F>, WorldFault>
        requires usable { PicksIndexes (F.pre algorithm) (F.post algorithm) }
        requires accepted { refusal_of_one config ≡ None }
        ensures first { IfOk result (λ end. IsFirstHalf config (half_state end)) }
        ensures agrees { IfOk result (λ end. PortsAgree end.system.state) }
        ensures algorithm { IfOk result (λ end. end.system.algorithm ≡ algorithm) }
        ensures refused { IfErr result (λ fault. fault ≡ OutOfMemory) }
    {
        let histories = first_histories(alloc, config.system, &config.ports)?;
        let conversations = usize::from(config.conversations);
        let flows = first_flows(alloc, config.aggregators.len(), conversations)?;
        match System::new(alloc, config, algorithm) {
            Ok(system) => Ok(Half {
                system,
                histories,
                flows,
            }),
            Err(_) => Err(WorldFault::NoMemory),
        }
    }
}

/// Whether both directions of a cable are empty.
fn has_empty_directions<C: Cable>(directions: &(C, C)) -> bool
    ensures { result ≡ has_empty_directions C.items directions.now }
{
    directions.0.len() == 0 && directions.1.len() == 0
}

/// Whether there are as many lines as cables, and all are empty.
fn are_empty_lines<C: Cable>(cables: &[(u16, u16)], lines: &[(C, C)]) -> bool
    ensures { result ≡ are_empty_lines C.items cables.now lines.now }
{
    if lines.len() != cables.len() {
        return false;
    }
    for directions in lines {
        if !has_empty_directions(directions) {
            return false;
        }
    }
    true
}

/// The cables at the start: whole, with their ports and the given lines.
fn first_links<C: Cable>(
    alloc: Global,
    cables: &[(u16, u16)],
    lines: Vec<(C, C)>,
) -> Result<Vec<Link<C>>, AllocError>
    requires { length lines.items ≡ length cables.now }
    ensures { IfOk result (λ made. link_states C.items C.limit made.items ≡ first_links C.items C.limit cables.now lines.items) }
{
    let mut made = Vec::with_capacity(alloc, cables.len())?;
    for directions in lines {
        let ends = cables[made.len()];
        let (to_one, to_two) = directions;
        made.push_reserved(Link {
            one: ends.0,
            two: ends.1,
            whole: true,
            to_one,
            to_two,
        });
    }
    Ok(made)
}

/// The configurations of system 1 and of system 2.
fn both(systems: [Config; 2]) -> Option<(Config, Config)>
    ensures { IfSome result (λ two. systems ≡ two.0 ∷ two.1 ∷ []) }
{
    let mut rest = systems.into_iter();
    let first = rest.next()?;
    let second = rest.next()?;
    Some((first, second))
}

impl<C: Cable, F: Fn(u16, usize) -> usize + Drop> Inner<C, F> {
    /// Both systems in their first states, and every cable whole and empty.
    pub(crate) fn new(
        alloc: Global,
        config: WorldConfig,
        one: F,
        two: F,
        lines: Vec<(C, C)>,
    ) -> Result<Inner<C, F>, WorldFault>
        requires one { PicksIndexes (F.pre one) (F.post one) }
        requires two { PicksIndexes (F.pre two) (F.post two) }
        ensures accepted { IfOk result (λ inner. refusal_with C.items config lines.items ≡ None) }
        ensures made { IfOk result (λ inner. IsMade C.items C.limit config lines.items (world_state C.items C.limit inner)) }
        ensures start { IfOk result (λ inner. IsStart (world_state C.items C.limit inner)) }
        ensures one { IfOk result (λ inner. inner.one.system.algorithm ≡ one) }
        ensures two { IfOk result (λ inner. inner.two.system.algorithm ≡ two) }
        ensures refused { IfErr result (λ fault. RefusesToMake (refusal_with C.items config lines.items) fault) }
    {
        if let Some(reason) = config.refusal() {
            return Err(WorldFault::BadConfig(reason));
        }
        if !are_empty_lines(&config.cables, &lines) {
            return Err(WorldFault::BadConfig(BadWorld::Lines));
        }
        let links = first_links(alloc, &config.cables, lines)?;
        let (first, second) = match both(config.systems) {
            Some(systems) => systems,
            None => return Err(WorldFault::NoMemory),
        };
        let one = Half::new(alloc, first, one)?;
        let two = Half::new(alloc, second, two)?;
        Ok(Inner {
            alloc,
            one,
            two,
            links,
            acted: 0,
        })
    }
}
