//! The calls of a warm start, none of which sends: each port comes back into its aggregator, with what is left of its timeout.
//! A port takes the lowest aggregator of its key that no other link occupies. So those below that stand empty are taken first, each by
//! a spare port, which hears a partner that is Individual; all profile.

ghost use Rattle.std.specs.Prelude.{◌≡◌, ◌≤◌, filter, length, map};
ghost use Rattle.dataplane.specs.Resuming.{Runs};
ghost use Rattle.dataplane.specs.Warming.{any_long, change_to, count_empty, duration, filled, filled_by, fills, has_higher, has_lower, heard};
ghost use Rattle.dataplane.specs.Warming.{heard_of, individual_frame, is_due, is_leading, is_saved, is_spare_below, is_taken, leads, link_up};
ghost use Rattle.dataplane.specs.Warming.{occupied, one_if_empty, other_starting, others_starting, passing, starting_again, warm_calls};

use crate::resuming::SavedPort;
use lagsystem::{Key, PortChange, PortConfig, System};

/// The place of Actor_State in the frame of an LACPDU (6.4.2.3).
const ACTOR_STATE: usize = 32;
/// Actor_State of a partner that is Individual: LACP_Activity alone (6.4.2.3).
const INDIVIDUAL: u8 = 1;

/// When a saved LACPDU comes.
#[derive(Clone, Copy, Debug)]
enum Moment {
    /// The first port comes into this aggregator.
    Leading(u16),
    /// So many ticks before the end.
    Before(u32),
}

/// Whether a port was saved in this aggregator.
fn is_taken(saved: &[SavedPort], agg: u16) -> bool
    ensures { result ≡ is_taken saved.now agg }
{
    saved.iter().any(|one| one.aggregator == agg)
}

/// Whether a port was saved in a higher aggregator.
fn has_higher(saved: &[SavedPort], agg: u16) -> bool
    ensures { result ≡ has_higher saved.now agg }
{
    saved.iter().any(|one| one.aggregator > agg)
}

/// Whether a lower port was saved in the aggregator of a saved port.
fn has_lower(saved: &[SavedPort], one: &SavedPort) -> bool
    ensures { result ≡ has_lower saved.now one.now }
{
    saved.iter().any(|other| other.aggregator == one.aggregator && other.port < one.port)
}

/// Whether a saved port is the lowest that was saved in its aggregator.
fn leads(saved: &[SavedPort], one: &SavedPort) -> bool
    ensures { result ≡ leads saved.now one.now }
{
    one.aggregator > 0 && !has_lower(saved, one)
}

/// Whether an aggregator begins with the port of this number; else it is spare.
fn is_leading(saved: &[SavedPort], port: u16) -> bool
    ensures { result ≡ is_leading saved.now port }
{
    saved
        .iter()
        .any(|one| one.port == port && leads(saved, one))
}

/// Whether a port is spare, of the key of the other one, and below it.
fn is_spare_below(saved: &[SavedPort], config: &PortConfig, other: &PortConfig) -> bool
    ensures { result ≡ is_spare_below saved.now config.now other.now }
{
    config.key == other.key && config.number < other.number && !is_leading(saved, config.number)
}

/// How many spare ports of its key are below a port.
fn count_spares(saved: &[SavedPort], ports: &[PortConfig], other: &PortConfig) -> usize
    ensures { result ≡ length (filter (λ config. is_spare_below saved.now config other.now) ports.now) }
{
    ports
        .iter()
        .filter(|config| is_spare_below(saved, config, other))
        .count()
}

/// 1 if the aggregator of this number and key has the other key and no port was saved in it, else 0.
fn one_if_empty(saved: &[SavedPort], agg: u16, own: Key, key: Key) -> usize
    ensures exact { result ≡ one_if_empty saved.now agg own key }
    ensures few { result ≤ 1 }
{
    if own == key && !is_taken(saved, agg) {
        1
    } else {
        0
    }
}

/// How many of these aggregators, the first of them aggregator 1, have this key and are empty.
fn count_empty(saved: &[SavedPort], keys: &[Key], key: Key) -> usize
    requires few { length keys.now ≤ 64 }
    ensures { result ≡ count_empty saved.now keys.now key (length keys.now) }
{
    let mut count = 0;
    let mut agg = 0;
    for own in keys {
        agg += 1;
        count += one_if_empty(saved, agg, *own, key);
    }
    count
}

/// Whether a port takes the aggregator behind these for the while.
fn fills(
    saved: &[SavedPort],
    below: &[Key],
    key: Key,
    agg: u16,
    ports: &[PortConfig],
    config: &PortConfig,
) -> bool
    requires { length below.now ≤ 64 }
    ensures { result ≡ fills saved.now below.now key agg ports.now config.now }
{
    config.key == key
        && has_higher(saved, agg)
        && !is_taken(saved, agg)
        && !is_leading(saved, config.number)
        && count_spares(saved, ports, config) == count_empty(saved, below, key)
}

/// Whether the LACPDU comes at this moment.
fn is_due(moment: Moment, saved: &[SavedPort], one: &SavedPort) -> bool
    ensures { result ≡ is_due moment saved.now one.now }
{
    match moment {
        Moment::Leading(agg) => one.aggregator == agg && leads(saved, one),
        Moment::Before(left) => one.age == left || (one.age < left && left % 20 == 0),
    }
}

/// The links of the ports come up.
fn set_links<F: Fn(u16, usize) -> usize + Drop>(system: &mut System<F>, ports: &[PortConfig])
    ensures run { Runs (F.post system.old.algorithm) system.old.state (map link_up ports.now) system.new.state }
    ensures algorithm { system.new.algorithm ≡ system.old.algorithm }
{
    for config in ports {
        let _reply = system.set_link(config.number, true);
    }
}

/// The LACPDU of a saved port comes, if it comes at this moment.
fn hear_one<F: Fn(u16, usize) -> usize + Drop>(
    system: &mut System<F>,
    moment: Moment,
    saved: &[SavedPort],
    one: &SavedPort,
)
    ensures run { Runs (F.post system.old.algorithm) system.old.state (heard_of moment saved.now one.now) system.new.state }
    ensures algorithm { system.new.algorithm ≡ system.old.algorithm }
{
    if !is_due(moment, saved, one) {
        return;
    }
    let _reply = system.receive(one.port, &one.frame);
}

/// The saved LACPDUs of this moment come.
fn hear<F: Fn(u16, usize) -> usize + Drop>(
    system: &mut System<F>,
    moment: Moment,
    saved: &[SavedPort],
)
    ensures run { Runs (F.post system.old.algorithm) system.old.state (heard moment saved.now) system.new.state }
    ensures algorithm { system.new.algorithm ≡ system.old.algorithm }
{
    for one in saved {
        hear_one(system, moment, saved, one);
    }
}

/// An LACPDU of the partner of the first saved port, but it says that it is Individual.
fn individual_frame(saved: &[SavedPort]) -> [u8; 124]
    ensures { result ≡ individual_frame saved.now }
{
    match saved.first() {
        Some(one) => {
            let mut frame = one.frame;
            frame[ACTOR_STATE] = INDIVIDUAL;
            frame
        }
        None => [0; 124],
    }
}

/// The LACPDU comes on a port that takes the aggregator of this number and key for the while. `below` has the keys of those below it.
fn fill_by<F: Fn(u16, usize) -> usize + Drop>(
    system: &mut System<F>,
    saved: &[SavedPort],
    below: &[Key],
    key: Key,
    agg: u16,
    ports: &[PortConfig],
    config: &PortConfig,
)
    requires few { length below.now ≤ 64 }
    ensures run { Runs (F.post system.old.algorithm) system.old.state (filled_by saved.now below.now key agg ports.now config.now) system.new.state }
    ensures algorithm { system.new.algorithm ≡ system.old.algorithm }
{
    if !fills(saved, below, key, agg, ports, config) {
        return;
    }
    let frame = individual_frame(saved);
    let _reply = system.receive(config.number, &frame);
}

/// It comes on the port that takes this aggregator for the while, if one has to.
fn fill<F: Fn(u16, usize) -> usize + Drop>(
    system: &mut System<F>,
    saved: &[SavedPort],
    below: &[Key],
    key: Key,
    agg: u16,
    ports: &[PortConfig],
)
    requires few { length below.now ≤ 64 }
    ensures run { Runs (F.post system.old.algorithm) system.old.state (filled saved.now below.now key agg ports.now) system.new.state }
    ensures algorithm { system.new.algorithm ≡ system.old.algorithm }
{
    for config in ports {
        fill_by(system, saved, below, key, agg, ports, config);
    }
}

/// Each aggregator in turn, the lowest first, gets its first port; one that is empty below others gets a spare port.
fn occupy<F: Fn(u16, usize) -> usize + Drop>(
    system: &mut System<F>,
    saved: &[SavedPort],
    keys: &[Key],
    ports: &[PortConfig],
)
    requires few { length keys.now ≤ 64 }
    ensures run { Runs (F.post system.old.algorithm) system.old.state (occupied saved.now keys.now ports.now (length keys.now)) system.new.state }
    ensures algorithm { system.new.algorithm ≡ system.old.algorithm }
{
    let mut agg = 0;
    for key in keys {
        let (below, _above) = keys.split_at(usize::from(agg));
        agg += 1;
        hear(system, Moment::Leading(agg), saved);
        fill(system, saved, below, *key, agg, ports);
    }
}

/// The values of a port, with this Aggregation bit.
fn change_to(config: &PortConfig, aggregatable: bool) -> PortChange
    ensures { result ≡ change_to aggregatable config.now }
{
    PortChange {
        key: config.key,
        priority: config.priority,
        aggregatable,
    }
}

/// A port goes down, and starts again with the parameters that it was given.
fn start_again<F: Fn(u16, usize) -> usize + Drop>(system: &mut System<F>, config: &PortConfig)
    ensures run { Runs (F.post system.old.algorithm) system.old.state (starting_again config.now) system.new.state }
    ensures algorithm { system.new.algorithm ≡ system.old.algorithm }
{
    let _down = system.set_link(config.number, false);
    let _other = system.configure(config.number, change_to(config, !config.aggregatable));
    let _own = system.configure(config.number, change_to(config, config.aggregatable));
}

/// Whether the port was saved.
pub(crate) fn is_saved(saved: &[SavedPort], port: u16) -> bool
    ensures { result ≡ is_saved saved.now port }
{
    saved.iter().any(|one| one.port == port)
}

/// So does a port that was not saved.
fn start_other<F: Fn(u16, usize) -> usize + Drop>(
    system: &mut System<F>,
    saved: &[SavedPort],
    config: &PortConfig,
)
    ensures run { Runs (F.post system.old.algorithm) system.old.state (other_starting saved.now config.now) system.new.state }
    ensures algorithm { system.new.algorithm ≡ system.old.algorithm }
{
    if is_saved(saved, config.number) {
        return;
    }
    start_again(system, config);
}

/// So do all of them.
fn start_others<F: Fn(u16, usize) -> usize + Drop>(
    system: &mut System<F>,
    saved: &[SavedPort],
    ports: &[PortConfig],
)
    ensures run { Runs (F.post system.old.algorithm) system.old.state (others_starting saved.now ports.now) system.new.state }
    ensures algorithm { system.new.algorithm ≡ system.old.algorithm }
{
    for config in ports {
        start_other(system, saved, config);
    }
}

/// So many ticks pass, and each saved LACPDU comes again and again, last when it is as old as it was saved.
fn pass<F: Fn(u16, usize) -> usize + Drop>(system: &mut System<F>, saved: &[SavedPort], ticks: u32)
    ensures run { Runs (F.post system.old.algorithm) system.old.state (passing saved.now ticks ticks) system.new.state }
    ensures algorithm { system.new.algorithm ≡ system.old.algorithm }
{
    hear(system, Moment::Before(ticks), saved);
    for passed in 0..ticks {
        system.tick();
        hear(system, Moment::Before(ticks - passed - 1), saved);
    }
}

/// Whether a port has the Long Timeout.
fn any_long(ports: &[PortConfig]) -> bool
    ensures { result ≡ any_long ports.now }
{
    ports.iter().any(|config| !config.short)
}

/// The ticks of a warm start: a timeout and wait_while, or two short timeouts where each port has the short one.
fn duration(ports: &[PortConfig]) -> u32
    ensures { result ≡ duration ports.now }
{
    if any_long(ports) { 920 } else { 60 }
}

/// Plays the calls of a warm start.
pub(crate) fn warm_up<F: Fn(u16, usize) -> usize + Drop>(
    system: &mut System<F>,
    saved: &[SavedPort],
    keys: &[Key],
    ports: &[PortConfig],
)
    requires few { length keys.now ≤ 64 }
    ensures run { Runs (F.post system.old.algorithm) system.old.state (warm_calls keys.now ports.now saved.now) system.new.state }
    ensures algorithm { system.new.algorithm ≡ system.old.algorithm }
{
    set_links(system, ports);
    occupy(system, saved, keys, ports);
    start_others(system, saved, ports);
    pass(system, saved, duration(ports));
}
