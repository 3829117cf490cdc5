//! The headline for any number of `System`s, cabled in any way, whose cables may be moved, and whose other ports may receive any octets: what `lagnetwork` proves
//! of definitions, of the calls that the contracts of `lagsystem` describe; and the same of one `System` beside peers of any kind. The
//! functions do nothing when they run: the contract of each is a proved theorem.
#![tactic(auto)]

ghost use Rattle.lagnetwork.specs.NetworkLaw.{AllCountFromZero, EachTookInSync, EachOnePartner, CablesAgree, NetworkInOrder, EachCollectorInOrder, NamesFarEnd, TookFromFarEnd, OneDevice, NotWithItself};
ghost use Rattle.std.specs.Prelude.{ℕ};
ghost use Rattle.lagfleet.specs.Fleet.{FleetTookFromFixedEnd, IsFleetInvariant};

// promise: **any number of `System`s**: the first five rows of lagnetwork, and that of `took_from_far_end`, hold after any calls, those of
//    hosts, settings and takeovers among them, octets received, whatever the algorithms return; cables may be moved at any time, and lose then
//    what is on them; LACPDUs may overtake data, and no frame comes twice
// contract: `fleet` (`one_partner`, `agree`, `in_order`, `each_in_order`, `counts_from_zero`, `took_from_far_end`, `took_from_fixed_end`,
//    `names_far_end`, `took_synchronized`, `one_device`, `not_with_itself`)
// premises: those of the law of two systems; no slow protocols frame is offered by number; a system that takes over has the identifier, the
//    keys of aggregators and the ports of the one before (`IsAlikeSetup`), and meets `IsNetworkSuccessor`: the first marker of its configuration may
//    be any, the next one that it sends is not below that of the one before
/// After every list of calls of any number of systems, each with an algorithm of its own, whatever the algorithms return: those of
/// `HostCall`, settings, and takeovers by a system that goes on where another was, as after a warm start. LACPDUs may overtake data, and
/// cables may be taken out and put in elsewhere at any time (6.2.4, 6.3.6, 6.4.14, 6.5; profile).
pub fn fleet<F: Fn(u16, usize) -> usize>()
    ensures one_partner { (algorithms : ℕ → F) → IsFleetInvariant (λ s. F.post (algorithms s)) (λ x w. EachOnePartner w) }
    ensures agree { (algorithms : ℕ → F) → IsFleetInvariant (λ s. F.post (algorithms s)) (λ x w. CablesAgree w) }
    ensures in_order { (algorithms : ℕ → F) → IsFleetInvariant (λ s. F.post (algorithms s)) (λ x w. NetworkInOrder w) }
    ensures each_in_order { (algorithms : ℕ → F) → IsFleetInvariant (λ s. F.post (algorithms s)) (λ x w. EachCollectorInOrder w) }
    ensures counts_from_zero { (algorithms : ℕ → F) → IsFleetInvariant (λ s. F.post (algorithms s)) (λ x w. AllCountFromZero w) }
    ensures names_far_end { (algorithms : ℕ → F) → IsFleetInvariant (λ s. F.post (algorithms s)) (λ x w. NamesFarEnd x w) }
    ensures took_from_far_end { (algorithms : ℕ → F) → IsFleetInvariant (λ s. F.post (algorithms s)) (λ x w. TookFromFarEnd x w) }
    ensures took_from_fixed_end { (algorithms : ℕ → F) → FleetTookFromFixedEnd (λ s. F.post (algorithms s)) }
    ensures took_synchronized { (algorithms : ℕ → F) → IsFleetInvariant (λ s. F.post (algorithms s)) (λ x w. EachTookInSync x w) }
    ensures one_device { (algorithms : ℕ → F) → IsFleetInvariant (λ s. F.post (algorithms s)) (λ x w. OneDevice x w) }
    ensures not_with_itself { (algorithms : ℕ → F) → IsFleetInvariant (λ s. F.post (algorithms s)) (λ x w. NotWithItself x w) }
{}

ghost use Rattle.lagfleet.specs.Fleet.{EachCallIsAnEvent, EachHostCallIsAnEvent, EachSettingIsAnEvent, ShowsOneAct};

// promise: each call that a contract allows, each of the five calls of hosts and each setting is the event of a fleet that has this call and
//    this answer, whatever cables accept: what goes out is what the answer shows, and a frame is handed up where the reply says so; a reply
//    shows one act or none
// contract: `each_call_is_an_event` (`calls`, `host_calls`, `settings`), `each_call_shows_one_act`
// premises: what comes on a cable carries what came first there; a link is said to be as its cable is (`IsTrueOf`)
/// What the contract of a call shows is one act or none, as an event of a fleet has it (profile).
pub fn each_call_shows_one_act()
    ensures { ShowsOneAct }
{}

/// Each call of a system, with what it answers, in any fleet and at any moment, is an event of the fleet, whatever cables accept, if what
/// comes on a cable is a frame that carries what came first there, and a link is said to be as its cable is; so is each of the five calls
/// of hosts, and each setting. It leaves on the cables what the answer shows (profile).
pub fn each_call_is_an_event<F: Fn(u16, usize) -> usize>()
    ensures calls { (algorithms : ℕ → F) → EachCallIsAnEvent (λ s. F.post (algorithms s)) }
    ensures host_calls { (algorithms : ℕ → F) → EachHostCallIsAnEvent (λ s. F.post (algorithms s)) }
    ensures settings { (algorithms : ℕ → F) → EachSettingIsAnEvent (λ s. F.post (algorithms s)) }
{}

ghost use Rattle.lagfleet.specs.Falling.{EachFallIsSeen};

// promise: a port whose link was up is down, as `took_from_far_end` asks of a port whose cable is moved, once its link is said to be down
// contract: `each_fall_is_seen`
/// A port whose link was up is down to the law once its link is said to be down: its partner is out of sync (6.4.12).
pub fn each_fall_is_seen<F: Fn(u16, usize) -> usize>()
    ensures { (algorithm : F) → EachFallIsSeen (F.post algorithm) }
{}

ghost use Rattle.lagmodel.specs.AnyPeer.{OrderHolds, SerialsCountFromZero, TookInSync};
ghost use Rattle.lagmodel.specs.Law.{OnePartner};
ghost use Rattle.lagfleet.specs.BesideAnyPeer.{EachCallBesideAnyPeer, EachForceBesideAnyPeer, EachHappeningBesideAnyPeer, EachHostCallBesideAnyPeer};
ghost use Rattle.lagfleet.specs.BesideAnyPeer.{EachRestartBesideAnyPeer, EachSettingBesideAnyPeer, HoldsBesideAnyPeer, MayGiveWayToItself};

// promise: **one `System` beside any peers**, which may lie, overtake and send what others sent, however they are wired: ports that
//    distribute in one aggregator name one partner; a distributing port, not on defaults, took last an LACPDU that said IN_SYNC, whose
//    Actor it names, and that named the port or was of an individual link; what the peers hand up of an unforced conversation is in order,
//    and nothing twice. Each call of `drive`, each of the five calls of hosts and each setting is such an event, and leaves what its answer shows, whatever cables accept; a system of which no
//    conversation waits may take its own place
// contract: `beside_any_peer` (`one_partner`, `took_synchronized`, `in_order`, `counts_from_zero`, `each_call`, `each_restart`,
//    `each_force`, `each_host_call`, `each_setting`, `each_happening`, `takeovers`)
// premises: a Marker Response on a cable answers the marker that came there first; no port has two cables; cables and peers keep the order
//    of data and markers, and repeat no data; a link is said to be down only while its cable is cut; what comes in a call stands first on its cable
//    (`Fits`); a restart loses what is on the cables; a takeover is by a system that may follow (`IsSuccessor` of lagmodel), and has the
//    identifier, the keys of aggregators and the ports of the one before (`IsAlikeSetup`)
/// One system beside peers of any kind and number, however they are wired, as `order_with_any_peer` of `lagmodel` has it of definitions:
/// after every list of calls, octets received, with those of hosts, settings and takeovers. Two premises for order: on a cable a Marker
/// Response answers the marker that has come there first, and data is handed up once, as it comes (6.2.4, 6.4.9, 6.4.14, 6.5.4; profile).
pub fn beside_any_peer<F: Fn(u16, usize) -> usize>()
    ensures one_partner { (algorithm : F) → HoldsBesideAnyPeer (F.post algorithm) (λ w. OnePartner w.view) }
    ensures took_synchronized { (algorithm : F) → HoldsBesideAnyPeer (F.post algorithm) TookInSync }
    ensures in_order { (algorithm : F) → HoldsBesideAnyPeer (F.post algorithm) OrderHolds }
    ensures counts_from_zero { (algorithm : F) → HoldsBesideAnyPeer (F.post algorithm) SerialsCountFromZero }
    ensures each_call { (algorithm : F) → EachCallBesideAnyPeer (F.post algorithm) }
    ensures each_restart { (algorithm : F) → EachRestartBesideAnyPeer (F.post algorithm) }
    ensures each_force { (algorithm : F) → EachForceBesideAnyPeer (F.post algorithm) }
    ensures each_host_call { (algorithm : F) → EachHostCallBesideAnyPeer (F.post algorithm) }
    ensures each_setting { (algorithm : F) → EachSettingBesideAnyPeer (F.post algorithm) }
    ensures each_happening { (algorithm : F) → EachHappeningBesideAnyPeer (F.post algorithm) }
    ensures takeovers { (algorithm : F) → MayGiveWayToItself (F.post algorithm) }
{}
