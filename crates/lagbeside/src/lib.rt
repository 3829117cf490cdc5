//! One system beside any peers: which of its ports are SELECTED, how far timers go, how long a port is silent, notices silence, and knows
//! what it heard; and what the partner of one port has to say for the port to carry, whatever its other ports hear. The functions do
//! nothing when they run: the contract of each is a proved theorem over the states and calls of `lagsystem`.
//!
//! In comments, numbers such as 6.4.12 are sections of IEEE 802.1AX-2014, and "profile" is docs/PROFILE.md.
#![tactic(auto)]

ghost use Rattle.lagbeside.specs.Selecting.{FindsAggregator, SharesAggregator, WaitsForRoom};

// promise: a port is SELECTED, or STANDBY with a full aggregator, if its link is up, it is CURRENT or DEFAULTED, and its partner is not its
//    own system
// contract: `ports_find_aggregators` (`FindsAggregator`)
// premises: sound; not held; as many aggregators of its key as ports of that key, up or down
/// A port of a sound system whose link is up, that is CURRENT or DEFAULTED, that the host does not hold, and whose partner is
/// not its own system, is SELECTED, or STANDBY in an aggregator that has no room, if its system has at least as many
/// aggregators of its key as ports of that key (6.4.14; profile).
pub fn ports_find_aggregators()
    ensures { FindsAggregator }
{}

// promise: the aggregator of a STANDBY port has as many members as the limit
// contract: `standby_ports_wait_for_room`
// premises: sound
/// No STANDBY port of a sound system waits while its aggregator has room: that has as many members as the limit of links
/// (6.4.14; profile).
pub fn standby_ports_wait_for_room()
    ensures { WaitsForRoom }
{}

// promise: where ports share fewer aggregators, a port is SELECTED or STANDBY as `ports_find_aggregators` says
// contract: `ports_share_aggregators` (`SharesAggregator`)
// premises: sound; not held; one aggregator of the key; the link is not Individual; the links of all ports of the key that are not UNSELECTED have
//    its group
/// A port of a sound system whose link is up, that is CURRENT or DEFAULTED, that the host does not hold, and whose partner is
/// not its own system, is SELECTED, or STANDBY in an aggregator that has no room, if its system has an aggregator of its key,
/// its link is not Individual, and the links of all ports of its key that are not UNSELECTED have its group (6.3.6, 6.4.14;
/// profile).
pub fn ports_share_aggregators()
    ensures { SharesAggregator }
{}

ghost use Rattle.lagbeside.specs.Timers.{EachCallKeepsTimed, EachHostCallKeepsTimed, EachSettingKeepsTimed, FirstIsTimed};

// promise: at first and after each call no timer has more ticks than it can start with, no window an age above 10, and a wait for a response
//    is below 30 ticks; settings keep the bounds of timers and windows, and after `set_mode` current_while may exceed the new time-out
// contract: `timers_are_bounded`, `waits_are_short` (`first`, `kept`, `hosts`, `settings`)
/// No timer of a port has more ticks than it can start with: current_while at most Short_Timeout_Time (30 ticks) in EXPIRED, and
/// Long_Timeout_Time (900) in any other state; periodic_timer at most Fast_Periodic_Time (10) in FAST, else Slow_Periodic_Time (300);
/// wait_while at most Aggregate_Wait_Time (20); and no age of the transmit window is above 10 (6.4.4, 6.4.16). And current_while is
/// at most the time-out of the port: 30 with Short Timeout. So it is in each first state, and each call keeps it, whatever the
/// distribution algorithm returns. Settings keep it, too, but for the last: after `set_mode` current_while goes on until it expires or
/// an LACPDU starts it anew (profile).
pub fn timers_are_bounded<F: Fn(u16, usize) -> usize>()
    ensures first { FirstIsTimed }
    ensures kept { (algorithm : F) → EachCallKeepsTimed (F.post algorithm) }
    ensures hosts { (algorithm : F) → EachHostCallKeepsTimed (F.post algorithm) }
    ensures settings { EachSettingKeepsTimed }
{}

ghost use Rattle.lagbeside.specs.Waits.{EachCallKeepsWaits, EachHostCallKeepsWaits, FirstWaitsAreShort};

/// The age of a conversation that waits for the response to a marker is below 30 ticks (3 s): so it is in each first
/// state, and each call keeps it, whatever the distribution algorithm returns (6.2.5; profile).
pub fn waits_are_short<F: Fn(u16, usize) -> usize>()
    ensures first { FirstWaitsAreShort }
    ensures kept { (algorithm : F) → EachCallKeepsWaits (F.post algorithm) }
    ensures hosts { (algorithm : F) → EachHostCallKeepsWaits (F.post algorithm) }
{}

ghost use Rattle.lagbeside.specs.Told.{TellsAtMost900};

// promise: `ticks_until_due` is at most 900, and 0 exactly if a frame is due
// contract: `ticks_until_due_are_bounded`
// premises: timers and waits within their bounds
/// `ticks_until_due` tells at most 900 ticks (90 s), and 0 exactly where a frame is due. The timers and waits of the system
/// are within their bounds (6.4.4; profile).
pub fn ticks_until_due_are_bounded()
    ensures { TellsAtMost900 }
{}

ghost use Rattle.lagbeside.specs.Silence.{SilenceEnds};

// promise: NTT becomes true within a bound, which each tick lowers by one and no run of the periodic machine raises: in FAST the timer's
//    ticks and 299, in SLOW the timer's ticks
// contract: `silence_ends` (`Silence`)
// premises: active, link up
/// An active port whose link is up is not silent for long: no run of the periodic machine raises the bound on the ticks
/// until NTT is true; each tick lowers it by one; and at 0 NTT is true (6.4.13).
pub fn silence_ends()
    ensures { SilenceEnds }
{}

ghost use Rattle.lagbeside.specs.Heartbeat.{IsHeard, IsSilentShortly};

// promise: an LACPDU of a port is due after calls with 309 ticks or more, if it sent none in them; if none is due, they have at most 308
// contract: `active_ports_are_heard` (`heard`, `silent`)
// premises: sound, timers within bounds; active; the link stays up. Settings of other ports and host calls may stand between (`Runs`)
/// An active port whose link stays up is heard: after any calls that leave its link up, 309 ticks or more among them, an
/// LACPDU is due on it, if it sent none in them. So it sends one in any 309 ticks (31 s) after each of which it is asked
/// (6.4.13, 6.4.16), and where none is due after such calls, at most 308 ticks are among them. The system is sound, its timers
/// are within their bounds, and its distribution algorithm may return anything. Between the calls may stand those of a host with a data plane,
/// and settings that neither hold the port, let it go nor change its mode.
pub fn active_ports_are_heard<F: Fn(u16, usize) -> usize>()
    ensures heard { (algorithm : F) → IsHeard (F.post algorithm) }
    ensures silent { (algorithm : F) → IsSilentShortly (F.post algorithm) }
{}

ghost use Rattle.lagbeside.specs.Hearing.{IsNoticed};

// promise: a port is not CURRENT after calls with 900 ticks (30 with Short Timeout) in which it processed no LACPDU, and DEFAULTED after 30
//    more
// contract: `silence_is_noticed` (`Hearing`)
// premises: sound, timers within bounds, and current_while within the port's time-out; the link stays up; no `configure` names it; `Runs` as above
/// Silence is noticed: a port whose link stays up, that no `configure` names, and that processes no LACPDU is not
/// CURRENT after 900 ticks (90 s), or 30 (3 s) if it has Short Timeout, and it is DEFAULTED after 30 more (6.4.12). The
/// system is sound, its timers are within their bounds, current_while of the port is within its time-out, and its distribution
/// algorithm may return anything. What stands between calls is as `active_ports_are_heard` has it.
pub fn silence_is_noticed<F: Fn(u16, usize) -> usize>()
    ensures { (algorithm : F) → IsNoticed (F.post algorithm) }
{}

ghost use Rattle.lagbeside.specs.Knowing.{IsKnown};

// promise: a port that processed an LACPDU knows its actor after calls with fewer ticks than these
// contract: `what_was_heard_is_known` (`Knowing`)
// premises: sound before and after; the link stays up; no `configure` names it; it processes no other LACPDU; `Runs` as above
/// What a port heard it knows: a port that processed an LACPDU is CURRENT and has recorded its actor, with its Activity
/// and its Timeout, for 900 ticks (90 s), or 30 (3 s) if it has Short Timeout, while its link stays up, no `configure`
/// names it, and it processes no other LACPDU (6.4.12). The system is sound, and its distribution algorithm may
/// return anything. What stands between calls is as `active_ports_are_heard` has it.
pub fn what_was_heard_is_known<F: Fn(u16, usize) -> usize>()
    ensures { (algorithm : F) → IsKnown (F.post algorithm) }
{}

ghost use Rattle.lagbeside.specs.Serving.{CarriesBeside, ComesUp, ComesUpAlone, NeverAlone, StaysUp};

// promise: a port that is served (`Service`, `Fed`) and SELECTED stays so, in its aggregator, and goes on carrying if it does, whatever other
//    ports hear, and whatever is asked of the system in between
// contract: `a_served_port_stays_up` (`StaysUp`)
// premises: its link stays up, it is not configured, and no restart; each LACPDU that it processes is of one party and in sync with it; at
//    most 29 ticks between two, 899 with Long Timeout. Between calls come the five calls of a data plane, as far as they leave the system
//    sound and its ports as they are, and any settings but `hold_port` and `set_mode` of the port (`IsAside`, `LeavesPort`): held, it is
//    UNSELECTED at once; with Short Timeout it wants more LACPDUs; and passive, it is out of sync with a passive partner
/// A port that is served and SELECTED stays so, and in COLLECTING_DISTRIBUTING, whatever comes on other ports: its link stays up,
/// it is not configured anew, each LACPDU that it processes is of one party and in sync with it, and at most 29 ticks go between
/// two of them (899 with Long Timeout) (6.4.12 to 6.4.15). Other ports may be held, let go and set to another mode, the limit of links
/// may be set to any that is not refused, and so may CollectorMaxDelay (profile).
pub fn a_served_port_stays_up<F: Fn(u16, usize) -> usize>()
    ensures { (algorithm : F) → StaysUp (F.post algorithm) }
{}

// promise: such a port carries after 20 ticks
// contract: `a_served_port_comes_up` (`ComesUp`)
// premises: the same; once the first of these ticks has gone, no other port of its aggregator begins to wait, by a call or a setting
//    (`OnceTicked`, `NoneBegins`); no port has more ticks of wait_while left than it starts with (`WaitsAreBounded`)
/// A port that is served and SELECTED is in COLLECTING_DISTRIBUTING after 20 ticks in which no other port began to wait in its
/// aggregator (6.4.14, 6.4.15).
pub fn a_served_port_comes_up<F: Fn(u16, usize) -> usize>()
    ensures { (algorithm : F) → ComesUp (F.post algorithm) }
{}

ghost use Rattle.lagbeside.specs.Joining.{NoneBeginsToWait};

// promise: in each run in which the other ports of a key hear what they heard, none of them begins to wait in an aggregator, as
//    `a_served_port_comes_up` asks of that run: each hears the party that it has recorded, or nothing
// contract: `ports_that_hear_the_same_do_not_begin` (`NoneBeginsToWait`)
// premises: at most 30 ticks, and `WaitsAreBounded`; each of them is SELECTED or STANDBY at first, and in EXPIRED only with more ticks left than
//    come, or its link is down (`HasJoined`); `set_link` takes none of their links up, none of them is held or let go, no other port is configured,
//    and the port itself is not held, let go or set to a mode (`SetsNoneFree`); no restart. Ports of other keys may hear anything
/// Ports that hear the same do not begin to wait: in at most 30 ticks, with which EXPIRED begins, none of the other ports of a key that
/// is in an aggregator, or whose link is down, begins to wait in one after the first tick, while each hears the party that it has
/// recorded, or nothing, whatever ports of other keys hear (6.4.12 to 6.4.15). So it is in each such run, at the states that it goes by.
pub fn ports_that_hear_the_same_do_not_begin<F: Fn(u16, usize) -> usize>()
    ensures { (algorithm : F) → NoneBeginsToWait (F.post algorithm) }
{}

// promise: **any peer that serves a port brings it up**: at the first LACPDU of the service the port is SELECTED, whatever was before, and 20
//    ticks later it carries
// contract: `any_peer_brings_a_port_up` (`CarriesBeside`)
// premises: those of `a_served_port_comes_up`; its link is up, the host does not hold it, the partner is another system; as many aggregators
//    of its key as ports, or one for ports of one group (`HasPlace`); it does not stand by a full aggregator
/// From the first LACPDU of its service on, whatever was before: the port is SELECTED at once, if it has a place and room, and
/// carries 20 ticks later.
pub fn any_peer_brings_a_port_up<F: Fn(u16, usize) -> usize>()
    ensures { (algorithm : F) → CarriesBeside (F.post algorithm) }
{}

// promise: the only port of its key carries after 20 ticks of its service
// contract: `the_only_port_of_a_key_comes_up` (`ComesUpAlone`)
// premises: as for `a_served_port_stays_up`, and `WaitsAreBounded`; nothing of what other ports hear
/// The only port of its key waits for no other: it carries after 20 ticks of its service, whatever comes on other ports.
pub fn the_only_port_of_a_key_comes_up<F: Fn(u16, usize) -> usize>()
    ensures { (algorithm : F) → ComesUpAlone (F.post algorithm) }
{}

// promise: **a port does not carry unanswered**: while no LACPDU is in sync with it (it names another port, is OUT_OF_SYNC, or the link is not
//    actively maintained), it carries on defaults alone
// contract: `no_port_carries_unanswered` (`NeverAlone`)
// premises: it is on defaults, or its partner is not synchronized, before; it is not configured, and no restart. Any settings come between;
//    but `set_mode` makes it active only where no LACPDU would be in sync with it if it were active (`ActiveOnlyIf`): active, it is in sync
//    with more
/// A port that no LACPDU was in sync with distributes on defaults alone: off defaults it is not in COLLECTING_DISTRIBUTING
/// (6.4.9, recordPDU; 6.4.15). It may be made passive at any time, and active where no LACPDU would be in sync with it
/// if it were active.
pub fn no_port_carries_unanswered<F: Fn(u16, usize) -> usize>()
    ensures { (algorithm : F) → NeverAlone (F.post algorithm) }
{}
