//! Two systems and hosts that make any calls: the events of `lagworld`, the five calls that only hosts with a data plane make, and
//! settings, in any order. The function of this crate does nothing when it runs: its contract is a proved theorem.
//!
//! In comments, numbers such as 6.3.6 are sections of IEEE 802.1AX-2014, and "profile" is docs/PROFILE.md.
#![tactic(auto)]

ghost use Rattle.lagworld.specs.Sound.{both_algorithms};
ghost use Rattle.laghosts.specs.HostEvents.{ForcedByForce, HostsKeepHeadline};

// promise: the headline holds after every list of events, of `offer_conversation`, `leave_conversation`, `probe`, `rest`, `force_port`, and of
//    `hold_port`, `set_mode`, `set_max_delay`, `set_max_links`; only `force`, `rest`, and `force_port` of what it finds held, force a conversation
// contract: `host_calls_keep_the_headline` (`headline`, `forced`)
// not said: that a host offers no slow protocols frame by number
/// Over every list of events, of the five calls that only hosts with a data plane make (`offer_conversation`,
/// `leave_conversation`, `probe`, `rest`, `force_port`), and of settings (`hold_port`, `set_mode`, `set_max_delay`, `set_max_links`),
/// mixed as they like: what `World::run` promises of the last world, and the limit of links. `HostEvent` has a row for each call,
/// `HostSteps` says what it does. A conversation counts as forced only if `force` or `rest` named it, or `force_port` found it
/// held; the frames of every other keep their order, also where they were offered by number, and the conversation left its port or
/// was probed for. A host offers no slow protocols frame (profile; 6.3.6, 6.2.4).
pub fn host_calls_keep_the_headline<F: Fn(u16, usize) -> usize>()
    ensures headline { (one two : F) → HostsKeepHeadline (both_algorithms (F.post one) (F.post two)) }
    ensures forced { (one two : F) → ForcedByForce (both_algorithms (F.post one) (F.post two)) }
{}
