//! Calls of a host and settings of its system, in any order: they keep the transmit limit, and ports that agree. The function of this crate
//! does nothing when it runs: its contract is a proved theorem.
//!
//! In comments, numbers such as 6.4.16 are sections of IEEE 802.1AX-2014, and "profile" is docs/PROFILE.md.
#![tactic(auto)]

ghost use Rattle.std.specs.Prelude.{ℕ};
ghost use Rattle.law_host_runs.specs.Doing.{AgreementOfDoings, WindowOfDoings};

// promise: over every list of calls, those of hosts and settings among them, in any order, the window holds, and ports that agree
//    (`PortsAgree`) do so afterwards
// contract: `calls_and_settings_keep_the_limits` (`window`, `agreement`)
// not said: of a system that takes over, which begins a window of its own
/// Over every list of calls (`HostCall`) and settings, in any order: any eleven consecutive ticks since the last start hold at most three
/// LACPDUs of each port, a probe counting as a `transmit` (6.4.16); and ports that agree (`PortsAgree`: one partner in each aggregator, no
/// more members than its limit) do so after it (6.4.14.1; profile).
pub fn calls_and_settings_keep_the_limits<F: Fn(u16, usize) -> usize>()
    ensures window { (algorithm : F) → WindowOfDoings (F.post algorithm) }
    ensures agreement { (algorithm : F) → AgreementOfDoings (F.post algorithm) }
{}
