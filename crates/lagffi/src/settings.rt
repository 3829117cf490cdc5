ghost use Rattle.std.specs.Prelude.{◌≡◌, Ok, Result};
ghost use Rattle.lagsystem.specs.Readers.{aggregator_numbered};
ghost use Rattle.lagsystem.specs.Settings.{Setting, SettingPromise};
ghost use Rattle.lagsystem.specs.declared.fault.SystemFault.{SystemFault};
ghost use Rattle.lagffi.specs.Asking.{CallsHeldSystem};
ghost use Rattle.lagffi.specs.Holding.{held_value};
ghost use Rattle.lagffi.specs.Made.{lag_limit};
ghost use Rattle.lagffi.specs.Numbers.{no_system, status_of};

use crate::handle::Lag;
use crate::made::limit;
use crate::stored::by_number;
use crate::values::{NO_SYSTEM, OK, status};
use lagsystem::AggId;
use std::alloc::Global;

// promise: a setting is the system's own; a limit of 0 is none
// contract: `lagffi_hold`, `lagffi_set_mode`, `lagffi_set_max_delay`, `lagffi_set_max_links`, `lagffi_set_in_use` (`SettingPromise`)
/// Holds a port, or lets it go. A held port leaves its aggregator, and chooses none until it is let go: its conversations leave it behind a
/// marker, and its peer takes it out of use, too. It goes on sending and processing LACPDUs, and answers markers.
/// Refuses: NIW_NO_SYSTEM, NIW_NO_PORT.
#[unsafe(no_mangle)]
pub extern "C" fn lagffi_hold(alloc: Global, lag: &mut Lag, port: u16, hold: bool) -> u32
    ensures { CallsHeldSystem (held_value lag.old.held.kept) (held_value lag.new.held.kept)
        (λ old new. (answer : Result Unit SystemFault) × SettingPromise old (Setting.Hold_port port hold) answer new
        × (result ≡ status_of answer)) (result ≡ no_system) }
{
    let Some((mut system, block)) = lag.take(alloc, by_number) else {
        return NO_SYSTEM;
    };
    let answer = system.hold_port(port, hold);
    lag.put(system, block);
    status(&answer)
}

/// Gives a port LACP_Activity, false for a passive one, and LACP_Timeout, true for the short one. niw_restart goes back to those of niw_new.
/// Refuses: NIW_NO_SYSTEM, NIW_NO_PORT.
#[unsafe(no_mangle)]
pub extern "C" fn lagffi_set_mode(
    alloc: Global,
    lag: &mut Lag,
    port: u16,
    active: bool,
    short_timeout: bool,
) -> u32
    ensures { CallsHeldSystem (held_value lag.old.held.kept) (held_value lag.new.held.kept)
        (λ old new. (answer : Result Unit SystemFault) × SettingPromise old (Setting.Set_mode port active short_timeout) answer new
        × (result ≡ status_of answer)) (result ≡ no_system) }
{
    let Some((mut system, block)) = lag.take(alloc, by_number) else {
        return NO_SYSTEM;
    };
    let answer = system.set_mode(port, active, short_timeout);
    lag.put(system, block);
    status(&answer)
}

/// Sets CollectorMaxDelay, in tens of microseconds, of the LACPDUs from now on.
/// Refuses: NIW_NO_SYSTEM.
#[unsafe(no_mangle)]
pub extern "C" fn lagffi_set_max_delay(alloc: Global, lag: &mut Lag, max_delay: u16) -> u32
    ensures { CallsHeldSystem (held_value lag.old.held.kept) (held_value lag.new.held.kept)
        (λ old new. SettingPromise old (Setting.Set_max_delay max_delay) (Ok tt) new × (result ≡ 0)) (result ≡ no_system) }
{
    let Some((mut system, block)) = lag.take(alloc, by_number) else {
        return NO_SYSTEM;
    };
    system.set_max_delay(max_delay);
    lag.put(system, block);
    OK
}

/// Sets how many links an aggregator may have, 1 to 64; 0 for no limit. Ports that stand by come up where there is room now.
/// Refuses: NIW_NO_SYSTEM, NIW_BAD_CONFIG, NIW_OVER_LIMIT.
#[unsafe(no_mangle)]
pub extern "C" fn lagffi_set_max_links(alloc: Global, lag: &mut Lag, max_links: u16) -> u32
    ensures { CallsHeldSystem (held_value lag.old.held.kept) (held_value lag.new.held.kept)
        (λ old new. (answer : Result Unit SystemFault) × SettingPromise old (Setting.Set_max_links (lag_limit max_links)) answer new
        × (result ≡ status_of answer)) (result ≡ no_system) }
{
    let Some((mut system, block)) = lag.take(alloc, by_number) else {
        return NO_SYSTEM;
    };
    let answer = system.set_max_links(limit(max_links));
    lag.put(system, block);
    status(&answer)
}

/// Puts an aggregator in use, or out of use; each is in use at first. Ports of one that is not in use stand by: they wait, carry nothing, and
/// tell their peers so. Once it is in use again, a port that has waited 2 s attaches at once. A program that uses one aggregator at a time
/// puts the old one out of use and then the new one in use: nothing is sent between two calls. niw_restart keeps what was set.
/// Refuses: NIW_NO_SYSTEM, NIW_NO_AGGREGATOR.
#[unsafe(no_mangle)]
pub extern "C" fn lagffi_set_in_use(alloc: Global, lag: &mut Lag, agg: u16, in_use: bool) -> u32
    ensures { CallsHeldSystem (held_value lag.old.held.kept) (held_value lag.new.held.kept)
        (λ old new. (answer : Result Unit SystemFault)
        × SettingPromise old (Setting.Set_in_use (aggregator_numbered agg) in_use) answer new × (result ≡ status_of answer))
        (result ≡ no_system) }
{
    let Some((mut system, block)) = lag.take(alloc, by_number) else {
        return NO_SYSTEM;
    };
    let answer = system.set_in_use(AggId(agg), in_use);
    lag.put(system, block);
    status(&answer)
}
