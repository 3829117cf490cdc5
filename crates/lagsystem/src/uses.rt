ghost use Rattle.std.specs.Prelude.{◌≡◌};
ghost use Rattle.lagsystem.specs.Inner.{inner_state};
ghost use Rattle.lagsystem.specs.Settings.{Setting, SettingPromise, SettingStep};
ghost use Rattle.lagsystem.specs.Settling.{PortsChangeBy};
ghost use Rattle.lagsystem.specs.Sound.{IsSound};
ghost use Rattle.lagsystem.specs.Uses.{choice_with_use, in_use_at};

use crate::calls::System;
use crate::fault::SystemFault;
use crate::holding::list_aggregators_in_use;
use crate::inner::Inner;
use crate::system_ports::SystemPort;
use arrayvec::ArrayVec;
use lagtypes::{AggId, Choice};
use portmachines::Port;

/// Selected of a port when an aggregator is put in use, or out of use: STANDBY if the port is a member of one that is put out of use.
fn choice_with_use(agg: AggId, in_use: bool, choice: Choice) -> Choice
    ensures { result ≡ choice_with_use agg in_use choice }
{
    match choice {
        Choice::Selected(given) if !in_use && given == agg => Choice::Standby(given),
        other => other,
    }
}

/// Makes a port STANDBY if it is a member of an aggregator that is put out of use.
fn stand_by(port: &mut Port, agg: AggId, in_use: bool)
    ensures { port.new ≡ record port.old { choice = choice_with_use agg in_use port.old.choice } }
{
    let choice = choice_with_use(agg, in_use, port.choice());
    port.select(choice);
}

/// Makes each member of an aggregator that is put out of use STANDBY.
fn stand_each_by(system_ports: &mut [SystemPort], agg: AggId, in_use: bool)
    ensures { PortsChangeBy (λ p q. q ≡ record p { choice = choice_with_use agg in_use p.choice }) system_ports.old system_ports.new }
{
    for system_port in system_ports.iter_mut() {
        stand_by(&mut system_port.port, agg, in_use);
    }
}

impl<F: Fn(u16, usize) -> usize + Drop> Inner<F> {
    /// As `System::set_in_use`.
    fn set_in_use(&mut self, agg: AggId, in_use: bool) -> Result<(), SystemFault>
        requires { IsSound (inner_state self.old) }
        ensures step { SettingStep (inner_state self.old) (Setting.Set_in_use agg in_use) result (inner_state self.new) }
        ensures algorithm { self.new.distributor.algorithm ≡ self.old.distributor.algorithm }
    {
        if !self.has_aggregator(agg) {
            return Err(SystemFault::NoAggregator);
        }
        let mut before = ArrayVec::new();
        list_aggregators_in_use(&self.system_ports, &mut before);
        self.aggregators.set_in_use(agg, in_use);
        stand_each_by(&mut self.system_ports, agg, in_use);
        self.settle(before.as_slice(), true);
        Ok(())
    }
}

impl<F: Fn(u16, usize) -> usize + Drop> System<F> {
    // promise: `set_in_use` keeps the law, agreement and the window, as every setting: a member of an aggregator that is put out of use is
    //    STANDBY before the settling, and an aggregator that is not in use has no room in any settling
    // contract: `System::set_in_use` (`promise`: `SettingPromise`)
    /// Puts an aggregator in use, or out of use. Each is in use until this says otherwise; one that is not has no room, as with a limit of
    /// links of 0: its members become STANDBY, leave it, and wait, and a port that takes it becomes STANDBY. Once it is in use again, they
    /// are promoted where the limit leaves room; a port whose wait_while has expired attaches in the same settling. Calls send
    /// nothing, so that a host that puts one aggregator out of use and then another one in use shows its peers no state between.
    /// One settling follows. After a `restart` it stays as it was set. `NoAggregator`, and nothing changes, if there is no such
    /// aggregator (6.4.8, 6.4.14; profile).
    pub fn set_in_use(&mut self, agg: AggId, in_use: bool) -> Result<(), SystemFault>
        ensures promise { SettingPromise self.old.state (Setting.Set_in_use agg in_use) result self.new.state }
        ensures algorithm { self.new.algorithm ≡ self.old.algorithm }
    {
        self.inner.set_in_use(agg, in_use)
    }

    /// Whether an aggregator is in use; None if there is no such aggregator (profile).
    pub fn is_in_use(&self, agg: AggId) -> Option<bool>
        ensures { result ≡ in_use_at agg self.now.state }
    {
        if self.inner.has_aggregator(agg) {
            Some(self.inner.aggregators.is_in_use(agg))
        } else {
            None
        }
    }
}
