ghost use Rattle.std.specs.Prelude.{◌≡◌};
ghost use Rattle.std.specs.Bool.{OnTrue};
ghost use Rattle.lagsystem.specs.NothingToSettle.{HasRecordedActor, IsSamePartner, ProcessesLacpduAndRunsMux};

use crate::system_ports::{SystemPort, stage};
use portmachines::ReceiveState;
use selection::Stage;
use slowpdu::{Info, Lacpdu};

/// Whether a port is in CURRENT, and the actor of the LACPDU has the parameters of its recorded partner. The contract says only
/// what true means.
fn has_recorded_actor(system_port: &SystemPort, pdu: &Lacpdu) -> bool
    ensures { OnTrue result (HasRecordedActor pdu.now system_port.now) }
{
    match system_port.port.receive_state() {
        ReceiveState::Current => pdu
            .actor
            .party()
            .matches(&system_port.port.partner().party()),
        _ => false,
    }
}

/// Whether two records have the same system, key, port and Aggregation bit. The contract says only what true means.
fn is_same_partner(now: &Info, was: &Info) -> bool
    ensures { OnTrue result (IsSamePartner was.now now.now) }
{
    now.party().matches(&was.party())
}

/// Whether a port is at the stage at which it was. The contract says only what true means.
fn is_same_stage(now: Stage, was: Stage) -> bool
    ensures { OnTrue result (now ≡ was) }
{
    now == was
}

/// Processes an LACPDU on a port, and runs its mux machine with Ready false, as the first step of a settling does. If this returns
/// true, the Selection Logic sees the port as before; false says nothing.
pub(crate) fn process_lacpdu_on(system_port: &mut SystemPort, pdu: &Lacpdu) -> bool
    ensures { ProcessesLacpduAndRunsMux pdu.now system_port.old result system_port.new }
{
    if system_port.port.hear_again(pdu) {
        return true;
    }
    process_and_compare(system_port, pdu)
}

/// As `process_lacpdu_on`, of any LACPDU: what the Selection Logic sees is compared.
fn process_and_compare(system_port: &mut SystemPort, pdu: &Lacpdu) -> bool
    ensures { ProcessesLacpduAndRunsMux pdu.now system_port.old result system_port.new }
{
    let known = has_recorded_actor(system_port, pdu);
    let partner = system_port.port.partner();
    system_port.port.take(pdu);
    let same_partner = is_same_partner(&system_port.port.partner(), &partner);
    let before = stage(system_port);
    let _fired = system_port.port.mux(false);
    if !known || !same_partner {
        return false;
    }
    is_same_stage(stage(system_port), before)
}
