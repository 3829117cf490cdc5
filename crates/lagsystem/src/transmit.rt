ghost use Rattle.std.specs.Prelude.{◌≡◌};
ghost use Rattle.slowpdu.specs.Frames.{frame_octets};
ghost use Rattle.slowpdu.specs.Layout.{IsAddress};
ghost use Rattle.portmachines.specs.Transmit.{is_due};

use portmachines::Port;
use slowpdu::frame;

/// A control frame of 124 octets from this source address, with this payload.
pub(crate) fn control_frame(mac: [u8; 6], payload: &[u8; 110]) -> [u8; 124]
    ensures octets { result ≡ frame_octets mac payload.now }
    ensures address { IsAddress mac }
{
    frame(mac, payload)
}

/// How many LACPDUs a port may send in eleven ticks (6.4.16).
const MOST_LACPDUS: usize = 3;

/// Whether the port may send an LACPDU now: NTT is set, and the window is not full.
pub(crate) fn is_lacpdu_due(port: &Port) -> bool
    ensures { result ≡ is_due port.now }
{
    port.ntt() && port.ages().len() < MOST_LACPDUS
}
