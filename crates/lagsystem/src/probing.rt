ghost use Rattle.std.specs.Prelude.{◌≡◌};
ghost use Rattle.distributor.specs.Conversations.{next_identifier};
ghost use Rattle.lagsystem.specs.Inner.{inner_state};
ghost use Rattle.lagsystem.specs.Probing.{Probes, ProbesLawfully};
ghost use Rattle.lagsystem.specs.Sending.{SendsMarkerOf};
ghost use Rattle.lagsystem.specs.Sound.{IsSound};

use crate::calls::System;
use crate::fault::SystemFault;
use crate::inner::Inner;
use crate::transmit::control_frame;

impl<F: Fn(u16, usize) -> usize + Drop> Inner<F> {
    /// As `System::probe`.
    fn probe(&mut self, number: u16) -> Result<Option<[u8; 124]>, SystemFault>
        requires { IsSound (inner_state self.old) }
        ensures probes { Probes number (inner_state self.old) result (inner_state self.new) }
        ensures algorithm { self.new.distributor.algorithm ≡ self.old.distributor.algorithm }
    {
        let place = self.port_index(number)?;
        if !self.system_ports[place].port.is_enabled() {
            return Ok(None);
        }
        let mac = self.system_ports[place].mac;
        Ok(self.probe_marker(number, mac))
    }

    /// The next marker for a port, as a control frame of 124 octets; None if no identifier is left.
    fn probe_marker(&mut self, number: u16, mac: [u8; 6]) -> Option<[u8; 124]>
        ensures sends { SendsMarkerOf (next_identifier self.old.distributor.table) number mac (inner_state self.old) result
            (inner_state self.new) }
        ensures algorithm { self.new.distributor.algorithm ≡ self.old.distributor.algorithm }
    {
        let id = self.distributor.probe(number)?;
        Some(control_frame(mac, &self.own_marker(number, id).encode()))
    }
}

impl<F: Fn(u16, usize) -> usize + Drop> System<F> {
    // promise: `probe` returns the port's next marker; what is Wanted there is Flushing with it. While the link is down or no identifier is
    //    left it is None and changes nothing. Its moves are lawful, as of a `transmit` of this frame
    // contract: `probe` (`probes`: `ProbesIf`; `lawful`: `ProbesLawfully`)
    /// Returns a marker that asks whether the peer of a port answers markers, to be sent now: the next identifier, in the frame
    /// that `transmit` would return if a conversation were Wanted there and no LACPDU due. What is Wanted on the port becomes
    /// Flushing with it. None, and nothing changes, while the link is down or if no identifier is left. `NoPort` if there is no
    /// such port (6.5.3.3; profile).
    pub fn probe(&mut self, port: u16) -> Result<Option<[u8; 124]>, SystemFault>
        ensures probes { Probes port self.old.state result self.new.state }
        ensures lawful { ProbesLawfully port self.old.state result self.new.state }
        ensures algorithm { self.new.algorithm ≡ self.old.algorithm }
    {
        self.inner.probe(port)
    }
}
