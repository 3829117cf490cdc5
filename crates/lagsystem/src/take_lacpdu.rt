ghost use Rattle.std.specs.Prelude.{◌≡◌, Ok, true};
ghost use Rattle.std.specs.Bool.{OnTrue, OnFalse};
ghost use Rattle.slowpdu.specs.declared.pdu.Lacpdu.{Lacpdu};
ghost use Rattle.lagsystem.specs.Calls.{Call, Step};
ghost use Rattle.lagsystem.specs.Inner.{inner_state};
ghost use Rattle.lagsystem.specs.Receiving.{BringsLacpdu};
ghost use Rattle.lagsystem.specs.Sound.{CallPromise, IsSound};
ghost use Rattle.lagsystem.specs.State.{port_index};
ghost use Rattle.lagsystem.specs.declared.received.Received.TheVariants.{TookLacpdu};
ghost use Rattle.lagsystem.specs.declared.drive.Reply.{Reply};

use crate::calls::System;
use crate::inner::Inner;
use slowpdu::{Kind, Pdu, classify, decode};

impl<F: Fn(u16, usize) -> usize + Drop> Inner<F> {
    /// As `System::take_lacpdu`.
    pub(crate) fn take_lacpdu(&mut self, number: u16, octets: &[u8]) -> bool
        requires { IsSound (inner_state self.old) }
        ensures step { OnTrue result (Step (F.post self.old.distributor.algorithm) (inner_state self.old) (Call.Receive number octets.now)
            (Reply.Receive (Ok TookLacpdu)) (inner_state self.new)) }
        ensures other { OnFalse result (inner_state self.new ≡ inner_state self.old) }
        ensures each { (pdu : Lacpdu) → BringsLacpdu number octets.now pdu (inner_state self.old) → result ≡ true }
        ensures algorithm { self.new.distributor.algorithm ≡ self.old.distributor.algorithm }
    {
        let Ok(place) = self.port_index(number) else {
            return false;
        };
        if !self.system_ports[place].port.is_enabled() {
            return false;
        }
        let Kind::Control(payload) = classify(octets) else {
            return false;
        };
        let Ok(Pdu::Lacpdu(pdu)) = decode(payload) else {
            return false;
        };
        self.process_lacpdu(place, &pdu);
        true
    }
}

impl<F: Fn(u16, usize) -> usize + Drop> System<F> {
    // promise: an LACPDU may be taken without room for an answer: it is what `receive` does, and any other frame changes nothing
    // contract: `take_lacpdu` (`taken`, `other`, `each`)
    /// Takes a frame as `receive` does where that answers `TookLacpdu`: an LACPDU on a port whose link is up. Else false, and nothing
    /// changes; `receive` tells what such a frame is. For who receives many LACPDUs: the answer of `receive` has room for a Marker
    /// Response (6.4.12).
    pub fn take_lacpdu(&mut self, port: u16, frame: &[u8]) -> bool
        ensures taken { OnTrue result (CallPromise (F.post self.old.algorithm) self.old.state (Call.Receive port frame.now)
            (Reply.Receive (Ok TookLacpdu)) self.new.state) }
        ensures other { OnFalse result (self.new.state ≡ self.old.state) }
        ensures each { (pdu : Lacpdu) → BringsLacpdu port frame.now pdu self.old.state → result ≡ true }
        ensures algorithm { self.new.algorithm ≡ self.old.algorithm }
    {
        self.inner.take_lacpdu(port, frame)
    }
}
