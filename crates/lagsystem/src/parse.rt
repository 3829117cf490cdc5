ghost use Rattle.slowpdu.specs.Markers.{response_to};
ghost use Rattle.lagsystem.specs.Calls.{AnswersMarker, ParsesPayload};

use crate::received::{FrameEffect, Received};
use crate::system_ports::SystemPort;
use crate::transmit::control_frame;
use collector::answer;
use slowpdu::{Marker, Pdu, decode};

/// What either kind of marker asks for on a port whose link is up: for a Marker PDU, to send the Marker Response;
/// for a Marker Response, to release the conversations that wait for it.
fn answer_marker(system_port: &SystemPort, marker: &Marker) -> FrameEffect
    ensures { AnswersMarker system_port.now.mac marker.now (response_to marker.now) result }
{
    match answer(true, marker) {
        Some(response) => {
            let payload = response.encode();
            FrameEffect::Answered(Received::Respond(control_frame(system_port.mac, &payload)))
        }
        None => FrameEffect::Response(*marker),
    }
}

/// What the payload of a control frame asks for on a port whose link is up. Changes nothing.
pub(crate) fn parse_payload(system_port: &SystemPort, payload: &[u8]) -> FrameEffect
    ensures { ParsesPayload system_port.now payload.now result }
{
    match decode(payload) {
        Ok(Pdu::Lacpdu(pdu)) => FrameEffect::ProcessLacpdu(pdu),
        Ok(Pdu::Marker(marker)) => answer_marker(system_port, &marker),
        Err(fault) => FrameEffect::Answered(Received::Ignored(fault)),
    }
}
