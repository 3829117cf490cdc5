ghost use Rattle.std.specs.Prelude.{◌≡◌};
ghost use Rattle.lagsystem.specs.Calls.{received_of};

use collector::Taken;
use lagtypes::AggId;
use slowpdu::{Lacpdu, Marker, WireFault};

/// What `receive` did with a frame. The variants are checked in this order; the first that holds is returned (6.2.3,
/// 6.4.12, 6.5.4; profile).
#[derive(Clone, Copy, Debug, PartialEq, Eq)]
pub enum Received {
    /// The link of the port is down.
    Disabled,
    /// The frame has fewer than 14 octets, or is a data frame on a port that is not Collecting.
    Dropped,
    /// A control frame (EtherType 0x8809) whose payload is refused, and why.
    Ignored(WireFault),
    /// An LACPDU was processed: recordPDU and the other actions of CURRENT were done (6.4.12).
    TookLacpdu,
    /// A Marker PDU came. This is the Marker Response: a frame of 124 octets, to be sent on the same port (6.5.4).
    Respond([u8; 124]),
    /// A Marker Response came: how many conversations it released (profile).
    Released(u32),
    /// A data frame: the caller hands it to the client of this aggregator (6.2.3).
    Up(AggId),
}

impl From<Taken> for Received {
    ghost from_gives = { λ taken received. received ≡ received_of taken };

    fn from(taken: Taken) -> Received {
        match taken {
            Taken::Up(agg) => Received::Up(agg),
            Taken::Dropped => Received::Dropped,
        }
    }
}

/// What a received frame asks the system to do. Working it out changes nothing.
#[derive(Clone, Copy, Debug, PartialEq, Eq)]
pub(crate) enum FrameEffect {
    /// Process this LACPDU.
    ProcessLacpdu(Lacpdu),
    /// Release the conversations that wait for this Marker Response.
    Response(Marker),
    /// Do nothing but return this.
    Answered(Received),
}
