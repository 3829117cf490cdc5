use lagsystem::SystemFault;
use lagtypes::{AggId, State};

/// The reply to an event (profile). If a variant has a last value `accepted`, that is false if what was sent was lost at
/// once: the port has no cable, the cable is cut, or the cable is full.
#[derive(Clone, Copy, Debug, PartialEq, Eq)]
pub enum Reply {
    /// Of `Tick`: the ticks have passed.
    Ticked,
    /// Of `Emit`: an LACPDU was sent; its Actor_State, and `accepted`.
    Lacpdu(State, bool),
    /// Of `Emit`: a marker was sent; its Requester_Transaction_ID, and `accepted`.
    Marker(u32, bool),
    /// Of `Emit`: nothing was due.
    Nothing,
    /// Of `Deliver` and `Repeat`: an LACPDU was received (6.4.12).
    Took,
    /// Of `Deliver` and `Repeat`: a marker came, and the response was sent; `accepted` of the response (6.5.4).
    Responded(bool),
    /// Of `Deliver` and `Repeat`: a Marker Response came; how many conversations it freed.
    Released(u32),
    /// Of `Deliver`: a data frame was handed up to the client of this aggregator.
    Up(AggId),
    /// Of `Deliver` and `Repeat`: the frame has fewer than 14 octets, or is a data frame on a port that is not
    /// Collecting.
    Dropped,
    /// Of `Deliver` and `Repeat`: the link of the port is down.
    Disabled,
    /// Of `Deliver` and `Repeat`: the payload of a control frame was refused.
    Ignored,
    /// Of `Deliver`, `Lose` and `Repeat`: nothing is on the cable towards that system.
    Empty,
    /// Of `Lose`: the first frame was lost.
    Lost,
    /// Of `Repeat`: the first frame is a data frame, so nothing happened.
    NotControl,
    /// Of `Cut`: the cable is cut.
    Cut,
    /// Of `Join`: the cable is whole again.
    Joined,
    /// Of `Restart`: the system is as `System::new` made it.
    Restarted,
    /// Of `Sense`: whether the cable is whole, which the system now knows.
    Sensed(bool),
    /// Of `Configure`: whether a value differed.
    Configured(bool),
    /// Of `Offer`: the port that the frame was sent on, its serial number within its conversation, from 0, and `accepted`.
    Port(u16, u64, bool),
    /// Of `Move`: the conversation is Wanted, so it waits for a marker.
    Moved,
    /// Of `Force`: the conversation is free.
    Forced,
    /// The system refused the event with this fault, and nothing changed.
    Refused(SystemFault),
}
