ghost use Rattle.std.specs.Prelude.{◌≡◌, ◌≤◌, ◌<◌, length, IfErr, IfOk};
ghost use Rattle.lagsystem.specs.Offers.{MayBeOffered, RefusesFrame};
ghost use Rattle.lagsystem.specs.Inner.{inner_state};
ghost use Rattle.lagsystem.specs.Readers.{number_of_conversation, conversation_count};
ghost use Rattle.lagsystem.specs.Sound.{IsSound};

use crate::fault::SystemFault;
use crate::inner::Inner;
use slowpdu::{Kind, classify};

/// The longest frame that may be offered, in octets: a full frame with one VLAN tag (profile).
const LONGEST_FRAME: usize = 1518;

/// Refuses octets that a client may not send: a wrong length, or a slow protocols frame.
pub(crate) fn check_offer(octets: &[u8]) -> Result<(), SystemFault>
    ensures ok { IfOk result (λ done. MayBeOffered octets.now) }
    ensures err { IfErr result (λ fault. RefusesFrame octets.now fault) }
{
    if octets.len() < 14 || octets.len() > LONGEST_FRAME {
        return Err(SystemFault::FrameLength);
    }
    match classify(octets) {
        Kind::Data => Ok(()),
        Kind::Control(_) | Kind::TooShort => Err(SystemFault::SlowFrame),
    }
}

impl<F: Fn(u16, usize) -> usize + Drop> Inner<F> {
    /// The number of the conversation of a frame: the low bits of octets 4 and 5 exclusive-or octets 10 and 11, the last
    /// two of each address; 8 bits for 256 conversations, 12 for 4096, and none for 1. The frame has at least 14 octets (profile).
    pub(crate) fn number_of_conversation(&self, octets: &[u8]) -> u16
        requires sound { IsSound (inner_state self.now) }
        requires long { 14 ≤ length octets.now }
        ensures is { result ≡ number_of_conversation (inner_state self.now) octets.now }
        ensures within { result < conversation_count (inner_state self.now) }
    {
        let destination = u16::from_be_bytes([octets[4], octets[5]]);
        let source = u16::from_be_bytes([octets[10], octets[11]]);
        (destination ^ source) & (self.distributor.conversations() - 1)
    }
}
