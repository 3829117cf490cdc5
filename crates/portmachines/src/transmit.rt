ghost use Rattle.std.specs.Prelude.{◌≡◌, if◌then◌else◌, Some, None};
ghost use Rattle.portmachines.specs.Transmit.{aged, is_due, pdu_of, after_sending};
ghost use Rattle.portmachines.specs.Window.{WindowLaw};

use crate::machines::Machines;
use arrayvec::ArrayVec;
use slowpdu::Lacpdu;

impl Machines {
    /// Returns the LACPDU that is due, and sets NTT to false; None if none is due or three were sent in the last eleven
    /// ticks (6.4.16).
    pub(crate) fn transmit_due(&mut self, max_delay: u16) -> Option<Lacpdu>
        ensures pdu { result ≡ (if is_due self.old then Some (pdu_of self.old max_delay) else None) }
        ensures state { self.new ≡ (if is_due self.old then after_sending self.old else self.old) }
    {
        if !self.ntt || self.ages.is_full() {
            return None;
        }
        self.ages.push(0);
        self.ntt = false;
        Some(Lacpdu {
            actor: self.actor(),
            partner: self.partner,
            max_delay,
        })
    }

    /// The ages of the LACPDUs sent in the last eleven ticks.
    pub(crate) fn window_ages(&self) -> ArrayVec<u8, 3>
        ensures { result.items ≡ self.now.ages }
    {
        let mut ages = ArrayVec::new();
        for age in self.ages.as_slice() {
            ages.push(*age);
        }
        ages
    }
}

/// Makes each age one tick older, and removes one that becomes 11.
pub(crate) fn age_window(ages: &mut ArrayVec<u8, 3>)
    ensures { ages.new.items ≡ aged ages.old.items }
{
    let mut kept = ArrayVec::new();
    for age in ages.as_slice() {
        if *age < 10 {
            kept.push(*age + 1);
        }
    }
    *ages = kept;
}

// promise: in any calls of one port, eleven consecutive ticks hold at most three sends; an age kept before counts as a send that many ticks
//    earlier
// contract: `window_holds`
// not said: a port that keeps more than three ages, or one above the ticks so far
// promise: each reader returns its variable
// contract: the readers of `Port`
/// The transmit limit: any eleven consecutive ticks hold at most three sent LACPDUs, over every list of calls of one
/// port. An age that the port has at the beginning counts as an LACPDU sent so many ticks earlier (6.4.16).
pub fn window_holds()
    ensures { WindowLaw }
{}
