ghost use Rattle.std.specs.Prelude.{◌≡◌, ℕ, List, IfErr};
ghost use Rattle.captures.specs.Links.{link_at};
ghost use Rattle.captures.specs.Wanted.{WantsMore};

use crate::fault::{Cause, Stop, refused};

/// What a captured packet begins with.
#[derive(Clone, Copy, Debug, Default, PartialEq, Eq)]
pub enum LinkType {
    /// LINKTYPE_ETHERNET, 1: a frame from its destination address on.
    #[default]
    Ethernet,
    /// LINKTYPE_LINUX_SLL, 113: the cooked header of 16 octets in place of a frame's addresses.
    Cooked,
    /// LINKTYPE_LINUX_SLL2, 276: the cooked header of 20 octets.
    Cooked2,
}

/// The link type with this number; refused at this offset if it is another.
pub(crate) fn link_at(at: usize, number: u32) -> Result<LinkType, Stop>
    ensures link { result ≡ link_at at number }
    ensures wants { (b : List ℕ) → IfErr result (λ e. WantsMore b e) }
{
    match number {
        1 => Ok(LinkType::Ethernet),
        113 => Ok(LinkType::Cooked),
        276 => Ok(LinkType::Cooked2),
        _ => Err(refused(at, Cause::LinkType(number))),
    }
}
