ghost use Rattle.std.specs.Prelude.{◌≡◌, IsTrue, MatchOption, Option, length, nat_le};
ghost use Rattle.std.specs.Bool.{IsFalse};
ghost use Rattle.dataplane.specs.Moves.{IsMove};
ghost use Rattle.dataplane.specs.declared.balance.moves.Move.{Move};
ghost use Rattle.lagffi.specs.Balancing.{move_of, move_refused};
ghost use Rattle.lagsystem.specs.Faults.{fault_number};
ghost use Rattle.lagsystem.specs.declared.fault.SystemFault.{SystemFault};

use crate::values::{NO_CONVERSATION, OK};
use dataplane::{Carried, Move, next_move};

/// The most conversations that numbers of 16 bits name.
pub(crate) const MOST_CONVERSATIONS: usize = 65_536;

/// A move, if there is one, or why that is not told.
#[repr(C)]
#[derive(Clone, Copy)]
pub struct LagMove {
    /// 0, or the number of the refusal.
    pub status: u32,
    /// Whether there is a move.
    pub is: bool,
    /// The conversation that is to move; 0 where there is no move.
    pub conversation: u16,
    /// The port that it is to move to; 0 where there is no move.
    pub port: u16,
}

impl LagMove {
    /// Refused with this number.
    fn refused(why: u32) -> LagMove
        ensures { result ≡ move_refused why }
    {
        LagMove {
            status: why,
            is: false,
            conversation: 0,
            port: 0,
        }
    }

    /// A move as C reads it, or that there is none.
    fn of(answer: Option<Move>) -> LagMove
        ensures { result ≡ move_of answer }
    {
        match answer {
            Some(found) => LagMove {
                status: OK,
                is: true,
                conversation: found.conversation,
                port: found.port,
            },
            None => LagMove::refused(OK),
        }
    }
}

/// The next move that makes the loads of these ports more alike: from a port with the most load to one with the least, of a conversation
/// whose load is less than the difference. Each conversation stands at its number in `carried`, which has NIW_MOST_CONVERSATIONS or
/// fewer: a longer list is refused with NIW_NOT_ASSIGNED. `is` is false if there is no such move.
/// Refuses: NIW_NOT_ASSIGNED.
#[unsafe(no_mangle)]
pub extern "C" fn lagffi_next_move(ports: &[u16], carried: &[Carried]) -> LagMove
    ensures length { IsFalse (nat_le (length carried.now) 65536) → result ≡ move_refused (fault_number SystemFault.NotAssigned) }
    ensures answers { IsTrue (nat_le (length carried.now) 65536) → (answer : Option Move) × (result ≡ move_of answer)
        × MatchOption answer ((m : Move) → IsMove ports.now carried.now m → ⊥) (λ m. IsMove ports.now carried.now m) }
{
    if carried.len() > MOST_CONVERSATIONS {
        return LagMove::refused(NO_CONVERSATION);
    }
    LagMove::of(next_move(ports, carried))
}
