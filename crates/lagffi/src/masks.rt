ghost use Rattle.std.specs.Prelude.{◌≡◌, ◌≤◌, length};
ghost use Rattle.lagsystem.specs.State.{port_numbers};
ghost use Rattle.lagffi.specs.Asking.{ReadsHeldSystem};
ghost use Rattle.lagffi.specs.Holding.{held_value};
ghost use Rattle.lagffi.specs.Masks.{due_on, is_so, mask};
ghost use Rattle.lagffi.specs.Numbers.{no_system, number, number_refused};

use crate::handle::Lag;
use crate::stored::by_number;
use crate::values::{LagNumber, NO_SYSTEM};
use arrayvec::ArrayVec;
use lagsystem::System;
use std::alloc::Global;

/// The mask of these bits: the first has the value 1, the second 2, and so on.
pub(crate) fn mask(bits: &[bool]) -> u64
    requires { length bits.now ≤ 64 }
    ensures { result ≡ mask bits.now }
{
    let mut value = 0;
    let mut left = bits.len();
    while left > 0 {
        left -= 1;
        value = value * 2 + u64::from(bits[left]);
    }
    value
}

/// The answer of a reader as a bit: false also where there is none.
fn is_so(answer: Option<bool>) -> bool
    ensures { result ≡ is_so answer }
{
    match answer {
        Some(is) => is,
        None => false,
    }
}

/// Whether a frame is due on each of these ports.
fn due_on<F: Fn(u16, usize) -> usize + Drop>(
    system: &System<F>,
    numbers: &[u16],
) -> ArrayVec<bool, 64>
    requires { length numbers.now ≤ 64 }
    ensures { result.items ≡ due_on system.now.state numbers.now }
{
    let mut due = ArrayVec::new();
    for number in numbers {
        due.push(is_so(system.is_due(*number)));
    }
    due
}

// promise: a mask has a bit for each port, in order: a frame is due; or the values differ from those in the buffer, and stand there now
// contract: `lagffi_due`, `lagffi_views` (`mask`, `due_on`, `changed`, `views_of`)
/// A mask of the ports on which niw_transmit would return a frame now. Bit 0, of the value 1, tells of the first port.
/// Refuses: NIW_NO_SYSTEM.
#[unsafe(no_mangle)]
pub extern "C" fn lagffi_due(alloc: Global, lag: &mut Lag) -> LagNumber
    ensures { ReadsHeldSystem (held_value lag.old.held.kept) (held_value lag.new.held.kept)
        (λ s. result ≡ number (mask (due_on s (port_numbers s.system_ports)))) (result ≡ number_refused no_system) }
{
    let Some((system, block)) = lag.take(alloc, by_number) else {
        return LagNumber::refused(NO_SYSTEM);
    };
    let due = due_on(&system, &system.ports());
    lag.put(system, block);
    LagNumber::answered(mask(&due))
}
