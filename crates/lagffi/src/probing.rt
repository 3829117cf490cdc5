ghost use Rattle.std.specs.Prelude.{◌≡◌, IsTrue, ℕ, List, Option, Result, length, nat_le};
ghost use Rattle.std.specs.Bool.{IsFalse};
ghost use Rattle.lagsystem.specs.Probing.{Probes, ProbesLawfully};
ghost use Rattle.lagsystem.specs.State.{port_index};
ghost use Rattle.lagsystem.specs.declared.fault.SystemFault.{SystemFault};
ghost use Rattle.dataplane.specs.Notes.{notes_after_transmit};
ghost use Rattle.lagffi.specs.Asking.{NotesHeldSystem};
ghost use Rattle.lagffi.specs.Frames.{buffer_after_transmit, control_frame_length, sent_of, sent_refused};
ghost use Rattle.lagffi.specs.Holding.{held_value};
ghost use Rattle.lagffi.specs.Numbers.{no_system, wrong_buffer_length};

use crate::calls::write_due;
use crate::handle::Lag;
use crate::stored::by_number;
use crate::values::{CONTROL_FRAME_LENGTH, LagSent, NO_SYSTEM, WRONG_BUFFER_LENGTH};
use std::alloc::Global;

/// A marker that asks whether the peer of a port answers markers, to be sent now, if `is` is true: it is written at the front of `frame`
/// then, which has NIW_FRAME octets or more. `is` is false while the link is down, and where no identifier is left.
/// Refuses: NIW_BUFFER, NIW_NO_SYSTEM, NIW_NO_PORT.
#[unsafe(no_mangle)]
pub extern "C" fn lagffi_probe(alloc: Global, lag: &mut Lag, port: u16, frame: &mut [u8]) -> LagSent
    ensures room { IsFalse (nat_le control_frame_length (length frame.old)) → (result ≡ sent_refused wrong_buffer_length)
        × (held_value lag.new.held.kept ≡ held_value lag.old.held.kept) × (frame.new ≡ frame.old) }
    ensures answers { IsTrue (nat_le control_frame_length (length frame.old))
        → NotesHeldSystem (held_value lag.old.held.kept) (held_value lag.new.held.kept)
        (λ old new before after. (answer : Result (Option (List ℕ)) SystemFault) × Probes port old answer new × ProbesLawfully port old answer new
        × (after ≡ notes_after_transmit (port_index port new.system_ports) answer before)
        × (result ≡ sent_of answer) × (frame.new ≡ buffer_after_transmit frame.old answer))
        ((result ≡ sent_refused no_system) × (frame.new ≡ frame.old)) }
{
    if frame.len() < CONTROL_FRAME_LENGTH {
        return LagSent::refused(WRONG_BUFFER_LENGTH);
    }
    let Some((mut system, mut block)) = lag.take(alloc, by_number) else {
        return LagSent::refused(NO_SYSTEM);
    };
    let answer = system.probe(port);
    let notes = &mut block.kept_mut().answering;
    notes.after_transmit(&system, port, &answer);
    lag.put(system, block);
    write_due(&answer, frame);
    LagSent::of(&answer)
}
