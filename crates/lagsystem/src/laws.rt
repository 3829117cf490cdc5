ghost use Rattle.lagsystem.specs.SecondSettling.{SecondSettlingIsNothing};
ghost use Rattle.lagsystem.specs.Due.{TransmitsWhatIsDue};
ghost use Rattle.lagsystem.specs.Quiet.{QuietUntilDue};
ghost use Rattle.lagsystem.specs.Soonest.{TellsTheFirst};
ghost use Rattle.std.specs.Prelude.{◌≡◌, ◌<◌, ℕ};
ghost use Rattle.std.specs.List.{AllByRecursion};
ghost use Rattle.lagsystem.specs.Assigning.{frame_of_conversation};
ghost use Rattle.lagsystem.specs.Offers.{MayBeOffered};
ghost use Rattle.lagsystem.specs.Readers.{conversation_count, number_of_conversation};
ghost use Rattle.lagsystem.specs.StillDue.{DataChangesNothing, OfferConversationMakesNoneDue, OfferMakesNoneDue, RowIsAnswer, RowIsOffer};
ghost use Rattle.distributor.specs.Calls.{index_by_number};
ghost use Rattle.lagsystem.specs.First.{IsFirst};
ghost use Rattle.lagsystem.specs.State.{SystemState, with_system_ports, with_table};
ghost use Rattle.lagsystem.specs.OneAnswer.{IsFunction, OneAnswer, OneForcing, OneRun};
ghost use Rattle.lagsystem.specs.StatusMeaning.{Says, meaning};
ghost use Rattle.lagsystem.specs.Windows.{StartsWithoutAges, WindowFromStart, SystemWindowLaw};

use crate::port_status::PortStatus;

/// The transmit limit: any eleven consecutive ticks since the last start of a system hold at most three LACPDUs of each
/// port (6.4.16). This holds before and after each call of every list of calls with their results.
///
/// `window`: the list may begin in any state whose ports keep at most three ages, which is true of every system; an age
/// counts as an LACPDU sent so many ticks earlier. `empty` and `start`: a first state keeps no age. A restart forgets
/// what was sent before it (profile).
pub fn window_holds<F: Fn(u16, usize) -> usize>()
    ensures window { (algorithm : F) → SystemWindowLaw (F.post algorithm) }
    ensures empty { StartsWithoutAges }
    ensures start { (algorithm : F) → WindowFromStart (F.post algorithm) }
{}

/// A configuration, with its limit of links and CollectorMaxDelay, has at most one first state: where neither was set since, a
/// restart gives the state that `new` made (profile).
pub fn first_state_is_one()
    ensures { (s t : SystemState) → t ≡ with_table (with_system_ports s t.system_ports) t.table → IsFirst s → IsFirst t → t ≡ s }
{}

// promise: settling a settled system again can leave it as it is
// contract: `settling_again_is_nothing`
// not said: that nothing else could come of it
/// A second settling right after a settling changes nothing (profile).
pub fn settling_again_is_nothing()
    ensures { SecondSettlingIsNothing }
{}

/// `transmit` returns a frame on a port exactly if `is_due` is true there (profile).
pub fn transmit_answers_what_is_due()
    ensures { TransmitsWhatIsDue }
{}

// promise: after fewer ticks, and no other call: no frame is due; only timers, ages and the waits of Flushing conversations have changed,
//    by these ticks; the answer is as many less. After None: any number of ticks
// contract: `ticks_only_count_until_due` (`QuietUntilDue`)
/// While fewer ticks pass than `ticks_until_due` tells, and no other call comes, a tick only counts timers down and ages
/// up: no frame gets due, the same ports distribute in each aggregator, each conversation stays in its state, nothing else
/// changes, and `ticks_until_due` tells as many ticks fewer; where it tells None, for ever (profile).
pub fn ticks_only_count_until_due<F: Fn(u16, usize) -> usize>()
    ensures { (algorithm : F) → QuietUntilDue (F.post algorithm) }
{}

// promise: these are the ticks until the first of: a frame is due; a timer expires; an LACPDU leaves the window of an enabled port while
//    another waits; a conversation is Wanted again. None of them comes sooner
// contract: `ticks_until_due_tells_the_first` (`TellsTheFirst`), for every state
/// `ticks_until_due` tells the ticks of what happens first in a system by itself: a frame that is due, now; a timer that
/// expires; an LACPDU that leaves the transmit window while another is to be sent; a conversation that is Wanted again.
/// Nothing of these is sooner, and where it tells None there is none (6.4.10, 6.4.16; profile).
pub fn ticks_until_due_tells_the_first()
    ensures { TellsTheFirst }
{}

// promise: if the algorithm returns one index for each conversation and count, a call has at most one answer and leads to at most one
//    state; so does a list of calls, and `force_port`
// contract: `each_call_has_one_answer` (`OneAnswer`, `OneRun`, `OneForcing`)
// not said: the length of the list behind the conversations
/// A call of a system has at most one reply and leads to at most one state, and so do a list of calls and `force_port`, if
/// the algorithm returns one index for each conversation and count of ports. The states are equal but for the lists that
/// the states of conversations stand in: of those, what stands for a conversation is equal (profile).
pub fn each_call_has_one_answer<F: Fn(u16, usize) -> usize>()
    ensures call { (algorithm : F) → IsFunction (F.post algorithm) → OneAnswer (F.post algorithm) }
    ensures run { (algorithm : F) → IsFunction (F.post algorithm) → OneRun (F.post algorithm) }
    ensures forcing { (algorithm : F) → IsFunction (F.post algorithm) → OneForcing (F.post algorithm) }
{}

// promise: `by_number` is such an algorithm
// contract: `by_number_is_a_function`
/// `by_number`, the algorithm of `distributor`, returns one index for each conversation and count of ports, as
/// `each_call_has_one_answer` wants of an algorithm (profile).
pub fn by_number_is_a_function()
    ensures { IsFunction (λ conv count place. place ≡ index_by_number conv count) }
{}

/// For each conversation that there is, there is a frame that may be offered: octets, of 14. So what `offer_conversation`
/// promises for each frame of its conversation is a promise about some frame (profile).
pub fn each_conversation_has_a_frame()
    ensures frame { (s : SystemState) (conv : ℕ) → conv < conversation_count s
        → MayBeOffered (frame_of_conversation conv) × (number_of_conversation s (frame_of_conversation conv) ≡ conv) }
    ensures octets { (conv : ℕ) → conv < 65536 → AllByRecursion (λ octet. octet < 256) (frame_of_conversation conv) }
{}

// promise: a row names a port only while `offer_conversation`, and `offer` of each of its frames, return it
// contract: `rows_name_the_answer` (`RowIsAnswer`, `RowIsOffer`)
/// A row of `conversation_ports` names a port only while `offer_conversation` answers it, and `offer` for each frame of that
/// conversation (profile).
pub fn rows_name_the_answer<F: Fn(u16, usize) -> usize>()
    ensures conversation { (algorithm : F) → RowIsAnswer (F.post algorithm) }
    ensures frame { (algorithm : F) → RowIsOffer (F.post algorithm) }
{}

// promise: offers make no frame due and end no frame's being due; `receive` of a data frame changes nothing
// contract: `offers_and_data_make_none_due` (`DueAsBefore`)
/// `offer` and `offer_conversation` make no frame due, and end no frame's being due: on each port one is due afterwards exactly
/// if one was due before. `receive` of a data frame changes nothing (profile).
pub fn offers_and_data_make_none_due<F: Fn(u16, usize) -> usize>()
    ensures offer { (algorithm : F) → OfferMakesNoneDue (F.post algorithm) }
    ensures offer_conversation { (algorithm : F) → OfferConversationMakesNoneDue (F.post algorithm) }
    ensures data { (algorithm : F) → DataChangesNothing (F.post algorithm) }
{}

// promise: each status is true of the port and its system, as `meaning` says
// contract: `port_status_says_why` (`meaning`, a row each)
/// What `port_status` says of a port and its system, in every system: `meaning` has a row for each `PortStatus`, whose comments
/// say the same (6.4.7, 6.4.8, 6.4.10, 6.4.12, 6.4.14, 6.4.15; profile).
pub fn port_status_says_why()
    ensures { (status : PortStatus) → Says status (meaning status) }
{}

ghost use Rattle.lagsystem.specs.HostCalls.{HostAgreementLaw, HostWindowLaw};

// promise: over every list of calls, these five among them, the window holds, and ports that agree (`PortsAgree`) do so afterwards
// contract: `host_calls_keep_the_limits` (`window`, `agreement`)
/// Over every list of calls of a host with a data plane, of which `Call` is a part (`HostCall`): any eleven consecutive ticks
/// since the last start hold at most three LACPDUs of each port, a probe counting as a `transmit` (6.4.16); and ports that
/// agree (`PortsAgree`: one partner in each aggregator, no more members than its limit) do so after it (6.4.14.1; profile).
/// `System::host_call` meets the relation for each call.
pub fn host_calls_keep_the_limits<F: Fn(u16, usize) -> usize>()
    ensures window { (algorithm : F) → HostWindowLaw (F.post algorithm) }
    ensures agreement { (algorithm : F) → HostAgreementLaw (F.post algorithm) }
{}
