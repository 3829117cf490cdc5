ghost use Rattle.lagmodel.specs.World.{Happens};
ghost use Rattle.lagscript.specs.declared.event.Event.{Event};
ghost use Rattle.lagworld.specs.declared.reply.Reply.{Reply};
ghost use Rattle.lagworld.specs.State.{WorldState};
ghost use Rattle.lagworld.specs.Events.{WorldSteps, model_event};
ghost use Rattle.lagworld.specs.Sound.{IsSound, both_algorithms};
ghost use Rattle.lagworld.specs.ModelWorld.{world_setup, model_world};

// promise: each event that acts keeps what every world keeps, and `new` makes such a world
// contract: `each_event_happens`, `each_event_keeps`, `a_start_is_sound`
/// What an event does to a sound world, one whose invariant holds, is an event of the two-system theorem (lagmodel),
/// whatever the distribution algorithms return (profile).
pub fn each_event_happens<F: Fn(u16, usize) -> usize>()
    ensures { (one two : F) (e : Event) (r : Reply) (old new : WorldState) → IsSound old
        → WorldSteps (both_algorithms (F.post one) (F.post two)) old e r new
        → Happens (world_setup old) (model_event e) (model_world old) (model_world new) }
{}

ghost use Rattle.std.specs.Prelude.{◌≡◌, None};
ghost use Rattle.lagworld.specs.Events.{cause};

/// An event that acts leaves a sound world sound, with the same configurations and cables (profile).
pub fn each_event_keeps<F: Fn(u16, usize) -> usize>()
    ensures sound { (one two : F) (e : Event) (r : Reply) (old new : WorldState) → IsSound old → cause old e ≡ None
        → WorldSteps (both_algorithms (F.post one) (F.post two)) old e r new → IsSound new }
    ensures fixed { (one two : F) (e : Event) (r : Reply) (old new : WorldState) → IsSound old
        → WorldSteps (both_algorithms (F.post one) (F.post two)) old e r new → world_setup new ≡ world_setup old }
{}

ghost use Rattle.lagworld.specs.Sound.{IsStart};

/// A world that has just been made is sound (profile).
pub fn a_start_is_sound()
    ensures { (j : WorldState) → IsStart j → IsSound j }
{}

ghost use Rattle.std.specs.Prelude.{◌≤◌, List};
ghost use Rattle.lagworld.specs.Events.{WorldRuns, most_events};
ghost use Rattle.lagworld.specs.Headline.{HoldsAllTheWay, LimitsHoldOnTheWay};

/// What `World::run` promises of the last world holds of every world on the way, after each event, whatever the
/// distribution algorithms return; and no aggregator ever has more members than the limit of links of its system. Of a
/// run that stops early this holds up to its last event (profile; 6.3.6, 6.2.4).
pub fn each_world_keeps_the_headline<F: Fn(u16, usize) -> usize>()
    ensures headline { (one two : F) (es : List Event) (rs : List Reply) (old new : WorldState)
        (run : WorldRuns (both_algorithms (F.post one) (F.post two)) old es rs new) → IsSound old → new.acted ≤ most_events
        → HoldsAllTheWay (both_algorithms (F.post one) (F.post two)) es rs old new run }
    ensures limits { (one two : F) → LimitsHoldOnTheWay (both_algorithms (F.post one) (F.post two)) }
{}

ghost use Rattle.lagsystem.specs.OneAnswer.{IsFunction};
ghost use Rattle.lagworld.specs.OneReply.{OneHistory, OneReply};

// promise: if each algorithm returns one index for each conversation and count of ports, an event that acts has at most one reply and leads
//    to at most one world; so does a list of events
// contract: `each_event_has_one_reply` (`OneReply`, `OneHistory`)
// not said: whether memory is refused
/// An event that acts has at most one reply and leads to at most one world, and so does a list of events, if each
/// algorithm returns one index for each conversation and count of ports. The worlds are equal; of each system, what
/// `each_call_has_one_answer` of `lagsystem` says is equal. Whether memory is refused is left open (profile).
pub fn each_event_has_one_reply<F: Fn(u16, usize) -> usize>()
    ensures event { (one two : F) → IsFunction (F.post one) → IsFunction (F.post two)
        → OneReply (both_algorithms (F.post one) (F.post two)) }
    ensures run { (one two : F) → IsFunction (F.post one) → IsFunction (F.post two)
        → OneHistory (both_algorithms (F.post one) (F.post two)) }
{}

ghost use Rattle.std.specs.Prelude.{◌^◌};
ghost use Rattle.lagworld.specs.Limits.{MayTakeMemory};

/// The most events that may act in a world are 2^63, and only Emit, Deliver, Repeat and Offer may be refused for memory
/// (profile).
pub fn events_have_limits()
    ensures most { most_events ≡ 2 ^ 63 }
    ensures memory { MayTakeMemory }
{}
