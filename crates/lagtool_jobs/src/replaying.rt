ghost use Rattle.std.specs.Prelude.{◌≡◌, ◌≢◌, ◌≤◌, ◌++◌, All, None, Some, OnOk, IfOk, IfErr, false, length, string_bytes};
ghost use Rattle.distributor.specs.Calls.{PicksIndexes};
ghost use Rattle.lagscript.specs.Configs.{world_refusal};
ghost use Rattle.lagsystem.specs.First.{config_refusal as refusal_of_one};
ghost use Rattle.lagworld.specs.Events.{most_events};
ghost use Rattle.lagworld.specs.Sound.{both_algorithms};
ghost use Rattle.lagtool_jobs.specs.Naming.{AllNameExisting};
ghost use Rattle.lagtool_jobs.specs.Offered.{IsSentWhereOffered};
ghost use Rattle.lagtool_jobs.specs.ReplayReport.{IsReplayReport, Replays, agreement_line, agreements_text, entries_text, entry_line};
ghost use Rattle.lagtool_jobs.specs.ReplaySteps.{AreCounts, counts_of, replay_report_with_counts};
ghost use Rattle.lagtool_jobs.specs.declared.fault.ToolFault.TheVariants.{NoMemory};

use crate::directions::all_directions;
use crate::fault::ToolFault;
use crate::flows::{Counts, push_flows};
use crate::progress::{Unwatched, Watch};
use crate::reply_text::{AgreementText, ReplyText};
use crate::running::{make_world, run_events};
use cables::AnyCable;
use lagscript::read_plan;
use lagstreams::Sink;
use lagsystem::Config;
use lagworld::{Agreement, Event, Reply, World, WorldConfig};
use std::alloc::{AllocError, Global};
use std::io::Write;

/// Adds the line of an entry with its reply.
fn push_entry(
    text: &mut String,
    number: usize,
    event: &Event,
    reply: Reply,
) -> Result<(), AllocError>
    ensures { OnOk result (string_bytes text.new ≡ string_bytes text.old ++ entry_line number event.now reply) }
{
    write!(text, "{number} {event} -> {}\n", ReplyText(reply))
}

/// Adds a line for each entry.
fn push_entries(text: &mut String, events: &[Event], replies: &[Reply]) -> Result<(), AllocError>
    requires { length replies.now ≡ length events.now }
    ensures { OnOk result (string_bytes text.new ≡ string_bytes text.old ++ entries_text 1 events.now replies.now) }
{
    for (index, event) in events.iter().enumerate() {
        push_entry(text, index + 1, event, replies[index])?;
    }
    Ok(())
}

/// Adds the line of a cable.
fn push_agreement(text: &mut String, cable: u16, agreement: Agreement) -> Result<(), AllocError>
    ensures { OnOk result (string_bytes text.new ≡ string_bytes text.old ++ agreement_line cable (Some agreement)) }
{
    write!(
        text,
        "cable {cable} agreement {}\n",
        AgreementText(agreement)
    )
}

/// Adds a line for each cable, from cable 1 to the last one.
fn push_agreements<F: Fn(u16, usize) -> usize + Drop>(
    text: &mut String,
    world: &World<AnyCable, F>,
) -> Result<(), AllocError>
    ensures { OnOk result (string_bytes text.new ≡ string_bytes text.old ++ agreements_text world.now.state) }
{
    for place in 0..u16::MAX {
        let cable = place + 1;
        match world.agreement(cable) {
            Some(agreement) => push_agreement(text, cable, agreement)?,
            None => return Ok(()),
        }
    }
    Ok(())
}

/// How many aggregators a system has, and how many conversations each of them has; its configuration is accepted.
fn counts_of(config: &Config) -> Counts
    requires { refusal_of_one config.now ≡ None }
    ensures { result ≡ counts_of config.now }
{
    Counts {
        aggregators: config.aggregators.len() as u16,
        conversations: config.conversations,
    }
}

/// The counts of system 1 and system 2.
fn both_counts(config: &WorldConfig) -> (Counts, Counts)
    requires { world_refusal config.now ≡ None }
    ensures { AreCounts result.0 result.1 config.now.systems }
{
    let [first, second] = &config.systems;
    (counts_of(first), counts_of(second))
}

/// The report of a run: the entries with their replies, and the state of cables and conversations at the end.
fn report_of<F: Fn(u16, usize) -> usize + Drop>(
    alloc: Global,
    world: &World<AnyCable, F>,
    counts: (Counts, Counts),
    events: &[Event],
    replies: &[Reply],
) -> Result<String, AllocError>
    requires replies { length replies.now ≡ length events.now }
    requires offered { IsSentWhereOffered events.now world.now.state }
    ensures { IfOk result (λ text. string_bytes text ≡ replay_report_with_counts counts.0 counts.1 events.now replies.now world.now.state) }
{
    let mut text = String::new(alloc);
    push_entries(&mut text, events, replies)?;
    push_agreements(&mut text, world)?;
    push_flows(alloc, &mut text, world, events, 1, counts.0)?;
    push_flows(alloc, &mut text, world, events, 2, counts.1)?;
    Ok(text)
}

/// The report of a script after it was read; the watch is shown how many of its entries have acted.
fn report_of_script<F: Fn(u16, usize) -> usize + Drop, P: Watch>(
    alloc: Global,
    config: WorldConfig,
    limits: &[Option<u16>],
    events: &[Event],
    one: F,
    two: F,
    watch: &P,
) -> Result<String, ToolFault>
    requires one { PicksIndexes (F.pre one) (F.post one) }
    requires two { PicksIndexes (F.pre two) (F.post two) }
    requires accepted { world_refusal config ≡ None }
    requires limits { All (λ limit. limit ≢ Some 0) limits.now }
    requires one_each { length limits.now ≡ length config.cables.items }
    requires named { AllNameExisting (length config.cables.items) events.now }
    requires few { length events.now ≤ most_events }
    ensures ok { IfOk result (λ report. IsReplayReport (both_algorithms (F.post one) (F.post two)) config limits.now events.now
        (string_bytes report)) }
    ensures err { IfErr result (λ fault. fault ≡ NoMemory) }
{
    let counts = both_counts(&config);
    // Only memory can be refused here, by the contracts of the three calls.
    let Ok(lines) = all_directions(alloc, limits) else {
        return Err(ToolFault::NoMemory);
    };
    let Ok(mut world) = make_world(alloc, config, one, two, lines) else {
        return Err(ToolFault::NoMemory);
    };
    let Ok(replies) = run_events(alloc, &mut world, events, watch) else {
        return Err(ToolFault::NoMemory);
    };
    Ok(report_of(alloc, &world, counts, events, &replies)?)
}

/// Runs a script as `replay` does, and shows the watch how many entries have acted; what is shown is taken away before the
/// report is written, as tests show (profile).
pub fn replay_watched<F: Fn(u16, usize) -> usize + Drop, W: Write, P: Watch>(
    alloc: Global,
    text: &str,
    one: F,
    two: F,
    sink: &mut Sink<W>,
    watch: &P,
) -> Result<(), ToolFault>
    requires one { PicksIndexes (F.pre one) (F.post one) }
    requires two { PicksIndexes (F.pre two) (F.post two) }
    requires sink { sink.old.failed ≡ false }
    ensures { Replays W.contents (both_algorithms (F.post one) (F.post two)) text.now sink.old sink.new result }
{
    let plan = read_plan(alloc, text)?;
    let report = report_of_script(
        alloc,
        plan.config,
        &plan.limits,
        &plan.events,
        one,
        two,
        watch,
    )?;
    watch.clear();
    sink.put(report.as_bytes())?;
    Ok(())
}

// promise: `replay` is `Ok`: the text has a plan, its events are a run of the event table from the start of its systems and cables with
//    their limits, and the sink got the report of this run: each entry with its reply, each cable's agreement, each conversation that sent
// contract: `replay` (`Replays`, `IsReportOfScript`, `IsRunFromStart`; `empty_links`, `replay_report`)
// promise: `Script` comes exactly if the text has no script; nothing is written then, nor after `NoMemory`; after `Write` a beginning
// contract: `replay` (`HasNoScript`), `a_script_is_not_refused`
// not said: the text of the fault: tests
/// Runs a script on two systems with these distribution algorithms. Then writes the entries with their replies, how the
/// ends of each cable agree, and what each conversation sent and collected (profile).
///
/// `Script` if the text is no script, `NoMemory` if memory is refused; then nothing is written. `Write` if the sink
/// failed in this call; then nothing or a beginning of the report is written.
pub fn replay<F: Fn(u16, usize) -> usize + Drop, W: Write>(
    alloc: Global,
    text: &str,
    one: F,
    two: F,
    sink: &mut Sink<W>,
) -> Result<(), ToolFault>
    requires one { PicksIndexes (F.pre one) (F.post one) }
    requires two { PicksIndexes (F.pre two) (F.post two) }
    requires sink { sink.old.failed ≡ false }
    ensures { Replays W.contents (both_algorithms (F.post one) (F.post two)) text.now sink.old sink.new result }
{
    replay_watched(alloc, text, one, two, sink, &Unwatched)
}
