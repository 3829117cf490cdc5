ghost use Rattle.std.specs.Prelude.{◌≡◌, ◌≢◌, ℕ, List, Option, Some, false, length};
ghost use Rattle.std.specs.List.{range_with_len};
ghost use Rattle.lagmodel.specs.Law.{IsSubsequence};
ghost use Rattle.lagscript.specs.Scripts.{HasScript, Script};
ghost use Rattle.lagscript.specs.declared.fault.ScriptFault.{ScriptFault};
ghost use Rattle.lagtool_jobs.specs.ReplayReport.{HasNoScript};
ghost use Rattle.lagworld.specs.Agreement.{agreement_at};
ghost use Rattle.lagworld.specs.Events.{side_of};
ghost use Rattle.lagworld.specs.Readers.{flow_of_system};
ghost use Rattle.lagworld.specs.Sound.{IsSound};
ghost use Rattle.lagworld.specs.State.{WorldState, collected_in, forced_in, sent_in};
ghost use Rattle.lagworld.specs.declared.agreement.Agreement.TheVariants.{Differ};

// promise: each report keeps the headline: no agreement is `differ`; what was collected unforced is a subsequence of 0 to one less than the
//    count sent
// contract: `a_report_keeps_the_headline`
/// The last lines of a report keep the headline, in any world that the theorem is true of: no agreement is `differ`
/// (6.3.6), and what a conversation collected, if it was never forced, is a subsequence of 0, 1, 2 and so on up to the
/// last serial number that it sent (6.2.4).
pub fn a_report_keeps_the_headline()
    ensures agreements { (j : WorldState) (cable : ℕ) → IsSound j → agreement_at j cable ≢ Some Differ }
    ensures flows { (j : WorldState) (s agg conv : ℕ) → IsSound j → forced_in (flow_of_system (side_of s) agg conv j) ≡ false
        → IsSubsequence (collected_in (flow_of_system (side_of s) agg conv j))
        (range_with_len 0 (length (sent_in (flow_of_system (side_of s) agg conv j)))) }
{}

/// A text that is refused is no script (profile).
pub fn a_script_is_not_refused()
    ensures { (text : List ℕ) (fault : ScriptFault) (s : Script) → HasNoScript text fault → HasScript text s → ⊥ }
{}
