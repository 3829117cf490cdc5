ghost use Rattle.std.specs.Prelude.{◌≡◌, ℕ, Err, List, None, Some, length};
ghost use Rattle.std.specs.Result.{result_err};
ghost use Rattle.lagscript.specs.Entries.{event_named, kinds_named};
ghost use Rattle.lagscript.specs.declared.fault.EntryFault.TheVariants.{Count, Word};
ghost use Rattle.lagscript.specs.declared.forms.WordKind.{WordKind};
ghost use Rattle.lagexplain.specs.Entries.{first_fault};

// promise: the known events, their words and faults are those that `lagscript` reads
// contract: `events_are_those_of_scripts`
// not said: all other words: a table of typos
/// The events that are known here are those that `lagscript` reads, and so are their words. Of a name without kinds it answers
/// `Word`; of another count of words than there are kinds, `Count`; else the fault of the first word that is none of its kind, and
/// the event where there is none (profile).
pub fn events_are_those_of_scripts()
    ensures others { (cables : ℕ) (name : List ℕ) (words : List (List ℕ)) → kinds_named name ≡ None → event_named cables name words ≡ Err Word }
    ensures count { (cables : ℕ) (name : List ℕ) (kinds : List WordKind) (words : List (List ℕ)) → kinds_named name ≡ Some kinds → ¬ (length words ≡ length kinds) → event_named cables name words ≡ Err Count }
    ensures words { (cables : ℕ) (name : List ℕ) (kinds : List WordKind) (words : List (List ℕ)) → kinds_named name ≡ Some kinds → length words ≡ length kinds → result_err (event_named cables name words) ≡ first_fault cables kinds words }
{}
