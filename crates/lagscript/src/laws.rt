ghost use Rattle.std.specs.Prelude.{◌≡◌, ◌<◌, ◌≤◌, ◌^◌, ℕ, List, length, Some, None};
ghost use Rattle.toml.specs.Data.{Data, as_str};
ghost use Rattle.lagscript.specs.Keys.{list_in};
ghost use Rattle.lagscript.specs.Scripts.{entries_in};

// promise: up to 100,000 texts are an array of entries, more are not
// contract: `scripts_have_a_limit_of_entries`
/// An array of up to 100,000 texts gives the entries of a script, and one of more gives none (profile).
pub fn scripts_have_a_limit_of_entries()
    ensures taken { (d : Data) (texts : List (List ℕ)) → list_in as_str d ≡ Some texts → length texts ≤ 10 ^ 5 → entries_in d ≡ Some texts }
    ensures refused { (d : Data) (texts : List (List ℕ)) → list_in as_str d ≡ Some texts → 10 ^ 5 < length texts → entries_in d ≡ None }
{}
