ghost use Rattle.std.specs.Prelude.{◌≡◌, ◌↔◌, IsTrue};
ghost use Rattle.lagtypes.specs.declared.identifiers.SystemId.{SystemId};
ghost use Rattle.lagtypes.specs.Group.{SamePair};
ghost use Rattle.selection.specs.declared.view.PortView.{PortView};
ghost use Rattle.selection.specs.Choice.{has_group_of};
ghost use Rattle.selection.specs.Joining.{ends};
ghost use Rattle.lagtypes.specs.Same.{same_system};

// promise: the tests by which definitions filter mean equality, of pairs of ends and of identifiers
// contract: `tests_are_equalities`
/// The Boolean tests in the definitions of a choice mean equality: `has_group_of` holds of two ports exactly if the
/// unordered pairs of ends of their links are equal, and `same_system` exactly if the systems are equal (6.3.2, 6.3.6).
pub fn tests_are_equalities()
    ensures group { (v w : PortView) → IsTrue (has_group_of v w) ↔ SamePair (ends w) (ends v) }
    ensures system { (s t : SystemId) → IsTrue (same_system s t) ↔ (s ≡ t) }
{}
