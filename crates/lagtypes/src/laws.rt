ghost use Rattle.std.specs.Prelude.{◌≡◌, ◌↔◌, ◌<◌};
ghost use Rattle.lagtypes.specs.declared.party.Party.{Party};
ghost use Rattle.lagtypes.specs.declared.state.State.{State};
ghost use Rattle.lagtypes.specs.declared.state.StateBits.{StateBits};
ghost use Rattle.lagtypes.specs.Group.{SamePair, group_of, pair_of};
ghost use Rattle.lagtypes.specs.States.{bits_of, state_from_bits};

// promise: two groups are equal exactly if their unordered pairs of ends are; the lower end is kept first
// contract: `equal_groups_are_equal_pairs`; `Group::of` (`lower_first`), `lower`, `upper`, `End::is_below`
/// Two groups are equal exactly if their unordered pairs of ends are equal (6.3.6).
pub fn equal_groups_are_equal_pairs()
    ensures { (a b c d : Party) → (group_of a b ≡ group_of c d) ↔ SamePair (pair_of a b) (pair_of c d) }
{}

// promise: a state octet is its eight bits, and any eight bits are one state octet
// contract: `state_bits_are_kept` (`read`, `written`)
/// A state octet and its eight bits determine each other (6.4.2.3).
pub fn state_bits_are_kept()
    ensures read { (bits : StateBits) → bits_of (state_from_bits bits) ≡ bits }
    ensures written { (state : State) → state.0 < 256 → state_from_bits (bits_of state) ≡ state }
{}
