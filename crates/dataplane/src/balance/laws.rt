//! What a run of moves comes to. The function does nothing when it runs: its contract is a proved theorem about the moves
//! that `next_move` answers.
ghost use Rattle.std.specs.Prelude.{◌≡◌, ℕ, ◌+◌, ◌<◌, ◌≤◌, List, length, Contains};
ghost use Rattle.dataplane.specs.declared.balance.moves.Carried.{Carried};
ghost use Rattle.dataplane.specs.declared.balance.moves.Move.{Move};
ghost use Rattle.dataplane.specs.Moves.{load_on, IsMove};
ghost use Rattle.dataplane.specs.RunsOfMoves.{AllDiffer, CountsOne, moved, IsRunOfMoves, squares};

// promise: each move lowers the sum of the squares of the loads
// contract: `every_run_of_moves` (`lowers`)
// promise: if each conversation counts one, no run of moves is longer than their count, and none is left exactly if any two loads differ by
//    at most one
// contract: `every_run_of_moves` (`ends`, `alike`, `none`)
/// Among ports that differ each move lowers the sum of the squares of their loads. Where each conversation counts one, no
/// run of moves is longer than there are conversations, and where no move is left, the loads of two ports differ by one at
/// most. So whoever completes each move that `next_move` answers comes to such loads after at most as many moves as
/// there are conversations, and is answered none there (profile).
pub fn every_run_of_moves()
    ensures lowers { (ports : List ℕ) (carried : List Carried) (m : Move) → AllDiffer ports → IsMove ports carried m
        → squares ports (moved carried m) < squares ports carried }
    ensures ends { (ports : List ℕ) (carried : List Carried) (ms : List Move) → AllDiffer ports → CountsOne carried
        → IsRunOfMoves ports carried ms → length ms ≤ length carried }
    ensures alike { (ports : List ℕ) (carried : List Carried) (p q : ℕ) → CountsOne carried
        → ((m : Move) → IsMove ports carried m → ⊥) → Contains ports p → Contains ports q
        → load_on p carried ≤ load_on q carried + 1 }
    ensures none { (ports : List ℕ) (carried : List Carried) (m : Move) → CountsOne carried
        → ((p q : ℕ) → Contains ports p → Contains ports q → load_on p carried ≤ load_on q carried + 1)
        → IsMove ports carried m → ⊥ }
{}
