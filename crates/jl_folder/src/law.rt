// The law of moves.
ghost use Rattle.std.specs.Prelude.{List, ℕ};
ghost use Rattle.jl_folder.specs.State.{State, Trace, IsState, Allowed, IsTrace, after, run};
ghost use Rattle.jl_folder.specs.declared.moves.Move.{Move};

/// A move that may be made leaves a state, and so does a list of moves, each of which may be made
/// where those before it led.
pub fn moves_keep_states()
    ensures one { (s : State) (token : List ℕ) (change : Move) → IsState s → Allowed s change
        → IsState (after s (token, change)) }
    ensures all { (s : State) (moves : Trace) → IsState s → IsTrace s moves
        → IsState (run s moves) }
{}
