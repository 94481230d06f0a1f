// What claims on steps mean, and how calls compose.
ghost use Rattle.std.specs.Prelude.{◌≡◌, ◌⊎◌, ◌↔◌, ◌++◌, List, ℕ};
ghost use Rattle.jl_text.specs.Paths.{PathView};
ghost use Rattle.jl_folder.specs.State.{State, Event, Trace, Allowed, IsTrace, IsForeign, place_at, after, run};
ghost use Rattle.jl_folder.specs.Views.{state, moved};
ghost use Rattle.jl_folder.specs.Calls.{Call, Waits};
ghost use Rattle.jl_folder.specs.declared.moves.Move.{Move};
ghost use Rattle.jl_rely.specs.Steps.{AllSteps, Throughout, WhereverBefore, IsLone};
ghost use Rattle.jl_rely.specs.Claims.{Called};
ghost use Rattle.jl_rely.specs.Lone.{MovesAlone};
ghost use Rattle.jl_rely.specs.Touches.{Touches, TouchedByOther};

use crate::claim::{AnswerClaim, MoveClaim, StateClaim, StepClaim};
use jl_folder::Folder;

/// What is owed throughout a call, told by prefixes: each own move has it wherever all moves before
/// it have what is given.
pub fn throughout_is_by_prefixes<G: StepClaim, O: StepClaim>()
    ensures { (token : List ℕ) (s : State) (steps : Trace) →
        (Throughout G.holds O.holds token s steps) ↔ (WhereverBefore G.holds O.holds token s steps) }
{}

/// Where each run's moves have it wherever all moves before them do, every move has it; and what
/// such moves keep of a state holds at each state.
pub fn runs_compose<P: StepClaim, I: StateClaim>()
    ensures every_move { (s : State) (trace : Trace)
        → ((token : List ℕ) → Throughout P.holds P.holds token s trace) → AllSteps P.holds s trace }
    ensures every_state { (s : State) (before rest : Trace) → IsTrace s (before ++ rest) →
        ((token : List ℕ) → Throughout P.holds P.holds token s (before ++ rest)) →
        ((token : List ℕ) (s : State) (change : Move) → Allowed s change → P.holds token s change → I.holds s → I.holds (after s (token, change))) →
        I.holds s → I.holds (run s before) }
{}

/// Two calls one after the other are one call: what the first leaves is what the second begins
/// with.
pub fn calls_compose<
    F: Folder,
    G: StepClaim,
    O: StepClaim,
    K: MoveClaim,
    B: StateClaim,
    M: StateClaim,
    E: StateClaim,
>()
    ensures { (old mid new : F) →
        Called G.holds O.holds K.holds B.holds M.holds (F.view old) (F.view mid) →
        Called G.holds O.holds K.holds M.holds E.holds (F.view mid) (F.view new) →
        Called G.holds O.holds K.holds B.holds E.holds (F.view old) (F.view new) }
{}

/// What a path names changes only by a move that makes or removes that name.
pub fn look_ups_change_by_touches()
    ensures one { (s : State) (step : Event) (path : PathView)
        → (place_at (after s step) path ≡ place_at s path) ⊎ Touches step.1 path }
    ensures others { (token : List ℕ) (s : State) (others : Trace) (path : PathView) → IsForeign token others →
        (place_at (run s others) path ≡ place_at s path) ⊎ TouchedByOther token (λ p. p ≡ path) others }
{}

/// Where no other moved, a call's own move was made in the state at its entry, and a wait changed
/// nothing.
pub fn lone_calls<F: Folder, A: AnswerClaim>()
    ensures call { (old new : F) → Call (F.view old) (F.view new) A.holds
        → IsLone (F.view old).token (moved (F.view old) (F.view new))
        → MovesAlone (F.view old) (F.view new) A.holds }
    ensures waits { (old new : F) → Waits (F.view old) (F.view new)
        → IsLone (F.view old).token (moved (F.view old) (F.view new))
        → state (F.view new) ≡ state (F.view old) }
{}
