// What proper and lawful moves keep, whatever the order in which runs make them.
ghost use Rattle.std.specs.Prelude.{◌≡◌, ◌≢◌, ◌++◌, [], List, ℕ, Some};
ghost use Rattle.jl_text.specs.Paths.{PathView};
ghost use Rattle.jl_folder.specs.State.{State, Trace, IsState, Allowed, IsTrace, place_at, bare_state, after, run};
ghost use Rattle.jl_folder.specs.declared.moves.Move.{Move};
ghost use Rattle.jl_folder.specs.declared.moves.Place.{Place};
ghost use Rattle.jl_entry.specs.Codes.{IsSameCode};
ghost use Rattle.jl_entry.specs.Names.{code_of, IsStoreFolder, IsStoreName, IsBelow, IsOutside, root_of};
ghost use Rattle.jl_rely.specs.Steps.{AllSteps, Throughout};
ghost use Rattle.jl_protocol.specs.Whole.{CodeAnswers, IsWhole};
ghost use Rattle.jl_protocol.specs.Proper.{IsProper, IsLawful, RenamesTrue, ProperThroughout, LawfulThroughout};
ghost use Rattle.jl_protocol.specs.Tidy.{IsTidy, IsSound, KillLeaves};

/// Proper moves keep tidy states tidy, lawful moves keep sound states sound, and a kill leaves one.
pub fn moves_keep_stores()
    ensures tidy { (root : PathView) (token : List ℕ) (s : State) (m : Move) → Allowed s m
        → IsProper root token s m → IsTidy root s → IsTidy root (after s (token, m)) }
    ensures sound { (root : PathView) (answer : CodeAnswers) (token : List ℕ) (s : State) (m : Move)
        → Allowed s m → IsLawful root answer token s m → IsSound root answer s
        → IsSound root answer (after s (token, m)) }
    ensures kill { (root : PathView) (answer : CodeAnswers) (s t : State) (moves : Trace)
        → IsTrace s moves → AllSteps (IsLawful root answer) s moves → IsSound root answer s
        → KillLeaves s moves t → IsSound root answer t }
{}

/// A root with nothing at or below it but its folders is sound, where no file stands on the way to
/// it and no node has two names; and so is the root of any location in an empty folder.
pub fn absent_roots_are_sound()
    ensures absent { (root : PathView) (answer : CodeAnswers) (s : State) → IsState s
        → ((p q : PathView) (n : ℕ) → place_at s p ≡ Some (Place.File n)
        → place_at s q ≡ Some (Place.File n) → p ≡ q)
        → ((p : PathView) (n : ℕ) → place_at s p ≡ Some (Place.File n) → IsOutside root p)
        → ((p : PathView) → place_at s p ≡ Some Place.Folder → IsBelow root p
        → IsStoreFolder root p) → IsSound root answer s }
    ensures empty { (location : PathView) (answer : CodeAnswers)
        → IsSound (root_of location) answer bare_state }
{}

/// Where each run's moves are lawful wherever all moves before them are, every move is lawful and
/// every state is sound.
pub fn runs_compose()
    ensures every_move { (root : PathView) (answer : CodeAnswers) (s : State) (moves : Trace)
        → ((token : List ℕ)
        → Throughout (IsLawful root answer) (IsLawful root answer) token s moves)
        → AllSteps (IsLawful root answer) s moves }
    ensures every_state { (root : PathView) (answer : CodeAnswers) (s : State) (before rest : Trace)
        → IsTrace s (before ++ rest) → IsSound root answer s
        → ((token : List ℕ)
        → Throughout (IsLawful root answer) (IsLawful root answer) token s (before ++ rest))
        → IsSound root answer (run s before) }
{}

/// Two calls one after the other, what a caller without a library may rest on, and the moves that
/// are proper in every state.
pub fn calls_compose()
    ensures proper { (root : PathView) (token : List ℕ) (s : State) (first second : Trace)
        → IsTrace s first → ProperThroughout root token s first
        → ProperThroughout root token (run s first) second
        → ProperThroughout root token s (first ++ second) }
    ensures lawful { (root : PathView) (answer : CodeAnswers) (token : List ℕ) (s : State)
        (first second : Trace) → IsTrace s first → LawfulThroughout root answer token s first
        → LawfulThroughout root answer token (run s first) second
        → LawfulThroughout root answer token s (first ++ second) }
    ensures true_renames { (root : PathView) (answer : CodeAnswers) (token : List ℕ) (s : State)
        (call : Trace) → ProperThroughout root token s call
        → Throughout (IsProper root) (λ t. RenamesTrue root answer) token s call
        → LawfulThroughout root answer token s call }
    ensures make_dir { (root p : PathView) (token : List ℕ) (s : State) → IsStoreFolder root p
        → IsProper root token s (Move.MakeDir p) }
    ensures remove { (root p : PathView) (token : List ℕ) (s : State) → IsStoreName root p
        → IsProper root token s (Move.Remove p) }
    ensures remove_dir { (root p : PathView) (token : List ℕ) (s : State) → IsStoreFolder root p
        → IsProper root token s (Move.RemoveDir p) }
{}

/// Whole bytes of a function's code are those of some code, to any reader of the file.
pub fn whole_codes_are_read()
    ensures { (m f bytes : List ℕ) → IsWhole (code_of m f) bytes
        → (code : List ℕ) × IsSameCode code bytes }
{}

/// No proper front of a function's whole code is a whole code: what a run that was cut off had
/// written so far is never taken for all of it.
pub fn fronts_of_codes_are_not_whole()
    ensures { (m f front rest : List ℕ) → rest ≢ [] → IsWhole (code_of m f) (front ++ rest)
        → IsWhole (code_of m f) front → ⊥ }
{}
