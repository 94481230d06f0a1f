// What the names and texts of the store rest on.
ghost use Rattle.std.specs.Prelude.{◌≡◌, ℕ, List, [], ◌∷◌, IsTrue};
ghost use Rattle.jl_value.specs.Tree.{Tree};
ghost use Rattle.jl_text.specs.Paths.{PathView};
ghost use Rattle.jl_text.specs.Texts.{is_name};
ghost use Rattle.jl_entry.specs.Codes.{IsSameCode};
ghost use Rattle.jl_entry.specs.Entry.{Members, IsEntryOf};
ghost use Rattle.jl_entry.specs.Moments.{IsAccess, IsMetadata};
ghost use Rattle.jl_entry.specs.Names.{Final, IsFinal, IsTemp, IsStoreFolder, is_key, below};

/// No path is two names of the store: a temporary name is one in one way, a final name is no
/// temporary name, and no folder of the store has either.
pub fn names_are_told_apart()
    ensures temporary { (root p : PathView) (x y : Final) (t u : List ℕ) → IsTemp root x t p
        → IsTemp root y u p → (x ≡ y) × (t ≡ u) }
    ensures final_name { (root p : PathView) (x y : Final) → IsFinal root x p → IsFinal root y p
        → x ≡ y }
    ensures final_or_temporary { (root p : PathView) (x y : Final) (t : List ℕ) → IsFinal root x p
        → IsTemp root y t p → ⊥ }
    ensures final_or_folder { (root p : PathView) (x : Final) → IsFinal root x p
        → IsStoreFolder root p → ⊥ }
    ensures temporary_or_folder { (root p : PathView) (x : Final) (t : List ℕ) → IsTemp root x t p
        → IsStoreFolder root p → ⊥ }
{}

/// The root and the folders of modules, functions and entries are folders of the store.
pub fn folders_are_of_the_store()
    ensures root { (root : PathView) → IsStoreFolder root root }
    ensures of_module { (root : PathView) (m : List ℕ) → IsTrue (is_name m)
        → IsStoreFolder root (below root (m ∷ [])) }
    ensures of_function { (root : PathView) (m f : List ℕ) → IsTrue (is_name m) → IsTrue (is_name f)
        → IsStoreFolder root (below root (m ∷ f ∷ [])) }
    ensures of_entry { (root : PathView) (m f k : List ℕ) → IsTrue (is_name m) → IsTrue (is_name f)
        → IsTrue (is_key k) → IsStoreFolder root (below root (m ∷ f ∷ k ∷ [])) }
{}

/// Each text has one meaning: no bytes are a file's text for two things.
pub fn texts_have_one_meaning()
    ensures entry { (bytes a b : List ℕ) (ps qs : Members) (t u : Tree) → IsEntryOf bytes a ps t
        → IsEntryOf bytes b qs u → (a ≡ b) × (ps ≡ qs) × (t ≡ u) }
    ensures access { (bytes : List ℕ) (m n : ℕ) → IsAccess bytes m → IsAccess bytes n → m ≡ n }
    ensures metadata { (bytes : List ℕ) (c s d t : ℕ) → IsMetadata bytes c s → IsMetadata bytes d t
        → (c ≡ d) × (s ≡ t) }
    ensures code { (bytes a b : List ℕ) → IsSameCode a bytes → IsSameCode b bytes → a ≡ b }
{}
