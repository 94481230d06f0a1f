// What the texts of dump files tell.
ghost use Rattle.std.specs.Prelude.{◌≡◌, ◌<◌, ◌^◌, ℕ, ℤ, List, [], ◌++◌, length, All};
ghost use Rattle.jl_array.specs.Dumps.{dump_text, dump_length, AreSigned};
ghost use Rattle.jl_array.specs.Dumps.{IsCutOff, IsNoDump, IsDump, HoldsList};
ghost use Rattle.jl_array.specs.Dumps.{HasPart, DiffersFrom, EndsInside};

/// Two lists have two texts, of 15 bytes and 8 for each number. No text is a proper front of
/// another.
pub fn dumps_are_told_apart()
    ensures injective { (xs ys : List ℤ) → AreSigned xs → AreSigned ys
        → dump_text xs ≡ dump_text ys → xs ≡ ys }
    ensures size { (xs : List ℤ) → length (dump_text xs) ≡ dump_length (length xs) }
    ensures fronts { (xs ys : List ℤ) (rest : List ℕ) → length xs < 2 ^ 64 → length ys < 2 ^ 64
        → dump_text ys ≡ dump_text xs ++ rest → rest ≡ [] }
{}

/// A file is an array, cut off, or none, and never two of these. The text of a list is an array of
/// its count, and an array's bytes are the text of one list.
pub fn files_are_judged_one_way()
    ensures not_cut_off { (count : ℕ) (file : List ℕ) → IsDump count file → IsCutOff file → ⊥ }
    ensures not_none { (count : ℕ) (file : List ℕ) → IsDump count file → IsNoDump file → ⊥ }
    ensures not_both { (file : List ℕ) → IsCutOff file → IsNoDump file → ⊥ }
    ensures text { (xs : List ℤ) → length xs < 2 ^ 64 → IsDump (length xs) (dump_text xs) }
    ensures list { (count : ℕ) (file : List ℕ) → All (λ b. b < 256) file → IsDump count file
        → HoldsList count file }
{}

/// Behind its head a file has some bytes, or other ones in their place, or ends before them, and
/// never two of these.
pub fn comparisons_have_one_answer()
    ensures not_other { (part file : List ℕ) → HasPart 15 part file → DiffersFrom part file → ⊥ }
    ensures not_short { (part file : List ℕ) → HasPart 15 part file → EndsInside part file → ⊥ }
    ensures not_both { (part file : List ℕ) → DiffersFrom part file → EndsInside part file → ⊥ }
{}
