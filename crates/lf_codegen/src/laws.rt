//! What was proved of scripts, their names and their refusals, whatever reads them.

ghost use Rattle.std.specs.Prelude.{◌≡◌, ◌⊎◌, ℕ, ltb, List, map};
ghost use Rattle.lf_base.specs.declared.refusals.Refusal.{Refusal};
ghost use Rattle.lf_base.specs.Sets.{Member};
ghost use Rattle.lf_base.specs.Texts.{Text};
ghost use Rattle.lf_parser.specs.Plain.{PlainTree};
ghost use Rattle.lf_parser.specs.Ascending.{Ascending};
ghost use Rattle.lf_parser.specs.TreeNames.{stands_before};
ghost use Rattle.lf_codegen.specs.Frames.{PlainFrame, frames, frame_line, variables, when_frames};
ghost use Rattle.lf_codegen.specs.ScriptReading.{IsFirstRefusal, IsParsed, IsRead};

/// Each list of bytes spells a script whose names and calls are right, or has a first refusal.
pub fn scripts_are_read_or_refused()
    ensures { (bytes : List ℕ) → ((texts : List Text) × ((tree : PlainTree) × IsRead bytes texts tree))
        ⊎ ((refusal : Refusal) × IsFirstRefusal bytes refusal) }
{}

/// Some bytes spell one list of texts and one tree at most, and have one first refusal at
/// most; and never both, where the tree's names and calls are right. So `read` answers a
/// script exactly where there is one, want of memory aside.
pub fn one_answer()
    ensures texts { (bytes : List ℕ) (x y : List Text) (t u : PlainTree) → IsParsed bytes x t → IsParsed bytes y u → x ≡ y }
    ensures tree { (bytes : List ℕ) (x y : List Text) (t u : PlainTree) → IsParsed bytes x t → IsParsed bytes y u → t ≡ u }
    ensures read_texts { (bytes : List ℕ) (x y : List Text) (t u : PlainTree) → IsRead bytes x t → IsRead bytes y u → x ≡ y }
    ensures read_tree { (bytes : List ℕ) (x y : List Text) (t u : PlainTree) → IsRead bytes x t → IsRead bytes y u → t ≡ u }
    ensures refusal { (bytes : List ℕ) (r s : Refusal) → IsFirstRefusal bytes r → IsFirstRefusal bytes s → r ≡ s }
    ensures read_or_refused { (bytes : List ℕ) (x : List Text) (t : PlainTree) (r : Refusal) → IsRead bytes x t → ¬ IsFirstRefusal bytes r }
{}

/// The frames of a script's `when`s are in the order of their lines, and no two have one line.
pub fn whens_in_order()
    ensures { (bytes : List ℕ) (x : List Text) (t : PlainTree) → IsParsed bytes x t → Ascending ltb (map frame_line (when_frames t)) }
{}

/// In each frame of a script, the variables in the order of their numbers stand one after
/// the other by line and column: a function's parameters and the names of a `when` before the
/// variables of the body.
pub fn variables_in_order()
    ensures { (bytes : List ℕ) (x : List Text) (t : PlainTree) (f : PlainFrame) →
        IsParsed bytes x t → Member f (frames t) → Ascending stands_before (variables f) }
{}
