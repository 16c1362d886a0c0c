//! What holds of the definitions that the contracts cite, one law to a function.

ghost use Rattle.std.specs.Prelude.{◌≡◌, ◌⊎◌, ◌+◌, ◌*◌, ◌≤◌, ℕ, List, length};
ghost use Rattle.lf_base.specs.declared.refusals.Refusal.{Refusal};
ghost use Rattle.lf_base.specs.Texts.{Text, fixed_texts, Grows, TextsDiffer};
ghost use Rattle.lf_lexer.specs.declared.tokens.Token.{Token};
ghost use Rattle.lf_lexer.specs.Layout.{Laid, at_line};
ghost use Rattle.lf_lexer.specs.LineOrder.{OnLines};
ghost use Rattle.lf_lexer.specs.NamedTexts.{AllNameWithin};
ghost use Rattle.lf_lexer.specs.Order.{InTokenOrder};
ghost use Rattle.lf_lexer.specs.Reading.{Spells};
ghost use Rattle.lf_lexer.specs.Refusals.{IsFirstLexRefusal};

/// Each list of bytes spells tokens and texts, or has a first refusal.
pub fn scripts_are_spelled_or_refused()
    ensures { (bytes : List ℕ) → ((tokens : List Token) × ((texts : List Text) × Spells bytes tokens texts))
        ⊎ ((refusal : Refusal) × IsFirstLexRefusal bytes refusal) }
{}

/// It spells one list of tokens at most, and one of texts.
pub fn scripts_are_spelled_once()
    ensures tokens { (bytes : List ℕ) (t t' : List Token) (x x' : List Text) → Spells bytes t x → Spells bytes t' x' → t ≡ t' }
    ensures texts { (bytes : List ℕ) (t t' : List Token) (x x' : List Text) → Spells bytes t x → Spells bytes t' x' → x ≡ x' }
{}

/// It has one first refusal at most.
pub fn scripts_are_refused_once()
    ensures { (bytes : List ℕ) (r r' : Refusal) → IsFirstLexRefusal bytes r → IsFirstLexRefusal bytes r' → r ≡ r' }
{}

/// It is never both spelled and refused.
pub fn spelled_scripts_are_not_refused()
    ensures { (bytes : List ℕ) (t : List Token) (x : List Text) (r : Refusal) → Spells bytes t x → ¬ IsFirstLexRefusal bytes r }
{}

/// The tokens lie in lines and levels: the one end is last, each level that opens
/// closes before it, and no line is empty.
pub fn spelled_tokens_are_laid()
    ensures { (bytes : List ℕ) (t : List Token) (x : List Text) → Spells bytes t x → Laid at_line 0 t }
{}

/// Their places and their spans are in order, and the span of a token is empty
/// exactly where its lexeme has no bytes.
pub fn spelled_tokens_are_in_order()
    ensures { (bytes : List ℕ) (t : List Token) (x : List Text) → Spells bytes t x → InTokenOrder 1 1 0 t }
{}

/// Their lines don't fall, and a token after the end of a line stands on a later one.
pub fn spelled_tokens_are_on_lines()
    ensures { (bytes : List ℕ) (t : List Token) (x : List Text) → Spells bytes t x → OnLines 1 t }
{}

/// They are four for each byte at most, and one more.
pub fn spelled_tokens_are_few()
    ensures { (bytes : List ℕ) (t : List Token) (x : List Text) → Spells bytes t x → length t ≤ 4 * length bytes + 1 }
{}

/// The texts begin with the fixed ones, no text is there twice, and each text that
/// a token names is there.
pub fn spelled_texts_are_named()
    ensures fixed { (bytes : List ℕ) (t : List Token) (x : List Text) → Spells bytes t x → Grows fixed_texts x }
    ensures differ { (bytes : List ℕ) (t : List Token) (x : List Text) → Spells bytes t x → TextsDiffer x }
    ensures named { (bytes : List ℕ) (t : List Token) (x : List Text) → Spells bytes t x → AllNameWithin (length x) t }
{}
