//! What holds of the lists of texts. Each function has an empty body; its clauses are the law.

ghost use Rattle.std.specs.Prelude.{◌≡◌, ◌<◌, ◌++◌, ℕ, List, codes, length, true};
ghost use Rattle.std.specs.List.{list_any};
ghost use Rattle.std.specs.Str.{bytes_eq};
ghost use Rattle.lf_base.specs.Texts.{Text, with_text, place_of, text_at, fixed_texts, TextsDiffer};

use crate::ids::TextId;

/// No text is there twice, first and with every further one.
pub fn texts_differ()
    ensures first { TextsDiffer fixed_texts }
    ensures with_one { (texts : List Text) (text : Text) → TextsDiffer texts → TextsDiffer (with_text texts text) }
{}

/// A text that was added is at its place, and keeps it when others come after it.
pub fn texts_keep_their_places()
    ensures found { (texts : List Text) (text : Text) → text_at (with_text texts text) (place_of texts text) ≡ text }
    ensures kept { (texts more : List Text) (text : Text) → list_any (bytes_eq text) texts ≡ true
        → place_of (texts ++ more) text ≡ place_of texts text }
{}

/// Where no text is there twice, the text at a place has that place.
pub fn texts_are_found()
    ensures { (texts : List Text) (place : ℕ) → TextsDiffer texts → place < length texts
        → place_of texts (text_at texts place) ≡ place }
{}

/// The constants of `TextId` name the fixed texts.
pub fn text_constants_are_fixed_texts()
    ensures value { text_at fixed_texts TextId.VALUE.index ≡ codes "value" }
    ensures print { text_at fixed_texts TextId.PRINT.index ≡ codes "print" }
{}
