//! What was proved of trees and refusals, whatever reads them.

ghost use Rattle.std.specs.Prelude.{ℕ, List};
ghost use Rattle.lf_base.specs.declared.ids.TextId.{TextId};
ghost use Rattle.lf_parser.specs.Laws.{ElifAlone, FieldsByText, HasTreeOrRefusal, HoldsOfReadTrees, OneRefusal, OneTree, TreeOrRefusal};
ghost use Rattle.lf_base.specs.Texts.{Text};
ghost use Rattle.lf_lexer.specs.declared.tokens.Token.{Token};
ghost use Rattle.lf_lexer.specs.LineOrder.{OnLines};
ghost use Rattle.lf_lexer.specs.Order.{InTokenOrder};
ghost use Rattle.lf_lexer.specs.Reading.{AreSpelled};
ghost use Rattle.lf_parser.specs.Plain.{PlainExpr, PlainTree};
ghost use Rattle.lf_parser.specs.Refusals.{Derives, EndsOnce, Readable};
ghost use Rattle.lf_parser.specs.TreeLines.{LinesInOrder};
ghost use Rattle.lf_parser.specs.TreeNames.{NamesInOrder};

/// At most one tree is derived from some tokens. They don't make a tree within
/// the limits and are refused too, and have one refusal at most. So `parse`
/// answers a tree exactly where there is one, want of memory aside.
pub fn one_answer()
    ensures one_tree { OneTree }
    ensures tree_or_refusal { TreeOrRefusal }
    ensures one_refusal { OneRefusal }
{}

/// Tokens whose last one alone is the end make a tree within the limits, or have a refusal.
pub fn trees_or_refusals()
    ensures { (tokens : List Token) → EndsOnce tokens → HasTreeOrRefusal tokens }
{}

/// `x.f` and `x["f"]` are one form, and an `elif` is an `if` that stands alone in
/// the else block, with its own line.
pub fn one_form()
    ensures fields { (levels : ℕ) (target : PlainExpr) (id : TextId) → FieldsByText levels target id }
    ensures elifs { (elifs levels nest : ℕ) → ElifAlone elifs levels nest }
{}

/// The tokens that some script spells are such that `parse` may be called on them: they
/// end once, and are few.
pub fn spelled_tokens_are_readable()
    ensures { (tokens : List Token) (texts : List Text) → AreSpelled tokens texts → Readable tokens }
{}

/// The names of a tree stand in it as they do in the script: main's rise by line and
/// column, those of the functions do so too, and no two names have one place. That
/// holds of each tree that is derived from tokens in order, so of each that `parse`
/// reads from a script.
pub fn names_stand_in_order()
    ensures derived { (tokens : List Token) (tree : PlainTree) → InTokenOrder 1 1 0 tokens → Derives tokens tree → NamesInOrder tree }
    ensures read { HoldsOfReadTrees NamesInOrder }
{}

/// The lines of a tree's statements rise in main and in the functions, the statements in
/// a statement after it, and no two statements have one line. That holds where no token
/// stands on an earlier line than the one before it, and none on a line that has ended, so
/// of each tree that `parse` reads from a script.
pub fn lines_stand_in_order()
    ensures derived { (tokens : List Token) (tree : PlainTree) → OnLines 1 tokens → Derives tokens tree → LinesInOrder tree }
    ensures read { HoldsOfReadTrees LinesInOrder }
{}
