ghost use Rattle.std.specs.Prelude.{◌≡◌, map, slice_get};
ghost use Rattle.std.specs.Option.{option_copied};
ghost use Rattle.lf_parser.specs.Plain.{plain_tree};
ghost use Rattle.lf_codegen.specs.Frames.{frames, variables};

use lf_base::Listed;
use lf_parser::{Names, Tree};
use std::marker::Model;

/// A tree whose names and calls are right, with the variables of each of its bodies.
/// Contracts see the tree.
///
/// Body 0 is main. The functions follow in their order, and then the bodies of `when`s in the
/// order of their `when` words in the script.
#[derive(Drop)]
pub struct Resolved {
    tree: Tree,
    names: Listed<Names>,
}

impl Model for Resolved {
    ghost use Rattle.std.specs.Prelude.{◌≡◌, map};
    ghost use Rattle.lf_parser.specs.declared.tree.Tree.{Tree as Script};
    ghost use Rattle.lf_parser.specs.Plain.{plain_tree};
    ghost use Rattle.lf_codegen.specs.Frames.{frames, variables};
    ghost use Rattle.std.specs.Coded.{codes};
    ghost use Rattle.lf_parser.specs.contracts.stmt.Stmt as a_stmt;

    ghost Value = { Script };

    ghost coded = { Prim.hlevel (codes, a_stmt.the_row.coded) };

    ghost view = { λ resolved. resolved.tree };

    ghost invariant = { λ resolved. resolved.names ≡ map variables (frames (plain_tree resolved.tree)) };
}

impl Resolved {
    /// A tree with the variables of each of its bodies.
    pub(crate) fn new(tree: Tree, names: Listed<Names>) -> Resolved
        requires { names ≡ map variables (frames (plain_tree tree)) }
        ensures { result ≡ tree }
    {
        Resolved { tree, names }
    }

    /// The tree.
    pub fn tree(&self) -> &Tree
        ensures { result.now ≡ self.now }
    {
        &self.tree
    }

    /// The variables of the body with this number, each where it stands first: its parameters, or the
    /// names of its `when`, and then the others in the order in which they are first mentioned.
    /// `None` comes exactly where there is no such body.
    pub fn names(&self, body: u32) -> Option<&Names>
        ensures { option_copied result ≡ slice_get (map variables (frames (plain_tree self.now))) body }
    {
        self.names.get(body as usize)
    }
}
