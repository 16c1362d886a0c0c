//! What the names of one body stand for.

ghost use Rattle.std.specs.Prelude.{◌≡◌, length, map, IfOk};
ghost use Rattle.lf_parser.specs.Plain.{plain_tree};
ghost use Rattle.lf_codegen.specs.Numbers.{var_number};
ghost use Rattle.lf_emit.specs.PlaceTables.{HasPlaces};
ghost use Rattle.lf_emit.specs.Scopes.{function_keys, name_keys, plain_script, when_keys};

use crate::numbering::Numbering;
use crate::places::Places;
use lf_base::{OutOfMemory, TextId, Texts};
use lf_codegen::Called;
use lf_parser::{Expr, Name, Tree};

/// A script, and the variables of one of its bodies.
#[derive(Drop)]
pub struct Scope<'t> {
    pub texts: &'t Texts,
    pub tree: &'t Tree,
    /// The functions by their names, and the bodies of `when`s by their lines.
    pub functions: &'t Places,
    pub whens: &'t Places,
    pub names: &'t [Name],
    /// The variables by their names.
    pub vars: &'t Places,
    ghost functions_are: { HasPlaces functions.now (function_keys (plain_tree tree.now)) },
    ghost whens_are: { HasPlaces whens.now (when_keys (plain_tree tree.now)) },
    ghost vars_are: { HasPlaces vars.now (name_keys names.now) },
}

impl<'t> Numbering for Scope<'t> {
    ghost source = { λ scope. plain_script scope.texts.now scope.tree.now };

    ghost vars = { λ scope. scope.names.now };

    fn number(&self, name: Name) -> u32 {
        self.vars.place(name.id.index)
    }

    fn asked(&self, args: &[Expr]) -> u32 {
        match args {
            [Expr::Var(name)] => self.number(*name),
            _ => 0,
        }
    }

    fn called(&self, id: TextId) -> Result<Called, OutOfMemory> {
        let place = self.functions.place(id.index);
        let Some(body) = place.checked_add(1) else {
            return Err(OutOfMemory);
        };
        Ok(Called::named(self.texts.text(id), body))
    }

    fn when(&self, line: u32) -> Result<u32, OutOfMemory> {
        let place = self.whens.place(line);
        let Ok(functions) = u32::try_from(self.tree.functions.len()) else {
            return Err(OutOfMemory);
        };
        let Some(first) = functions.checked_add(1) else {
            return Err(OutOfMemory);
        };
        let Some(body) = first.checked_add(place) else {
            return Err(OutOfMemory);
        };
        Ok(body)
    }
}
