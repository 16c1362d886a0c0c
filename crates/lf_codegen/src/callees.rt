ghost use Rattle.std.specs.Prelude.{◌≡◌, ◌++◌, ◌∷◌, [], List, Some, OnOk, is_some, map};
ghost use Rattle.lf_base.specs.Texts.{Text};
ghost use Rattle.lf_base.specs.declared.refusals.RefusalKind.TheVariants.{DuplicateFunction};
ghost use Rattle.lf_parser.specs.Plain.{PlainFunction, plain_function};
ghost use Rattle.lf_codegen.specs.Callees.{callee_of};
ghost use Rattle.lf_codegen.specs.Earliest.{earliest};
ghost use Rattle.lf_codegen.specs.NameRefusals.{call_refusal, kind_where, names_refusals, refusals_at};
ghost use Rattle.lf_codegen.specs.TablesMean.{Knows};

use crate::callee::Callee;
use crate::first_refusal::FirstRefusal;
use lf_base::{OutOfMemory, RefusalKind, TextId, Texts};
use lf_parser::Function;
use std::alloc::Global;
use std::collections::HashMap;

/// What the calls of a script mean: the built-in calls, and its functions.
#[derive(Drop)]
pub struct Callees<'t> {
    texts: &'t Texts,
    /// The number of parameters of the first function of each name.
    params: HashMap<TextId, usize>,
}

impl<'t> Callees<'t> {
    /// The built-in calls alone.
    pub fn new(alloc: Global, texts: &'t Texts) -> Callees<'t>
        ensures { Knows result texts.now [] }
    {
        Callees {
            texts,
            params: HashMap::new(alloc),
        }
    }

    // What a call of this name means.
    fn callee(&self, name: TextId) -> Option<Callee>
        ensures { (texts : List Text) (functions : List PlainFunction) →
            Knows self.now texts functions → result ≡ callee_of texts functions name }
    {
        if let Some(callee) = Callee::built_in(self.texts.text(name)) {
            return Some(callee);
        }
        let count = *self.params.get(&name)?;
        Some(Callee::taking(count))
    }

    /// Why a call of a name is refused.
    pub fn refusal(&self, name: TextId, count: usize, of_variable: bool) -> Option<RefusalKind>
        ensures { (texts : List Text) (functions : List PlainFunction) → Knows self.now texts functions
            → result ≡ call_refusal (callee_of texts functions name) count of_variable }
    {
        let Some(callee) = self.callee(name) else {
            return Some(RefusalKind::UnknownFunction);
        };
        if count < callee.least || callee.most < count {
            return Some(RefusalKind::WrongArity);
        }
        (callee.asks && !of_variable).then_some(RefusalKind::NotVariable)
    }

    // Why a function of this name is refused after those that are known.
    fn duplicate(&self, name: TextId) -> Option<RefusalKind>
        ensures { (texts : List Text) (functions : List PlainFunction) → Knows self.now texts functions
            → result ≡ kind_where (is_some (callee_of texts functions name)) DuplicateFunction }
    {
        self.callee(name).map(|_| RefusalKind::DuplicateFunction)
    }

    // One function more. Of two with one name the first counts.
    fn add(&mut self, function: &Function) -> Result<(), OutOfMemory>
        ensures { OnOk result ((texts : List Text) (functions : List PlainFunction) → Knows self.old texts functions
            → Knows self.new texts (functions ++ plain_function function.now ∷ [])) }
    {
        let name = function.name.id;
        if !self.params.contains_key(&name) {
            self.params.insert(name, function.params.len())?;
        }
        Ok(())
    }

    /// Adds the functions of a script, and notes those whose name the built-in
    /// calls or an earlier one have.
    pub fn add_all(
        &mut self,
        functions: &[Function],
        first: &mut FirstRefusal,
    ) -> Result<(), OutOfMemory>
        ensures { OnOk result ((texts : List Text) → Knows self.old texts [] → Knows self.new texts (map plain_function functions.now)
            × (first.new.refusal ≡ earliest first.old.refusal (names_refusals texts [] (map plain_function functions.now)))) }
    {
        for function in functions {
            first.note(self.duplicate(function.name.id), function.name);
            self.add(function)?;
        }
        Ok(())
    }
}
