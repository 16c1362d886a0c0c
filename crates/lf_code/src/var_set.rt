ghost use Rattle.std.specs.Prelude.{◌≡◌, ◌++◌, ◌∷◌, [], List, ℕ, IfOk, IsTrue, not};
ghost use Rattle.lf_code.specs.VarSets.{AddsNew, HasVars, is_known};

use lf_base::OutOfMemory;
use std::alloc::Global;
use std::collections::HashSet;

/// Numbers of variables.
#[derive(Drop)]
pub struct VarSet {
    vars: HashSet<u32>,
}

impl VarSet {
    /// The empty set.
    pub fn new(alloc: Global) -> VarSet
        ensures { HasVars result [] }
    {
        VarSet {
            vars: HashSet::new(alloc),
        }
    }

    // Puts a number in, and answers whether it is new.
    fn add(&mut self, v: u32) -> Result<bool, OutOfMemory>
        ensures is_new { IfOk result (λ is_new. (known : List ℕ) → HasVars self.old known → is_new ≡ not (is_known v known)) }
        ensures has { IfOk result (λ _. (known : List ℕ) → HasVars self.old known → HasVars self.new (known ++ v ∷ [])) }
    {
        Ok(self.vars.insert(v)?)
    }

    /// Puts numbers in, up to the first that is there already, and answers whether there
    /// was none.
    pub fn add_new(&mut self, vars: &[u32]) -> Result<bool, OutOfMemory>
        ensures { IfOk result (λ all. (known : List ℕ) → HasVars self.old known → AddsNew all known vars.now self.new) }
    {
        for v in vars {
            if !self.add(*v)? {
                return Ok(false);
            }
        }
        Ok(true)
    }
}
