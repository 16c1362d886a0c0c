ghost use Rattle.std.specs.Prelude.{◌≡◌, ◌∷◌, [], drop, length, OnErr, OnOk};
ghost use Rattle.lf_lexer.specs.Levels as spec;

use lf_base::OutOfMemory;
use std::alloc::Global;
use std::marker::Model;

/// The levels of indentation above 0. Contracts see the list of them, the innermost
/// first.
#[derive(Drop)]
pub struct Levels {
    items: Vec<u32>,
}

impl Model for Levels {
    ghost use Rattle.std.specs.Prelude.{List, ℕ, reverse};

    ghost Value = { List ℕ };

    ghost view = { λ levels. reverse levels.items.items };
}

impl Levels {
    /// No level. It takes no memory.
    pub fn new(alloc: Global) -> Levels
        ensures { result ≡ [] }
    {
        Levels {
            items: Vec::new(alloc),
        }
    }

    /// The innermost level; 0 stands below all.
    pub fn innermost(&self) -> u32
        ensures { result ≡ spec.innermost self.now }
    {
        match self.items.last() {
            Some(level) => *level,
            None => 0,
        }
    }

    /// The number of levels.
    pub fn len(&self) -> usize
        ensures { result ≡ length self.now }
    {
        self.items.len()
    }

    /// Opens a level. No clause says when `OutOfMemory` comes; all is then as it was.
    pub fn push(&mut self, level: u32) -> Result<(), OutOfMemory>
        ensures ok { OnOk result (self.new ≡ level ∷ self.old) }
        ensures unchanged { OnErr result (self.new ≡ self.old) }
    {
        self.items.push(level)?;
        Ok(())
    }

    /// Closes the innermost level, if there is one.
    pub fn close(&mut self)
        ensures { self.new ≡ drop 1 self.old }
    {
        let _ = self.items.pop();
    }
}
