ghost use Rattle.std.specs.Prelude.{◌≡◌, ◌++◌, ◌<◌, ◌∷◌, [], length, map, IfErr, OnErr, OnOk};
ghost use Rattle.lf_core.specs.Cores.{entry_id};

use crate::journal::{Entry, Journal};
use lf_base::{Order, OutOfMemory};
use std::alloc::Global;
use std::marker::Model;

// The journal, and beside it the numbers of its entries, so that these can be given away without
// memory.
#[derive(Drop)]
pub(crate) struct Log {
    journal: Journal,
    order: Order,
}

impl Model for Log {
    ghost use Rattle.std.specs.Prelude.{◌≡◌, List, map};
    ghost use Rattle.lf_core.specs.declared.journal.Entry.{Entry};
    ghost use Rattle.lf_core.specs.Cores.{entry_id};

    ghost Value = { List Entry };

    ghost view = { λ log. log.journal };

    ghost invariant = { λ log. log.order ≡ map entry_id log.journal };
}

impl Log {
    // Without entries.
    pub(crate) fn new(alloc: Global) -> Log
        ensures { result ≡ [] }
    {
        Log {
            journal: Journal::new(alloc),
            order: Order::new(alloc),
        }
    }

    // Adds an entry. On want of memory it is handed back.
    pub(crate) fn enter(&mut self, entry: Entry) -> Result<(), (Entry, OutOfMemory)>
        ensures entered { OnOk result (self.new ≡ self.old ++ entry ∷ []) }
        ensures unchanged { OnErr result (self.new ≡ self.old) }
        ensures handed_back { IfErr result (λ e. e.0 ≡ entry) }
    {
        if let Err((_id, wanted)) = self.order.push(entry.id) {
            return Err((entry, wanted));
        }
        match self.journal.push(entry) {
            Ok(()) => Ok(()),
            Err(refused) => {
                let _ = self.order.pop();
                Err(refused)
            }
        }
    }

    // Takes the last entry out.
    pub(crate) fn take_back(&mut self) -> Entry
        requires { 0 < length self.old }
        ensures { self.old ≡ self.new ++ result ∷ [] }
    {
        let _ = self.order.pop();
        let Some(entry) = self.journal.pop() else {
            unreachable!()
        };
        entry
    }

    // How many entries there are.
    pub(crate) fn len(&self) -> usize
        ensures { result ≡ length self.now }
    {
        self.journal.len()
    }

    // The entries.
    pub(crate) fn journal(&self) -> &Journal
        ensures { result.now ≡ self.now }
    {
        &self.journal
    }

    // The numbers of the entries.
    pub(crate) fn into_order(self) -> Order
        ensures { result ≡ map entry_id self }
    {
        self.order
    }
}
