ghost use Rattle.std.specs.Prelude.{◌≡◌, ◌↔◌, ◌<◌, [], length, map, IfOk, IsTrue, OnOk, OnErr};
ghost use Rattle.lf_base.specs.Texts.{fixed_texts, with_text, with_texts, place_of, text_at, TextsDiffer};

use crate::ids::TextId;
use crate::memory::OutOfMemory;
use indexmap::IndexSet;
use std::alloc::Global;
use std::marker::Model;

/// The texts that come first in each script.
const FIXED_TEXTS: [&str; 17] = [
    "value",
    "local",
    "region",
    "frozen",
    "cown",
    "print",
    "Region",
    "Cown",
    "freeze",
    "merge",
    "dissolve",
    "close",
    "refs",
    "borrowed",
    "open_children",
    "owner",
    "is_closed",
];

/// The most texts of one script, so that each has a `u32` as its place.
const MOST_TEXTS: usize = 4_294_967_295;

/// The texts of a script, each once, in the order in which they were first seen.
/// Contracts see the list of them.
#[derive(Drop)]
pub struct Texts {
    alloc: Global,
    set: IndexSet<Vec<u8>>,
}

impl Model for Texts {
    ghost use Rattle.std.specs.Prelude.{List, ℕ, map, ◌≤◌, ◌<◌, ◌^◌, length};
    ghost use Rattle.lf_base.specs.Texts.{TextsDiffer};

    ghost Value = { List (List ℕ) };

    ghost view = { λ texts. map (λ key. key.items) texts.set.keys };

    ghost invariant = { λ texts. (length texts.set.keys < 2 ^ 32) × TextsDiffer (map (λ key. key.items) texts.set.keys) };
}

impl Texts {
    /// The fixed texts, which come first in each script, or want of memory.
    pub fn new(alloc: Global) -> Result<Texts, OutOfMemory>
        ensures { IfOk result (λ texts. texts ≡ fixed_texts) }
    {
        let mut texts = Texts {
            alloc,
            set: IndexSet::new(alloc),
        };
        texts.intern_all(&FIXED_TEXTS)?;
        Ok(texts)
    }

    fn intern_all(&mut self, texts: &[&str]) -> Result<(), OutOfMemory>
        ensures { OnOk result (self.new ≡ with_texts self.old (map (λ text. text.now) texts.now)) }
    {
        for text in texts {
            let _ = self.intern(text.as_bytes())?;
        }
        Ok(())
    }

    /// The place of a text, which goes last where it is new; or want of memory, which
    /// also stands for a text that would be one too many for a `TextId`. All is then
    /// as it was.
    pub fn intern(&mut self, text: &[u8]) -> Result<TextId, OutOfMemory>
        ensures place { IfOk result (λ id. id.index ≡ place_of self.old text.now) }
        ensures within { IfOk result (λ id. id.index < length self.new) }
        ensures texts { IfOk result (λ _. self.new ≡ with_text self.old text.now) }
        ensures unchanged { OnErr result (self.new ≡ self.old) }
    {
        if let Some(index) = self.set.get_index_of(text) {
            return Ok(TextId {
                index: index as u32,
            });
        }
        if self.set.len() >= MOST_TEXTS {
            return Err(OutOfMemory);
        }
        let Ok(key) = Vec::from_slice(self.alloc, text) else {
            return Err(OutOfMemory);
        };
        let Ok((index, _)) = self.set.insert_full(key) else {
            return Err(OutOfMemory);
        };
        Ok(TextId {
            index: index as u32,
        })
    }

    /// The text at a place, and the empty text past the end.
    pub fn text(&self, id: TextId) -> &[u8]
        ensures { result.now ≡ text_at self.now id.index }
    {
        match self.set.get_index(id.index as usize) {
            Some(text) => text.as_slice(),
            None => &[],
        }
    }

    /// The number of texts. No text is there twice.
    pub fn len(&self) -> usize
        ensures count { result ≡ length self.now }
        ensures differ { TextsDiffer self.now }
    {
        self.set.len()
    }

    /// Whether no text is there.
    pub fn is_empty(&self) -> bool
        ensures { IsTrue result ↔ (self.now ≡ []) }
    {
        self.set.is_empty()
    }
}
