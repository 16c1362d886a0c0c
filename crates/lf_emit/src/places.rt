ghost use Rattle.std.specs.Prelude.{◌≡◌, ◌++◌, ◌∷◌, [], List, OnOk, eqb, ℕ};
ghost use Rattle.std.specs.List.{position_or_len};
ghost use Rattle.lf_emit.specs.PlaceTables.{HasPlaces};

use lf_base::OutOfMemory;
use std::alloc::Global;
use std::collections::HashMap;

/// Where the keys of a list stand first in it.
#[derive(Drop)]
pub struct Places {
    places: HashMap<u32, u32>,
    /// The number of keys.
    count: u32,
}

impl Places {
    /// Of no key.
    pub fn new(alloc: Global) -> Places
        ensures { HasPlaces result [] }
    {
        Places {
            places: HashMap::new(alloc),
            count: 0,
        }
    }

    /// One key more, at the end. `OutOfMemory` comes also where the number of keys has no
    /// 32 bits.
    pub fn add(&mut self, key: u32) -> Result<(), OutOfMemory>
        ensures { OnOk result ((keys : List ℕ) → HasPlaces self.old keys → HasPlaces self.new (keys ++ key ∷ [])) }
    {
        let Some(count) = self.count.checked_add(1) else {
            return Err(OutOfMemory);
        };
        if self.places.contains_key(&key) {
            self.count = count;
            return Ok(());
        }
        self.places.insert(key, self.count)?;
        self.count = count;
        Ok(())
    }

    /// The first place of a key, or the number of keys where it is none of them.
    pub fn place(&self, key: u32) -> u32
        ensures { (keys : List ℕ) → HasPlaces self.now keys → result ≡ position_or_len (eqb key) keys }
    {
        match self.places.get(&key) {
            Some(place) => *place,
            None => self.count,
        }
    }
}
