//! The fields of all rows in one table whose room is reserved, the fields of a row
//! linked in their order. What is kept of a row's fields, `FieldEnds`, the caller keeps
//! with the row.

ghost use Rattle.std.specs.Prelude.{◌≡◌, ◌<◌, ◌≤◌, ◌+◌, ◌++◌, ◌∷◌, [], List, None, Some, IfOk, IsSome, OnOk, Option, slice_get};
ghost use Rattle.std.specs.Prelude.{length, map};
ghost use Rattle.std.specs.Option.{option_copied};
ghost use Rattle.lf_base.specs.declared.ids.ObjId.{ObjId};
ghost use Rattle.lf_base.specs.declared.values.Key.{Key};
ghost use Rattle.lf_base.specs.FieldOrder.{field_after};
ghost use Rattle.lf_base.specs.Links.{NodesDiffer, after, next_from, to_next, to_prev, without};
ghost use Rattle.lf_base.specs.Names.{same_key};
ghost use Rattle.lf_graph.specs.declared.cells.Cell.{Cell};
ghost use Rattle.lf_graph.specs.declared.cells.FieldEnds.{FieldEnds};
ghost use Rattle.lf_graph.specs.Cells.{CopiesField, DropsCell, IsFieldList, KeysBecome, OnlyCellAt, OnlyValueAt, OthersStay};
ghost use Rattle.lf_graph.specs.Cells.{RelinksField, cells_of, cells_room, field_ends_with, field_ends_without, link_of, pair_of, pairs};

use lf_base::{Fields, Key, Link, ObjId, OutOfMemory, Value};
use std::alloc::Global;
use std::collections::HashMap;

/// The most cells that a table has, so that a row's number of fields is a `u32`.
const MOST_CELLS: usize = 4_294_967_295;

/// The name of a cell: a row and a key of it.
#[derive(Clone, Copy, Debug, Hash, PartialEq, Eq)]
pub struct FieldName {
    pub row: ObjId,
    pub key: Key,
}

/// The value of a field, and the keys before and after it in its row.
#[derive(Clone, Copy, Debug)]
pub struct Cell {
    pub value: Value,
    pub link: Link<Key>,
}

/// The first and the last key of a row, and the number of its fields.
#[derive(Clone, Copy, Debug)]
pub struct FieldEnds {
    pub first: Option<Key>,
    pub last: Option<Key>,
    pub width: u32,
}

/// The fields of all rows by row and key.
#[derive(Drop)]
pub struct Cells {
    cells: HashMap<FieldName, Cell>,
}

impl FieldEnds {
    /// The ends of a row without fields.
    pub fn empty() -> FieldEnds
        ensures { (cells : ObjId → Key → Option Cell) → (o : ObjId) → ((k : Key) → cells o k ≡ None) → IsFieldList cells o result [] }
    {
        FieldEnds {
            first: None,
            last: None,
            width: 0,
        }
    }

    // The key is the last one now.
    fn with_last(self, key: Key) -> FieldEnds
        requires { self.width < u32.MAX }
        ensures { result ≡ field_ends_with key self }
    {
        FieldEnds {
            first: self.first.or(Some(key)),
            last: Some(key),
            width: self.width + 1,
        }
    }

    // The key of that link is no key of the row any more.
    fn without(self, link: Link<Key>) -> FieldEnds
        requires { 0 < self.width }
        ensures { result ≡ field_ends_without link self }
    {
        FieldEnds {
            first: if link.prev.is_some() {
                self.first
            } else {
                link.next
            },
            last: if link.next.is_some() {
                self.last
            } else {
                link.prev
            },
            width: self.width - 1,
        }
    }
}

impl Cells {
    /// A table without cells. It takes no memory.
    pub fn new(alloc: Global) -> Cells
        ensures { (o : ObjId) → (k : Key) → cells_of result o k ≡ None }
    {
        Cells {
            cells: HashMap::new(alloc),
        }
    }

    /// Makes room for so many more cells. After `OutOfMemory` too the cells are
    /// as before, and there is no less room.
    pub fn reserve(&mut self, more: usize) -> Result<(), OutOfMemory>
        ensures cells { (o : ObjId) → (k : Key) → cells_of self.new o k ≡ cells_of self.old o k }
        ensures enough { OnOk result (more ≤ cells_room self.new) }
        ensures room { cells_room self.old ≤ cells_room self.new }
    {
        if more > MOST_CELLS.saturating_sub(self.cells.len()) {
            return Err(OutOfMemory);
        }
        match self.cells.reserve(more) {
            Ok(()) => Ok(()),
            Err(_error) => Err(OutOfMemory),
        }
    }

    /// The cell of a row's key, where there is one.
    #[inline(always)]
    pub fn get(&self, o: ObjId, key: Key) -> Option<&Cell>
        ensures { option_copied result ≡ cells_of self.now o key }
    {
        self.cells.get(&FieldName { row: o, key })
    }

    // Puts a cell where there is room.
    fn put(&mut self, o: ObjId, key: Key, cell: Cell)
        requires { 0 < cells_room self.old }
        ensures cells { OnlyCellAt (cells_of self.old) (cells_of self.new) o key (λ _. Some cell) }
        ensures room { cells_room self.old ≤ cells_room self.new + 1 }
    {
        match self.cells.insert(FieldName { row: o, key }, cell) {
            Ok(_old) => {}
            Err(_refused) => unreachable!(),
        }
    }

    // Takes a cell out, where there is one.
    fn remove(&mut self, o: ObjId, key: Key) -> Option<Cell>
        ensures cell { result ≡ cells_of self.old o key }
        ensures cells { OnlyCellAt (cells_of self.old) (cells_of self.new) o key (λ _. None) }
        ensures room { cells_room self.old ≤ cells_room self.new }
    {
        self.cells.remove(&FieldName { row: o, key })
    }

    fn set_next(&mut self, o: ObjId, at: Option<Key>, next: Option<Key>)
        ensures cells { RelinksField (cells_of self.old) (cells_of self.new) o at (to_next next) }
        ensures room { cells_room self.new ≡ cells_room self.old }
    {
        if let Some(key) = at {
            if let Some(cell) = self.cells.get_mut(&FieldName { row: o, key }) {
                cell.link.next = next;
            }
        }
    }

    fn set_prev(&mut self, o: ObjId, at: Option<Key>, prev: Option<Key>)
        ensures cells { RelinksField (cells_of self.old) (cells_of self.new) o at (to_prev prev) }
        ensures room { cells_room self.new ≡ cells_room self.old }
    {
        if let Some(key) = at {
            if let Some(cell) = self.cells.get_mut(&FieldName { row: o, key }) {
                cell.link.prev = prev;
            }
        }
    }

    /// Replaces the value of a cell that is there, which keeps its place.
    pub fn set_value(&mut self, o: ObjId, key: Key, value: Value)
        requires there { IsSome (cells_of self.old o key) }
        ensures lists { (ends : FieldEnds) → KeysBecome (cells_of self.old) (cells_of self.new) o ends ends (λ keys. keys) }
        ensures value { OnlyValueAt (cells_of self.old) (cells_of self.new) o key (Some value) }
        ensures others { OthersStay (cells_of self.old) (cells_of self.new) o }
        ensures room { cells_room self.new ≡ cells_room self.old }
    {
        if let Some(cell) = self.cells.get_mut(&FieldName { row: o, key }) {
            cell.value = value;
        }
    }

    /// Puts a new field last in a row, and gives what is now to be kept of the row's fields.
    pub fn push_last(&mut self, o: ObjId, ends: FieldEnds, key: Key, value: Value) -> FieldEnds
        requires list { (keys : List Key) × IsFieldList (cells_of self.old) o ends keys }
        requires new { cells_of self.old o key ≡ None }
        requires room { 0 < cells_room self.old }
        ensures lists { KeysBecome (cells_of self.old) (cells_of self.new) o ends result (λ keys. keys ++ key ∷ []) }
        ensures value { OnlyValueAt (cells_of self.old) (cells_of self.new) o key (Some value) }
        ensures others { OthersStay (cells_of self.old) (cells_of self.new) o }
        ensures room { cells_room self.old ≤ cells_room self.new + 1 }
    {
        self.set_next(o, ends.last, Some(key));
        let link = Link {
            prev: ends.last,
            next: None,
        };
        self.put(o, key, Cell { value, link });
        ends.with_last(key)
    }

    /// Takes a field out of a row, whose later fields close up, and gives what is now to
    /// be kept of the row's fields.
    pub fn unlink(&mut self, o: ObjId, ends: FieldEnds, key: Key) -> FieldEnds
        requires list { (keys : List Key) × IsFieldList (cells_of self.old) o ends keys }
        requires there { IsSome (cells_of self.old o key) }
        ensures lists { KeysBecome (cells_of self.old) (cells_of self.new) o ends result (without same_key key) }
        ensures value { OnlyValueAt (cells_of self.old) (cells_of self.new) o key None }
        ensures others { OthersStay (cells_of self.old) (cells_of self.new) o }
        ensures room { cells_room self.old ≤ cells_room self.new }
    {
        let Some(cell) = self.remove(o, key) else {
            unreachable!()
        };
        self.set_next(o, cell.link.prev, cell.link.next);
        self.set_prev(o, cell.link.next, cell.link.prev);
        ends.without(cell.link)
    }

    /// The key after a key of a row.
    pub fn next(&self, o: ObjId, key: Key) -> Option<Key>
        ensures { (ends : FieldEnds) → (keys : List Key) → IsFieldList (cells_of self.now) o ends keys → result ≡ after same_key key keys }
    {
        match self.get(o, key) {
            Some(cell) => cell.link.next,
            None => None,
        }
    }

    // The field of a key, where there is one.
    fn field(&self, o: ObjId, key: Option<Key>) -> Option<(Key, Value)>
        ensures { result ≡ pair_of (cells_of self.now) o key }
    {
        let key = key?;
        match self.get(o, key) {
            Some(cell) => Some((key, cell.value)),
            None => None,
        }
    }

    /// The first field of a row.
    pub fn first(&self, o: ObjId, ends: FieldEnds) -> Option<(Key, Value)>
        ensures { (keys : List Key) → IsFieldList (cells_of self.now) o ends keys
            → result ≡ field_after (pairs (cells_of self.now) o keys) None }
    {
        self.field(o, ends.first)
    }

    /// The field after that of a key of a row.
    pub fn after(&self, o: ObjId, key: Key) -> Option<(Key, Value)>
        ensures { (ends : FieldEnds) → (keys : List Key) → IsFieldList (cells_of self.now) o ends keys
            → result ≡ field_after (pairs (cells_of self.now) o keys) (Some key) }
    {
        self.field(o, self.next(o, key))
    }

    /// The field at a place of a row's fields, counted from 0; `None` past the end. It
    /// walks from the first field to it.
    pub fn at(&self, o: ObjId, ends: FieldEnds, at: u32) -> Option<(Key, Value)>
        ensures { (keys : List Key) → IsFieldList (cells_of self.now) o ends keys
            → result ≡ slice_get (pairs (cells_of self.now) o keys) at }
    {
        if at >= ends.width {
            return None;
        }
        let key = self.key_at(o, ends, at)?;
        let cell = self.get(o, key)?;
        Some((key, cell.value))
    }

    // The key at a place of a row's keys.
    fn key_at(&self, o: ObjId, ends: FieldEnds, at: u32) -> Option<Key>
        ensures { (keys : List Key) → IsFieldList (cells_of self.now) o ends keys → result ≡ slice_get keys at }
    {
        let mut key = ends.first;
        for _step in 0..at {
            key = self.step(o, key);
        }
        key
    }

    // The key after one, where there is one.
    fn step(&self, o: ObjId, key: Option<Key>) -> Option<Key>
        ensures { result ≡ next_from (link_of (cells_of self.now) o) key }
    {
        self.get(o, key?)?.link.next
    }

    // Adds the field of a key to the fields, and gives the key after it.
    fn copy_field(
        &self,
        o: ObjId,
        key: Option<Key>,
        fields: &mut Fields,
    ) -> Result<Option<Key>, OutOfMemory>
        ensures { IfOk result (λ next. CopiesField (cells_of self.now) o key fields.old fields.new next) }
    {
        let Some(key) = key else {
            return Ok(None);
        };
        let Some(cell) = self.get(o, key) else {
            return Ok(None);
        };
        match fields.push((key, cell.value)) {
            Ok(()) => Ok(cell.link.next),
            Err((_field, refused)) => Err(refused),
        }
    }

    /// A copy of a row's fields, or `OutOfMemory`.
    pub fn copied(&self, alloc: Global, o: ObjId, ends: FieldEnds) -> Result<Fields, OutOfMemory>
        ensures { IfOk result (λ fields. (keys : List Key) → IsFieldList (cells_of self.now) o ends keys
            → fields ≡ pairs (cells_of self.now) o keys) }
    {
        let mut fields = Fields::new(alloc);
        let mut key = ends.first;
        for _turn in 0..ends.width {
            key = self.copy_field(o, key, &mut fields)?;
        }
        Ok(fields)
    }

    /// Puts fields whose keys differ in a row without any, and gives what is now to be
    /// kept of them.
    pub fn put_all(&mut self, o: ObjId, fields: &[(Key, Value)]) -> FieldEnds
        requires none { (k : Key) → cells_of self.old o k ≡ None }
        requires differ { NodesDiffer same_key (map (λ f. f.0) fields.now) }
        requires room { length fields.now ≤ cells_room self.old }
        ensures list { IsFieldList (cells_of self.new) o result (map (λ f. f.0) fields.now) }
        ensures fields { pairs (cells_of self.new) o (map (λ f. f.0) fields.now) ≡ fields.now }
        ensures others { OthersStay (cells_of self.old) (cells_of self.new) o }
        ensures room { cells_room self.old ≤ cells_room self.new + length fields.now }
    {
        let mut ends = FieldEnds::empty();
        for field in fields {
            ends = self.push_last(o, ends, field.0, field.1);
        }
        ends
    }

    /// Takes all fields of a row out, and looks at no other row's.
    pub fn clear(&mut self, o: ObjId, ends: FieldEnds)
        ensures cells { (keys : List Key) → IsFieldList (cells_of self.old) o ends keys → (k : Key) → cells_of self.new o k ≡ None }
        ensures others { OthersStay (cells_of self.old) (cells_of self.new) o }
        ensures room { cells_room self.old ≤ cells_room self.new }
    {
        let mut first = ends.first;
        for _turn in 0..ends.width {
            first = self.drop_first(o, first);
        }
    }

    // Takes a cell out, where there is one, and gives the key after it.
    fn drop_first(&mut self, o: ObjId, first: Option<Key>) -> Option<Key>
        ensures next { result ≡ next_from (link_of (cells_of self.old) o) first }
        ensures cells { DropsCell (cells_of self.old) (cells_of self.new) o first }
        ensures room { cells_room self.old ≤ cells_room self.new }
    {
        self.remove(o, first?)?.link.next
    }
}
