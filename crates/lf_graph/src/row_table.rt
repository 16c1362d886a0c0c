ghost use Rattle.std.specs.Prelude.{◌≡◌, ◌<◌, ◌≤◌, ◌+◌, ◌-◌, ◌^◌, None, Some, IfSome, OnOk, if◌then◌else◌};
ghost use Rattle.std.specs.Option.{option_copied};
ghost use Rattle.slab.specs.Slab.{slab_len};
ghost use Rattle.std.specs.HashMap.{hash_map_len, spare};
ghost use Rattle.lf_base.specs.Names.{same_name};
ghost use Rattle.lf_base.specs.declared.ids.ObjId.{ObjId as Name};
ghost use Rattle.lf_base.specs.Links.{to_next, to_prev};
ghost use Rattle.lf_graph.specs.Chains.{ChangesRowAt, OnlyRowAt, recount, refield, relink_head};
ghost use Rattle.lf_graph.specs.Chains.{reown_head, restore_head};
ghost use Rattle.lf_graph.specs.RowTables.{NamesLeadToRows, heads_in, row_room, slab_key_of};

use crate::cells::FieldEnds;
use crate::stored_row::Linked;
use lf_base::{ObjId, OutOfMemory, Owner};
use slab::Slab;
use std::alloc::Global;
use std::collections::HashMap;

/// The rows by name: a slab of rows with their neighbours, and the key of each name. The
/// slab has no row but those that a name leads to.
#[derive(Drop)]
pub struct RowTable {
    rows: Slab<Linked>,
    index: HashMap<ObjId, usize>,
    ghost leads: { NamesLeadToRows rows index },
    ghost count: { slab_len rows ≡ hash_map_len index },
}

// Enters the key of a name.
fn enter(index: &mut HashMap<ObjId, usize>, o: ObjId, key: usize)
    requires { 0 < spare index.old }
    ensures keys { (q : ObjId) → slab_key_of index.new q ≡ (if same_name o q then Some key else slab_key_of index.old q) }
    ensures room { spare index.old ≤ spare index.new + 1 }
    ensures count { slab_key_of index.old o ≡ None → hash_map_len index.new ≡ hash_map_len index.old + 1 }
{
    match index.insert(o, key) {
        Ok(_old) => {}
        Err(_refused) => unreachable!(),
    }
}

impl RowTable {
    /// A table without rows. It takes no memory.
    pub fn new(alloc: Global) -> RowTable
        ensures { (o : ObjId) → heads_in result.rows result.index o ≡ None }
    {
        RowTable {
            rows: Slab::new(alloc),
            index: HashMap::new(alloc),
        }
    }

    /// Makes room for so many more rows. After `OutOfMemory` too the rows are
    /// as before, and there is no less room.
    pub fn reserve(&mut self, more: usize) -> Result<(), OutOfMemory>
        ensures rows { (o : ObjId) → heads_in self.new.rows self.new.index o ≡ heads_in self.old.rows self.old.index o }
        ensures enough { OnOk result (more ≤ row_room self.new.rows self.new.index) }
        ensures room { row_room self.old.rows self.old.index ≤ row_room self.new.rows self.new.index }
    {
        self.rows.reserve(more)?;
        match self.index.reserve(more) {
            Ok(()) => Ok(()),
            Err(_error) => Err(OutOfMemory),
        }
    }

    /// A row with its neighbours, where there is one of that name.
    #[inline(always)]
    pub fn get(&self, o: ObjId) -> Option<&Linked>
        ensures { option_copied result ≡ heads_in self.now.rows self.now.index o }
    {
        let key = *self.index.get(&o)?;
        self.rows.get(key)
    }

    /// Where the row of that name stands in the slab, where there is one.
    #[inline(always)]
    pub fn place(&self, o: ObjId) -> Option<usize>
        ensures { result ≡ slab_key_of self.now.index o }
    {
        self.index.get(&o).copied()
    }

    /// The row at the place of a name, with its neighbours.
    #[inline(always)]
    pub fn at(&self, place: usize) -> &Linked
        requires { (o : Name) × (slab_key_of self.now.index o ≡ Some place) }
        ensures { (o : Name) → slab_key_of self.now.index o ≡ Some place → heads_in self.now.rows self.now.index o ≡ Some result.now }
    {
        let Some(head) = self.rows.get(place) else {
            unreachable!()
        };
        head
    }

    /// Another row comes after the row of that name, where there is one.
    #[inline(always)]
    pub fn set_next(&mut self, o: ObjId, next: Option<ObjId>)
        ensures rows { ChangesRowAt (heads_in self.old.rows self.old.index) (heads_in self.new.rows self.new.index) o
            (relink_head (to_next next)) }
        ensures places { self.new.index ≡ self.old.index }
        ensures room { row_room self.new.rows self.new.index ≡ row_room self.old.rows self.old.index }
    {
        if let Some(&key) = self.index.get(&o) {
            if let Some(head) = self.rows.get_mut(key) {
                head.link.next = next;
            }
        }
    }

    /// Another row comes before the row of that name, where there is one.
    #[inline(always)]
    pub fn set_prev(&mut self, o: ObjId, prev: Option<ObjId>)
        ensures rows { ChangesRowAt (heads_in self.old.rows self.old.index) (heads_in self.new.rows self.new.index) o
            (relink_head (to_prev prev)) }
        ensures places { self.new.index ≡ self.old.index }
        ensures room { row_room self.new.rows self.new.index ≡ row_room self.old.rows self.old.index }
    {
        if let Some(&key) = self.index.get(&o) {
            if let Some(head) = self.rows.get_mut(key) {
                head.link.prev = prev;
            }
        }
    }

    /// Puts the row at that place after that one under an owner.
    #[inline(always)]
    pub fn set_owner(&mut self, place: usize, owner: Owner, prev: Option<ObjId>)
        requires { (o : Name) × (slab_key_of self.old.index o ≡ Some place) }
        ensures rows { (o : Name) → slab_key_of self.old.index o ≡ Some place
            → ChangesRowAt (heads_in self.old.rows self.old.index) (heads_in self.new.rows self.new.index) o (reown_head owner prev) }
        ensures room { row_room self.new.rows self.new.index ≡ row_room self.old.rows self.old.index }
    {
        if let Some(head) = self.rows.get_mut(place) {
            head.row.owner = owner;
            head.link.prev = prev;
            head.link.next = None;
        }
    }

    /// Replaces the ends of the fields of the row at that place.
    #[inline(always)]
    pub fn set_fields(&mut self, place: usize, fields: FieldEnds)
        requires { (o : Name) × (slab_key_of self.old.index o ≡ Some place) }
        ensures rows { (o : Name) → slab_key_of self.old.index o ≡ Some place
            → ChangesRowAt (heads_in self.old.rows self.old.index) (heads_in self.new.rows self.new.index) o
            (restore_head (refield fields)) }
        ensures room { row_room self.new.rows self.new.index ≡ row_room self.old.rows self.old.index }
    {
        if let Some(head) = self.rows.get_mut(place) {
            head.row.fields = fields;
        }
    }

    /// Counts one edge more to the row of that name, where there is one.
    #[inline(always)]
    pub fn add_ref(&mut self, o: ObjId)
        requires { IfSome (heads_in self.old.rows self.old.index o) (λ head. (head.row).refs < 2 ^ 64 - 1) }
        ensures rows { ChangesRowAt (heads_in self.old.rows self.old.index) (heads_in self.new.rows self.new.index) o
            (restore_head (recount (λ n. n + 1))) }
        ensures room { row_room self.new.rows self.new.index ≡ row_room self.old.rows self.old.index }
    {
        if let Some(&key) = self.index.get(&o) {
            if let Some(head) = self.rows.get_mut(key) {
                head.row.refs += 1;
            }
        }
    }

    /// Counts one edge less to the row of that name, where there is one.
    #[inline(always)]
    pub fn sub_ref(&mut self, o: ObjId)
        requires { IfSome (heads_in self.old.rows self.old.index o) (λ head. 0 < (head.row).refs) }
        ensures rows { ChangesRowAt (heads_in self.old.rows self.old.index) (heads_in self.new.rows self.new.index) o
            (restore_head (recount (λ n. n - 1))) }
        ensures room { row_room self.new.rows self.new.index ≡ row_room self.old.rows self.old.index }
    {
        if let Some(&key) = self.index.get(&o) {
            if let Some(head) = self.rows.get_mut(key) {
                head.row.refs -= 1;
            }
        }
    }

    /// Adds a row of a new name.
    pub fn insert(&mut self, o: ObjId, head: Linked)
        requires new { heads_in self.old.rows self.old.index o ≡ None }
        requires named { (head.row).name ≡ o }
        requires room { 0 < row_room self.old.rows self.old.index }
        ensures rows { OnlyRowAt (heads_in self.old.rows self.old.index) (heads_in self.new.rows self.new.index) o (Some head) }
        ensures room { row_room self.old.rows self.old.index ≤ row_room self.new.rows self.new.index + 1 }
    {
        let key = self.rows.insert_reserved(head);
        enter(&mut self.index, o, key);
    }

    /// Takes a row out, where there is one of that name.
    pub fn remove(&mut self, o: ObjId) -> Option<Linked>
        ensures head { result ≡ heads_in self.old.rows self.old.index o }
        ensures named { IfSome result (λ head. (head.row).name ≡ o) }
        ensures rows { OnlyRowAt (heads_in self.old.rows self.old.index) (heads_in self.new.rows self.new.index) o None }
        ensures room { row_room self.old.rows self.old.index ≤ row_room self.new.rows self.new.index }
    {
        let key = self.index.remove(&o)?;
        self.rows.try_remove(key)
    }
}
