//! The rows of all owners, each linked with the rows before and after it, so that a row
//! comes last, goes, and is walked past without a look at any other rows.

ghost use Rattle.std.specs.Prelude.{◌≡◌, ◌<◌, ◌≤◌, ◌+◌, ◌-◌, ◌^◌, [], List, None, Some, IfSome, IsSome, OnOk};
ghost use Rattle.std.specs.Option.{option_copied};
ghost use Rattle.lf_base.specs.declared.ids.ObjId.{ObjId, ObjId as Name};
ghost use Rattle.lf_base.specs.declared.values.Owner.{Owner};
ghost use Rattle.lf_base.specs.Links.{after, head_or};
ghost use Rattle.lf_base.specs.Names.{same_name};
ghost use Rattle.lf_graph.specs.ChainMaps.{HasLists, IsPlaceOf, ListsBecome, ends_room, heads_of, room_of};
ghost use Rattle.lf_graph.specs.Chains.{ChangesStoredAt, OnlyStoredAt, RelinksNext, RelinksPrev, left_without, linked_owner_at};
ghost use Rattle.lf_graph.specs.Chains.{linked_row_at, list_pushed, recount, refield, reown};
ghost use Rattle.lf_graph.specs.RowTables.{slab_key_of};

use crate::cells::FieldEnds;
use crate::owner_ends::OwnerEnds;
use crate::row_table::RowTable;
use crate::stored_row::{Linked, StoredRow};
use lf_base::{Link, ObjId, OutOfMemory, Owner};
use std::alloc::Global;

/// The rows of all owners by name.
#[derive(Drop)]
pub struct Chains {
    rows: RowTable,
    ends: OwnerEnds,
}

// Another row comes after that one, where there is one.
#[inline(always)]
fn set_next(rows: &mut RowTable, at: Option<ObjId>, next: Option<ObjId>)
    ensures rows { RelinksNext (heads_of rows.old) (heads_of rows.new) at next }
    ensures places { (o : Name) → slab_key_of rows.new.index o ≡ slab_key_of rows.old.index o }
    ensures room { room_of rows.new ≡ room_of rows.old }
{
    if let Some(o) = at {
        rows.set_next(o, next);
    }
}

// Another row comes before that one, where there is one.
#[inline(always)]
fn set_prev(rows: &mut RowTable, at: Option<ObjId>, prev: Option<ObjId>)
    ensures rows { RelinksPrev (heads_of rows.old) (heads_of rows.new) at prev }
    ensures places { (o : Name) → slab_key_of rows.new.index o ≡ slab_key_of rows.old.index o }
    ensures room { room_of rows.new ≡ room_of rows.old }
{
    if let Some(o) = at {
        rows.set_prev(o, prev);
    }
}

impl Chains {
    /// A table without rows. It takes no memory.
    pub fn new(alloc: Global) -> Chains
        ensures rows { (o : ObjId) → heads_of result.rows o ≡ None }
        ensures lists { HasLists result (λ _. []) }
    {
        Chains {
            rows: RowTable::new(alloc),
            ends: OwnerEnds::new(alloc),
        }
    }

    /// Makes room for so many more rows. After `OutOfMemory` too the rows are
    /// as before, and there is no less room.
    pub fn reserve(&mut self, more: usize) -> Result<(), OutOfMemory>
        ensures rows { (o : ObjId) → linked_row_at (heads_of self.new.rows) o ≡ linked_row_at (heads_of self.old.rows) o }
        ensures lists { ListsBecome self.old self.new (λ lists. lists) }
        ensures rows_enough { OnOk result (more ≤ room_of self.new.rows) }
        ensures ends_enough { OnOk result (more ≤ ends_room self.new.ends) }
        ensures rows_room { room_of self.old.rows ≤ room_of self.new.rows }
        ensures ends_room { ends_room self.old.ends ≤ ends_room self.new.ends }
    {
        self.rows.reserve(more)?;
        self.ends.reserve(more)
    }

    /// A row, where there is one of that name.
    #[inline(always)]
    pub fn get(&self, o: ObjId) -> Option<&StoredRow>
        ensures { option_copied result ≡ linked_row_at (heads_of self.now.rows) o }
    {
        match self.rows.get(o) {
            Some(head) => Some(&head.row),
            None => None,
        }
    }

    /// A row that is there.
    #[inline(always)]
    pub fn row(&self, o: ObjId) -> &StoredRow
        requires { IsSome (linked_row_at (heads_of self.now.rows) o) }
        ensures { linked_row_at (heads_of self.now.rows) o ≡ Some result.now }
    {
        let Some(row) = self.get(o) else {
            unreachable!()
        };
        row
    }

    /// Where a row that is there stands in the table of rows.
    #[inline(always)]
    pub fn place(&self, o: ObjId) -> usize
        requires { IsSome (linked_row_at (heads_of self.now.rows) o) }
        ensures { IsPlaceOf self.now.rows o result }
    {
        let Some(place) = self.rows.place(o) else {
            unreachable!()
        };
        place
    }

    /// The row at the place of a name.
    #[inline(always)]
    pub fn at(&self, place: usize) -> &StoredRow
        requires { (o : Name) × IsPlaceOf self.now.rows o place }
        ensures { (o : Name) → IsPlaceOf self.now.rows o place → linked_row_at (heads_of self.now.rows) o ≡ Some result.now }
    {
        &self.rows.at(place).row
    }

    /// The first row of an owner.
    pub fn first(&self, owner: Owner) -> Option<ObjId>
        ensures { (lists : Owner → List ObjId) → HasLists self.now lists → result ≡ head_or (lists owner) None }
    {
        match self.ends.get(owner) {
            Some(ends) => Some(ends.first),
            None => None,
        }
    }

    /// The row after a row under its owner.
    #[inline(always)]
    pub fn next(&self, o: ObjId) -> Option<ObjId>
        ensures { (lists : Owner → List ObjId) → HasLists self.now lists
            → (w : Owner) → linked_owner_at (heads_of self.now.rows) o ≡ Some w → result ≡ after same_name o (lists w) }
    {
        match self.rows.get(o) {
            Some(head) => head.link.next,
            None => None,
        }
    }

    /// Replaces the ends of the fields of the row at that place.
    #[inline(always)]
    pub fn set_fields(&mut self, place: usize, fields: FieldEnds)
        requires { (o : Name) × IsPlaceOf self.old.rows o place }
        ensures lists { ListsBecome self.old self.new (λ lists. lists) }
        ensures rows { (o : Name) → IsPlaceOf self.old.rows o place
            → ChangesStoredAt (heads_of self.old.rows) (heads_of self.new.rows) o (refield fields) }
        ensures rows_room { room_of self.new.rows ≡ room_of self.old.rows }
        ensures ends_room { ends_room self.new.ends ≡ ends_room self.old.ends }
    {
        self.rows.set_fields(place, fields);
    }

    /// Counts one edge more to a row, where there is one of that name.
    #[inline(always)]
    pub fn add_ref(&mut self, o: ObjId)
        requires { IfSome (linked_row_at (heads_of self.old.rows) o) (λ row. row.refs < 2 ^ 64 - 1) }
        ensures lists { ListsBecome self.old self.new (λ lists. lists) }
        ensures rows { ChangesStoredAt (heads_of self.old.rows) (heads_of self.new.rows) o (recount (λ n. n + 1)) }
        ensures rows_room { room_of self.new.rows ≡ room_of self.old.rows }
        ensures ends_room { ends_room self.new.ends ≡ ends_room self.old.ends }
    {
        self.rows.add_ref(o);
    }

    /// Counts one edge less to a row, where there is one of that name.
    #[inline(always)]
    pub fn sub_ref(&mut self, o: ObjId)
        requires { IfSome (linked_row_at (heads_of self.old.rows) o) (λ row. 0 < row.refs) }
        ensures lists { ListsBecome self.old self.new (λ lists. lists) }
        ensures rows { ChangesStoredAt (heads_of self.old.rows) (heads_of self.new.rows) o (recount (λ n. n - 1)) }
        ensures rows_room { room_of self.new.rows ≡ room_of self.old.rows }
        ensures ends_room { ends_room self.new.ends ≡ ends_room self.old.ends }
    {
        self.rows.sub_ref(o);
    }

    /// Gives a row that is there to an owner, under whom it comes last.
    pub fn move_last(&mut self, o: ObjId, owner: Owner)
        requires there { IsSome (linked_row_at (heads_of self.old.rows) o) }
        requires ends_room { 0 < ends_room self.old.ends }
        ensures lists { ListsBecome self.old self.new (λ lists. list_pushed (left_without lists o) owner o) }
        ensures rows { ChangesStoredAt (heads_of self.old.rows) (heads_of self.new.rows) o (reown owner) }
        ensures rows_room { room_of self.new.rows ≡ room_of self.old.rows }
        ensures ends_room { ends_room self.old.ends ≤ ends_room self.new.ends + 1 }
    {
        let place = self.place(o);
        let head = self.rows.at(place);
        let from = head.row.owner;
        let Link { prev, next } = head.link;
        set_next(&mut self.rows, prev, next);
        set_prev(&mut self.rows, next, prev);
        self.ends.cut(from, prev, next);
        let last = self.ends.push(owner, o);
        set_next(&mut self.rows, last, Some(o));
        self.rows.set_owner(place, owner, last);
    }

    /// Puts a new row last under its owner.
    pub fn push_last(&mut self, row: StoredRow)
        requires new { linked_row_at (heads_of self.old.rows) row.name ≡ None }
        requires rows_room { 0 < room_of self.old.rows }
        requires ends_room { 0 < ends_room self.old.ends }
        ensures lists { ListsBecome self.old self.new (λ lists. list_pushed lists row.owner row.name) }
        ensures rows { OnlyStoredAt (heads_of self.old.rows) (heads_of self.new.rows) row.name (Some row) }
        ensures rows_room { room_of self.old.rows ≤ room_of self.new.rows + 1 }
        ensures ends_room { ends_room self.old.ends ≤ ends_room self.new.ends + 1 }
    {
        let last = self.ends.push(row.owner, row.name);
        set_next(&mut self.rows, last, Some(row.name));
        let link = Link {
            prev: last,
            next: None,
        };
        self.rows.insert(row.name, Linked { row, link });
    }

    /// Takes a row out of its owner's list.
    pub fn unlink(&mut self, o: ObjId) -> StoredRow
        requires there { IsSome (linked_row_at (heads_of self.old.rows) o) }
        ensures row { Some result ≡ linked_row_at (heads_of self.old.rows) o }
        ensures named { result.name ≡ o }
        ensures lists { ListsBecome self.old self.new (λ lists. left_without lists o) }
        ensures rows { OnlyStoredAt (heads_of self.old.rows) (heads_of self.new.rows) o None }
        ensures rows_room { room_of self.old.rows ≤ room_of self.new.rows }
        ensures ends_room { ends_room self.old.ends ≤ ends_room self.new.ends }
    {
        let Some(Linked { row, link }) = self.rows.remove(o) else {
            unreachable!()
        };
        set_next(&mut self.rows, link.prev, link.next);
        set_prev(&mut self.rows, link.next, link.prev);
        self.ends.cut(row.owner, link.prev, link.next);
        row
    }
}
