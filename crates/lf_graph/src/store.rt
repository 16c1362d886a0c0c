ghost use Rattle.std.specs.Prelude.{◌≡◌, ◌+◌, ◌-◌, ◌^◌, ◌<◌, ◌≤◌, ℕ, List, [], ◌++◌, length, slice_get, IfErr, IfOk, OnErr, OnOk};
ghost use Rattle.std.specs.Option.{option_map};
ghost use Rattle.lf_base.specs.declared.ids.ObjId.{ObjId};
ghost use Rattle.lf_base.specs.declared.values.Owner.{Owner};
ghost use Rattle.lf_base.specs.declared.values.Owner.TheVariants.{In};
ghost use Rattle.lf_base.specs.FieldOrder.{field_after};
ghost use Rattle.lf_graph.specs.Parts.{AllNew, row_head};
ghost use Rattle.lf_graph.specs.Room.{LowersAtMost, LowersNone, LowersOwnerOf, OwnerHasRoom, room_for_field, room_for_row};
ghost use Rattle.lf_graph.specs.RowChanges.{lowered, moved_last, raised, with_field_of, with_new_row, without_field_of, without_row};
ghost use Rattle.lf_graph.specs.StoredRows.{CountedRow, HasRow, IsNewName, SameByOwner, field_value_at, fields_at, fields_by};
ghost use Rattle.lf_graph.specs.StoredRows.{first_name, name_after, owner_at, refs_at, rows_beside, rows_of, rows_outside};

use lf_base::{Key, ObjId, OutOfMemory, Owner, Steps, Value};
use std::alloc::Global;
use std::sync::ledger::Ledger;

/// A row of a part: its name, its number of fields and its count of edges.
#[derive(Clone, Copy, Debug, PartialEq, Eq)]
pub struct RowHead {
    pub name: ObjId,
    pub width: u32,
    pub refs: u64,
}

/// The rows of a behaviour's objects: for each owner a list of rows, in the order in
/// which they came there. A row has a name, fields in order, and a count of edges
/// that the callers keep.
///
/// Under each owner there is room for more, `spare`, counted in cells: a row takes
/// one, and so does each of its fields. Only `new`, `reserve`, `part_out` and
/// `part_in` take memory, and no clause says when they answer `OutOfMemory`: a store
/// may at any time, and what then stays is said. A call that adds to the rows needs
/// room that was reserved before, and can't fail.
pub trait Store: Sized + Drop {
    /// The rows of one region, out of their store.
    type Part: Drop + Send;

    /// The rows. Only the order of rows of one owner is told.
    ghost rows: { Self → List CountedRow };

    /// The room under each owner.
    ghost spare: { Self → Owner → ℕ };

    /// The rows of a part, in order.
    ghost part_rows: { Self.Part → List CountedRow };

    /// The region whose rows a part has.
    ghost part_region: { Self.Part → ObjId };

    /// A store without rows.
    fn new(alloc: Global) -> Result<Self, OutOfMemory>
        ensures { IfOk result (λ store. rows store ≡ []) };

    /// The owner of a row, where there is a row of that name.
    fn owner<L: Ledger>(&self, o: ObjId, steps: &mut Steps<L>) -> Option<Owner>
        ensures owner { result ≡ owner_at (rows self.now) o }
        ensures step { steps.new ≡ steps.old + 1 };

    /// The first row of an owner.
    fn first<L: Ledger>(&self, owner: Owner, steps: &mut Steps<L>) -> Option<ObjId>
        ensures first { result ≡ first_name (rows_of owner (rows self.now)) }
        ensures step { steps.new ≡ steps.old + 1 };

    /// The row after this one under the same owner.
    fn next<L: Ledger>(&self, o: ObjId, steps: &mut Steps<L>) -> Option<ObjId>
        requires there { HasRow (rows self.now) o }
        ensures next { result ≡ name_after (rows_beside (rows self.now) o) o }
        ensures step { steps.new ≡ steps.old + 1 };

    /// The number of a row's fields.
    fn width<L: Ledger>(&self, o: ObjId, steps: &mut Steps<L>) -> u32
        requires there { HasRow (rows self.now) o }
        ensures width { result ≡ length (fields_at (rows self.now) o) }
        ensures step { steps.new ≡ steps.old + 1 };

    /// The field at a place of a row's fields, counted from 0; `None` past the end.
    fn field_at<L: Ledger>(&self, o: ObjId, at: u32, steps: &mut Steps<L>) -> Option<(Key, Value)>
        requires there { HasRow (rows self.now) o }
        ensures field { result ≡ slice_get (fields_at (rows self.now) o) at }
        ensures step { steps.new ≡ steps.old + 1 };

    /// The first field of a row where no key is given, and else the field after that of
    /// the key; `None` after the last one, and where the row has no field of the key.
    fn field_after<L: Ledger>(
        &self,
        o: ObjId,
        after: Option<Key>,
        steps: &mut Steps<L>,
    ) -> Option<(Key, Value)>
        requires there { HasRow (rows self.now) o }
        ensures field { result ≡ field_after (fields_at (rows self.now) o) after }
        ensures step { steps.new ≡ steps.old + 1 };

    /// The value of a row's field, where the row has it.
    fn field<L: Ledger>(&self, o: ObjId, key: Key, steps: &mut Steps<L>) -> Option<Value>
        requires there { HasRow (rows self.now) o }
        ensures value { result ≡ field_value_at (rows self.now) o key }
        ensures step { steps.new ≡ steps.old + 1 };

    /// Sets a row's field, in its place where the row has it, and else last, and gives
    /// the old value. It needs room of 1 where the field is new.
    fn set_field<L: Ledger>(
        &mut self,
        o: ObjId,
        key: Key,
        v: Value,
        steps: &mut Steps<L>,
    ) -> Option<Value>
        requires there { HasRow (rows self.old) o }
        requires room { OwnerHasRoom (spare self.old) (rows self.old) o (room_for_field (rows self.old) o key) }
        ensures value { result ≡ field_value_at (rows self.old) o key }
        ensures rows { SameByOwner (rows self.new) (with_field_of (rows self.old) o key v) }
        ensures room { LowersAtMost (spare self.old) (spare self.new) (room_for_field (rows self.old) o key) }
        ensures step { steps.new ≡ steps.old + 1 };

    /// Takes a field out of a row and gives its value, where the row has it. Later
    /// fields close up.
    fn take_field<L: Ledger>(&mut self, o: ObjId, key: Key, steps: &mut Steps<L>) -> Option<Value>
        requires there { HasRow (rows self.old) o }
        ensures value { result ≡ field_value_at (rows self.old) o key }
        ensures rows { SameByOwner (rows self.new) (without_field_of (rows self.old) o key) }
        ensures room { LowersNone (spare self.old) (spare self.new) }
        ensures step { steps.new ≡ steps.old + 1 };

    /// Makes a row of a new name, last under its owner, without fields and with a count
    /// of 0. It needs room of 1.
    fn insert<L: Ledger>(&mut self, o: ObjId, owner: Owner, steps: &mut Steps<L>)
        requires new { IsNewName (rows self.old) o }
        requires room { 1 ≤ spare self.old owner }
        ensures rows { SameByOwner (rows self.new) (with_new_row (rows self.old) o owner) }
        ensures room { LowersAtMost (spare self.old) (spare self.new) 1 }
        ensures step { steps.new ≡ steps.old + 1 };

    /// Drops a row with its fields. The counts of other rows stay as they are. The room
    /// under the row's owner may get less.
    fn remove<L: Ledger>(&mut self, o: ObjId, steps: &mut Steps<L>)
        requires there { HasRow (rows self.old) o }
        ensures rows { SameByOwner (rows self.new) (without_row (rows self.old) o) }
        ensures room { LowersOwnerOf (spare self.old) (spare self.new) (rows self.old) o }
        ensures step { steps.new ≡ steps.old + 1 };

    /// Gives a row to an owner, under whom it comes last. It needs room of 1, and of 1
    /// for each of the row's fields, under the new owner.
    fn set_owner<L: Ledger>(&mut self, o: ObjId, owner: Owner, steps: &mut Steps<L>)
        requires there { HasRow (rows self.old) o }
        requires room { room_for_row (rows self.old) o ≤ spare self.old owner }
        ensures rows { SameByOwner (rows self.new) (moved_last (rows self.old) o owner) }
        ensures room { LowersAtMost (spare self.old) (spare self.new) (room_for_row (rows self.old) o) }
        ensures step { steps.new ≡ steps.old + 1 };

    /// The count of edges that is kept with a row.
    fn refs<L: Ledger>(&self, o: ObjId, steps: &mut Steps<L>) -> u64
        requires there { HasRow (rows self.now) o }
        ensures refs { result ≡ refs_at (rows self.now) o }
        ensures step { steps.new ≡ steps.old + 1 };

    /// Counts one edge more to a row.
    fn add_ref<L: Ledger>(&mut self, o: ObjId, steps: &mut Steps<L>)
        requires there { HasRow (rows self.old) o }
        requires below { refs_at (rows self.old) o < 2 ^ 64 - 1 }
        ensures rows { SameByOwner (rows self.new) (raised (rows self.old) o) }
        ensures room { LowersNone (spare self.old) (spare self.new) }
        ensures step { steps.new ≡ steps.old + 1 };

    /// Counts one edge less to a row.
    fn sub_ref<L: Ledger>(&mut self, o: ObjId, steps: &mut Steps<L>)
        requires there { HasRow (rows self.old) o }
        requires above { 0 < refs_at (rows self.old) o }
        ensures rows { SameByOwner (rows self.new) (lowered (rows self.old) o) }
        ensures room { LowersNone (spare self.old) (spare self.new) }
        ensures step { steps.new ≡ steps.old + 1 };

    /// Makes room for so many cells under an owner. After `OutOfMemory` too all rows
    /// stay, and no owner has less room.
    fn reserve(&mut self, owner: Owner, cells: usize) -> Result<(), OutOfMemory>
        ensures rows { SameByOwner (rows self.new) (rows self.old) }
        ensures enough { OnOk result (cells ≤ spare self.new owner) }
        ensures room { LowersNone (spare self.old) (spare self.new) };

    /// Takes the rows of a region out, in their order, where they are fewer than 2^32.
    /// All other rows stay. After `OutOfMemory` all rows stay.
    fn part_out(&mut self, region: ObjId) -> Result<Self::Part, OutOfMemory>
        ensures part { IfOk result (λ part. part_rows part ≡ rows_of (In region) (rows self.old)) }
        ensures region { IfOk result (λ part. part_region part ≡ region) }
        ensures few { IfOk result (λ part. length (part_rows part) < 2 ^ 32) }
        ensures rows { OnOk result (SameByOwner (rows self.new) (rows_outside (In region) (rows self.old))) }
        ensures unchanged { OnErr result (SameByOwner (rows self.new) (rows self.old)) };

    /// Puts the rows of a part back under its region, in their order, with their fields
    /// and counts. After `OutOfMemory` all rows stay and the part is handed back.
    fn part_in(&mut self, part: Self::Part) -> Result<(), (Self::Part, OutOfMemory)>
        requires new { AllNew (part_rows part) (rows self.old) }
        requires empty { rows_of (In (part_region part)) (rows self.old) ≡ [] }
        ensures rows { OnOk result (SameByOwner (rows self.new) (rows self.old ++ part_rows part)) }
        ensures unchanged { OnErr result (SameByOwner (rows self.new) (rows self.old)) }
        ensures part { IfErr result (λ refused. part_rows refused.0 ≡ part_rows part) }
        ensures region { IfErr result (λ refused. part_region refused.0 ≡ part_region part) };

    /// The row at a place of a part's rows, counted from 0; `None` past the end.
    fn part_row(part: &Self::Part, at: u32) -> Option<RowHead>
        ensures { result ≡ option_map row_head (slice_get (part_rows part.now) at) };

    /// The field at a place of the row at a place; `None` past either end.
    fn part_field(part: &Self::Part, at: u32, field: u32) -> Option<(Key, Value)>
        ensures { result ≡ slice_get (fields_by (slice_get (part_rows part.now) at)) field };
}
