//! A domain as its users see it: each call leaves a state of which all rows stay.

ghost use Rattle.std.specs.Prelude.{◌≡◌, ◌+◌, ◌*◌, ◌-◌, ◌^◌, ◌<◌, ◌≤◌, [], IfOk, OnErr, OnOk, length, map};
ghost use Rattle.lf_base.specs.declared.values.Value.{Value as Item};
ghost use Rattle.lf_base.specs.Asking.{GivesAnswer, asked};
ghost use Rattle.lf_base.specs.HeapCalls.{Gives, GivesOrWants, close_change, dissolve_change, frozen, lift_change, load_change, merge_change};
ghost use Rattle.lf_base.specs.HeapCalls.{new_cown_change, new_object_change, new_region_change};
ghost use Rattle.lf_base.specs.HeapCalls.{read_change, take_change, unset_change, write_change};
ghost use Rattle.lf_base.specs.Operands.{operand, popped, pushed, put_down, slot_below};
ghost use Rattle.lf_base.specs.PlainChanges.{first_state};
ghost use Rattle.lf_base.specs.SettledStates.{Settled};
ghost use Rattle.lf_base.specs.WellFormed.{MayBeGiven, SlotMayHold};
ghost use Rattle.lf_frozen.specs.FrozenRows.{as_row};
ghost use Rattle.lf_heap.specs.Heaps.{FitsInteger, SameRoom};

use crate::parts::Parts;
use crate::suspects::{MOST_ROWS, watch_rows};
use lf_base::{Answer, Fault, HeapFail, OutOfMemory, Question, Steps, Value};
use lf_frozen::FrozenMap;
use lf_graph::Store;
use lf_settle::Work;
use lf_transfer::Loose;
use std::alloc::Global;
use std::marker::Model;
use std::sync::ledger::Ledger;

/// One behaviour's domain: the objects that it made, in regions or local, and its slots.
/// Contracts see the state, and the number of slots for which there is room. Between two
/// calls the state is well-formed, its counts are right, and all its rows stay.
///
/// A call that takes a reference away ends with settling: at most 64 calls on the store,
/// and 64 for each suspect and for each row and field that is dropped. It notes four suspects
/// at most; a freeze notes each region that it leaves bare, and a close each row that it lets
/// loose.
#[derive(Drop)]
pub struct Heap<S: Store> {
    parts: Parts<S>,
    // Both are empty between two calls.
    work: Work,
    loose: Loose,
    // No fewer than the rows.
    rows: usize,
}

impl<S: Store> Model for Heap<S> {
    ghost use Rattle.lf_heap.specs.Heaps.{Domain, IsAtRest};

    ghost Value = { Domain };

    ghost view = { λ h. h.parts };

    ghost invariant = { λ h. IsAtRest h.parts.state h.work h.loose h.rows };
}

// Makes room for the suspects that there may be with one row more, and for the rows that a
// close may let loose then, and gives that number of rows.
fn watch_one_more(work: &mut Work, loose: &mut Loose, rows: usize) -> Result<usize, OutOfMemory>
    ensures suspects { work.new.suspects ≡ work.old.suspects }
    ensures names { loose.new.names ≡ loose.old.names }
    ensures rows { IfOk result (λ more. more ≡ rows + 1) }
    ensures few { IfOk result (λ more. more ≤ 2 ^ 61) }
    ensures enough { IfOk result (λ more. 3 * more + 4 ≤ work.new.spare) }
    ensures listed { IfOk result (λ more. more ≤ loose.new.spare) }
    ensures room { work.old.spare ≤ work.new.spare }
    ensures list { loose.old.spare ≤ loose.new.spare }
{
    if rows >= MOST_ROWS {
        return Err(OutOfMemory);
    }
    let more = rows + 1;
    watch_rows(work, more, 0)?;
    loose.reserve(more)?;
    Ok(more)
}

impl<S: Store> Heap<S> {
    /// A heap without objects and slots, of the behaviour of that number, which is given
    /// these frozen rows, or `OutOfMemory`. They must be whole among themselves, and name
    /// nothing of that birth.
    pub fn new(alloc: Global, birth: u32, frozen: FrozenMap) -> Result<Heap<S>, OutOfMemory>
        requires { MayBeGiven birth (map as_row frozen) }
        ensures { IfOk result (λ heap. heap.state ≡ first_state birth (map as_row frozen)) }
    {
        let parts = Parts::new(alloc, birth, frozen)?;
        let mut work = Work::new(alloc);
        work.reserve(4)?;
        Ok(Heap {
            parts,
            work,
            loose: Loose::new(alloc),
            rows: 0,
        })
    }

    /// Makes room for so many slots more, without lowering it. After `OutOfMemory`, which
    /// may come at any time, there is no less.
    pub fn room(&mut self, slots: usize) -> Result<(), OutOfMemory>
        ensures state { self.new.state ≡ self.old.state }
        ensures enough { OnOk result (slots ≤ self.new.spare) }
        ensures room { self.old.spare ≤ self.new.spare }
    {
        self.parts.make_room(slots)
    }

    /// Between two calls the state is well-formed, and all its rows stay. For callers'
    /// proofs: it does nothing.
    pub fn at_rest(&self)
        ensures { Settled self.now.state }
    {
        let _rows = self.rows;
    }

    /// The number of slots.
    #[inline(always)]
    pub fn slots(&self) -> usize
        ensures { result ≡ length self.now.state.slots }
    {
        self.parts.len()
    }

    /// Adds a slot, set or unset. It makes two calls on the store, and none for a value
    /// that is no object: no call here does for such a value.
    #[inline(always)]
    pub fn push(&mut self, v: Option<Value>)
        requires room { 1 ≤ self.old.spare }
        requires may { (u : Item) → v ≡ Some u → SlotMayHold self.old.state u }
        ensures state { self.new.state ≡ pushed v self.old.state }
        ensures slots { length self.new.state.slots ≡ length self.old.state.slots + 1 }
        ensures room { SameRoom self.old self.new }
    {
        self.parts.add_slot(v);
    }

    /// Drops the last slot. It makes four calls on the store at most, but for settling.
    #[inline(always)]
    pub fn pop<L: Ledger>(&mut self, steps: &mut Steps<L>)
        requires { 1 ≤ length self.old.state.slots }
        ensures state { self.new.state ≡ popped self.old.state }
        ensures slots { length self.new.state.slots + 1 ≡ length self.old.state.slots }
        ensures room { SameRoom self.old self.new }
    {
        self.parts.drop_slot(&mut self.work, steps);
        self.parts.settle(&mut self.work, steps);
    }

    /// The slot so many below the last one; `None` exactly where it is unset.
    #[inline(always)]
    pub fn top(&self, down: usize) -> Option<Value>
        requires { down < length self.now.state.slots }
        ensures { result ≡ slot_below self.now.state down }
    {
        self.parts.slot(self.parts.len() - 1 - down)
    }

    /// Pushes a copy of a slot. It is refused where that slot is unset (`Unset`). It makes
    /// two calls on the store at most.
    #[inline(always)]
    pub fn load(&mut self, at: usize) -> Result<(), Fault>
        requires there { at < length self.old.state.slots }
        requires room { 1 ≤ self.old.spare }
        ensures change { Gives (load_change at self.old.state) result self.old.state self.new.state }
        ensures slots { OnOk result (length self.new.state.slots ≡ length self.old.state.slots + 1) }
        ensures room { SameRoom self.old self.new }
    {
        let v = self.parts.slot(at);
        if v.is_none() {
            return Err(Fault::Unset);
        }
        self.parts.add_slot(v);
        Ok(())
    }

    /// Moves a slot to a further one and leaves it unset. It is refused where that slot
    /// is unset (`Unset`). It makes no call on the store.
    #[inline(always)]
    pub fn lift(&mut self, at: usize) -> Result<(), Fault>
        requires there { at < length self.old.state.slots }
        requires room { 1 ≤ self.old.spare }
        ensures change { Gives (lift_change at self.old.state) result self.old.state self.new.state }
        ensures slots { OnOk result (length self.new.state.slots ≡ length self.old.state.slots + 1) }
        ensures room { SameRoom self.old self.new }
    {
        if self.parts.slot(at).is_none() {
            return Err(Fault::Unset);
        }
        self.parts.lift_slot(at);
        Ok(())
    }

    /// Moves the last slot to a place below it. It makes four calls on the store at most, but
    /// for settling.
    #[inline(always)]
    pub fn put<L: Ledger>(&mut self, at: usize, steps: &mut Steps<L>)
        requires { at + 1 < length self.old.state.slots }
        ensures state { self.new.state ≡ put_down at self.old.state }
        ensures slots { length self.new.state.slots + 1 ≡ length self.old.state.slots }
        ensures room { SameRoom self.old self.new }
    {
        self.parts.move_last(at, &mut self.work, steps);
        self.parts.settle(&mut self.work, steps);
    }

    /// Leaves a slot unset. It is refused where that slot is unset (`Unset`). It makes four
    /// calls on the store at most, but for settling.
    pub fn unset<L: Ledger>(&mut self, at: usize, steps: &mut Steps<L>) -> Result<(), Fault>
        requires { at < length self.old.state.slots }
        ensures change { Gives (unset_change at self.old.state) result self.old.state self.new.state }
        ensures slots { OnOk result (length self.new.state.slots ≡ length self.old.state.slots) }
        ensures room { SameRoom self.old self.new }
    {
        if self.parts.slot(at).is_none() {
            return Err(Fault::Unset);
        }
        self.parts.replace_slot(at, None, &mut self.work, steps);
        self.parts.settle(&mut self.work, steps);
        Ok(())
    }

    // The value of the operand so many below the last one; `None` where it is unset.
    fn operand(&self, down: usize) -> Value
        requires { down < length self.now.state.slots }
        ensures { result ≡ operand self.now.state down }
    {
        match self.top(down) {
            Some(v) => v,
            None => Value::None,
        }
    }

    /// Makes a local object and pushes it. It is refused where the behaviour has made
    /// as many objects and cowns as it may (`TooManyObjects`). After `OutOfMemory`, which
    /// may come at any time, all is as it was. It makes four calls on the store.
    pub fn new_object(&mut self) -> Result<(), HeapFail>
        requires { 1 ≤ self.old.spare }
        ensures change { GivesOrWants (new_object_change self.old.state) result self.old.state self.new.state }
        ensures slots { OnOk result (length self.new.state.slots ≡ length self.old.state.slots + 1) }
        ensures room { SameRoom self.old self.new }
    {
        let rows = watch_one_more(&mut self.work, &mut self.loose, self.rows)?;
        let o = self.parts.add_object()?;
        self.rows = rows;
        self.parts.add_slot(Some(Value::Obj(o)));
        Ok(())
    }

    /// Makes a region of a bridge alone, and pushes the bridge. It is refused as
    /// `new_object` is.
    pub fn new_region(&mut self) -> Result<(), HeapFail>
        requires { 1 ≤ self.old.spare }
        ensures change { GivesOrWants (new_region_change self.old.state) result self.old.state self.new.state }
        ensures slots { OnOk result (length self.new.state.slots ≡ length self.old.state.slots + 1) }
        ensures room { SameRoom self.old self.new }
    {
        let rows = watch_one_more(&mut self.work, &mut self.loose, self.rows)?;
        let o = self.parts.add_region()?;
        self.rows = rows;
        self.parts.add_slot(Some(Value::Obj(o)));
        Ok(())
    }

    /// Makes a cown: the last slot becomes it, and its value the content. It is refused where
    /// the value is a local object (`LocalInCown`), or lies inside a region (`Interior`), or is a
    /// bridge with an owner (`SecondOwner`), then where its region would be open without the slot
    /// (`Open`), and then as `new_object` is. After `OutOfMemory`, which may come at any time, all
    /// is as it was. Openness is found by a walk down the rows of what the region owns, each
    /// region once.
    pub fn new_cown<L: Ledger>(&mut self, steps: &mut Steps<L>) -> Result<(), HeapFail>
        requires { 1 ≤ length self.old.state.slots }
        ensures change { GivesOrWants (new_cown_change self.old.state) result self.old.state self.new.state }
        ensures slots { OnOk result (length self.new.state.slots ≡ length self.old.state.slots) }
        ensures room { SameRoom self.old self.new }
    {
        let v = self.operand(0);
        let cown = self.parts.add_cown(v, &mut self.work, steps)?;
        let last = self.parts.len() - 1;
        self.parts
            .replace_slot(last, Some(Value::Cown(cown)), &mut self.work, steps);
        self.parts.settle(&mut self.work, steps);
        Ok(())
    }

    /// Reads a field, or a cown's content, whose key is the text `value`: the last two slots
    /// are a target and a key, and become its value. It is refused where the target is neither an
    /// object nor a cown (`NotObject`), then where the key is neither a text nor an integer
    /// (`Kind`), then for a cown that isn't held (`NotAcquired`), and where the field isn't there,
    /// or the key is another one than that of the content (`NoField`). It makes twelve calls on the
    /// store at most, but for settling.
    pub fn read<L: Ledger>(&mut self, steps: &mut Steps<L>) -> Result<(), Fault>
        requires { 2 ≤ length self.old.state.slots }
        ensures change { Gives (read_change self.old.state) result self.old.state self.new.state }
        ensures slots { OnOk result (length self.new.state.slots + 1 ≡ length self.old.state.slots) }
        ensures room { SameRoom self.old self.new }
    {
        let target = self.operand(1);
        let key = self.operand(0);
        let v = self.parts.find(target, key, steps)?;
        let at = self.parts.len() - 2;
        self.parts.replace_slot(at, Some(v), &mut self.work, steps);
        self.parts.drop_slot(&mut self.work, steps);
        self.parts.settle(&mut self.work, steps);
        Ok(())
    }

    /// Writes a field, or a cown's content: the last three slots are a target, a key and a
    /// value, and go. What moves with the value goes to the target's region, where it lies in one.
    /// It is refused as `read` is, but needs no field that is there, and then by the first of these
    /// that its result would show: a frozen target (`FrozenWrite`), an edge to the inside of another
    /// region (`Interior`), a bridge with two owners (`SecondOwner`), owners that go round
    /// (`Cycle`); for a content, which moves nothing: a local object (`LocalInCown`), one inside a
    /// region (`Interior`), a bridge with another owner (`SecondOwner`). After `OutOfMemory`, which may come at any time, all is as it was. To a local object
    /// it makes 19 calls on the store at most, but for settling.
    pub fn write<L: Ledger>(&mut self, steps: &mut Steps<L>) -> Result<(), HeapFail>
        requires { 3 ≤ length self.old.state.slots }
        ensures change { GivesOrWants (write_change self.old.state) result self.old.state self.new.state }
        ensures slots { OnOk result (length self.new.state.slots + 3 ≡ length self.old.state.slots) }
        ensures room { SameRoom self.old self.new }
    {
        let target = self.operand(2);
        let key = self.operand(1);
        let v = self.operand(0);
        self.parts.put_in(target, key, v, &mut self.work, steps)?;
        self.parts.drop_slot(&mut self.work, steps);
        self.parts.drop_slot(&mut self.work, steps);
        self.parts.drop_slot(&mut self.work, steps);
        self.parts.settle(&mut self.work, steps);
        Ok(())
    }

    /// Takes a field, or a cown's content: the last two slots are a target and a key, and become
    /// its value; the object is left without the field, and the cown with the content `None`. It is refused as `read` is, and before `NoField`
    /// where the object is frozen (`FrozenWrite`). It makes 17 calls on the store at most, but
    /// for settling.
    pub fn take<L: Ledger>(&mut self, steps: &mut Steps<L>) -> Result<(), Fault>
        requires { 2 ≤ length self.old.state.slots }
        ensures change { Gives (take_change self.old.state) result self.old.state self.new.state }
        ensures slots { OnOk result (length self.new.state.slots + 1 ≡ length self.old.state.slots) }
        ensures room { SameRoom self.old self.new }
    {
        let target = self.operand(1);
        let key = self.operand(0);
        let v = self.parts.take_out(target, key, &mut self.work, steps)?;
        let at = self.parts.len() - 2;
        self.parts.replace_slot(at, Some(v), &mut self.work, steps);
        self.parts.drop_slot(&mut self.work, steps);
        self.parts.settle(&mut self.work, steps);
        Ok(())
    }

    /// Merges a region into another one: the last two slots are bridges, and the region of
    /// the last one goes into that of the other, whose slot is left. It is refused where one of
    /// them is no bridge (`NotBridge`), then where the last one is owned by a cown or by a region
    /// other than the first (`Owned`), then where it owns the first one, but not directly
    /// (`Cycle`). After `OutOfMemory`, which may come at any time, all is as it was. It looks at
    /// each row that goes a few times; where the last one has an owner, at the rows and fields
    /// of the first one too, and where the first one has, at what lies below the last one.
    pub fn merge<L: Ledger>(&mut self, steps: &mut Steps<L>) -> Result<(), HeapFail>
        requires { 2 ≤ length self.old.state.slots }
        ensures change { GivesOrWants (merge_change self.old.state) result self.old.state self.new.state }
        ensures slots { OnOk result (length self.new.state.slots + 1 ≡ length self.old.state.slots) }
        ensures room { SameRoom self.old self.new }
    {
        let into = self.operand(1);
        let from = self.operand(0);
        self.parts.merge(into, from, &mut self.work, steps)?;
        self.parts.drop_slot(&mut self.work, steps);
        self.parts.settle(&mut self.work, steps);
        Ok(())
    }

    /// Dissolves the region of the last slot, which stays: its rows are local then. It is
    /// refused where that is no bridge (`NotBridge`), and then where the region has an owner
    /// (`Owned`). After `OutOfMemory`, which may come at any time, all is as it was. It looks
    /// at each row of the region and at each of its fields a few times.
    pub fn dissolve<L: Ledger>(&mut self, steps: &mut Steps<L>) -> Result<(), HeapFail>
        requires { 1 ≤ length self.old.state.slots }
        ensures change { GivesOrWants (dissolve_change self.old.state) result self.old.state self.new.state }
        ensures slots { OnOk result (length self.new.state.slots ≡ length self.old.state.slots) }
        ensures room { SameRoom self.old self.new }
    {
        let r = self.operand(0);
        self.parts.dissolve(r, steps)?;
        self.parts.settle(&mut self.work, steps);
        Ok(())
    }

    /// Freezes what the last slot leads to: the object that it names, with each row every
    /// row that it points to, and with each bridge all rows of its region. The slot stays. It is
    /// never refused; after `OutOfMemory`, which may come at any time, all is as it was. It looks
    /// a few times at each row that freezes and at each of its fields, and at the rows and fields
    /// of each region that stays without some of its rows.
    pub fn freeze<L: Ledger>(&mut self, steps: &mut Steps<L>) -> Result<(), OutOfMemory>
        requires { 1 ≤ length self.old.state.slots }
        ensures state { OnOk result (self.new.state ≡ frozen self.old.state) }
        ensures unchanged { OnErr result (self.new.state ≡ self.old.state) }
        ensures slots { OnOk result (length self.new.state.slots ≡ length self.old.state.slots) }
        ensures room { SameRoom self.old self.new }
    {
        let v = self.operand(0);
        self.parts.freeze(v, self.rows, &mut self.work, steps)?;
        self.parts.settle(&mut self.work, steps);
        Ok(())
    }

    /// Closes the region whose bridge a slot holds, against all other ways into it: each other
    /// slot, and each field of a local object, that refers to a row of the region or of one below
    /// it is `None` then. It is refused where the slot is unset (`Unset`), and then where it holds
    /// no bridge (`NotBridge`). It takes no memory. It looks at each row of the region and of those
    /// below it, at each slot, at each local row, and at the fields of all these rows.
    pub fn close<L: Ledger>(&mut self, at: usize, steps: &mut Steps<L>) -> Result<(), Fault>
        requires { at < length self.old.state.slots }
        ensures change { Gives (close_change at self.old.state) result self.old.state self.new.state }
        ensures slots { OnOk result (length self.new.state.slots ≡ length self.old.state.slots) }
        ensures room { SameRoom self.old self.new }
    {
        self.parts
            .close(at, &mut self.loose, &mut self.work, steps)?;
        self.parts.settle(&mut self.work, steps);
        Ok(())
    }

    /// What a question on a variable answers. It is refused where the variable is unset
    /// (`Unset`), where the count of an object is asked that isn't mutable (`Kind`), and where
    /// something else but a bridge's region is asked for (`NotBridge`). A number is below 2^63. It takes no memory and
    /// changes nothing: regions are listed in the room for suspects for as long as it lasts,
    /// which is why it wants the heap for itself. On counts and labels it makes at most two
    /// calls on the store; openness is found by a walk down the rows of what the region owns,
    /// each region once.
    pub fn ask(&mut self, question: Question, at: usize) -> Result<Answer, Fault>
        requires { at < length self.old.state.slots }
        ensures answer { GivesAnswer (asked self.old.state question at) result }
        ensures few { IfOk result FitsInteger }
        ensures same { self.new ≡ self.old }
    {
        self.parts.ask(&mut self.work, question, at)
    }
}
