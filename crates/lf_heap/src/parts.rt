//! The parts of a domain, which count its edges. Rows may be left that nothing justifies:
//! the heap settles them at the end of each call.

ghost use Rattle.std.specs.Prelude.{◌≡◌, ◌+◌, ◌++◌, ◌*◌, ◌-◌, ◌<◌, ◌≤◌, [], List, None, Some, IfOk, IfSome, OnErr, OnOk, length, map, ℕ, ◌^◌};
ghost use Rattle.std.specs.Option.{option_or};
ghost use Rattle.std.specs.Result.{result_err};
ghost use Rattle.lf_base.specs.declared.ids.ObjId.{ObjId as Name};
ghost use Rattle.lf_base.specs.declared.values.Value.{Value as Item};
ghost use Rattle.lf_base.specs.declared.values.Value.TheVariants.{Obj};
ghost use Rattle.lf_base.specs.declared.values.Value.TheVariants as variant;
ghost use Rattle.lf_base.specs.Accesses.{field_of, or_no_field, read_refusal, read_value, remove_refusal, remove_result};
ghost use Rattle.lf_base.specs.Accesses.{store_refusal, store_result};
ghost use Rattle.lf_base.specs.Asking.{GivesAnswer, answer_to, asked};
ghost use Rattle.lf_base.specs.ContentResult.{content_at, content_refusal, content_result};
ghost use Rattle.lf_base.specs.Edges.{Edge, Slot, edges_by, slot_targets};
ghost use Rattle.lf_base.specs.CloseResult.{close_refusal};
ghost use Rattle.lf_base.specs.DissolveResult.{dissolve_refusal, dissolve_result};
ghost use Rattle.lf_base.specs.FreezeResult.{freeze_result};
ghost use Rattle.lf_base.specs.HeapCalls.{making_refusal, merged_by, on_bridge};
ghost use Rattle.lf_base.specs.Kept.{kept};
ghost use Rattle.lf_base.specs.MergeResult.{merge_refusal};
ghost use Rattle.lf_base.specs.Names.{key_of};
ghost use Rattle.lf_base.specs.NewCown.{made_result, new_cown_refusal, next_cown};
ghost use Rattle.lf_base.specs.Noticing.{InSlot, Noticed};
ghost use Rattle.lf_base.specs.Operands.{operand, slot_below, without_last};
ghost use Rattle.lf_base.specs.Owners as owners;
ghost use Rattle.lf_base.specs.PlainChanges.{first_state, next_object, object_result, region_result, slot_at, with_slot, with_slot_at};
ghost use Rattle.lf_base.specs.PlainChecks.{cown_refusal};
ghost use Rattle.lf_base.specs.PlainState.{Row, State};
ghost use Rattle.lf_base.specs.SettledStates.{Settled};
ghost use Rattle.lf_base.specs.Suspects.{Object};
ghost use Rattle.lf_base.specs.TakeResult.{take_refusal, take_result};
ghost use Rattle.lf_base.specs.WellFormed.{MayBeGiven, SlotMayHold};
ghost use Rattle.lf_base.specs.WriteResult.{write_refusal, write_result};
ghost use Rattle.lf_barrier.specs.WritePlans.{AnswersAs};
ghost use Rattle.lf_domain.specs.Counts.{Counts, IsDomain};
ghost use Rattle.lf_domain.specs.OneEdge.{MayCount};
ghost use Rattle.lf_frozen.specs.FrozenRows.{as_row};
ghost use Rattle.lf_graph.specs.RowChanges.{with_new_row};
ghost use Rattle.lf_graph.specs.StoredRows.{IsNewName, SameByOwner};
ghost use Rattle.lf_heap.specs.Following.{Follows, closed_at};
ghost use Rattle.lf_heap.specs.Heaps.{FitsInteger};
ghost use Rattle.lf_settle.specs.Drops.{SameCapacity};
ghost use Rattle.lf_settle.specs.WorkLists.{WorkList};

use crate::access::{Target, access_of};
use crate::contents::CownContents;
use crate::frozen::FrozenParts;
use crate::openness::is_open_without_slot;
use crate::questions::{answer, bridge_of, fault_of};
use crate::suspects::{Kind, note, suspect_all, suspect_regions, watch_rows};
use lf_barrier::{apply_content, apply_write, check_content, plan_write};
use lf_base::{
    Answer, CownId, Fault, HeapFail, Key, MOST_MADE, ObjId, OutOfMemory, Owner, Question, Steps,
    TextId, Value,
};
use lf_domain::count_borrow;
use lf_frozen::FrozenMap;
use lf_graph::Store;
use lf_regions::RegionTable;
use lf_settle::{Work, drop_field, lose_borrow, settle};
use lf_transfer::{
    Loose, apply_dissolve, apply_freeze, apply_merge, close, plan_dissolve, plan_freeze, plan_merge,
};
use std::alloc::Global;
use std::marker::{Brand, Model};
use std::sync::ledger::{Blank, Ledger};

// The most slots that a domain has room for, and the most fields that are ever written.
const MOST_SLOTS: usize = 4_611_686_018_427_387_904;

const MOST_CELLS: u64 = 4_611_686_018_427_387_903;

// The key of a cown's content.
const CONTENT_KEY: Key = Key::Text(TextId::VALUE);

/// The store, the table of regions and the slots of one domain. Contracts see the state
/// that they stand for, and the number of slots for which there is room. It is
/// well-formed, and store and table keep its counts.
#[derive(Drop)]
pub(crate) struct Parts<S: Store> {
    birth: u32,
    // How many objects were made.
    objects: u32,
    // No fewer than the fields of all rows and the contents together.
    cells: u64,
    contents: CownContents,
    frozen: FrozenParts,
    store: S,
    regions: RegionTable,
    slots: Vec<Option<Value>>,
    alloc: Global,
}

impl<S: Store> Model for Parts<S> {
    ghost use Rattle.std.specs.Prelude.{◌-◌, ◌^◌, min, vec_capacity, vec_len};
    ghost use Rattle.lf_heap.specs.Heaps.{Domain, HasParts, heap_state};

    ghost Value = { Domain };

    ghost view = { λ p. record {
      state = heap_state p.birth p.objects p.contents p.frozen (S.rows p.store) p.slots.items;
      spare = min (vec_capacity p.slots) (2 ^ 62) - vec_len p.slots;
    } };

    ghost invariant = { λ p. HasParts (S.rows p.store) p.regions p.cells (heap_state p.birth p.objects p.contents p.frozen (S.rows p.store) p.slots.items) };
}

// Counts a slot's edge by steps that nobody sees.
#[inline(always)]
fn count_alone<S: Store, L: Ledger>(
    store: &mut S,
    regions: &mut RegionTable,
    v: Option<Value>,
    blank: Blank,
)
    requires name { blank.name ≡ L.name }
    requires parts { blank.parts ≡ L.parts }
    requires some { 0 < L.parts }
    requires may { (of : List Row) × ((es : List Edge) × MayCount (S.rows store.old) regions.old of es) }
    ensures { (of : List Row) (es : List Edge) → MayCount (S.rows store.old) regions.old of es
        → Counts (S.rows store.new) regions.new of (edges_by Slot (slot_targets v) ++ es) }
{
    let mut steps = Steps::<L>::new(blank);
    count_borrow(store, regions, v, &mut steps);
}

// Makes a row by steps that nobody sees.
fn insert_alone<S: Store, L: Ledger>(store: &mut S, o: ObjId, owner: Owner, blank: Blank)
    requires name { blank.name ≡ L.name }
    requires parts { blank.parts ≡ L.parts }
    requires some { 0 < L.parts }
    requires new { IsNewName (S.rows store.old) o }
    requires room { 1 ≤ S.spare store.old owner }
    ensures { SameByOwner (S.rows store.new) (with_new_row (S.rows store.old) o owner) }
{
    let mut steps = Steps::<L>::new(blank);
    store.insert(o, owner, &mut steps);
}

// Answers a question by steps that nobody sees.
fn answer_alone<S: Store, L: Ledger>(
    store: &S,
    regions: &RegionTable,
    found: &mut Work,
    question: Question,
    v: Value,
    blank: Blank,
) -> Option<Answer>
    requires name { blank.name ≡ L.name }
    requires parts { blank.parts ≡ L.parts }
    requires some { 0 < L.parts }
    requires domain { (s : State) × (IsDomain (S.rows store.now) regions.now s × (2 * length s.rows ≤ found.old.spare)) }
    ensures answer { (s : State) (at : ℕ) → IsDomain (S.rows store.now) regions.now s → at < length s.slots
        → slot_at s.slots at ≡ Some v → result ≡ answer_to s question at v }
    ensures few { IfSome result (λ a. (s : State) → IsDomain (S.rows store.now) regions.now s → length s.rows ≤ 2 ^ 61 → FitsInteger a) }
    ensures same { found.new ≡ found.old }
{
    let mut steps = Steps::<L>::new(blank);
    answer(store, regions, found, question, v, &mut steps)
}

impl<S: Store> Parts<S> {
    /// The parts of a domain without objects and slots, which is given these frozen rows, or
    /// `OutOfMemory`.
    pub(crate) fn new(alloc: Global, birth: u32, given: FrozenMap) -> Result<Parts<S>, OutOfMemory>
        requires { MayBeGiven birth (map as_row given) }
        ensures { IfOk result (λ parts. parts.state ≡ first_state birth (map as_row given)) }
    {
        let store = S::new(alloc)?;
        let regions = RegionTable::new(alloc)?;
        Ok(Parts {
            birth,
            objects: 0,
            cells: 0,
            contents: CownContents::none(alloc),
            frozen: FrozenParts {
                given,
                own: FrozenMap::new(alloc),
            },
            store,
            regions,
            slots: Vec::new(alloc),
            alloc,
        })
    }

    /// Makes room for so many slots more. After `OutOfMemory`, which may come at any
    /// time, there is no less.
    pub(crate) fn make_room(&mut self, slots: usize) -> Result<(), OutOfMemory>
        ensures state { self.new.state ≡ self.old.state }
        ensures enough { OnOk result (slots ≤ self.new.spare) }
        ensures room { self.old.spare ≤ self.new.spare }
    {
        if slots > MOST_SLOTS - self.slots.len() {
            return Err(OutOfMemory);
        }
        self.slots.reserve(slots)?;
        Ok(())
    }

    /// The number of slots.
    #[inline(always)]
    pub(crate) fn len(&self) -> usize
        ensures { result ≡ length self.now.state.slots }
    {
        self.slots.len()
    }

    /// The slot at a place.
    #[inline(always)]
    pub(crate) fn slot(&self, at: usize) -> Option<Value>
        requires { at < length self.now.state.slots }
        ensures { result ≡ slot_at self.now.state.slots at }
    {
        self.slots[at]
    }

    /// Adds a slot.
    #[inline(always)]
    pub(crate) fn add_slot(&mut self, v: Option<Value>)
        requires room { 1 ≤ self.old.spare }
        requires may { (u : Item) → v ≡ Some u → SlotMayHold self.old.state u }
        ensures state { self.new.state ≡ with_slot self.old.state v }
        ensures room { self.new.spare + 1 ≡ self.old.spare }
    {
        self.slots.push_reserved(v);
        count_alone::<S, Brand>(&mut self.store, &mut self.regions, v, Blank::new(1));
    }

    /// Drops the last slot.
    #[inline(always)]
    pub(crate) fn drop_slot<L: Ledger>(&mut self, work: &mut Work, steps: &mut Steps<L>)
        requires there { 1 ≤ length self.old.state.slots }
        requires room { 1 ≤ work.old.spare }
        ensures state { self.new.state ≡ without_last 1 self.old.state }
        ensures follows { Follows self.old.state self.new.state work.old work.new 1 }
        ensures room { self.new.spare ≡ self.old.spare + 1 }
    {
        if let Some(old) = self.slots.pop() {
            lose_borrow(&mut self.store, &mut self.regions, work, old, steps);
        }
    }

    /// Puts a value in place of a slot's.
    #[inline(always)]
    pub(crate) fn replace_slot<L: Ledger>(
        &mut self,
        at: usize,
        v: Option<Value>,
        work: &mut Work,
        steps: &mut Steps<L>,
    )
        requires there { at < length self.old.state.slots }
        requires may { (u : Item) → v ≡ Some u → SlotMayHold self.old.state u }
        requires room { 1 ≤ work.old.spare }
        ensures state { self.new.state ≡ with_slot_at self.old.state at v }
        ensures follows { Follows self.old.state self.new.state work.old work.new 1 }
        ensures room { self.new.spare ≡ self.old.spare }
    {
        let old = self.slots[at];
        self.slots[at] = v;
        count_borrow(&mut self.store, &mut self.regions, v, steps);
        lose_borrow(&mut self.store, &mut self.regions, work, old, steps);
    }

    /// Moves the last slot to a place below it.
    #[inline(always)]
    pub(crate) fn move_last<L: Ledger>(&mut self, at: usize, work: &mut Work, steps: &mut Steps<L>)
        requires below { at + 1 < length self.old.state.slots }
        requires room { 1 ≤ work.old.spare }
        ensures state { self.new.state ≡ with_slot_at (without_last 1 self.old.state) at (slot_below self.old.state 0) }
        ensures follows { Follows self.old.state self.new.state work.old work.new 1 }
        ensures room { self.new.spare ≡ self.old.spare + 1 }
    {
        if let Some(v) = self.slots.pop() {
            let old = self.slots[at];
            self.slots[at] = v;
            lose_borrow(&mut self.store, &mut self.regions, work, old, steps);
        }
    }

    /// Moves a slot to a further one, and leaves it unset.
    #[inline(always)]
    pub(crate) fn lift_slot(&mut self, at: usize)
        requires there { at < length self.old.state.slots }
        requires room { 1 ≤ self.old.spare }
        ensures state { self.new.state ≡ with_slot (with_slot_at self.old.state at None) (slot_at self.old.state.slots at) }
        ensures room { self.new.spare + 1 ≡ self.old.spare }
    {
        let v = self.slots[at];
        self.slots[at] = None;
        self.slots.push_reserved(v);
    }

    /// Drops the rows that nothing justifies, with all that goes because of them.
    #[inline(always)]
    pub(crate) fn settle<L: Ledger>(&mut self, work: &mut Work, steps: &mut Steps<L>)
        requires noticed { Noticed self.old.state work.old.suspects }
        requires room { 2 * length self.old.state.rows ≤ work.old.spare }
        ensures state { self.new.state ≡ kept self.old.state }
        ensures settled { Settled self.new.state }
        ensures fewer { length self.new.state.rows ≤ length self.old.state.rows }
        ensures none_left { work.new.suspects ≡ [] }
        ensures capacity { work.new.spare ≡ work.old.spare + length work.old.suspects }
        ensures room { self.new.spare ≡ self.old.spare }
    {
        settle(&mut self.store, &mut self.regions, work, steps);
    }

    // How many objects and cowns were made.
    fn made(&self) -> usize
        ensures { result ≡ self.now.state.objects + self.now.state.cowns }
    {
        self.objects as usize + self.contents.made.len()
    }

    // The name of the next object. One object more than may be made is refused
    // (`TooManyObjects`).
    fn next_name(&self) -> Result<ObjId, Fault>
        ensures answer { result_err result ≡ making_refusal self.now.state }
        ensures name { IfOk result (λ o. o ≡ next_object self.now.state) }
    {
        if self.made() >= MOST_MADE {
            return Err(Fault::TooManyObjects);
        }
        Ok(ObjId {
            birth: self.birth,
            seq: self.objects + 1,
        })
    }

    /// Makes a local object.
    pub(crate) fn add_object(&mut self) -> Result<ObjId, HeapFail>
        ensures answer { AnswersAs (making_refusal self.old.state) result }
        ensures name { IfOk result (λ o. o ≡ next_object self.old.state) }
        ensures state { OnOk result (self.new.state ≡ object_result self.old.state) }
        ensures may { IfOk result (λ o. SlotMayHold self.new.state (Obj o)) }
        ensures unchanged { OnErr result (self.new.state ≡ self.old.state) }
        ensures room { self.new.spare ≡ self.old.spare }
    {
        let o = self.next_name()?;
        self.store.reserve(Owner::Local, 1)?;
        self.objects += 1;
        insert_alone::<S, Brand>(&mut self.store, o, Owner::Local, Blank::new(1));
        Ok(o)
    }

    /// Makes a region of a bridge alone.
    pub(crate) fn add_region(&mut self) -> Result<ObjId, HeapFail>
        ensures answer { AnswersAs (making_refusal self.old.state) result }
        ensures name { IfOk result (λ o. o ≡ next_object self.old.state) }
        ensures state { OnOk result (self.new.state ≡ region_result self.old.state) }
        ensures may { IfOk result (λ o. SlotMayHold self.new.state (Obj o)) }
        ensures unchanged { OnErr result (self.new.state ≡ self.old.state) }
        ensures room { self.new.spare ≡ self.old.spare }
    {
        let o = self.next_name()?;
        self.store.reserve(Owner::In(o), 1)?;
        self.regions.make(o)?;
        self.objects += 1;
        insert_alone::<S, Brand>(&mut self.store, o, Owner::In(o), Blank::new(1));
        Ok(o)
    }

    // The name of the next cown. One more than may be made is refused (`TooManyObjects`).
    fn next_cown(&self) -> Result<CownId, Fault>
        ensures answer { result_err result ≡ making_refusal self.now.state }
        ensures name { IfOk result (λ c. c ≡ next_cown self.now.state) }
    {
        if self.made() >= MOST_MADE {
            return Err(Fault::TooManyObjects);
        }
        Ok(CownId {
            birth: self.birth,
            seq: self.contents.made.len() as u32 + 1,
        })
    }

    // What a cown is refused for whose content the last slot holds, but for how many were
    // made. The region of that content is judged without the slot.
    fn judge_cown<L: Ledger>(
        &self,
        v: Value,
        found: &mut Work,
        steps: &mut Steps<L>,
    ) -> Result<(), Fault>
        requires there { 1 ≤ length self.now.state.slots }
        requires last { v ≡ operand self.now.state 0 }
        requires room { length self.now.state.rows ≤ found.old.spare }
        ensures answer { result_err result ≡ new_cown_refusal (without_last 1 self.now.state) v }
        ensures same { found.new ≡ found.old }
    {
        check_content(&self.store, &self.regions, Value::None, v, steps)?;
        let Some(r) = bridge_of(&self.store, v, steps) else {
            return Ok(());
        };
        if is_open_without_slot(&self.store, &self.regions, found, r, steps) {
            return Err(Fault::Open);
        }
        Ok(())
    }

    /// Makes a cown whose content the last slot holds. The slot stays.
    pub(crate) fn add_cown<L: Ledger>(
        &mut self,
        v: Value,
        work: &mut Work,
        steps: &mut Steps<L>,
    ) -> Result<CownId, HeapFail>
        requires there { 1 ≤ length self.old.state.slots }
        requires last { v ≡ operand self.old.state 0 }
        requires room { length self.old.state.rows ≤ work.old.spare }
        ensures answer { AnswersAs (option_or (new_cown_refusal (without_last 1 self.old.state) v) (making_refusal self.old.state)) result }
        ensures name { IfOk result (λ c. c ≡ next_cown self.old.state) }
        ensures state { OnOk result (self.new.state ≡ made_result self.old.state v) }
        ensures follows { OnOk result (Follows self.old.state self.new.state work.old work.new 0) }
        ensures unchanged { OnErr result (self.new.state ≡ self.old.state) }
        ensures no_suspect { work.new ≡ work.old }
        ensures room { self.new.spare ≡ self.old.spare }
    {
        self.judge_cown(v, work, steps)?;
        let cown = self.next_cown()?;
        if self.cells >= MOST_CELLS {
            return Err(HeapFail::OutOfMemory);
        }
        self.contents.make(cown, v)?;
        self.cells += 1;
        apply_content(
            &mut self.store,
            &mut self.regions,
            cown,
            Value::None,
            v,
            steps,
        );
        Ok(cown)
    }

    // A held cown's content, by its key.
    fn content_of(&self, c: CownId, key: Key) -> Result<Value, Fault>
        ensures answer { result_err result ≡ cown_refusal self.now.state c key }
        ensures value { IfOk result (λ v. content_at self.now.state.held c ≡ Some v) }
        ensures may { IfOk result (λ v. SlotMayHold self.now.state v) }
    {
        let Some(v) = self.contents.content(c) else {
            return Err(Fault::NotAcquired);
        };
        if !key.is_same(CONTENT_KEY) {
            return Err(Fault::NoField);
        }
        Ok(v)
    }

    // Puts a content that isn't refused in place of the old one.
    fn set_content<L: Ledger>(
        &mut self,
        c: CownId,
        old: Value,
        v: Value,
        work: &mut Work,
        steps: &mut Steps<L>,
    )
        requires was { content_at self.old.state.held c ≡ Some old }
        requires may { SlotMayHold self.old.state v }
        requires allowed { content_refusal self.old.state c v ≡ None }
        requires room { 1 ≤ work.old.spare }
        ensures state { self.new.state ≡ content_result self.old.state c v }
        ensures follows { Follows self.old.state self.new.state work.old work.new 1 }
        ensures room { self.new.spare ≡ self.old.spare }
    {
        apply_content(&mut self.store, &mut self.regions, c, old, v, steps);
        self.contents.set(c, v);
        note(work, Some(old));
    }

    // Takes a held cown's content, which is `None` then.
    fn take_content<L: Ledger>(
        &mut self,
        c: CownId,
        key: Key,
        work: &mut Work,
        steps: &mut Steps<L>,
    ) -> Result<Value, Fault>
        requires room { 1 ≤ work.old.spare }
        ensures answer { result_err result ≡ cown_refusal self.old.state c key }
        ensures value { IfOk result (λ v. content_at self.old.state.held c ≡ Some v) }
        ensures state { OnOk result (self.new.state ≡ content_result self.old.state c variant.None) }
        ensures may { IfOk result (λ v. SlotMayHold self.new.state v) }
        ensures follows { OnOk result (Follows self.old.state self.new.state work.old work.new 1) }
        ensures unchanged { OnErr result (self.new.state ≡ self.old.state) }
        ensures no_suspect { OnErr result (work.new ≡ work.old) }
        ensures room { self.new.spare ≡ self.old.spare }
    {
        let old = self.content_of(c, key)?;
        self.set_content(c, old, Value::None, work, steps);
        Ok(old)
    }

    // Writes a held cown's content.
    fn put_content<L: Ledger>(
        &mut self,
        c: CownId,
        key: Key,
        v: Value,
        work: &mut Work,
        steps: &mut Steps<L>,
    ) -> Result<(), Fault>
        requires may { SlotMayHold self.old.state v }
        requires room { 1 ≤ work.old.spare }
        ensures answer { result_err result ≡ option_or (cown_refusal self.old.state c key) (content_refusal self.old.state c v) }
        ensures state { OnOk result (self.new.state ≡ content_result self.old.state c v) }
        ensures follows { OnOk result (Follows self.old.state self.new.state work.old work.new 1) }
        ensures unchanged { OnErr result (self.new.state ≡ self.old.state) }
        ensures no_suspect { OnErr result (work.new ≡ work.old) }
        ensures room { self.new.spare ≡ self.old.spare }
    {
        let old = self.content_of(c, key)?;
        check_content(&self.store, &self.regions, old, v, steps)?;
        self.set_content(c, old, v, work, steps);
        Ok(())
    }

    /// What a read of a target by a key gives.
    pub(crate) fn find<L: Ledger>(
        &self,
        target: Value,
        key: Value,
        steps: &mut Steps<L>,
    ) -> Result<Value, Fault>
        ensures answer { result_err result ≡ read_refusal self.now.state target key }
        ensures value { IfOk result (λ v. read_value self.now.state target (key_of key) ≡ Some v) }
        ensures may { IfOk result (λ v. SlotMayHold self.now.state v) }
    {
        let access = access_of(target, key)?;
        match access.target {
            Target::Object(o) => self.field_of(o, access.key, steps),
            Target::Cown(c) => self.content_of(c, access.key),
        }
    }

    // The field of an object, mutable or frozen; `None` where the object or the field isn't
    // there.
    fn look_up<L: Ledger>(&self, o: ObjId, key: Key, steps: &mut Steps<L>) -> Option<Value>
        ensures value { result ≡ field_of self.now.state o key }
        ensures may { IfSome result (λ v. SlotMayHold self.now.state v) }
    {
        if self.store.owner(o, steps).is_some() {
            return self.store.field(o, key, steps);
        }
        self.frozen.frozen_field(o, key)
    }

    // The field of an object.
    fn field_of<L: Ledger>(&self, o: ObjId, key: Key, steps: &mut Steps<L>) -> Result<Value, Fault>
        ensures answer { result_err result ≡ or_no_field (field_of self.now.state o key) }
        ensures value { IfOk result (λ v. field_of self.now.state o key ≡ Some v) }
        ensures may { IfOk result (λ v. SlotMayHold self.now.state v) }
    {
        match self.look_up(o, key, steps) {
            Some(v) => Ok(v),
            None => Err(Fault::NoField),
        }
    }

    /// Takes what a target and a key name, and gives its value.
    pub(crate) fn take_out<L: Ledger>(
        &mut self,
        target: Value,
        key: Value,
        work: &mut Work,
        steps: &mut Steps<L>,
    ) -> Result<Value, Fault>
        requires room { 2 * length self.old.state.rows + 1 ≤ work.old.spare }
        ensures answer { result_err result ≡ remove_refusal self.old.state target key }
        ensures value { IfOk result (λ v. read_value self.old.state target (key_of key) ≡ Some v) }
        ensures state { OnOk result (self.new.state ≡ remove_result self.old.state target (key_of key)) }
        ensures may { IfOk result (λ v. SlotMayHold self.new.state v) }
        ensures follows { OnOk result (Follows self.old.state self.new.state work.old work.new 1) }
        ensures unchanged { OnErr result (self.new.state ≡ self.old.state) }
        ensures no_suspect { OnErr result (work.new ≡ work.old) }
        ensures room { self.new.spare ≡ self.old.spare }
    {
        let access = access_of(target, key)?;
        match access.target {
            Target::Object(o) => self.take_field(o, access.key, work, steps),
            Target::Cown(c) => self.take_content(c, access.key, work, steps),
        }
    }

    // Takes a field of an object.
    fn take_field<L: Ledger>(
        &mut self,
        o: ObjId,
        key: Key,
        work: &mut Work,
        steps: &mut Steps<L>,
    ) -> Result<Value, Fault>
        requires room { 2 * length self.old.state.rows + 1 ≤ work.old.spare }
        ensures answer { result_err result ≡ take_refusal self.old.state o key }
        ensures value { IfOk result (λ v. field_of self.old.state o key ≡ Some v) }
        ensures state { OnOk result (self.new.state ≡ take_result self.old.state o key) }
        ensures may { IfOk result (λ v. SlotMayHold self.new.state v) }
        ensures follows { OnOk result (Follows self.old.state self.new.state work.old work.new 1) }
        ensures unchanged { OnErr result (self.new.state ≡ self.old.state) }
        ensures no_suspect { OnErr result (work.new ≡ work.old) }
        ensures room { self.new.spare ≡ self.old.spare }
    {
        let Some(owner) = self.store.owner(o, steps) else {
            return Err(Fault::FrozenWrite);
        };
        let Some(v) = self.store.field(o, key, steps) else {
            return Err(Fault::NoField);
        };
        drop_field(
            &mut self.store,
            &mut self.regions,
            work,
            o,
            owner,
            key,
            steps,
        );
        Ok(v)
    }

    /// Writes what a target and a key name. It needs a slot that names the target.
    pub(crate) fn put_in<L: Ledger>(
        &mut self,
        target: Value,
        key: Value,
        v: Value,
        work: &mut Work,
        steps: &mut Steps<L>,
    ) -> Result<(), HeapFail>
        requires named { (o : Name) → target ≡ Obj o → InSlot self.old.state o }
        requires may { SlotMayHold self.old.state v }
        requires room { 1 ≤ work.old.spare }
        ensures answer { AnswersAs (store_refusal self.old.state target key v) result }
        ensures state { OnOk result (self.new.state ≡ store_result self.old.state target (key_of key) v) }
        ensures follows { OnOk result (Follows self.old.state self.new.state work.old work.new 1) }
        ensures unchanged { OnErr result (self.new.state ≡ self.old.state) }
        ensures no_suspect { OnErr result (work.new ≡ work.old) }
        ensures room { self.new.spare ≡ self.old.spare }
    {
        let access = access_of(target, key)?;
        match access.target {
            Target::Object(o) => self.put_field(o, access.key, v, work, steps),
            Target::Cown(c) => Ok(self.put_content(c, access.key, v, work, steps)?),
        }
    }

    // Writes a field of an object.
    fn put_field<L: Ledger>(
        &mut self,
        o: ObjId,
        key: Key,
        v: Value,
        work: &mut Work,
        steps: &mut Steps<L>,
    ) -> Result<(), HeapFail>
        requires named { InSlot self.old.state o }
        requires may { SlotMayHold self.old.state v }
        requires room { 1 ≤ work.old.spare }
        ensures answer { AnswersAs (write_refusal self.old.state o key v) result }
        ensures state { OnOk result (self.new.state ≡ write_result self.old.state o key v) }
        ensures follows { OnOk result (Follows self.old.state self.new.state work.old work.new 1) }
        ensures unchanged { OnErr result (self.new.state ≡ self.old.state) }
        ensures no_suspect { OnErr result (work.new ≡ work.old) }
        ensures room { self.new.spare ≡ self.old.spare }
    {
        if self.cells >= MOST_CELLS {
            return Err(HeapFail::OutOfMemory);
        }
        let planned = plan_write(self.alloc, &mut self.store, &self.regions, o, key, v, steps);
        let plan = match planned {
            Ok(plan) => plan,
            Err(fail) => return Err(fail),
        };
        self.cells += 1;
        let old = apply_write(&mut self.store, &mut self.regions, plan, steps);
        note(work, old);
        Ok(())
    }

    /// Merges the region of the second bridge into that of the first one.
    pub(crate) fn merge<L: Ledger>(
        &mut self,
        a: Value,
        b: Value,
        work: &mut Work,
        steps: &mut Steps<L>,
    ) -> Result<(), HeapFail>
        requires room { 1 ≤ work.old.spare }
        ensures answer { AnswersAs (merge_refusal self.old.state a b) result }
        ensures state { OnOk result (self.new.state ≡ merged_by (owners.bridge_of self.old.state a) (owners.bridge_of self.old.state b) self.old.state) }
        ensures follows { OnOk result (Follows self.old.state self.new.state work.old work.new 1) }
        ensures unchanged { OnErr result (self.new.state ≡ self.old.state) }
        ensures no_suspect { OnErr result (work.new ≡ work.old) }
        ensures room { self.new.spare ≡ self.old.spare }
    {
        let planned = plan_merge(self.alloc, &mut self.store, &self.regions, a, b, steps);
        let plan = match planned {
            Ok(plan) => plan,
            Err(fail) => return Err(fail),
        };
        apply_merge(&mut self.store, &mut self.regions, plan, steps);
        note(work, Some(b));
        Ok(())
    }

    /// Dissolves the region of a bridge that a slot names.
    pub(crate) fn dissolve<L: Ledger>(
        &mut self,
        r: Value,
        steps: &mut Steps<L>,
    ) -> Result<(), HeapFail>
        requires named { (o : Name) → r ≡ Obj o → InSlot self.old.state o }
        ensures answer { AnswersAs (dissolve_refusal self.old.state r) result }
        ensures state { OnOk result (self.new.state ≡ on_bridge (owners.bridge_of self.old.state r) (dissolve_result self.old.state) self.old.state) }
        ensures follows { OnOk result ((work : WorkList) → Follows self.old.state self.new.state work work 0) }
        ensures unchanged { OnErr result (self.new.state ≡ self.old.state) }
        ensures room { self.new.spare ≡ self.old.spare }
    {
        let planned = plan_dissolve(&mut self.store, &self.regions, r, steps);
        let plan = match planned {
            Ok(plan) => plan,
            Err(fail) => return Err(fail),
        };
        apply_dissolve(&mut self.store, &mut self.regions, plan, steps);
        Ok(())
    }

    /// Freezes what a value leads to. Room for suspects is made first: for the regions that
    /// are left bare, and for as many as there may be with so many rows.
    pub(crate) fn freeze<L: Ledger>(
        &mut self,
        v: Value,
        rows: usize,
        work: &mut Work,
        steps: &mut Steps<L>,
    ) -> Result<(), OutOfMemory>
        requires few { rows ≤ 2 ^ 61 }
        ensures state { OnOk result (self.new.state ≡ freeze_result self.old.state v) }
        ensures noticed { OnOk result (Noticed self.old.state work.old.suspects → Noticed self.new.state work.new.suspects) }
        ensures no_more { OnOk result (length self.new.state.rows ≤ length self.old.state.rows) }
        ensures enough { OnOk result (3 * rows + 4 ≤ work.new.spare) }
        ensures unchanged { OnErr result (self.new.state ≡ self.old.state) }
        ensures no_suspect { OnErr result (work.new.suspects ≡ work.old.suspects) }
        ensures no_less { OnErr result (work.old.spare ≤ work.new.spare) }
        ensures room { self.new.spare ≡ self.old.spare }
    {
        let plan = plan_freeze(
            self.alloc,
            &self.store,
            &self.regions,
            &self.frozen.own,
            v,
            steps,
        )?;
        let losing = plan.regions();
        let mut bare = Loose::new(self.alloc);
        bare.reserve(losing)?;
        watch_rows(work, rows, losing)?;
        apply_freeze(
            &mut self.store,
            &mut self.regions,
            &mut self.frozen.own,
            plan,
            &mut bare,
            steps,
        );
        suspect_regions(work, bare);
        Ok(())
    }

    /// Closes the region whose bridge the slot at a place holds. The rows that it lets loose are
    /// suspects then; an empty list, with room for each row, holds them until it is done.
    pub(crate) fn close<L: Ledger>(
        &mut self,
        at: usize,
        loose: &mut Loose,
        work: &mut Work,
        steps: &mut Steps<L>,
    ) -> Result<(), Fault>
        requires there { at < length self.old.state.slots }
        requires none { loose.old.names ≡ [] }
        requires listed { length self.old.state.rows ≤ loose.old.spare }
        requires room { length self.old.state.rows ≤ work.old.spare }
        ensures answer { result_err result ≡ close_refusal self.old.state at }
        ensures state { OnOk result (self.new.state ≡ closed_at at self.old.state) }
        ensures follows { OnOk result (Follows self.old.state self.new.state work.old work.new (length self.old.state.rows)) }
        ensures unchanged { OnErr result (self.new.state ≡ self.old.state) }
        ensures no_suspect { OnErr result (work.new ≡ work.old) }
        ensures none_left { loose.new.names ≡ [] }
        ensures list { loose.old.spare ≤ loose.new.spare }
        ensures room { self.new.spare ≡ self.old.spare }
    {
        let closed = close(
            &mut self.store,
            &mut self.regions,
            self.slots.as_mut_slice(),
            at,
            loose,
            steps,
        );
        if let Err(fault) = closed {
            return Err(fault);
        }
        suspect_all(work, loose, Kind::Objects);
        Ok(())
    }

    /// What a question on a slot answers. It is refused where the slot is unset (`Unset`),
    /// and where its value has no such answer: on the count of an object that isn't mutable
    /// (`Kind`), or of a region that isn't there (`NotBridge`). The list is used for regions,
    /// and left as it was.
    pub(crate) fn ask(
        &self,
        found: &mut Work,
        question: Question,
        at: usize,
    ) -> Result<Answer, Fault>
        requires there { at < length self.now.state.slots }
        requires room { 2 * length self.now.state.rows ≤ found.old.spare }
        requires few { length self.now.state.rows ≤ 2 ^ 61 }
        ensures answer { GivesAnswer (asked self.now.state question at) result }
        ensures few { IfOk result FitsInteger }
        ensures same { found.new ≡ found.old }
    {
        let Some(v) = self.slots[at] else {
            return Err(Fault::Unset);
        };
        let answer = answer_alone::<S, Brand>(
            &self.store,
            &self.regions,
            found,
            question,
            v,
            Blank::new(1),
        );
        match answer {
            Some(answer) => Ok(answer),
            None => Err(fault_of(question)),
        }
    }
}
