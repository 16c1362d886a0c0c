//! What questions on a variable answer, by the store and the table of regions.

ghost use Rattle.std.specs.Prelude.{◌≡◌, ◌*◌, ◌<◌, ◌≤◌, List, None, Some, IfSome, cond, length, ℕ, ◌^◌};
ghost use Rattle.lf_base.specs.Asking.{answer_to, fault_of_question};
ghost use Rattle.lf_base.specs.Owners as owners;
ghost use Rattle.lf_base.specs.Owners.{is_in};
ghost use Rattle.lf_base.specs.PlainChanges.{slot_at};
ghost use Rattle.lf_base.specs.PlainState.{State};
ghost use Rattle.lf_base.specs.Questions.{borrowed_answer, is_closed_answer, label_by, open_children_answer, refs_answer};
ghost use Rattle.lf_base.specs.Questions as questions;
ghost use Rattle.lf_domain.specs.Counts.{IsDomain};
ghost use Rattle.lf_heap.specs.Heaps.{FitsInteger};
ghost use Rattle.lf_regions.specs.declared.region.Region.{Region};

use crate::openness::{is_open_without_slot, open_children};
use lf_base::{Answer, Fault, Label, ObjId, Owner, Question, Steps, Value};
use lf_graph::Store;
use lf_regions::RegionTable;
use lf_settle::Work;
use std::sync::ledger::Ledger;

// How many references lead to a mutable object; `None` for any other value.
fn refs_of<S: Store, L: Ledger>(store: &S, v: Value, steps: &mut Steps<L>) -> Option<u64>
    ensures count { (regions : List Region) (s : State) → IsDomain (S.rows store.now) regions s → result ≡ refs_answer s v }
    ensures few { IfSome result (λ n. (regions : List Region) (s : State) → IsDomain (S.rows store.now) regions s → n < 2 ^ 63) }
{
    let o = v.object()?;
    if store.owner(o, steps).is_none() {
        return None;
    }
    Some(store.refs(o, steps))
}

/// The bridge that a value refers to, where it refers to one.
pub(crate) fn bridge_of<S: Store, L: Ledger>(
    store: &S,
    v: Value,
    steps: &mut Steps<L>,
) -> Option<ObjId>
    ensures { (regions : List Region) (s : State) → IsDomain (S.rows store.now) regions s → result ≡ owners.bridge_of s v }
{
    let o = v.object()?;
    bridge_at(store.owner(o, steps), o)
}

// The object, where it names the region in which it lies.
fn bridge_at(owner: Option<Owner>, o: ObjId) -> Option<ObjId>
    ensures { result ≡ cond (is_in o owner) (Some o) None }
{
    match owner {
        Some(Owner::In(r)) => { if o.is_same(r) { Some(o) } else { None } }
        Some(Owner::Local) => None,
        Some(Owner::Frozen) => None,
        None => None,
    }
}

// How many references from slots and local objects lead into the region of a bridge;
// `None` for any other value.
fn borrowed_of<S: Store, L: Ledger>(
    store: &S,
    regions: &RegionTable,
    v: Value,
    steps: &mut Steps<L>,
) -> Option<u64>
    requires { (s : State) × IsDomain (S.rows store.now) regions.now s }
    ensures count { (s : State) → IsDomain (S.rows store.now) regions.now s → result ≡ borrowed_answer s v }
    ensures few { IfSome result (λ n. (s : State) → IsDomain (S.rows store.now) regions.now s → n < 2 ^ 63) }
{
    let r = bridge_of(store, v, steps)?;
    Some(regions.borrowed(r))
}

// Where a value stands. An object without a mutable row is frozen.
fn label_of<S: Store, L: Ledger>(store: &S, v: Value, steps: &mut Steps<L>) -> Label
    ensures { (regions : List Region) (s : State) → IsDomain (S.rows store.now) regions s → result ≡ questions.label_of s v }
{
    match v {
        Value::Obj(o) => label_at(store.owner(o, steps)),
        Value::Cown(_) => Label::Cown,
        Value::None | Value::Bool(_) | Value::Int(_) | Value::Text(_) => Label::Value,
    }
}

// Where an object of that owner stands.
fn label_at(owner: Option<Owner>) -> Label
    ensures { result ≡ label_by owner }
{
    match owner {
        Some(Owner::Local) => Label::Local,
        Some(Owner::In(_)) => Label::Region,
        Some(Owner::Frozen) => Label::Frozen,
        None => Label::Frozen,
    }
}

// How many open regions the region of a bridge owns directly; `None` for any other value.
fn open_children_of<S: Store, L: Ledger>(
    store: &S,
    regions: &RegionTable,
    found: &mut Work,
    v: Value,
    steps: &mut Steps<L>,
) -> Option<u64>
    requires { (s : State) × (IsDomain (S.rows store.now) regions.now s × (2 * length s.rows ≤ found.old.spare)) }
    ensures answer { (s : State) → IsDomain (S.rows store.now) regions.now s → result ≡ open_children_answer s v }
    ensures few { IfSome result (λ n. (s : State) → IsDomain (S.rows store.now) regions.now s → length s.rows ≤ 2 ^ 61 → n < 2 ^ 63) }
    ensures same { found.new ≡ found.old }
{
    let r = bridge_of(store, v, steps)?;
    Some(open_children(store, regions, found, r, steps))
}

// Whether the region of a bridge would be closed if a variable that holds it were unset;
// `None` for any other value.
fn is_closed<S: Store, L: Ledger>(
    store: &S,
    regions: &RegionTable,
    found: &mut Work,
    v: Value,
    steps: &mut Steps<L>,
) -> Option<bool>
    requires { (s : State) × (IsDomain (S.rows store.now) regions.now s × (2 * length s.rows ≤ found.old.spare)) }
    ensures answer { (s : State) (at : ℕ) → IsDomain (S.rows store.now) regions.now s → at < length s.slots
        → slot_at s.slots at ≡ Some v → result ≡ is_closed_answer s at v }
    ensures same { found.new ≡ found.old }
{
    let r = bridge_of(store, v, steps)?;
    let open = is_open_without_slot(store, regions, found, r, steps);
    Some(!open)
}

/// The fault of a question that has no answer.
pub(crate) fn fault_of(question: Question) -> Fault
    ensures { result ≡ fault_of_question question }
{
    match question {
        Question::Refs => Fault::Kind,
        Question::Borrowed | Question::OpenChildren | Question::Owner | Question::IsClosed =>
            Fault::NotBridge,
    }
}

/// What a question on a variable that holds `v` answers; `None` where it has no answer.
/// The list is used for regions, with room for two for each row, and left as it was.
pub(crate) fn answer<S: Store, L: Ledger>(
    store: &S,
    regions: &RegionTable,
    found: &mut Work,
    question: Question,
    v: Value,
    steps: &mut Steps<L>,
) -> Option<Answer>
    requires { (s : State) × (IsDomain (S.rows store.now) regions.now s × (2 * length s.rows ≤ found.old.spare)) }
    ensures answer { (s : State) (at : ℕ) → IsDomain (S.rows store.now) regions.now s → at < length s.slots
        → slot_at s.slots at ≡ Some v → result ≡ answer_to s question at v }
    ensures few { IfSome result (λ a. (s : State) → IsDomain (S.rows store.now) regions.now s → length s.rows ≤ 2 ^ 61 → FitsInteger a) }
    ensures same { found.new ≡ found.old }
{
    match question {
        Question::Refs => Some(Answer::Number(refs_of(store, v, steps)?)),
        Question::Borrowed => Some(Answer::Number(borrowed_of(store, regions, v, steps)?)),
        Question::OpenChildren => Some(Answer::Number(open_children_of(
            store, regions, found, v, steps,
        )?)),
        Question::Owner => Some(Answer::Label(label_of(store, v, steps))),
        Question::IsClosed => Some(Answer::Truth(is_closed(store, regions, found, v, steps)?)),
    }
}
