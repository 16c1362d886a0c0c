//! Lists of calls on a heap, and what is found after them.

ghost use Rattle.std.specs.Prelude.{◌≡◌, ◌<◌};

use crate::heap_calls::{HeapCall, heap_after};
use lf_base::{Answer, CownId, Fault, Label, ObjId, OutOfMemory, Question, Steps, Value};
use lf_graph::Store;
use lf_heap::Heap;
use std::alloc::Global;
use std::sync::ledger::{Blank, Ledger};

// Calls on a heap with some variables, the fault that ends them, the last slot, and what
// questions on variables answer then.
struct HeapRow {
    name: &'static str,
    variables: usize,
    calls: &'static [HeapCall],
    fault: Option<Fault>,
    last: Option<Value>,
    asked: &'static [(Question, usize, Result<Answer, Fault>)],
}

static ROWS: [HeapRow; 27] = [
    HeapRow {
        name: "first_sum",
        variables: 1,
        calls: &[
            HeapCall::Object,
            HeapCall::Put(0),
            HeapCall::Load(0),
            HeapCall::Number(1),
            HeapCall::Number(42),
            HeapCall::Write,
            HeapCall::Load(0),
            HeapCall::Number(1),
            HeapCall::Read,
        ],
        fault: None,
        last: Some(Value::Int(42)),
        asked: &[(Question::Owner, 0, Ok(Answer::Label(Label::Local)))],
    },
    HeapRow {
        name: "a region in two variables is closed when one is unset",
        variables: 2,
        calls: &[
            HeapCall::Region,
            HeapCall::Put(0),
            HeapCall::Load(0),
            HeapCall::Put(1),
        ],
        fault: None,
        last: None,
        asked: &[
            (Question::Borrowed, 0, Ok(Answer::Number(2))),
            (Question::Refs, 0, Ok(Answer::Number(2))),
            (Question::IsClosed, 0, Ok(Answer::Truth(false))),
        ],
    },
    HeapRow {
        name: "an unset variable is refused",
        variables: 2,
        calls: &[
            HeapCall::Region,
            HeapCall::Put(0),
            HeapCall::Load(0),
            HeapCall::Put(1),
            HeapCall::Unset(1),
            HeapCall::Unset(1),
        ],
        fault: Some(Fault::Unset),
        last: None,
        asked: &[
            (Question::IsClosed, 0, Ok(Answer::Truth(true))),
            (Question::Owner, 1, Err(Fault::Unset)),
        ],
    },
    HeapRow {
        name: "moved_graph",
        variables: 3,
        calls: &[
            HeapCall::Region,
            HeapCall::Put(0),
            HeapCall::Object,
            HeapCall::Put(1),
            HeapCall::Object,
            HeapCall::Put(2),
            HeapCall::Load(1),
            HeapCall::Number(1),
            HeapCall::Load(2),
            HeapCall::Write,
            HeapCall::Load(0),
            HeapCall::Number(2),
            HeapCall::Load(1),
            HeapCall::Write,
        ],
        fault: None,
        last: None,
        asked: &[
            (Question::Borrowed, 0, Ok(Answer::Number(3))),
            (Question::Refs, 2, Ok(Answer::Number(2))),
            (Question::Owner, 2, Ok(Answer::Label(Label::Region))),
            (Question::Borrowed, 2, Err(Fault::NotBridge)),
        ],
    },
    HeapRow {
        name: "self_edge",
        variables: 1,
        calls: &[
            HeapCall::Region,
            HeapCall::Put(0),
            HeapCall::Load(0),
            HeapCall::Number(1),
            HeapCall::Load(0),
            HeapCall::Write,
        ],
        fault: None,
        last: None,
        asked: &[
            (Question::Borrowed, 0, Ok(Answer::Number(1))),
            (Question::Refs, 0, Ok(Answer::Number(2))),
        ],
    },
    HeapRow {
        name: "second_owner",
        variables: 2,
        calls: &[
            HeapCall::Region,
            HeapCall::Put(0),
            HeapCall::Region,
            HeapCall::Put(1),
            HeapCall::Load(0),
            HeapCall::Number(1),
            HeapCall::Load(1),
            HeapCall::Write,
            HeapCall::Load(0),
            HeapCall::Number(2),
            HeapCall::Load(1),
            HeapCall::Write,
        ],
        fault: Some(Fault::SecondOwner),
        last: None,
        asked: &[(Question::OpenChildren, 0, Ok(Answer::Number(1)))],
    },
    HeapRow {
        name: "owner_cycle",
        variables: 2,
        calls: &[
            HeapCall::Region,
            HeapCall::Put(0),
            HeapCall::Region,
            HeapCall::Put(1),
            HeapCall::Load(0),
            HeapCall::Number(1),
            HeapCall::Load(1),
            HeapCall::Write,
            HeapCall::Load(1),
            HeapCall::Number(2),
            HeapCall::Load(0),
            HeapCall::Write,
        ],
        fault: Some(Fault::Cycle),
        last: None,
        asked: &[(Question::OpenChildren, 1, Ok(Answer::Number(0)))],
    },
    HeapRow {
        name: "interior",
        variables: 3,
        calls: &[
            HeapCall::Region,
            HeapCall::Put(0),
            HeapCall::Region,
            HeapCall::Put(1),
            HeapCall::Object,
            HeapCall::Put(2),
            HeapCall::Load(1),
            HeapCall::Number(1),
            HeapCall::Load(2),
            HeapCall::Write,
            HeapCall::Load(0),
            HeapCall::Number(1),
            HeapCall::Load(2),
            HeapCall::Write,
        ],
        fault: Some(Fault::Interior),
        last: None,
        asked: &[(Question::Borrowed, 1, Ok(Answer::Number(3)))],
    },
    HeapRow {
        name: "replaced_owner",
        variables: 3,
        calls: &[
            HeapCall::Region,
            HeapCall::Put(0),
            HeapCall::Region,
            HeapCall::Put(1),
            HeapCall::Load(0),
            HeapCall::Number(1),
            HeapCall::Load(1),
            HeapCall::Write,
            HeapCall::Object,
            HeapCall::Put(2),
            HeapCall::Load(2),
            HeapCall::Number(2),
            HeapCall::Load(1),
            HeapCall::Write,
            HeapCall::Load(0),
            HeapCall::Number(1),
            HeapCall::Load(2),
            HeapCall::Write,
        ],
        fault: None,
        last: None,
        asked: &[
            (Question::OpenChildren, 0, Ok(Answer::Number(1))),
            (Question::IsClosed, 0, Ok(Answer::Truth(false))),
        ],
    },
    HeapRow {
        name: "refused_unchanged",
        variables: 3,
        calls: &[
            HeapCall::Region,
            HeapCall::Put(0),
            HeapCall::Region,
            HeapCall::Put(1),
            HeapCall::Object,
            HeapCall::Put(2),
            HeapCall::Load(2),
            HeapCall::Number(1),
            HeapCall::Load(1),
            HeapCall::Write,
            HeapCall::Load(2),
            HeapCall::Number(2),
            HeapCall::Load(1),
            HeapCall::Write,
            HeapCall::Load(0),
            HeapCall::Number(1),
            HeapCall::Load(2),
            HeapCall::Write,
        ],
        fault: Some(Fault::SecondOwner),
        last: None,
        asked: &[
            (Question::Owner, 2, Ok(Answer::Label(Label::Local))),
            (Question::Borrowed, 1, Ok(Answer::Number(3))),
            (Question::Refs, 3, Ok(Answer::Number(2))),
        ],
    },
    HeapRow {
        name: "a cycle of local objects keeps its borrow",
        variables: 3,
        calls: &[
            HeapCall::Region,
            HeapCall::Put(0),
            HeapCall::Object,
            HeapCall::Put(1),
            HeapCall::Object,
            HeapCall::Put(2),
            HeapCall::Load(1),
            HeapCall::Number(1),
            HeapCall::Load(2),
            HeapCall::Write,
            HeapCall::Load(2),
            HeapCall::Number(1),
            HeapCall::Load(1),
            HeapCall::Write,
            HeapCall::Load(1),
            HeapCall::Number(2),
            HeapCall::Load(0),
            HeapCall::Write,
            HeapCall::Unset(1),
            HeapCall::Unset(2),
        ],
        fault: None,
        last: None,
        asked: &[(Question::Borrowed, 0, Ok(Answer::Number(2)))],
    },
    HeapRow {
        name: "a borrowed child outlives its owner",
        variables: 3,
        calls: &[
            HeapCall::Region,
            HeapCall::Put(0),
            HeapCall::Region,
            HeapCall::Put(1),
            HeapCall::Object,
            HeapCall::Put(2),
            HeapCall::Load(1),
            HeapCall::Number(1),
            HeapCall::Load(2),
            HeapCall::Write,
            HeapCall::Load(0),
            HeapCall::Number(1),
            HeapCall::Load(1),
            HeapCall::Write,
            HeapCall::Unset(1),
            HeapCall::Unset(0),
        ],
        fault: None,
        last: None,
        asked: &[
            (Question::Owner, 2, Ok(Answer::Label(Label::Region))),
            (Question::Refs, 2, Ok(Answer::Number(2))),
        ],
    },
    HeapRow {
        name: "orphaned_child",
        variables: 2,
        calls: &[
            HeapCall::Region,
            HeapCall::Put(0),
            HeapCall::Region,
            HeapCall::Put(1),
            HeapCall::Load(0),
            HeapCall::Number(1),
            HeapCall::Load(1),
            HeapCall::Write,
            HeapCall::Unset(0),
        ],
        fault: None,
        last: None,
        asked: &[
            (Question::OpenChildren, 1, Ok(Answer::Number(0))),
            (Question::Refs, 1, Ok(Answer::Number(1))),
            (Question::IsClosed, 1, Ok(Answer::Truth(true))),
        ],
    },
    HeapRow {
        name: "a field that is taken is gone",
        variables: 2,
        calls: &[
            HeapCall::Object,
            HeapCall::Put(0),
            HeapCall::Object,
            HeapCall::Put(1),
            HeapCall::Load(0),
            HeapCall::Number(1),
            HeapCall::Lift(1),
            HeapCall::Write,
            HeapCall::Load(0),
            HeapCall::Number(1),
            HeapCall::Take,
            HeapCall::Put(1),
            HeapCall::Load(0),
            HeapCall::Number(1),
            HeapCall::Take,
        ],
        fault: Some(Fault::NoField),
        last: Some(Value::Int(1)),
        asked: &[(Question::Refs, 1, Ok(Answer::Number(1)))],
    },
    HeapRow {
        name: "a region goes into its child",
        variables: 2,
        calls: &[
            HeapCall::Region,
            HeapCall::Put(0),
            HeapCall::Region,
            HeapCall::Put(1),
            HeapCall::Load(0),
            HeapCall::Number(1),
            HeapCall::Load(1),
            HeapCall::Write,
            HeapCall::Load(1),
            HeapCall::Load(0),
            HeapCall::Merge,
            HeapCall::Pop,
        ],
        fault: None,
        last: Some(Value::Obj(ObjId { birth: 0, seq: 2 })),
        asked: &[
            (Question::Owner, 0, Ok(Answer::Label(Label::Region))),
            (Question::Borrowed, 1, Ok(Answer::Number(2))),
            (Question::Borrowed, 0, Err(Fault::NotBridge)),
            (Question::Refs, 1, Ok(Answer::Number(2))),
        ],
    },
    HeapRow {
        name: "a refused merge leaves its operands",
        variables: 2,
        calls: &[
            HeapCall::Region,
            HeapCall::Put(0),
            HeapCall::Object,
            HeapCall::Put(1),
            HeapCall::Load(0),
            HeapCall::Load(1),
            HeapCall::Merge,
        ],
        fault: Some(Fault::NotBridge),
        last: Some(Value::Obj(ObjId { birth: 0, seq: 2 })),
        asked: &[
            (Question::Owner, 1, Ok(Answer::Label(Label::Local))),
            (Question::Borrowed, 0, Ok(Answer::Number(2))),
            (Question::Refs, 1, Ok(Answer::Number(2))),
        ],
    },
    HeapRow {
        name: "a region that is dissolved has local rows",
        variables: 2,
        calls: &[
            HeapCall::Region,
            HeapCall::Put(0),
            HeapCall::Object,
            HeapCall::Put(1),
            HeapCall::Load(0),
            HeapCall::Number(1),
            HeapCall::Load(1),
            HeapCall::Write,
            HeapCall::Load(0),
            HeapCall::Dissolve,
            HeapCall::Pop,
        ],
        fault: None,
        last: Some(Value::Obj(ObjId { birth: 0, seq: 2 })),
        asked: &[
            (Question::Owner, 0, Ok(Answer::Label(Label::Local))),
            (Question::Owner, 1, Ok(Answer::Label(Label::Local))),
            (Question::Refs, 1, Ok(Answer::Number(2))),
            (Question::IsClosed, 0, Err(Fault::NotBridge)),
        ],
    },
    HeapRow {
        name: "an object of a region is frozen, and read and written then",
        variables: 2,
        calls: &[
            HeapCall::Region,
            HeapCall::Put(0),
            HeapCall::Object,
            HeapCall::Put(1),
            HeapCall::Load(1),
            HeapCall::Number(7),
            HeapCall::Number(42),
            HeapCall::Write,
            HeapCall::Load(0),
            HeapCall::Number(1),
            HeapCall::Load(1),
            HeapCall::Write,
            HeapCall::Load(1),
            HeapCall::Freeze,
            HeapCall::Number(7),
            HeapCall::Read,
            HeapCall::Load(1),
            HeapCall::Number(7),
            HeapCall::Number(0),
            HeapCall::Write,
        ],
        fault: Some(Fault::FrozenWrite),
        last: Some(Value::Int(0)),
        asked: &[
            (Question::Owner, 1, Ok(Answer::Label(Label::Frozen))),
            (Question::Refs, 1, Err(Fault::Kind)),
            (Question::Borrowed, 0, Ok(Answer::Number(1))),
        ],
    },
    HeapRow {
        name: "a frozen bridge takes its region along, and its child is left",
        variables: 2,
        calls: &[
            HeapCall::Region,
            HeapCall::Put(0),
            HeapCall::Region,
            HeapCall::Put(1),
            HeapCall::Load(0),
            HeapCall::Number(1),
            HeapCall::Load(1),
            HeapCall::Write,
            HeapCall::Load(1),
            HeapCall::Freeze,
            HeapCall::Pop,
        ],
        fault: None,
        last: Some(Value::Obj(ObjId { birth: 0, seq: 2 })),
        asked: &[
            (Question::Owner, 0, Ok(Answer::Label(Label::Region))),
            (Question::Owner, 1, Ok(Answer::Label(Label::Frozen))),
            (Question::Borrowed, 1, Err(Fault::NotBridge)),
            (Question::OpenChildren, 0, Ok(Answer::Number(0))),
            (Question::IsClosed, 0, Ok(Answer::Truth(true))),
        ],
    },
    HeapRow {
        name: "a closed region is the content of a cown",
        variables: 1,
        calls: &[HeapCall::Region, HeapCall::Cown],
        fault: None,
        last: Some(Value::Cown(CownId { birth: 0, seq: 1 })),
        asked: &[(Question::Owner, 1, Ok(Answer::Label(Label::Cown)))],
    },
    HeapRow {
        name: "a cown that was made isn't held",
        variables: 1,
        calls: &[
            HeapCall::Region,
            HeapCall::Cown,
            HeapCall::Number(1),
            HeapCall::Read,
        ],
        fault: Some(Fault::NotAcquired),
        last: Some(Value::Int(1)),
        asked: &[(Question::Owner, 1, Ok(Answer::Label(Label::Cown)))],
    },
    HeapRow {
        name: "a region in a variable is open",
        variables: 1,
        calls: &[
            HeapCall::Region,
            HeapCall::Put(0),
            HeapCall::Load(0),
            HeapCall::Cown,
        ],
        fault: Some(Fault::Open),
        last: Some(Value::Obj(ObjId { birth: 0, seq: 1 })),
        asked: &[(Question::Borrowed, 0, Ok(Answer::Number(2)))],
    },
    HeapRow {
        name: "a local object is no content",
        variables: 1,
        calls: &[HeapCall::Object, HeapCall::Cown],
        fault: Some(Fault::LocalInCown),
        last: Some(Value::Obj(ObjId { birth: 0, seq: 1 })),
        asked: &[(Question::Owner, 1, Ok(Answer::Label(Label::Local)))],
    },
    HeapRow {
        name: "an object inside a region is no content",
        variables: 2,
        calls: &[
            HeapCall::Region,
            HeapCall::Put(0),
            HeapCall::Object,
            HeapCall::Put(1),
            HeapCall::Load(0),
            HeapCall::Number(1),
            HeapCall::Load(1),
            HeapCall::Write,
            HeapCall::Load(1),
            HeapCall::Cown,
        ],
        fault: Some(Fault::Interior),
        last: Some(Value::Obj(ObjId { birth: 0, seq: 2 })),
        asked: &[(Question::Refs, 1, Ok(Answer::Number(3)))],
    },
    HeapRow {
        name: "an owned region is judged by its owner before its borrows",
        variables: 2,
        calls: &[
            HeapCall::Region,
            HeapCall::Put(0),
            HeapCall::Region,
            HeapCall::Put(1),
            HeapCall::Load(0),
            HeapCall::Number(1),
            HeapCall::Load(1),
            HeapCall::Write,
            HeapCall::Load(1),
            HeapCall::Cown,
        ],
        fault: Some(Fault::SecondOwner),
        last: Some(Value::Obj(ObjId { birth: 0, seq: 2 })),
        asked: &[(Question::Borrowed, 1, Ok(Answer::Number(2)))],
    },
    HeapRow {
        name: "a close leaves the one variable",
        variables: 3,
        calls: &[
            HeapCall::Region,
            HeapCall::Put(0),
            HeapCall::Object,
            HeapCall::Put(1),
            HeapCall::Load(0),
            HeapCall::Number(1),
            HeapCall::Load(1),
            HeapCall::Write,
            HeapCall::Load(0),
            HeapCall::Put(2),
            HeapCall::Close(0),
        ],
        fault: None,
        last: None,
        asked: &[
            (Question::Borrowed, 0, Ok(Answer::Number(1))),
            (Question::IsClosed, 0, Ok(Answer::Truth(true))),
            (Question::Owner, 1, Ok(Answer::Label(Label::Value))),
            (Question::Owner, 2, Ok(Answer::Label(Label::Value))),
        ],
    },
    HeapRow {
        name: "a local object isn't closed",
        variables: 1,
        calls: &[HeapCall::Object, HeapCall::Put(0), HeapCall::Close(0)],
        fault: Some(Fault::NotBridge),
        last: None,
        asked: &[(Question::Owner, 0, Ok(Answer::Label(Label::Local)))],
    },
];

// The table as it is seen by callers, who need nothing of what stands in it.
fn rows() -> &'static [HeapRow] {
    &ROWS
}

// Whether questions on a heap's slots have these answers.
fn has_answers<S: Store>(
    heap: &mut Heap<S>,
    asked: &[(Question, usize, Result<Answer, Fault>)],
) -> bool {
    for (question, at, expected) in asked {
        if *at >= heap.slots() || heap.ask(*question, *at) != *expected {
            return false;
        }
    }
    true
}

// Whether the last slot holds that value, where one is given.
fn has_last<S: Store>(heap: &Heap<S>, last: Option<Value>) -> bool {
    match last {
        Some(v) => heap.slots() > 0 && heap.top(0) == Some(v),
        None => true,
    }
}

// The name of the first row that doesn't hold.
fn broken_row<S: Store, L: Ledger>(
    alloc: Global,
    steps: &mut Steps<L>,
) -> Result<Option<&'static str>, OutOfMemory> {
    for row in rows() {
        let mut after = heap_after::<S, L>(alloc, row.variables, row.calls, steps)?;
        let holds = after.fault == row.fault
            && has_last(&after.heap, row.last)
            && has_answers(&mut after.heap, row.asked);
        if !holds {
            return Ok(Some(row.name));
        }
    }
    Ok(None)
}

/// The name of the first list of calls after which a heap over such a store isn't what it
/// should be, where there is one. After `OutOfMemory`, which may come at any call that takes
/// memory, nothing is told.
pub fn failed_heap_row<S: Store, L: Ledger>(
    alloc: Global,
    blank: Blank,
) -> Result<Option<&'static str>, OutOfMemory>
    requires name { blank.name ≡ L.name }
    requires parts { blank.parts ≡ L.parts }
    requires some { 0 < L.parts }
{
    let mut steps = Steps::<L>::new(blank);
    broken_row::<S, L>(alloc, &mut steps)
}
