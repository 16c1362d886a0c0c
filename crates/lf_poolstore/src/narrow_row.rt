use lf_base::{Key, ObjId, Value};

/// A row with at most one field, out of any unit.
#[derive(Clone, Copy, Debug)]
pub struct NarrowRow {
    pub name: ObjId,
    pub refs: u64,
    pub field: Option<(Key, Value)>,
}
