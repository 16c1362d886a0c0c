use lf_base::{Fields, Listed, ObjId};

/// One frozen object: its name and its fields in their order.
#[derive(Debug, Drop)]
pub struct FrozenRow {
    pub id: ObjId,
    pub fields: Fields,
}

/// Frozen rows, in any order.
pub type FrozenRows = Listed<FrozenRow>;
