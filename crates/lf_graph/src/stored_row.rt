use crate::cells::FieldEnds;
use lf_base::{Link, ObjId, Owner};

/// What is kept of a row: its name, its owner, its count of edges, and the ends of its
/// fields.
#[derive(Clone, Copy, Debug)]
pub struct StoredRow {
    pub name: ObjId,
    pub owner: Owner,
    pub refs: u64,
    pub fields: FieldEnds,
}

/// A row with its neighbours under its owner.
#[derive(Clone, Copy, Debug)]
pub struct Linked {
    pub row: StoredRow,
    pub link: Link<ObjId>,
}
