use crate::parcel::Parcel;
use lf_base::{Held, Stored, Value};
use lf_frozen::FrozenRows;
use lf_graph::Store;

/// What stands behind a cown while no behaviour holds it: a plain value, or a region tree
/// whose first region the cown's field names.
#[derive(Drop)]
pub enum Content<S: Store> {
    Plain(Value),
    Region(Parcel<S>),
}

impl<S: Store> Stored for Content<S> {
    ghost use Rattle.lf_parcel.specs.Contents.{content_rows, content_value};

    ghost content = { content_value };

    ghost rows = { content_rows };
}

/// What a behaviour leaves: the contents of the cowns that it held and of those that it
/// made, and the rows that it froze.
#[derive(Drop)]
pub struct Released<S: Store> {
    pub held: Held<Content<S>>,
    pub made: Held<Content<S>>,
    pub rows: FrozenRows,
}
