//! Region trees as owned values, which go from one behaviour to the next.
//!
//! It stands on `lf_graph` for the parts of a store, and on `lf_base` and `lf_laws` for the
//! contents of cowns and their trees. A `Parcel` promises that it is one whole tree of closed
//! regions with its counts; its readers give regions, rows and fields by rising name. `laws`
//! says what carries a tree out of a behaviour's store and into another one.
#![tactic(auto)]

mod content;
mod heads;
pub mod laws;
mod parcel;
mod spots;

pub use content::{Content, Released};
pub use heads::RegionHead;
pub use parcel::Parcel;
