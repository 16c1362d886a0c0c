use lf_base::{Listed, Place, TextId};

/// A name of the script: its place among the texts, and where it stands.
#[derive(Clone, Copy, Debug, PartialEq, Eq)]
pub struct Name {
    pub id: TextId,
    pub place: Place,
}

/// Names, in the order in which they stand.
pub type Names = Listed<Name>;
