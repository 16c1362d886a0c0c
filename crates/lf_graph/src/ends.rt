use lf_base::ObjId;

/// The first and the last row of an owner that has rows.
#[derive(Clone, Copy, Debug)]
pub struct Ends {
    pub first: ObjId,
    pub last: ObjId,
}
