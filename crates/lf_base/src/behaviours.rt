use crate::lists::{Cowns, Values};

/// A waiting behaviour: its number, the number of its body in the code, the cowns
/// that it is to hold, and the values of its body's parameters.
#[derive(Debug, Drop)]
pub struct Job {
    pub id: u32,
    pub body: u32,
    pub cowns: Cowns,
    pub values: Values,
}

/// A behaviour that a `when` statement asks for. It gets its number when the
/// behaviour that made it ends.
#[derive(Debug, Drop)]
pub struct Spawn {
    pub body: u32,
    pub cowns: Cowns,
    pub values: Values,
}
