/// A moment in a worker's handling of a behaviour.
#[derive(Clone, Copy, Debug, PartialEq, Eq)]
pub enum Point {
    BeforeRun,
    AfterRun,
}

/// What a worker passes before and after it runs a behaviour. A gate changes
/// nothing; it can hold a worker back for a while.
pub trait Gate {
    /// Is called with the behaviour's number.
    fn pass(&self, behaviour: u32, point: Point);
}

/// A gate that holds nobody.
#[derive(Clone, Copy, Debug)]
pub struct NoGate;

impl Gate for NoGate {
    fn pass(&self, _behaviour: u32, _point: Point) {}
}
