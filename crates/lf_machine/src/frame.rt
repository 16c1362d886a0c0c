use lf_base::FaultAt;

/// A frame: its body, the address of its next instruction, and the place of its first
/// slot.
#[derive(Clone, Copy, Debug, PartialEq, Eq)]
pub(crate) struct FrameAt {
    pub(crate) body: u32,
    pub(crate) at: usize,
    pub(crate) base: usize,
}

/// Whether a behaviour goes on, and how it ended if it doesn't.
#[derive(Clone, Copy, Debug, PartialEq, Eq)]
pub(crate) enum Course {
    Going,
    Finished,
    Failed(FaultAt),
}
