use lf_base::CownId;

// The spot of a job on the line of one of its cowns: the cown, the job's row, and the row of
// the next job on that line, where there is one and this job hasn't ended.
#[derive(Clone, Copy, Debug)]
pub(crate) struct Spot {
    pub(crate) cown: CownId,
    pub(crate) row: usize,
    pub(crate) next: Option<usize>,
}
