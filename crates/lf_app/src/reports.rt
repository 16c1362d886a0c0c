use crate::statuses::Status;
use lf_base::Order;

/// What a call of the program answers.
#[derive(Debug, Drop)]
pub struct Report {
    /// How the call ended.
    pub status: Status,
    /// The journal: the numbers of the behaviours in the order in which they were
    /// committed. It is empty wherever no run began.
    pub order: Order,
}
