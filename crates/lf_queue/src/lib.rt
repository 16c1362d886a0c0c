//! Who waits for which cowns, and who may start.
//!
//! It stands on `lf_base` for jobs and cowns. A job waits until no running job holds a
//! cown of it and no waiting job of lower number names one. `Queue` finds the ready jobs by
//! their place among all ready ones, without a walk over those that wait.
//!
//! It promises that each call does to the waiting and the running jobs what its contract
//! says, that `ready` and `ready_at` answer by the definition over these lists, and that
//! only `reserve` takes memory. `laws` has what was proved of readiness.
#![tactic(auto)]

pub mod callers;
pub mod laws;
mod line;
mod queue;
#[cfg(test)]
mod queue_tests;
mod ready_set;
mod row;
mod spot;

pub use queue::Queue;
