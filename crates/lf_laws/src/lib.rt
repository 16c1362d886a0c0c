//! The laws of ownership, counts and dropping.
//!
//! It stands on `lf_base`, whose specs define them on a plain state without counts
//! and marks. No code runs here: the modules of laws have the theorems, each as the
//! contract of a function with an empty body, and `worked_rows` and `heap_rows` short
//! scripts on which the definitions compute. `laws` has what holds of states and of each
//! change, `edge_laws` and `count_laws` the edges and counts after a change,
//! `refusal_laws` what writes are refused for, `loss_laws` and `drop_laws` what
//! suspects must show and what settling drops, `kept_laws` and `call_laws` what dropping
//! in parts leaves and what each call leaves, `content_laws` one cown's content by itself,
//! `own_name_laws` and `more_given_laws` the names that a call brings and what further
//! frozen rows change. What a crate above cites is proved once, here.
#![tactic(auto)]

pub mod call_laws;
pub mod content_laws;
pub mod count_laws;
pub mod drop_laws;
pub mod edge_laws;
pub mod heap_rows;
pub mod kept_laws;
pub mod laws;
pub mod loss_laws;
pub mod more_given_laws;
pub mod own_name_laws;
pub mod refusal_laws;
pub mod worked_rows;
