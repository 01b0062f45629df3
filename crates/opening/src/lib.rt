//! What a search does before any claim: the evaluator of an instance's nodes, the table that the root has at first, and whether the opening
//! shows that no schedule exists.
#![tactic(auto)]

mod evaluator;
mod kept;
mod rays;
mod root_tables;

pub use evaluator::Evaluator;
pub use rays::{excluding_ray, is_positive, node_ray};
pub use root_tables::{Priced, dispatched_root, unpriced_root};
