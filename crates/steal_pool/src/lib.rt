//! The pool: a deque of nodes for each worker, first in, first out, from which the others steal.
#![tactic(auto)]

mod pool;
pub mod rule;
mod seat;
mod theft;

pub use pool::Pool;
pub use seat::Seat;
