//! What each worker has by itself.

use uc_model::List;

/// The least cost that the worker has seen, in micro-dollars, and its tickets, which are nodes: those in its hand,
/// and those in its queue, the first to leave first.
#[derive(Drop)]
pub struct WorkerState {
    pub seen: Option<i64>,
    pub hand: List<u32>,
    pub queue: List<u32>,
}
