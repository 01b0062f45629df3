//! What a search runs on.

use outside::Gate;
use std::alloc::Global;
use std::sync::Wait;

/// What a search runs on: the runtime of its threads, memory, and the gate that each claim enters.
#[derive(Drop)]
pub struct Host<'a, R: Wait, G: Gate> {
    pub rt: &'a R,
    pub alloc: Global,
    pub gate: &'a G,
}
