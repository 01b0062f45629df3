//! Who holds a node.

/// The worker, and the node that it holds by a claim; each counts from 0.
#[derive(Clone, Copy)]
pub struct Holder {
    pub worker: u8,
    pub node: u32,
}
