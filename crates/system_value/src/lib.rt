//! What demand, reserves and renewable units add to a node's value at a price table. It is the same at every node.
#![tactic(auto)]

mod demand;
mod priced;
mod renewable;

pub use demand::system_value;
pub use renewable::renewables_value;
