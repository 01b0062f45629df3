//! The value of a node of the branch tree at a price table: the Lagrangian bound, with what each unit adds to it and a
//! pattern of each that attains its part.
#![tactic(auto)]

mod exact_part;
mod fixes;
pub mod inheritance;
pub mod node_value;
mod room;
mod units;
mod valued;

pub use dual_model::Valued;
pub use inheritance::{Inherited, child};
pub use node_value::{exact_value, value, value_in};
pub use room::Room;
pub use valued::ValueFault;
