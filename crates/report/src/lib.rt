//! What the program prints: the report of a found answer, of a roll, of what was done with a certificate or of uplifts on its output, and the
//! line of a fault on its error output. No call takes memory.
#![tactic(auto, unfolding(outside::specs::Lines::line, outside::specs::Lines::list_line))]

mod claims;
pub mod demo;
pub mod fault;
mod fault_text;
mod found;
mod names;
mod rolled;
mod schedule;
mod stuck;
mod upgraded;
mod uplift;

pub use claims::write_claims;
pub use demo::{DEMO_GAP, write_demo};
pub use fault::{Fault, UpliftRefusal};
pub use fault_text::write_fault;
pub use found::write_found;
pub use rolled::write_rolled;
pub use upgraded::write_upgraded;
pub use uplift::{UpliftNumbers, write_uplift};
