//! The value of a node at prices, found quickly: what an ascent climbs by.
//!
//! It is the Lagrangian bound in numbers of 64 bits, by one walk over each unit's periods. Nothing is proved of it but that it is safe:
//! the value that a bound rests on is reckoned anew, and exactly, by others.
#![tactic(auto)]

mod amounts;
mod caps;
mod cells;
mod decisions;
mod evaluation;
mod evaluator;
mod outputs;
mod prices;
mod ramped_walk;
mod run_cost;
mod starts;
mod twins;
mod unit;
mod walk;
mod ways;

pub use amounts::SCALE;
pub use caps::Caps;
pub use decisions::Decisions;
pub use evaluation::Evaluation;
pub use evaluator::QuickEvaluator;
