//! The value of a node of the branch tree at a price table as the checker reckons it: each unit's by a walk over its
//! states, and by nothing of the search.
//!
//! A unit's value at a table depends on what is decided of that unit alone. So of the table that was loaded last each
//! unit's terms are kept, with its value and the decisions that the value is for, and a leaf costs a walk for each unit
//! of which something else is decided than at the leaf before, and one addition for each other unit. Memory is that of
//! one table's terms. An exact value is asked only whether it is enough, and its walks end where it is; what they found
//! is kept too.
#![tactic(auto)]

mod empty;
mod entries;
mod exact;
mod fixes;
mod least;
mod loading;
mod node_value;
mod units;
mod unscheduled;

pub use empty::is_empty;
pub use entries::{ExactEntry, TableEntries, UnitEntry};
pub use exact::{ExactRoom, exact_reaches};
pub use fixes::{fill_fixes, undecided};
pub use least::Least;
pub use loading::load;
pub use node_value::value;
pub use unscheduled::is_unscheduled;
