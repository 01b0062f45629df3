//! What the workers of a search share, what each keeps, and what they leave: the desk, which has the book and stands under a lock; a worker's
//! tickets, and the cheapest schedule that it has found; and the tree with its log.
#![tactic(auto)]

mod desk;
mod grown;
mod own_best;
mod run;
mod tickets;

pub use desk::{CommitAnswer, Desk, Evaluated, HeldNode, Taken, ending, stored_bound};
pub use grown::Grown;
pub use own_best::{OwnBest, cheaper, is_closed};
pub use run::SearchCase;
pub use tickets::Tickets;
