//! The check of a whole certificate. It calls nothing of the search, and a yes alone implies what the certificate claims.
//!
//! The nodes of the tree are visited in preorder and without recursion, with the decisions of one path. A split costs a look
//! along its path. A leaf costs a walk for each unit of which something else is decided than at the leaf before, and an
//! addition for each other unit; at another table than the leaf before, it costs a walk for each unit. Memory is that of one
//! table's terms and of the longest path.
#![tactic(auto)]

mod certificate;
mod claims;
mod leaf;
mod leaves;
mod numbers;
mod path;
mod schedule;

pub use certificate::check;
pub use claims::{CheckFault, Claims};
