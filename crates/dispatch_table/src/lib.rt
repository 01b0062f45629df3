//! The table of a commitment's dispatch at its start: the rows of the simplex method (G. B. Dantzig, "Linear Programming and Extensions", 1963) in
//! whole numbers, with the amounts and limits that its columns and rows stand for.
#![tactic(auto)]

mod amounts;
mod basis;
mod column;
mod columns;
mod given;
mod limits;
mod made;
mod making;
mod outputs;
mod program;
mod rights;
mod rows;
mod scale;
mod table;
mod times;

pub use made::{Made, Start};
pub use making::start;
