//! Pivots on a table of whole numbers, exact in 128 bits: the simplex method (G. B. Dantzig, "Linear Programming and Extensions", 1963) in two
//! phases and without fractions, with the choice by least index (R. G. Bland, "New finite pivoting rules for the simplex method", Mathematics of
//! Operations Research 2, 1977). A run ends, or tells the number that meets a limit.
#![tactic(auto)]

mod combining;
mod entries;
mod halt;
mod laws;
mod numbers;
mod pivots;
mod row;
mod rows;
mod stages;
mod stop;
mod tableau;
mod target;
mod wide;

pub use halt::Halt;
pub use laws::{
    bases_solve, basic_values_are_not_negative, pivots_keep_bases, pivots_keep_right_sides,
    pivots_keep_solutions, runs_keep,
};
pub use numbers::{common_divisor, quotient};
pub use pivots::MAX_PIVOTS;
pub use row::Row;
pub use stages::run;
pub use stop::{Stop, StopCause};
pub use tableau::Tableau;
pub use target::Target;
pub use wide::{Wide, product};
