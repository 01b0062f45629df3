//! A linear program of whole numbers and the table that the simplex method (G. B. Dantzig, "Linear Programming and Extensions", 1963) makes of it,
//! with slack and artificial columns, a row of their sum and a row of the cost: what a run of pivots on it comes to. Definitions stand in `specs/`, and
//! the laws are the contracts of the module `laws`.
#![tactic(auto)]

pub mod laws;
