//! Fractions in lowest terms and least common multiples of whole numbers in 128 bits, which tell the two factors of a product that is too large.
#![tactic(auto)]

mod fraction;
pub mod laws;

pub use fraction::{Fraction, least_multiple};
