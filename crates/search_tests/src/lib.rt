//! Tests of the public calls of the search machine.
#![tactic(auto)]

#[cfg(test)]
mod acts;
#[cfg(test)]
mod random;
#[cfg(test)]
mod refused;
