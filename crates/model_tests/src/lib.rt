//! Tests of the numbers and values of the model, of convex functions, and of units that are drawn, beside all their patterns.
#![tactic(auto)]

#[cfg(test)]
mod cells;
#[cfg(test)]
mod drawn;
#[cfg(test)]
mod draws;
#[cfg(test)]
mod enumeration;
#[cfg(test)]
mod functions;
#[cfg(test)]
mod numbers;
#[cfg(test)]
mod paths;
#[cfg(test)]
mod values;
