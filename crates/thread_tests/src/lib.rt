//! Tests of the objects that threads share, and of the search by them, by one thread and by two.
#![tactic(auto)]

#[cfg(test)]
mod books;
#[cfg(test)]
mod incumbents;
#[cfg(test)]
mod pools;
#[cfg(test)]
mod searches;
#[cfg(test)]
mod together;
