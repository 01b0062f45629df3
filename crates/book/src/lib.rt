//! The book: a tree of commitments that several workers share under one lock, with its tables, its log and its claims.
//!
//! Contracts see a book as the record of `specs/BookView`. `specs/Calls` says what each call answers and leaves, and `specs/Running` what
//! holds of every book: its log's commits and its claims, in their order, are a run of `search_machine`'s machine that gives it.
#![tactic(auto)]

pub mod book;
pub mod case;
pub mod claims;
mod log;

pub use book::Book;
pub use case::Case;
pub use claims::{Claim, Claimed, Status};
