//! A reader of JSON (RFC 8259) that keeps every digit of a number.
#![tactic(auto)]

mod bytes;
mod escape;
mod key;
mod number;
mod reader;
mod text;
mod token;
mod types;
mod value;

pub use reader::read;
pub use types::{Json, JsonFault, Number, Pair};
