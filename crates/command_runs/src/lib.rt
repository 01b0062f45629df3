//! What all commands share: reading an instance and a certificate, writing a certificate, telling a fault, and how a run ends.
#![tactic(auto)]

mod certificate;
pub mod ending;
pub mod input;
mod output;
mod slot_bytes;

pub use certificate::read_certificate;
pub use ending::{End, Failure, end_of, end_of_report, tell_fault};
pub use input::{ReadOptions, read_instance};
pub use output::save;
