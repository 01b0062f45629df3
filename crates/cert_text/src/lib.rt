//! The text of certificates.
#![tactic(auto, unfolding(outside::specs::Lines::line, outside::specs::Lines::list_line))]

mod cert;
mod certificate;
mod changes;
pub mod laws;
mod reader;
mod schedule;
mod table;
mod tables;
mod tree;

pub use cert::{Cert, CertFault, CertKind, CertNode, Version};
pub use certificate::{write, write_cert};
pub use reader::read;
