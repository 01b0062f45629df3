//! What the caller does once the workers have ended: it commits each claim that is still held, and then claims open nodes itself.
#![tactic(auto)]

mod closing;
mod host;
mod settling;

pub use closing::{Closing, Progress, close};
pub use host::Host;
