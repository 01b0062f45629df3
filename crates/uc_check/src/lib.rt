//! The commands `check` and `upgrade`, and the checking of files that `uplift` begins with too.
#![tactic(auto)]

mod check;
mod upgrade;
pub mod verify;

pub use check::check_certificate;
pub use upgrade::upgrade_certificate;
