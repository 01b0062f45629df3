//! What a certificate claims, and why it is refused.

use uc_model::{NoMemory, Refusal};

/// What is true where a certificate is accepted: `cost` micro-dollars is what its schedule costs at most, where there is
/// one; no schedule costs less than `bound` micro-dollars, where there is a bound; and where `infeasible` there is no schedule.
#[derive(Clone, Copy, Debug)]
pub struct Claims {
    pub cost: Option<i64>,
    pub bound: Option<i128>,
    pub infeasible: bool,
}

/// The certificate is refused by a code, or memory was refused.
#[derive(Clone, Copy, Debug)]
pub enum CheckFault {
    Refused(Refusal),
    NoMemory,
}

impl From<NoMemory> for CheckFault {
    ghost use Rattle.std.specs.Prelude.{◌≡◌};
    ghost use Rattle.cert_check.specs.declared.claims.CheckFault.TheVariants as faults;

    ghost from_gives = { λ _ fault. fault ≡ faults.NoMemory };

    fn from(_: NoMemory) -> CheckFault {
        CheckFault::NoMemory
    }
}
