//! The check of a whole certificate.

ghost use Rattle.std.specs.Prelude.{◌≡◌, ◌↔◌, ◌<◌, ◌^◌, IfOk, IfErr, IsTrue, length};
ghost use Rattle.std.specs.List.{list_any};
ghost use Rattle.uc_model.specs.Prelude.{IsLawfulInstance};
ghost use Rattle.dual_model.specs.Prelude.{IsClaimTrue};
ghost use Rattle.cert_check.specs.Answers.{IsAccepted, IsFaultOf, IsRead, is_none};
ghost use Rattle.cert_check.specs.inside.Steps.{FitsInstance, ReadsPrices, ReadClaimFits, is_bound_leaf};

use crate::claims::{CheckFault, Claims};
use crate::leaves::first_unsound;
use crate::numbers::first_off;
use crate::schedule::schedule_cost;
use cert_text::{Cert, CertNode};
use std::alloc::Global;
use uc_model::{Instance, Refusal};

/// What the certificate claims, where it holds for the instance; else the first code of the order C9, C10, C1, C2, C3,
/// C8, and then C4 to C7 node by node in preorder, or `NoMemory` where memory is refused.
pub fn check(alloc: Global, instance: &Instance, cert: &Cert) -> Result<Claims, CheckFault>
    requires lawful { IsLawfulInstance instance.now }
    requires text { IsRead cert.now }
    ensures holds { IfOk result (IsAccepted instance.now cert.now) }
    ensures claims { IfOk result (λ claims. IsClaimTrue instance.now claims.bound) }
    ensures refused { IfErr result (IsFaultOf instance.now cert.now) }
{
    if !fits_instance(instance, cert) {
        return Err(CheckFault::Refused(Refusal::C9));
    }
    if !reads_prices(instance, cert) {
        return Err(CheckFault::Refused(Refusal::C10));
    }
    let off = first_off(alloc, &cert.tables)?;
    if let Some(i) = off {
        return Err(CheckFault::Refused(Refusal::C1 {
            table: i as u32 + 1,
        }));
    }
    let cost = match schedule_cost(instance, &cert.schedule) {
        Ok(cost) => cost,
        Err(code) => return Err(CheckFault::Refused(code)),
    };
    if !does_claim_fit(cert) {
        return Err(CheckFault::Refused(Refusal::C8));
    }
    match first_unsound(alloc, instance, cert) {
        Ok(None) => Ok(Claims {
            cost,
            bound: cert.bound,
            infeasible: claims_infeasible(&cert.bound),
        }),
        Ok(Some(code)) => Err(CheckFault::Refused(code)),
        Err(_) => Err(CheckFault::NoMemory),
    }
}

// Whether what is claimed is that no schedule exists: nothing is a bound then.
fn claims_infeasible(bound: &Option<i128>) -> bool
    ensures { result ≡ is_none bound.now }
{
    match bound {
        Some(_) => false,
        None => true,
    }
}

// Whether the size is the instance's.
fn fits_instance(instance: &Instance, cert: &Cert) -> bool
    ensures { IsTrue result ↔ FitsInstance instance.now cert.now }
{
    cert.periods == instance.periods
        && cert.thermal as usize == instance.thermal.as_slice().len()
        && cert.renewable as usize == instance.renewable.as_slice().len()
}

// Whether the prices of shortages are the instance's.
fn reads_prices(instance: &Instance, cert: &Cert) -> bool
    ensures { IsTrue result ↔ ReadsPrices instance.now cert.now }
{
    cert.a == instance.a && cert.b == instance.b
}

// Whether the claim fits the schedule and the leaves.
fn does_claim_fit(cert: &Cert) -> bool
    ensures { IsTrue result ↔ ReadClaimFits cert.now cert.now.bound }
{
    match cert.bound {
        Some(_) => has_bound_leaf(cert.tree.as_slice()),
        None => cert.schedule.is_none() && !has_bound_leaf(cert.tree.as_slice()),
    }
}

fn has_bound_leaf(nodes: &[CertNode]) -> bool
    ensures { result ≡ list_any is_bound_leaf nodes.now }
{
    nodes.iter().any(|node| matches!(node, CertNode::Bound(_) | CertNode::Exact(_)))
}
