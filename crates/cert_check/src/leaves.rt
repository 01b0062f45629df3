//! The nodes of a certificate's tree, one after another in preorder.

ghost use Rattle.std.specs.Prelude.{◌≡◌, ◌↔◌, ◌<◌, ◌+◌, ◌^◌, suc, IfOk, IsTrue, length};
ghost use Rattle.uc_model.specs.Prelude.{IsLawfulInstance};
ghost use Rattle.cert_text.specs.CertificateText.{IsNodeWithin};
ghost use Rattle.cert_text.specs.Reading.{node_of};
ghost use Rattle.cert_check.specs.Refusals.{refusal_of};
ghost use Rattle.cert_check.specs.Visits.{IsSound};
ghost use Rattle.cert_check.specs.inside.Leaves.{IsReady};
ghost use Rattle.cert_check.specs.inside.Nodes.{AreCheckable, IsFirstCode};
ghost use Rattle.cert_check.specs.inside.Walks.{IsPath, visit_of};

use crate::leaf::Leaves;
use crate::path::{go_on, is_decided};
use cert_text::{Cert, CertNode};
use dual_model::Fixing;
use std::alloc::Global;
use uc_model::{Instance, NoMemory, Refusal};

/// The code of the first node that isn't sound. It takes memory for one table's terms and for the longest path.
pub(crate) fn first_unsound(
    alloc: Global,
    instance: &Instance,
    cert: &Cert,
) -> Result<Option<Refusal>, NoMemory>
    requires lawful { IsLawfulInstance instance.now }
    requires checkable { AreCheckable instance.now cert.now }
    ensures { IfOk result (IsFirstCode instance.now cert.now) }
{
    let mut leaves = Leaves::new(alloc, instance)?;
    let first = walked(alloc, &mut leaves, instance, cert);
    drop(leaves);
    first
}

// The same, by a walk over the nodes with room for their checks.
fn walked(
    alloc: Global,
    leaves: &mut Leaves,
    instance: &Instance,
    cert: &Cert,
) -> Result<Option<Refusal>, NoMemory>
    requires lawful { IsLawfulInstance instance.now }
    requires checkable { AreCheckable instance.now cert.now }
    requires ready { IsReady instance.now cert.now.tables leaves.old }
    ensures { IfOk result (IsFirstCode instance.now cert.now) }
{
    let nodes = cert.tree.as_slice();
    let mut path = Vec::new(alloc);
    for i in 0..nodes.len() {
        if !is_sound(alloc, leaves, instance, cert, &path, &nodes[i])? {
            return Ok(Some(code(&nodes[i], i as u64 + 1)));
        }
        if !go_on(&mut path, &nodes[i])? {
            return Ok(None);
        }
    }
    Ok(None)
}

// Whether the node at the path is sound: a split is on an undecided cell, and a leaf is what it claims.
fn is_sound(
    alloc: Global,
    leaves: &mut Leaves,
    instance: &Instance,
    cert: &Cert,
    path: &[Fixing],
    node: &CertNode,
) -> Result<bool, NoMemory>
    requires lawful { IsLawfulInstance instance.now }
    requires checkable { AreCheckable instance.now cert.now }
    requires ready { IsReady instance.now cert.now.tables leaves.old }
    requires path { IsPath instance.now path.now }
    requires node { IsNodeWithin cert.now.periods cert.now.thermal (length cert.now.tables) (node_of node.now) }
    ensures ready { IfOk result (λ sound. IsReady instance.now cert.now.tables leaves.new) }
    ensures sound { IfOk result (λ sound. IsTrue sound ↔ IsSound instance.now cert.now.tables cert.now.bound (visit_of path.now node.now)) }
{
    match node {
        CertNode::Split { g, t } => Ok(!is_decided(path, *g, *t)),
        CertNode::Bound(_)
        | CertNode::Ray(_)
        | CertNode::Empty(_)
        | CertNode::Exact(_)
        | CertNode::ExactRay(_)
        | CertNode::ExactEmpty(_) => leaves.is_sound(alloc, instance, cert, path, node),
    }
}

// The code by which a node of that number, from 1, is refused.
fn code(node: &CertNode, number: u64) -> Refusal
    ensures { result ≡ refusal_of (node_of node.now) number }
{
    match node {
        CertNode::Bound(_) | CertNode::Exact(_) => Refusal::C4 { node: number },
        CertNode::Ray(_) | CertNode::ExactRay(_) => Refusal::C5 { node: number },
        CertNode::Empty(_) | CertNode::ExactEmpty(_) => Refusal::C6 { node: number },
        CertNode::Split { .. } => Refusal::C7 { node: number },
    }
}
