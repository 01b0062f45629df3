//! The way of a walk over the nodes of a tree in preorder, without recursion: the decisions on the path to the node that
//! comes next.

ghost use Rattle.std.specs.Prelude.{◌≡◌, ◌<◌, IfOk};
ghost use Rattle.dual_model.specs.Prelude.{is_decided as is_decided_at};
ghost use Rattle.cert_check.specs.inside.Walks.{Instance, IsPath, MayGoOn, StepsTo, TurnsTo};

use cert_text::CertNode;
use dual_model::Fixing;
use uc_model::NoMemory;

/// Whether the path decides the cell.
pub(crate) fn is_decided(path: &[Fixing], g: u32, t: u32) -> bool
    ensures { result ≡ is_decided_at (record { fixings = path.now }) g t }
{
    path.iter().any(|fixing| fixing.g == g && fixing.t == t)
}

/// Goes on behind a node: below a split to its off-child, behind a leaf to the next on-child that is still to come. It
/// answers whether there is one.
pub(crate) fn go_on(path: &mut Vec<Fixing>, node: &CertNode) -> Result<bool, NoMemory>
    ensures steps { IfOk result (StepsTo path.old.items node.now path.new.items) }
    ensures path { IfOk result (λ going. (instance : Instance) → IsPath instance path.old.items → MayGoOn instance path.old.items node.now → IsPath instance path.new.items) }
{
    match node {
        CertNode::Split { g, t } => {
            path.push(Fixing {
                g: *g,
                t: *t,
                on: false,
            })?;
            Ok(true)
        }
        CertNode::Bound(_)
        | CertNode::Ray(_)
        | CertNode::Empty(_)
        | CertNode::Exact(_)
        | CertNode::ExactRay(_)
        | CertNode::ExactEmpty(_) => turn(path),
    }
}

// Leaves the subtrees that are done, and turns to the on-child of the last decision for an off-child.
fn turn(path: &mut Vec<Fixing>) -> Result<bool, NoMemory>
    ensures turns { IfOk result (TurnsTo path.old.items path.new.items) }
    ensures path { IfOk result (λ going. (instance : Instance) → IsPath instance path.old.items → IsPath instance path.new.items) }
{
    while let Some(last) = path.pop() {
        if !last.on {
            path.push(Fixing { on: true, ..last })?;
            return Ok(true);
        }
    }
    Ok(false)
}
