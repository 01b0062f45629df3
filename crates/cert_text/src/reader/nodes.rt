//! Trees.

ghost use Rattle.std.specs.Prelude.{◌≡◌, ◌+◌, ◌<◌, ◌^◌, map, Ok, Err};
ghost use Rattle.cert_text.specs.Reading.{node_of};
ghost use Rattle.cert_text.specs.Grammar.{AreSizes};
ghost use Rattle.cert_text.specs.inside.Parts.{GivesPart, owed_after, tree_part, sizes};

use super::lines::take_node;
use super::sizes::Size;
use super::stop::Stop;
use crate::cert::CertNode;
use std::alloc::Global;

// How many trees are owed behind a node, with so many others.
fn owed_behind(others: u64, node: &CertNode) -> u64
    requires { others + 2 < 2 ^ 64 }
    ensures { result ≡ owed_after others (node_of node.now) }
{
    match node {
        CertNode::Split { .. } => others + 2,
        _ => others,
    }
}

/// The nodes of the tree in preorder.
pub(crate) fn take_tree<'a>(
    alloc: Global,
    size: &Size,
    bytes: &'a [u8],
) -> Result<(Vec<CertNode>, &'a [u8]), Stop<'a>>
    requires { AreSizes (sizes size.now) }
    ensures { GivesPart (λ r. (map node_of r.0.items, r.1.now)) result (tree_part (sizes size.now) bytes.now) }
{
    let mut nodes = Vec::new(alloc);
    let mut rest = bytes;
    let mut owed = 1;
    while owed > 0 {
        let Some((node, behind)) = take_node(rest, size) else {
            return Err(Stop::At(rest));
        };
        nodes.push(node)?;
        owed = owed_behind(owed - 1, &node);
        rest = behind;
    }
    Ok((nodes, rest))
}
