//! The lines of a tree.

ghost use Rattle.std.specs.Prelude.{◌≡◌, ◌∷◌, [], ℕ, List, suc, ◌<◌, flat_map, map};
ghost use Rattle.std.specs.List.{list_any};
ghost use Rattle.dual_model.specs.Prelude.{Bound};
ghost use Rattle.outside.specs.Lines.{line};
ghost use Rattle.uc_model.specs.Decimal.{whole_text};
ghost use Rattle.branch_tree.specs.Prelude.{place_of, IsLayoutOf, leaf_claim};
ghost use Rattle.cert_text.specs.CertificateText.{SplitNode, leaf_line, node_line, is_exact_node};
ghost use Rattle.cert_text.specs.Reading.{node_of};
ghost use Rattle.cert_text.specs.inside.WrittenParts.{spot_node, tree_nodes, tree_part};

use crate::cert::CertNode;
use branch_tree::{Layout, Leaf, Spot, Tree};
use outside::{Form, Out, put_each, put_place};

// The place, from 0, of a table among those that the leaves use.
#[tactic(auto, using(crate::proofs::Parts::place_found, crate::proofs::Parts::place_past))]
fn place_of(used: &[u32], table: u32) -> usize
    ensures { result ≡ place_of used.now table }
{
    for (place, number) in used.iter().enumerate() {
        if *number == table {
            return place;
        }
    }
    used.len()
}

// A line of one place, from 1, of what stands at `index`, from 0.
fn put_place_line<O: Out>(out: &mut O, first: &[u8], index: usize)
    ensures { O.emits (line first.now (whole_text (suc index) ∷ [])) out.old out.new }
{
    out.put(first);
    out.put(b" ");
    put_place(out, index);
    out.put(b"\n");
}

// A split on a unit in a period, which count from 1 in the text.
fn put_split<O: Out>(out: &mut O, g: u32, t: u32)
    ensures { O.emits (node_line (SplitNode g t)) out.old out.new }
{
    out.put(b"split ");
    put_place(out, g as usize);
    out.put(b" ");
    put_place(out, t as usize);
    out.put(b"\n");
}

// A leaf with a bound at the table of that place, by VE where it is exact, else by V.
fn put_bound<O: Out>(out: &mut O, place: usize, exact: bool)
    ensures { O.emits (leaf_line (Bound exact place)) out.old out.new }
{
    if exact {
        put_place_line(out, b"exact", place);
    } else {
        put_place_line(out, b"bound", place);
    }
}

// A leaf with the place of its table.
fn put_leaf<O: Out>(out: &mut O, used: &[u32], leaf: &Leaf)
    ensures { O.emits (leaf_line (leaf_claim used.now leaf.now)) out.old out.new }
{
    match leaf {
        Leaf::Live { table, exact, .. } | Leaf::Bound { table, exact, .. } => {
            put_bound(out, place_of(used, *table), *exact);
        }
        Leaf::Ray { table } => put_place_line(out, b"ray", place_of(used, *table)),
        Leaf::Empty { g } => put_place_line(out, b"empty", *g as usize),
        Leaf::ExactRay { table } => put_place_line(out, b"exact-ray", place_of(used, *table)),
        Leaf::ExactEmpty { g } => put_place_line(out, b"exact-empty", *g as usize),
    }
}

// What stands at a node.
fn put_spot<O: Out>(out: &mut O, used: &[u32], spot: &Spot)
    ensures { O.emits (node_line (spot_node used.now spot.now)) out.old out.new }
{
    match spot {
        Spot::Inner { g, t, .. } => put_split(out, *g, *t),
        Spot::Leaf(leaf) => put_leaf(out, used, leaf),
    }
}

/// The nodes of the tree in preorder.
pub(crate) fn put_nodes<O: Out>(out: &mut O, tree: &Tree, layout: &Layout)
    requires { IsLayoutOf tree.now layout.now }
    ensures { O.emits (tree_part tree.now) out.old out.new }
{
    tree.keeps_cover();
    for node in layout.nodes.as_slice() {
        put_spot(out, layout.tables.as_slice(), &tree.node(*node));
    }
}

// Whether what stands at a node is a leaf that claims by exact values.
fn is_exact(spot: &Spot) -> bool
    ensures { (used : List ℕ) → result ≡ is_exact_node (spot_node used spot.now) }
{
    match spot {
        Spot::Leaf(Leaf::Live { exact, .. } | Leaf::Bound { exact, .. }) => *exact,
        Spot::Leaf(Leaf::ExactRay { .. } | Leaf::ExactEmpty { .. }) => true,
        Spot::Leaf(Leaf::Ray { .. } | Leaf::Empty { .. }) | Spot::Inner { .. } => false,
    }
}

/// Whether some leaf of the tree claims by exact values.
pub(crate) fn has_exact_leaf(tree: &Tree, layout: &Layout) -> bool
    requires { IsLayoutOf tree.now layout.now }
    ensures { result ≡ list_any is_exact_node (tree_nodes tree.now) }
{
    tree.keeps_cover();
    for node in layout.nodes.as_slice() {
        if is_exact(&tree.node(*node)) {
            return true;
        }
    }
    false
}

// Whether a node that was read is a leaf that claims by exact values.
fn is_exact_read(node: &CertNode) -> bool
    ensures { result ≡ is_exact_node (node_of node.now) }
{
    match node {
        CertNode::Exact(_) | CertNode::ExactRay(_) | CertNode::ExactEmpty(_) => true,
        CertNode::Split { .. } | CertNode::Bound(_) | CertNode::Ray(_) | CertNode::Empty(_) => {
            false
        }
    }
}

/// The same of a tree that was read.
pub(crate) fn has_exact_read(nodes: &[CertNode]) -> bool
    ensures { result ≡ list_any (λ node. is_exact_node (node_of node)) nodes.now }
{
    nodes.iter().any(|node| is_exact_read(node))
}

// A node that was read.
#[derive(Clone, Copy)]
struct NodeLine;

impl Form<CertNode> for NodeLine {
    ghost text = { λ _ node. node_line (node_of node) };

    fn put_value<O: Out>(&self, node: &CertNode, out: &mut O) {
        match node {
            CertNode::Split { g, t } => put_split(out, *g, *t),
            CertNode::Bound(table) => put_place_line(out, b"bound", *table as usize),
            CertNode::Ray(table) => put_place_line(out, b"ray", *table as usize),
            CertNode::Empty(g) => put_place_line(out, b"empty", *g as usize),
            CertNode::Exact(table) => put_place_line(out, b"exact", *table as usize),
            CertNode::ExactRay(table) => put_place_line(out, b"exact-ray", *table as usize),
            CertNode::ExactEmpty(g) => put_place_line(out, b"exact-empty", *g as usize),
        }
    }
}

/// The nodes of a tree that was read, in preorder.
pub(crate) fn put_read_nodes<O: Out>(out: &mut O, nodes: &[CertNode])
    ensures { O.emits (flat_map node_line (map node_of nodes.now)) out.old out.new }
{
    put_each(out, &NodeLine, nodes);
}
