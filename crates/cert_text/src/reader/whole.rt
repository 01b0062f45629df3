//! A whole certificate.

ghost use Rattle.std.specs.Prelude.{◌≡◌, IfOk, Ok, map};
ghost use Rattle.cert_text.specs.Grammar.{AreSizes};
ghost use Rattle.cert_text.specs.Reading.{listing_read, node_of};
ghost use Rattle.branch_tree.specs.Prelude.{written_of};
ghost use Rattle.cert_text.specs.inside.Forms.{end_at};
ghost use Rattle.cert_text.specs.inside.Parts.{GivesPart, heading_part, line_of, listing_from, plan_part, proof_part, certificate_part, sizes, then, tree_part};

use super::lines::take_claim;
use super::nodes::take_tree;
use super::numbers::take_text;
use super::plan::take_plan;
use super::sizes::{Size, take_size, take_version};
use super::stop::Stop;
use super::table::take_tables;
use crate::cert::{Cert, CertNode, Version};
use std::alloc::Global;
use table_list::TableList;
use uc_model::{List, Printed};

// The first two lines: the version of the format, and the size.
#[tactic(auto, unfolding(crate::specs::inside::Parts::heading_part))]
fn take_heading(bytes: &[u8]) -> Result<(Size, &[u8]), Stop<'_>>
    ensures value { GivesPart (λ r. (sizes r.0, r.1.now)) result (heading_part bytes.now) }
    ensures lawful { IfOk result (λ r. AreSizes (sizes r.0)) }
{
    let (version, rest) = take_version(bytes).ok_or(Stop::At(bytes))?;
    take_size(version, rest).ok_or(Stop::At(rest))
}

// The tree, up to the last line.
#[tactic(auto, unfolding(crate::specs::inside::Forms::end_at))]
fn take_last_tree<'a>(
    alloc: Global,
    size: &Size,
    bytes: &'a [u8],
) -> Result<(Vec<CertNode>, &'a [u8]), Stop<'a>>
    requires { AreSizes (sizes size.now) }
    ensures { GivesPart (λ r. ((map node_of r.0.items, tt), r.1.now)) result
        (then (tree_part (sizes size.now)) (λ _. line_of end_at) bytes.now) }
{
    let (tree, rest) = take_tree(alloc, size, bytes)?;
    let rest = take_text(rest, b"end\n").ok_or(Stop::At(rest))?;
    Ok((tree, rest))
}

// What shows the bound: the tables and the tree, up to the last line.
fn take_proof<'a>(
    alloc: Global,
    size: &Size,
    bytes: &'a [u8],
) -> Result<(TableList, Vec<CertNode>, &'a [u8]), Stop<'a>>
    requires { AreSizes (sizes size.now) }
    ensures { GivesPart (λ r. ((r.0, (map node_of r.1.items, tt)), r.2.now)) result (proof_part (sizes size.now) bytes.now) }
{
    let (tables, rest) = take_tables(alloc, size, bytes)?;
    let (tree, rest) = take_last_tree(alloc, size, rest)?;
    Ok((tables, tree, rest))
}

// What a certificate tells behind its claim.
#[derive(Drop)]
struct Body {
    prices: (u32, u32),
    schedule: Option<(Printed, i128)>,
    tables: TableList,
    tree: Vec<CertNode>,
}

// The prices and the schedule, and what shows the bound.
fn take_body<'a>(alloc: Global, size: &Size, bytes: &'a [u8]) -> Result<(Body, &'a [u8]), Stop<'a>>
    requires { AreSizes (sizes size.now) }
    ensures { GivesPart (λ r. (((r.0.prices, written_of r.0.schedule), (r.0.tables, (map node_of r.0.tree.items, tt))), r.1.now)) result
        (then (plan_part (sizes size.now)) (λ _. proof_part (sizes size.now)) bytes.now) }
{
    let (prices, schedule, rest) = take_plan(alloc, size, bytes)?;
    let (tables, tree, rest) = take_proof(alloc, size, rest)?;
    let body = Body {
        prices,
        schedule,
        tables,
        tree,
    };
    Ok((body, rest))
}

// The certificate of these parts.
fn cert_of(size: &Size, bound: Option<i128>, body: Body) -> Cert
    ensures { listing_read result ≡ listing_from (sizes size.now, (bound, ((body.prices, written_of body.schedule), (body.tables, (map node_of body.tree.items, tt))))) }
{
    let (a, b) = body.prices;
    Cert {
        periods: size.periods,
        thermal: size.thermal,
        renewable: size.renewable,
        a,
        b,
        bound,
        schedule: body.schedule,
        tables: body.tables,
        tree: List::from_vec(body.tree),
    }
}

/// A certificate at the front of bytes, and the version in which it is told.
#[tactic(auto, unfolding(crate::specs::inside::Parts::certificate_part))]
pub(crate) fn take_certificate(
    alloc: Global,
    bytes: &[u8],
) -> Result<(Version, Cert, &[u8]), Stop<'_>>
    ensures { GivesPart (λ r. ((r.0, listing_read r.1), r.2.now)) result (certificate_part bytes.now) }
{
    let (size, rest) = take_heading(bytes)?;
    let (bound, rest) = take_claim(rest).ok_or(Stop::At(rest))?;
    let (body, rest) = take_body(alloc, &size, rest)?;
    Ok((size.version, cert_of(&size, bound, body), rest))
}
