//! The exact dispatch of commitments.

ghost use Rattle.uc_model.specs.Prelude.{IsLawfulInstance};
ghost use Rattle.dispatch_rules.specs.Prelude.{AreAllowed};
ghost use Rattle.dual_model.specs.Prelude.{IsNodeOf};

use crate::Answer;
use crate::commitment::patterns;
use crate::dispatch::{no_commitment, put_missing, put_schedule};
use crate::node::{fault_text, is_node_of, valued};
use crate::table::put_table;
use crate::text::whole;
use dual_model::{Fixing, Node};
use dual_value::{ValueFault, Valued};
use pivot_dispatch::{DispatchAnswer, best};
use prices::zero;
use std::alloc::{AllocError, Global};
use uc_model::{Instance, List, Pattern, Printed};

/// The exact dispatch of the commitment that the words tell, or the first unit whose pattern isn't allowed.
pub(crate) fn tell_pivot(alloc: Global, instance: &Instance, words: &str) -> Answer
    requires { IsLawfulInstance instance.now }
{
    let patterns = patterns(alloc, words)?;
    let node = decided(alloc, instance, &patterns)?;
    if patterns.len() == instance.thermal.as_slice().len() && is_node_of(instance, &node) {
        node_answer(alloc, instance, &node)
    } else {
        no_commitment(alloc)
    }
}

// The node at which each cell is decided as the patterns say.
fn decided(alloc: Global, instance: &Instance, patterns: &[Pattern]) -> Result<Node, AllocError>
    requires { IsLawfulInstance instance.now }
{
    let mut fixings = Vec::new(alloc);
    for g in 0..instance.thermal.as_slice().len() as u32 {
        if let Some(pattern) = patterns.get(g as usize) {
            for t in 0..instance.periods {
                let on = pattern.is_on(t);
                fixings.push(Fixing { g, t, on })?;
            }
        }
    }
    Ok(Node {
        fixings: List::from_vec(fixings),
    })
}

// The exact dispatch of the patterns of a node at which each cell is decided.
fn node_answer(alloc: Global, instance: &Instance, node: &Node) -> Answer
    requires lawful { IsLawfulInstance instance.now }
    requires node { IsNodeOf instance.now node.now }
{
    match node_pivot(alloc, instance, node) {
        Ok(pivot) => {
            let mut text = String::new(alloc);
            let put = put_pivot(&mut text, &pivot);
            drop(pivot);
            whole(put, text)
        }
        Err(fault) => fault_text(alloc, fault),
    }
}

// The same as it is found, or which unit has no pattern.
fn node_pivot(alloc: Global, instance: &Instance, node: &Node) -> Result<DispatchAnswer, ValueFault>
    requires lawful { IsLawfulInstance instance.now }
    requires node { IsNodeOf instance.now node.now }
{
    let table = zero(alloc, instance)?;
    let valued = valued(alloc, instance, node, &table);
    drop(table);
    match valued {
        Ok(valued) => pivot_of(alloc, instance, valued),
        Err(fault) => Err(fault),
    }
}

// The exact dispatch of the patterns of a value.
fn pivot_of(
    alloc: Global,
    instance: &Instance,
    valued: Valued,
) -> Result<DispatchAnswer, ValueFault>
    requires lawful { IsLawfulInstance instance.now }
    requires allowed { AreAllowed instance.now valued.patterns }
{
    let pivot = best(alloc, instance, valued.patterns.as_slice());
    drop(valued);
    Ok(pivot?)
}

// What an exact dispatch answers: a schedule and its prices, a ray, or the limit that is met.
fn put_pivot(text: &mut String, pivot: &DispatchAnswer) -> Result<(), AllocError> {
    match pivot {
        DispatchAnswer::Best { schedule, table } => {
            put_best(text, schedule)?;
            put_table(text, table)
        }
        DispatchAnswer::Ray(table) => {
            text.push_str("ray ")?;
            put_table(text, table)
        }
        DispatchAnswer::Wide { what, pivots, .. } => writeln!(
            text,
            "wide {what:?} after {pivots} pivots"
        ),
    }
}

// A schedule as it is, and its denominator.
fn put_best(text: &mut String, schedule: &Printed) -> Result<(), AllocError> {
    writeln!(text, "best over {}", schedule.denominator)?;
    put_schedule(text, schedule)?;
    put_missing(text, schedule)
}
