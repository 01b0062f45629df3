//! Nodes, and their values.

ghost use Rattle.std.specs.Prelude.{◌≡◌, ◌↔◌, IfOk, IsTrue};
ghost use Rattle.uc_model.specs.declared.instance.Instance.{Instance};
ghost use Rattle.uc_model.specs.Prelude.{IsLawfulInstance};
ghost use Rattle.dual_model.specs.Prelude.{IsCell, IsNodeOf, HasSizeOf, IsLawfulTable, IsWithinLimits, child as child_of};
ghost use Rattle.dual_value.specs.NodeAnswer.{HasSizes, IsValued};

use crate::Answer;
use crate::text::{first, put_large, told, whole};
use crate::uplifts::table_with;
use dual_model::{Fixing, Node, Table};
use dual_value::{Inherited, Room, ValueFault, Valued, child, exact_value, value};
use std::alloc::{AllocError, Global};
use uc_model::{Instance, List, NoMemory};
use unit_path::Scratch;

/// The value of a node, if each unit has a pattern.
type Evaluation = Result<Valued, ValueFault>;

/// The total value of the root at the table.
pub(crate) fn root_total(alloc: Global, instance: &Instance, table: &Table) -> Answer
    requires lawful { IsLawfulInstance instance.now }
    requires table { IsLawfulTable instance.now table.now }
{
    evaluation_text(
        alloc,
        valued(alloc, instance, &Node::root(alloc), table),
        false,
    )
}

// A value, and where they are wanted the parts, or which unit has no pattern.
fn evaluation_text(alloc: Global, evaluation: Evaluation, has_parts: bool) -> Answer {
    match evaluation {
        Ok(valued) => {
            let mut text = String::new(alloc);
            let put = put_valued(&mut text, &valued, has_parts);
            drop(valued);
            whole(put, text)
        }
        Err(fault) => fault_text(alloc, fault),
    }
}

/// Which unit has no pattern.
pub(crate) fn fault_text(alloc: Global, fault: ValueFault) -> Answer {
    match fault {
        ValueFault::Empty(g) => Ok(format!(in alloc; "empty {}\n", g.saturating_add(1))?),
        ValueFault::NoMemory => Err(NoMemory),
    }
}

/// The value of a node at a price of demand, as `PRICE DECISION..` says, or where `exact` says so its exact value, with the part
/// of each unit and the first periods of a pattern of it.
pub(crate) fn tell_node(alloc: Global, instance: &Instance, words: &str, exact: bool) -> Answer
    requires { IsLawfulInstance instance.now }
{
    let (price, decisions) = first(words);
    let price = price.parse::<i32>().unwrap_or(0);
    let node = node(alloc, decisions)?;
    if is_node_of(instance, &node) {
        node_text(alloc, instance, &node, price, exact)
    } else {
        told(alloc, "no such cell\n")
    }
}

// The value of a node, or its exact value, at a price of demand.
fn node_text(alloc: Global, instance: &Instance, node: &Node, price: i32, exact: bool) -> Answer
    requires lawful { IsLawfulInstance instance.now }
    requires node { IsNodeOf instance.now node.now }
{
    let table = table_with(alloc, instance, price, 0, &[])?;
    let evaluation = if exact {
        exactly_valued(alloc, instance, node, &table)
    } else {
        valued(alloc, instance, node, &table)
    };
    drop(table);
    evaluation_text(alloc, evaluation, true)
}

/// The value of a node at a price of demand, as `PRICE DECISION..` says, from its parent's, which lacks the last decision.
pub(crate) fn tell_child(alloc: Global, instance: &Instance, words: &str) -> Answer
    requires { IsLawfulInstance instance.now }
{
    let (words, last) = words.rsplit_once(' ').unwrap_or((words, ""));
    let (price, decisions) = first(words);
    let price = price.parse::<i32>().unwrap_or(0);
    let parent = node(alloc, decisions)?;
    match decision(last) {
        Some(fixing) if is_node_of(instance, &parent) && is_cell_of(instance, &fixing) => {
            child_text(alloc, instance, &parent, &fixing, price)
        }
        _ => told(alloc, "no such cell\n"),
    }
}

// The value of a node with a decision more than its parent, at a price of demand.
fn child_text(
    alloc: Global,
    instance: &Instance,
    parent: &Node,
    fixing: &Fixing,
    price: i32,
) -> Answer
    requires lawful { IsLawfulInstance instance.now }
    requires parent { IsNodeOf instance.now parent.now }
    requires cell { IsCell instance.now fixing.now.g fixing.now.t }
{
    let table = table_with(alloc, instance, price, 0, &[])?;
    let evaluation = match valued(alloc, instance, parent, &table) {
        Ok(valued) => child_valued(alloc, instance, parent, fixing, &table, &valued),
        Err(fault) => Err(fault),
    };
    evaluation_text(alloc, evaluation, true)
}

// The value of a node with a decision more than its parent, of which the value at the table is known.
fn child_valued(
    alloc: Global,
    instance: &Instance,
    parent: &Node,
    fixing: &Fixing,
    table: &Table,
    valued: &Valued,
) -> Evaluation
    requires lawful { IsLawfulInstance instance.now }
    requires parent { IsNodeOf instance.now parent.now }
    requires cell { IsCell instance.now fixing.now.g fixing.now.t }
    requires size { HasSizeOf instance.now table.now }
    requires limits { IsWithinLimits table.now }
    requires value { IsValued instance.now parent.now table.now valued.now }
    requires sizes { HasSizes valued.now }
{
    let node = with_decision(alloc, parent, fixing)?;
    let mut scratch = Scratch::new(alloc, instance.periods as usize)?;
    let mut room = Room::new(alloc, instance)?;
    let inherited = Inherited {
        table,
        parent: valued,
        g: fixing.g,
    };
    child(alloc, &mut scratch, &mut room, instance, &node, &inherited)
}

// The node with a decision more.
fn with_decision(alloc: Global, parent: &Node, fixing: &Fixing) -> Result<Node, NoMemory>
    ensures { IfOk result (λ node. node ≡ child_of parent.now fixing.now.g fixing.now.t fixing.now.on) }
{
    let mut fixings = Vec::new(alloc);
    fixings.extend_from_slice(parent.fixings.as_slice())?;
    fixings.push(*fixing)?;
    Ok(Node {
        fixings: List::from_vec(fixings),
    })
}

/// The value of a node at a table.
pub(crate) fn valued(alloc: Global, instance: &Instance, node: &Node, table: &Table) -> Evaluation
    requires lawful { IsLawfulInstance instance.now }
    requires node { IsNodeOf instance.now node.now }
    requires size { HasSizeOf instance.now table.now }
    requires limits { IsWithinLimits table.now }
    ensures value { IfOk result (IsValued instance.now node.now table.now) }
    ensures sizes { IfOk result HasSizes }
{
    let mut scratch = Scratch::new(alloc, instance.periods as usize)?;
    value(alloc, &mut scratch, instance, node, table)
}

// The exact value of a node at a table.
fn exactly_valued(alloc: Global, instance: &Instance, node: &Node, table: &Table) -> Evaluation
    requires lawful { IsLawfulInstance instance.now }
    requires node { IsNodeOf instance.now node.now }
    requires table { IsLawfulTable instance.now table.now }
{
    let mut scratch = Scratch::new(alloc, instance.periods as usize)?;
    let mut room = Room::for_exact_values(alloc, instance)?;
    exact_value(alloc, &mut scratch, &mut room, instance, node, table)
}

// The total, and where they are wanted a line for each unit.
fn put_valued(text: &mut String, valued: &Valued, has_parts: bool) -> Result<(), AllocError> {
    put_large(text, "value", &[valued.total])?;
    if has_parts {
        put_parts(text, valued)
    } else {
        Ok(())
    }
}

// A line for each unit.
fn put_parts(text: &mut String, valued: &Valued) -> Result<(), AllocError> {
    let patterns = valued.patterns.as_slice();
    for (part, pattern) in valued.parts.as_slice().iter().zip(patterns) {
        writeln!(text, "part {part} {}", pattern.low)?;
    }
    Ok(())
}

// The node of decisions, each `UNIT:PERIOD:on` or `off`.
fn node(alloc: Global, words: &str) -> Result<Node, AllocError> {
    let mut fixings = Vec::new(alloc);
    for word in words.split(' ') {
        if let Some(fixing) = decision(word) {
            fixings.push(fixing)?;
        }
    }
    Ok(Node {
        fixings: List::from_vec(fixings),
    })
}

// The decision of a word.
fn decision(word: &str) -> Option<Fixing> {
    let (unit, rest) = word.split_once(':')?;
    let (period, state) = rest.split_once(':')?;
    Some(Fixing {
        g: unit.parse::<u32>().ok()?.checked_sub(1)?,
        t: period.parse::<u32>().ok()?.checked_sub(1)?,
        on: state == "on",
    })
}

/// Whether the decisions are on cells of the instance.
pub(crate) fn is_node_of(instance: &Instance, node: &Node) -> bool
    ensures { IsTrue result ↔ IsNodeOf instance.now node.now }
{
    let units = instance.thermal.as_slice().len();
    node.fixings.as_slice().iter().all(|fixing| (fixing.g as usize) < units
        && fixing.t < instance.periods)
}

// Whether a decision is on a cell of the instance.
fn is_cell_of(instance: &Instance, fixing: &Fixing) -> bool
    ensures { IsTrue result ↔ IsCell instance.now fixing.now.g fixing.now.t }
{
    (fixing.g as usize) < instance.thermal.as_slice().len() && fixing.t < instance.periods
}
