//! What a node decides of each cell.

use dual_model::Node;
use std::alloc::Global;
use uc_model::{Instance, NoMemory};

/// Whether a unit may be on in a period, and off.
#[derive(Clone, Copy)]
pub(crate) struct Choice {
    pub on: bool,
    pub off: bool,
}

/// What may be in each cell of a node, unit by unit.
#[derive(Drop)]
pub struct Decisions {
    pub(crate) rows: Vec<Vec<Choice>>,
}

impl Decisions {
    /// The decisions on the path of a node of the instance. The only error is `NoMemory`.
    pub fn of(alloc: Global, instance: &Instance, node: &Node) -> Result<Decisions, NoMemory> {
        let periods = instance.periods as usize;
        let mut rows = Vec::new(alloc);
        for unit in instance.thermal.as_slice() {
            let choice = Choice {
                on: true,
                off: !unit.must_run,
            };
            rows.push(vec![in alloc; choice; periods]?)?;
        }
        for fixing in node.fixings.as_slice() {
            if let Some(row) = rows.get_mut(fixing.g as usize) {
                decide(row, fixing.t as usize, fixing.on);
            }
        }
        Ok(Decisions { rows })
    }

    /// Decides one more cell.
    pub fn decide(&mut self, g: usize, t: usize, on: bool) {
        if let Some(row) = self.rows.get_mut(g) {
            decide(row, t, on);
        }
    }

    /// Whether both are left to the cell of unit g in period t.
    pub fn is_open(&self, g: usize, t: usize) -> bool {
        g < self.rows.len() && t < self.rows[g].len() && self.rows[g][t].on && self.rows[g][t].off
    }
}

// Decides the cell of period t.
fn decide(row: &mut [Choice], t: usize, on: bool) {
    if t < row.len() {
        row[t] = Choice {
            on: row[t].on && on,
            off: row[t].off && !on,
        };
    }
}
