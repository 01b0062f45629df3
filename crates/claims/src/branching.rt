//! The cell that a node is split on.

use decided_nodes::decides;
use dual_model::Node;
use uc_model::{Instance, WHOLE_SHARE};

/// The cell, by its thermal unit and period from 0, round which most watts move to and fro: the least of its share and what that lacks to the
/// whole, times the sum of this over the periods round it, as many to each side as half of the unit's minimum up time less one, times the
/// unit's greatest output, is greatest. The shares say how often each unit was on in each period among the last cuts of an ascent. `None`
/// where each share is nearly nothing or nearly the whole.
pub(crate) fn most_divided(
    instance: &Instance,
    node: &Node,
    shares: &[i64],
    least: i64,
) -> Option<(u32, u32)> {
    let mut best = None;
    let mut most: i128 = 0;
    let periods = instance.periods as usize;
    for (g, unit) in instance.thermal.as_slice().iter().enumerate() {
        let first = g.saturating_mul(periods);
        let row = Row {
            shares,
            first,
            behind: first.saturating_add(periods),
        };
        let g = u32::try_from(g).ok()?;
        let reach = (unit.ut.saturating_sub(1) / 2) as usize;
        for t in 0..instance.periods {
            let part = row.divided(first.saturating_add(t as usize));
            let moved = i128::from(part)
                .saturating_mul(i128::from(row.divided_round(t as usize, reach)))
                .saturating_mul(i128::from(unit.pmax));
            if part > least && moved > most && !decides(node, g, t) {
                best = Some((g, t));
                most = moved;
            }
        }
    }
    best
}

// The shares of all units, and the places where those of one begin and end.
#[derive(Clone, Copy)]
struct Row<'a> {
    shares: &'a [i64],
    first: usize,
    behind: usize,
}

impl Row<'_> {
    // The least of the share at a place and what that lacks to the whole.
    fn divided(&self, place: usize) -> i64 {
        match self.shares.get(place) {
            Some(share) => (*share).min(WHOLE_SHARE.saturating_sub(*share)),
            None => 0,
        }
    }

    // The sum of that over the unit's periods which are so near to period t.
    fn divided_round(&self, t: usize, reach: usize) -> i64 {
        let from = self.first.saturating_add(t.saturating_sub(reach));
        let to = self
            .first
            .saturating_add(t)
            .saturating_add(reach)
            .saturating_add(1);
        let mut sum: i64 = 0;
        for place in from..to.min(self.behind) {
            sum = sum.saturating_add(self.divided(place));
        }
        sum
    }
}
