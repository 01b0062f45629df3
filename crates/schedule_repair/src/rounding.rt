//! Commitments rounded from the shares of an ascent.

use repair_state::{Cells, Plant, RepairState, SAME, behind};
use uc_model::Pattern;

/// Puts each unit on the allowed pattern that is nearest to its shares, where those above the threshold count as on; and tells whether
/// each has one.
pub(crate) fn round(
    plant: &Plant,
    state: &mut RepairState,
    shares: &[i64],
    threshold: i64,
) -> bool {
    let mut first: usize = 0;
    for g in 0..plant.units.len() {
        let unit = &plant.units[g];
        share_cells(&mut state.cells, shares, first, threshold);
        match state.course.best(unit, &unit.fix, &state.cells, true) {
            Some((_, pattern)) if g < state.patterns.len() => state.patterns[g] = pattern,
            _ => return false,
        }
        first = first.saturating_add(state.cells.len());
    }
    true
}

// The cells of a unit whose shares begin at `first`: each costs by how much its share is below the threshold.
fn share_cells(cells: &mut [Cells], shares: &[i64], first: usize, threshold: i64) {
    cells.fill(SAME);
    let shares = behind(shares, first);
    for t in 0..cells.len().min(shares.len()) {
        let cost = threshold.saturating_sub(shares[t]);
        cells[t] = Cells {
            off: 0,
            plain: cost,
            start: cost,
            stop: cost,
            both: cost,
            power: 0,
        };
    }
}
