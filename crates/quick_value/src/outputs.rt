//! What a unit gives as it stands.

use crate::cells::Cell;
use crate::prices::Price;
use crate::unit::{Cap, Unit};
use crate::walk::Walk;
use crate::ways::Stand;

/// Whether a unit is on in a period, and its output above the minimum and its reserve there.
#[derive(Clone, Copy)]
pub(crate) struct Output {
    pub on: bool,
    pub power: i64,
    pub reserve: i64,
}

impl Output {
    /// How far output and reserve together lie above the output before, and this one below that.
    pub(crate) fn moves(&self, before: i64) -> (i64, i64) {
        let most = self.power.saturating_add(self.reserve);
        let fallen = before.saturating_sub(self.power);
        (most.saturating_sub(before), fallen)
    }
}

pub(crate) const NOTHING: Output = Output {
    on: false,
    power: 0,
    reserve: 0,
};

/// Fills what a unit gives in each period, as it stands at its prices.
pub(crate) fn fill_outputs(outputs: &mut [Output], unit: &Unit, walk: &Walk, prices: &[Price]) {
    let (stands, cells) = (walk.ways.stands.as_slice(), walk.cells.as_slice());
    let count = stands.len().min(cells.len()).min(prices.len());
    for t in 0..count.min(outputs.len()) {
        outputs[t] = output_of(unit, stands[t], &cells[t], &prices[t]);
    }
}

// What a unit gives that stands so in a cell.
fn output_of(unit: &Unit, stand: Stand, cell: &Cell, price: &Price) -> Output {
    match stand {
        Stand::Off => NOTHING,
        Stand::Full => output_within(&unit.full, cell, price),
        Stand::Start => output_within(&unit.start, cell, price),
        Stand::Stop => output_within(&unit.stop, cell, price),
        Stand::Both => output_within(&unit.both, cell, price),
    }
}

// What is best within a cap. What it leaves is reserve where this earns.
fn output_within(cap: &Cap, cell: &Cell, price: &Price) -> Output {
    let power = if cell.power <= cap.most {
        cell.power
    } else {
        cap.power
    };
    Output {
        on: true,
        power,
        reserve: if price.reserve > 0 {
            cap.most.saturating_sub(power)
        } else {
            0
        },
    }
}
