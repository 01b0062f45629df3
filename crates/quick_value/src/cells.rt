//! What the cells of a unit cost where it is on.

use crate::amounts::{NEVER, amount_of, times};
use crate::prices::Price;
use crate::unit::{Cap, Corner, Unit};

/// The amounts of a cell by itself, as a start, before a stop, and as both; and the output above the minimum that is best where the cap
/// allows it.
#[derive(Clone, Copy)]
pub(crate) struct Cell {
    pub full: i64,
    pub start: i64,
    pub stop: i64,
    pub both: i64,
    pub power: i64,
}

pub(crate) const IDLE: Cell = Cell {
    full: 0,
    start: 0,
    stop: 0,
    both: 0,
    power: 0,
};

/// Fills the cells of a unit at its prices.
pub(crate) fn fill(cells: &mut [Cell], unit: &Unit, prices: &[Price]) {
    for t in 0..prices.len().min(cells.len()) {
        cells[t] = priced_cell(unit, &prices[t]);
    }
}

// A cell at its price.
fn priced_cell(unit: &Unit, price: &Price) -> Cell {
    let corner = best_corner(&unit.corners, price.output);
    let minimum = times(price.demand, unit.minimum);
    let full = cost(&unit.full, &corner, price, minimum);
    let start = if unit.start.most == unit.full.most {
        full
    } else {
        cost(&unit.start, &corner, price, minimum)
    };
    let stop = if unit.stop.most == unit.start.most {
        start
    } else if unit.stop.most == unit.full.most {
        full
    } else {
        cost(&unit.stop, &corner, price, minimum)
    };
    Cell {
        full,
        start,
        stop,
        both: if unit.start.most < unit.stop.most {
            start
        } else {
            stop
        },
        power: corner.power,
    }
}

// The first corner behind which a watt more doesn't earn.
fn best_corner(corners: &[Corner], price: i64) -> Corner {
    for corner in corners {
        if price < corner.price {
            return *corner;
        }
    }
    NO_CORNER
}

const NO_CORNER: Corner = Corner {
    power: 0,
    cost: 0,
    price: 0,
};

// The amount of a cell under a cap, at the corner or as far as the cap lets it.
fn cost(cap: &Cap, corner: &Corner, price: &Price, minimum: i128) -> i64 {
    if cap.most < 0 {
        return NEVER;
    }
    let (power, cost) = if corner.power <= cap.most {
        (corner.power, corner.cost)
    } else {
        (cap.power, cap.cost)
    };
    let earned = times(price.output, power)
        .wrapping_add(times(price.reserve, cap.most))
        .wrapping_add(minimum);
    cost.saturating_sub(amount_of(&earned))
}
