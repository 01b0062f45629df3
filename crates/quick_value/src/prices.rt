//! The prices of one unit, period by period, from a list of prices.

use crate::amounts::{number_at, put};

/// In one period what a watt of output earns over the same watt held as reserve where this earns, what a watt of reserve earns, both for
/// the unit, and what a watt of demand costs.
#[derive(Clone, Copy)]
pub(crate) struct Price {
    pub output: i64,
    pub reserve: i64,
    pub demand: i64,
}

pub(crate) const FREE: Price = Price {
    output: 0,
    reserve: 0,
    demand: 0,
};

// The price where output costs `output` less than the demand, and reserve earns `reserve` or less than nothing.
fn price_of(demand: i64, output: i64, reserve: i64) -> Price {
    let reserve = reserve.max(0);
    Price {
        output: output.saturating_sub(reserve),
        reserve,
        demand,
    }
}

/// The prices of a unit without prices of its ramps: in each period those of demand and of reserve in the list.
pub(crate) fn fill_common(own: &mut [Price], prices: &[i64]) {
    let periods = own.len();
    for t in 0..periods {
        let demand = number_at(prices, t);
        own[t] = price_of(demand, demand, number_at(prices, t.saturating_add(periods)));
    }
}

/// The prices of a unit whose prices of ramps, up and then down, begin at `first` in the list.
pub(crate) fn fill_ramped(own: &mut [Price], prices: &[i64], first: usize) {
    let periods = own.len();
    let mut up = number_at(prices, first);
    let mut down = number_at(prices, first.saturating_add(periods));
    for t in 0..periods {
        let demand = number_at(prices, t);
        let reserve = number_at(prices, t.saturating_add(periods));
        let next = t.saturating_add(1);
        let (up_next, down_next) = if next < periods {
            let place = first.saturating_add(next);
            (
                number_at(prices, place),
                number_at(prices, place.saturating_add(periods)),
            )
        } else {
            (0, 0)
        };
        let output = demand
            .saturating_sub(up)
            .saturating_add(up_next)
            .saturating_add(down)
            .saturating_sub(down_next);
        put(own, t, price_of(demand, output, reserve.saturating_sub(up)));
        up = up_next;
        down = down_next;
    }
}

/// Whether a unit has a price of its ramps, which begin at `first` in the list.
pub(crate) fn has_ramp_price(prices: &[i64], first: usize, periods: usize) -> bool {
    let end = first.saturating_add(periods.saturating_mul(2));
    for i in first..end.min(prices.len()) {
        if prices[i] != 0 {
            return true;
        }
    }
    false
}
