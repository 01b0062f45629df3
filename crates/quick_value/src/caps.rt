//! Unserved demand and missing reserve: above what these cost no price of demand or of reserve earns anything.

use crate::amounts::{SCALE, times};
use uc_model::Instance;

/// What a watt of unserved demand and one of missing reserve cost, at the scale `SCALE`; the greatest number where none may be.
#[derive(Clone, Copy)]
pub struct Caps {
    pub demand: i64,
    pub reserve: i64,
}

impl Caps {
    /// The caps of an instance.
    pub(crate) fn of(instance: &Instance) -> Caps {
        Caps {
            demand: cap_of(instance.a, SCALE),
            reserve: cap_of(instance.b, SCALE),
        }
    }

    /// Those where nothing costs anything.
    pub(crate) fn without_costs(instance: &Instance) -> Caps {
        Caps {
            demand: cap_of(instance.a, 0),
            reserve: cap_of(instance.b, 0),
        }
    }

    /// Whether anything may be missing.
    pub fn are_any(self) -> bool {
        self.demand < i64::MAX || self.reserve < i64::MAX
    }

    /// Takes from what lacks of demand and of reserve what is missing of it where its price is above the cap. What this adds to the value.
    pub(crate) fn take_missing(
        self,
        instance: &Instance,
        prices: &[i64],
        lacks: &mut [i64],
    ) -> i128 {
        let (demand, reserves) = (instance.demand.as_slice(), instance.reserves.as_slice());
        take_above(lacks, prices, demand, 0, self.demand).saturating_add(take_above(
            lacks,
            prices,
            reserves,
            demand.len(),
            self.reserve,
        ))
    }
}

// What a watt costs at a price, at a scale; the greatest number where there is no price.
fn cap_of(price: u32, scale: i64) -> i64 {
    if price > 0 {
        i64::from(price).saturating_mul(scale)
    } else {
        i64::MAX
    }
}

// The same of the needs whose prices begin at `first` in the list.
fn take_above(lacks: &mut [i64], prices: &[i64], needs: &[i64], first: usize, cap: i64) -> i128 {
    let mut added: i128 = 0;
    for t in 0..needs.len() {
        let i = first.saturating_add(t);
        if i < lacks.len() && i < prices.len() && prices[i] > cap {
            let missing = needs[t].max(0);
            lacks[i] = lacks[i].saturating_sub(missing);
            added = added.saturating_add(times(missing, cap.saturating_sub(prices[i])));
        }
    }
    added
}
