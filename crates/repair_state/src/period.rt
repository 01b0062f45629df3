//! A period: what its on units may give, in order of merit, and what demand and reserve cost then.

use crate::merit::{Market, cost_of, shortage_cost};
use crate::supply::{Fill, Supply};
use crate::unit::Unit;
use crate::window::Window;
use std::alloc::Global;
use uc_model::NoMemory;

/// A period. Its supply is that inside the windows of the on units; `watts` is its sum, `gainful` the sum of those that cost less than
/// nothing, and `worthwhile` of those that cost less than unserved demand. `base` is what the low ends cost, `floor` what they give with the
/// minimums, `power` without them, and `heads` the sum of the heads. Demand less the most that renewable units give is `needed`, less the
/// least `bearable`. `mark` is the sum of the marks of the units in their windows, so that equal marks tell of equal contents, and `known`
/// the key at which the cost was reckoned last, with this cost.
#[derive(Drop)]
pub struct Period {
    supply: Supply,
    watts: i64,
    gainful: i64,
    worthwhile: i64,
    base: i64,
    floor: i64,
    power: i64,
    heads: i64,
    mark: u64,
    known: (u64, i64),
    pub(crate) needed: i64,
    pub(crate) bearable: i64,
    pub(crate) reserve: i64,
    pub reserve_rate: i64,
    pub(crate) is_tight: bool,
}

/// What one unit adds to a period.
#[derive(Clone, Copy)]
pub(crate) struct Addition {
    pub floor: i64,
    pub power: i64,
    pub head: i64,
}

/// No unit.
pub(crate) const NOTHING: Addition = Addition {
    floor: 0,
    power: 0,
    head: 0,
};

// What a unit in its window adds to the mark of its period.
fn mark_of(unit: &Unit, window: &Window) -> u64 {
    if !window.on {
        return 0;
    }
    let mut mark = unit.salt;
    for number in [window.low, window.high, window.head] {
        mark = mixed(mark, number.unsigned_abs());
    }
    mark
}

/// A mark with a number mixed into it.
pub fn mixed(mark: u64, number: u64) -> u64 {
    // The golden ratio in 64 binary digits.
    let mark = (mark ^ number).wrapping_mul(0x9E37_79B9_7F4A_7C15);
    mark ^ (mark >> 29)
}

impl Period {
    /// A period without units, for so many segments. The only error is `NoMemory`.
    pub(crate) fn new(alloc: Global, segments: usize) -> Result<Period, NoMemory> {
        Ok(Period {
            supply: Supply::new(alloc, segments)?,
            watts: 0,
            gainful: 0,
            worthwhile: 0,
            base: 0,
            floor: 0,
            power: 0,
            heads: 0,
            mark: 0,
            known: (0, 0),
            needed: 0,
            bearable: 0,
            reserve: 0,
            reserve_rate: 0,
            is_tight: false,
        })
    }

    /// Takes all units away, and the mark of hardly any reserve.
    pub(crate) fn clear(&mut self) {
        self.supply.clear();
        self.watts = 0;
        self.gainful = 0;
        self.worthwhile = 0;
        self.base = 0;
        self.floor = 0;
        self.power = 0;
        self.heads = 0;
        self.mark = 0;
        self.is_tight = false;
    }

    /// Adds a unit in its window where `sign` is 1, and takes it away where it is -1.
    pub fn shift(&mut self, market: &Market, unit: &Unit, window: &Window, sign: i64) {
        if !window.on {
            return;
        }
        let mut base = unit.base;
        let mut from: i64 = 0;
        for segment in &unit.segments {
            let to = from.saturating_add(segment.watts);
            let low = window.low.max(from);
            let high = window.high.min(to);
            if low > from {
                let below = low.min(to).saturating_sub(from);
                base = base.saturating_add(cost_of(segment.rate, below));
            }
            if high > low {
                let watts = high.saturating_sub(low).saturating_mul(sign);
                self.add(market, segment.place, watts, cost_of(segment.rate, watts));
            }
            from = to;
        }
        let mark = mark_of(unit, window);
        self.mark = if sign < 0 {
            self.mark.wrapping_sub(mark)
        } else {
            self.mark.wrapping_add(mark)
        };
        let floor = unit.minimum.saturating_add(window.low);
        self.base = self.base.saturating_add(base.saturating_mul(sign));
        self.floor = self.floor.saturating_add(floor.saturating_mul(sign));
        self.power = self.power.saturating_add(window.low.saturating_mul(sign));
        self.heads = self.heads.saturating_add(window.head.saturating_mul(sign));
        let needed = self.needed_with(&NOTHING);
        self.supply.set_mark(needed);
    }

    // Adds watts and their cost at a place.
    fn add(&mut self, market: &Market, place: usize, watts: i64, cost: i64) {
        self.watts = self.watts.saturating_add(watts);
        if place < market.gainful {
            self.gainful = self.gainful.saturating_add(watts);
        }
        if place < market.worthwhile {
            self.worthwhile = self.worthwhile.saturating_add(watts);
        }
        self.supply.add(place, watts, cost);
    }

    /// The watts before a place in the order of merit.
    pub(crate) fn watts_before(&self, place: usize) -> i64 {
        self.supply.watts_before(place)
    }

    /// The place at which so many watts end in the order of merit.
    pub(crate) fn place_of(&self, watts: i64) -> usize {
        self.supply.filled(watts).place
    }

    /// Fills so many watts in the order of merit. What is lacking has its price.
    pub(crate) fn fill(&self, market: &Market, watts: i64) -> Fill {
        let fill = self.supply.filled(watts);
        let rate = match market.rates.get(fill.place) {
            Some(rate) => *rate,
            None => market.scarcity,
        };
        Fill {
            cost: fill.cost.saturating_add(cost_of(rate, fill.left)),
            ..fill
        }
    }

    /// The watts that are needed above the floor with another unit.
    pub(crate) fn needed_with(&self, other: &Addition) -> i64 {
        let floor = self.floor.saturating_add(other.floor);
        self.needed.saturating_sub(floor).max(0)
    }

    /// The watts that demand takes above the floor with another unit, and for which reserve leaves room; renewable units give less for them.
    pub(crate) fn room_with(&self, other: &Addition) -> i64 {
        let floor = self.floor.saturating_add(other.floor);
        let spare = self.lack_of_reserve(other, 0).saturating_neg();
        self.bearable.saturating_sub(floor).min(spare)
    }

    /// The watts above the floor with another unit that are served at best: those that are needed, or where unserved demand costs less
    /// than missing reserve those of them for which reserve leaves room.
    pub(crate) fn served_with(&self, market: &Market, other: &Addition) -> i64 {
        let needed = self.needed_with(other);
        if !market.may_shed() || self.reserve_rate <= market.shed {
            return needed;
        }
        let room = self.lack_of_reserve(other, 0).saturating_neg();
        needed.min(room).max(0)
    }

    /// The same of those that cost less than unserved demand, as far as there are any.
    pub(crate) fn worth_with(&self, market: &Market, other: &Addition) -> i64 {
        let served = self.served_with(market, other);
        if market.may_shed() {
            served.min(self.worthwhile)
        } else {
            served
        }
    }

    /// The watts that are given above the floor with another unit: those that are worth it, or as far as there is room all that cost less
    /// than nothing.
    pub(crate) fn given_with(&self, market: &Market, other: &Addition) -> i64 {
        let worth = self.worth_with(market, other);
        if market.gainful == 0 {
            return worth;
        }
        self.gainful.min(self.room_with(other)).max(worth)
    }

    // What the demand costs that stays unserved with another unit where so many watts are given above the floor.
    fn shed_cost(&self, market: &Market, other: &Addition, given: i64) -> i64 {
        if !market.may_shed() {
            return 0;
        }
        let shed = self.needed_with(other).saturating_sub(given).max(0);
        shortage_cost(market.shed, shed)
    }

    /// What the period costs with another unit, whose own cost is left out.
    pub(crate) fn cost_with(&self, market: &Market, other: &Addition) -> i64 {
        let given = self.given_with(market, other);
        let floor = self.floor.saturating_add(other.floor);
        let surplus = floor.saturating_sub(self.bearable).max(0);
        let short = self.lack_of_reserve(other, given).max(0);
        let is_breached = given > self.watts
            || surplus > 0
            || (short > 0 && self.reserve_rate >= market.scarcity);
        self.base
            .saturating_add(self.fill(market, given).cost)
            .saturating_add(self.shed_cost(market, other, given))
            .saturating_add(cost_of(market.scarcity, surplus))
            .saturating_add(shortage_cost(self.reserve_rate, short))
            .saturating_add(if is_breached { market.breach } else { 0 })
    }

    /// The mark of what is in the period and of the price of reserve.
    pub fn key(&self) -> u64 {
        self.mark
            .wrapping_add(self.reserve_rate.unsigned_abs())
            .wrapping_add(1)
    }

    /// The key of the period without a unit in its window.
    pub fn key_without(&self, unit: &Unit, window: &Window) -> u64 {
        self.key().wrapping_sub(mark_of(unit, window))
    }

    /// What the period costs.
    pub(crate) fn cost(&mut self, market: &Market) -> i64 {
        let key = self.key();
        if self.known.0 != key {
            self.known = (key, self.cost_with(market, &NOTHING));
        }
        self.known.1
    }

    /// Whether output or reserve is lacking with another unit, or output is too much.
    pub(crate) fn is_lacking_with(&self, market: &Market, other: &Addition) -> bool {
        self.needed_with(other) > self.watts
            || self.floor.saturating_add(other.floor) > self.bearable
            || self.short_with(market, other) > 0
    }

    /// Whether demand stays unserved because no watts are left that cost less.
    pub fn is_unserved(&self, market: &Market) -> bool {
        market.may_shed() && self.served_with(market, &NOTHING) > self.worth_with(market, &NOTHING)
    }

    /// The watts inside the windows of the on units.
    pub(crate) fn watts(&self) -> i64 {
        self.watts
    }

    /// The watts of reserve that are lacking with another unit.
    pub(crate) fn short_with(&self, market: &Market, other: &Addition) -> i64 {
        self.lack_of_reserve(other, self.worth_with(market, other))
            .max(0)
    }

    // The same, where so many watts are given; below 0 where there is room for more.
    fn lack_of_reserve(&self, other: &Addition, given: i64) -> i64 {
        self.power
            .saturating_add(other.power)
            .saturating_add(given)
            .saturating_add(self.reserve)
            .saturating_sub(self.heads.saturating_add(other.head))
    }

    /// Whether hardly more reserve is left than is wanted, or less.
    pub(crate) fn is_short_soon(&self, market: &Market) -> bool {
        self.spare(market) < self.reserve / 20
    }

    /// By how much more reserve is left than is wanted; below 0 where it is less.
    pub(crate) fn spare(&self, market: &Market) -> i64 {
        let given = self.worth_with(market, &NOTHING);
        self.lack_of_reserve(&NOTHING, given).saturating_neg()
    }
}
