//! What is supplied in a period, segment by segment in the order of merit.
//!
//! Sums stand over stretches of segments. A look-up begins at a mark, which is kept near where the period is filled to: in a large system
//! one unit moves that by few segments.

use std::alloc::Global;
use uc_model::NoMemory;

/// So many segments make a stretch.
const STRETCH: usize = 16;

/// Watts, and what they cost in micro-dollars.
#[derive(Clone, Copy)]
struct Amount {
    watts: i64,
    cost: i64,
}

const NOTHING: Amount = Amount { watts: 0, cost: 0 };

impl Amount {
    fn plus(self, other: Amount) -> Amount {
        Amount {
            watts: self.watts.wrapping_add(other.watts),
            cost: self.cost.wrapping_add(other.cost),
        }
    }

    fn less(self, other: Amount) -> Amount {
        Amount {
            watts: self.watts.wrapping_sub(other.watts),
            cost: self.cost.wrapping_sub(other.cost),
        }
    }
}

// A stretch, and what all before it is.
#[derive(Clone, Copy)]
struct Mark {
    stretch: usize,
    before: Amount,
}

const FIRST: Mark = Mark {
    stretch: 0,
    before: NOTHING,
};

/// What each segment supplies, by its place in the order of merit; what stretches of them do; and where look-ups begin.
#[derive(Drop)]
pub(crate) struct Supply {
    segments: Vec<Amount>,
    stretches: Vec<Amount>,
    mark: Mark,
}

/// How far watts go in the order of merit: all before the place, and so many watts there; and what they cost.
#[derive(Clone, Copy)]
pub(crate) struct Fill {
    pub place: usize,
    pub left: i64,
    pub cost: i64,
}

impl Supply {
    /// That of so many segments, which supply nothing. The only error is `NoMemory`.
    pub(crate) fn new(alloc: Global, segments: usize) -> Result<Supply, NoMemory> {
        let stretches = segments.div_ceil(STRETCH);
        Ok(Supply {
            segments: vec![in alloc; NOTHING; segments]?,
            stretches: vec![in alloc; NOTHING; stretches]?,
            mark: FIRST,
        })
    }

    /// Takes all away.
    pub(crate) fn clear(&mut self) {
        self.segments.fill(NOTHING);
        self.stretches.fill(NOTHING);
        self.mark = FIRST;
    }

    /// Adds watts and their cost to the segment at a place.
    pub(crate) fn add(&mut self, place: usize, watts: i64, cost: i64) {
        let more = Amount { watts, cost };
        let stretch = place / STRETCH;
        if place < self.segments.len() && stretch < self.stretches.len() {
            self.segments[place] = self.segments[place].plus(more);
            self.stretches[stretch] = self.stretches[stretch].plus(more);
            if stretch < self.mark.stretch {
                self.mark.before = self.mark.before.plus(more);
            }
        }
    }

    /// Puts the mark where so many watts end.
    pub(crate) fn set_mark(&mut self, watts: i64) {
        self.mark = self.mark_at(watts);
    }

    // The first stretch that isn't within so many watts.
    fn mark_at(&self, watts: i64) -> Mark {
        let mut mark = self.mark;
        for stretch in (0..mark.stretch.min(self.stretches.len())).rev() {
            if mark.before.watts <= watts {
                break;
            }
            let before = mark.before.less(self.stretches[stretch]);
            mark = Mark { stretch, before };
        }
        for stretch in mark.stretch..self.stretches.len() {
            let before = mark.before.plus(self.stretches[stretch]);
            if before.watts > watts {
                break;
            }
            let stretch = stretch.saturating_add(1);
            mark = Mark { stretch, before };
        }
        mark
    }

    /// How far so many watts go, as many segments as they can, and what all before the last one costs.
    pub(crate) fn filled(&self, watts: i64) -> Fill {
        let Mark { stretch, before } = self.mark_at(watts);
        let mut fill = Fill {
            place: stretch.saturating_mul(STRETCH).min(self.segments.len()),
            left: watts.wrapping_sub(before.watts),
            cost: before.cost,
        };
        for place in fill.place..self.segments.len() {
            let own = self.segments[place];
            if own.watts > fill.left {
                break;
            }
            fill = Fill {
                place: place.saturating_add(1),
                left: fill.left.wrapping_sub(own.watts),
                cost: fill.cost.wrapping_add(own.cost),
            };
        }
        fill
    }

    /// The watts before a place.
    pub(crate) fn watts_before(&self, place: usize) -> i64 {
        let place = place.min(self.segments.len());
        let stretch = place / STRETCH;
        let Mark {
            stretch: from,
            before,
        } = self.mark;
        let mut watts = before.watts;
        for i in stretch..from.min(self.stretches.len()) {
            watts = watts.wrapping_sub(self.stretches[i].watts);
        }
        for i in from..stretch.min(self.stretches.len()) {
            watts = watts.wrapping_add(self.stretches[i].watts);
        }
        for i in stretch.saturating_mul(STRETCH)..place {
            watts = watts.wrapping_add(self.segments[i].watts);
        }
        watts
    }
}
