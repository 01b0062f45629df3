//! What a run costs so far, as a convex function of its last output.

use crate::amounts::times;
use crate::prices::Price;
use crate::unit::{Cap, Corner, Unit};
use std::alloc::Global;
use uc_model::NoMemory;

/// Over so many watts a function rises by this rate.
#[derive(Clone, Copy)]
struct Piece {
    width: i64,
    rate: i64,
}

/// The outputs from `low` to `high`, what they cost, and the first of those that cost least. It costs `value` at `low`, from where pieces of
/// rising rates follow, and `least` at `bottom`. Costs are at the scale `SCALE`.
#[derive(Drop)]
pub(crate) struct RunCost {
    low: i64,
    high: i64,
    value: i128,
    pub least: i128,
    pub bottom: i64,
    pieces: Vec<Piece>,
}

/// An hour of a run: its price, what output and reserve may be together, the greatest output, and what the minimum is worth.
#[derive(Clone, Copy)]
pub(crate) struct Hour {
    price: Price,
    cap: i64,
    most: i64,
    minimum: i128,
}

// Where a function is laid onto an hour's costs: the place that is reached, the last one, and the corner behind the place, with how far its
// segment goes and its rate at the hour's price.
#[derive(Clone, Copy)]
struct Laid {
    place: i64,
    most: i64,
    corner: usize,
    end: i64,
    rate: i64,
    output: i64,
}

// The watts that lie below the output from which on an hour's cap and not the ramp bounds its reserve, and what each of them earns there.
#[derive(Clone, Copy)]
struct Kink {
    left: i64,
    reserve: i64,
}

impl Hour {
    /// An hour under a cap of the unit, with an output of at most so much.
    pub(crate) fn of(unit: &Unit, cap: &Cap, price: &Price, most: i64) -> Hour {
        Hour {
            price: *price,
            cap: cap.most,
            most: cap.power.min(most),
            minimum: times(price.demand, unit.minimum),
        }
    }

    // Whether the unit can be on in it.
    fn is_open(&self) -> bool {
        self.cap >= 0 && self.most >= 0
    }

    // What reserve and the minimum are worth, with output and reserve up to so much together.
    fn worth(&self, head: i64) -> i128 {
        times(self.price.reserve, self.cap.min(head)).saturating_add(self.minimum)
    }
}

impl RunCost {
    /// A function without memory for pieces.
    pub(crate) fn new(alloc: Global) -> RunCost {
        RunCost {
            low: 0,
            high: 0,
            value: 0,
            least: 0,
            bottom: 0,
            pieces: Vec::new(alloc),
        }
    }

    /// The cost of an output alone, which is nothing.
    pub(crate) fn set_point(&mut self, output: i64) {
        self.pieces.clear();
        self.low = output;
        self.high = output;
        self.bottom = output;
        self.value = 0;
        self.least = 0;
    }

    /// The cost of an hour with which a run begins after so much was paid. Whether there is one.
    pub(crate) fn set_start(
        &mut self,
        unit: &Unit,
        hour: &Hour,
        paid: i128,
    ) -> Result<bool, NoMemory> {
        if !hour.is_open() {
            return Ok(false);
        }
        let paid = paid.saturating_sub(hour.worth(unit.rise));
        let mut laid = self.begin(unit, hour, 0, paid);
        let flat = Piece {
            width: hour.most,
            rate: 0,
        };
        self.lay(&unit.corners, &mut laid, &flat)?;
        self.end();
        Ok(true)
    }

    /// The cost with one more hour, and the first of the outputs before it at which the cost so far, less what reserve is worth, is least;
    /// none where no output can be reached.
    pub(crate) fn set_next(
        &mut self,
        from: &RunCost,
        unit: &Unit,
        hour: &Hour,
    ) -> Result<Option<i64>, NoMemory> {
        let place = from.low.saturating_sub(unit.fall);
        if !hour.is_open() || place > hour.most || from.high.saturating_add(unit.rise) < 0 {
            return Ok(None);
        }
        let head = from.low.saturating_add(unit.rise);
        let paid = from.value.saturating_sub(hour.worth(head));
        let mut laid = self.begin(unit, hour, place, paid);
        let mut kink = Kink::of(unit, hour, from.low);
        let mut flat = Piece {
            width: unit.rise.saturating_add(unit.fall),
            rate: 0,
        };
        let mut before = from.low;
        for piece in &from.pieces {
            let cheaper = kink.part(piece);
            for part in [&cheaper.0, &cheaper.1] {
                if part.width <= 0 {
                    continue;
                }
                if part.rate < 0 {
                    before = before.saturating_add(part.width);
                } else if flat.width > 0 {
                    self.lay(&unit.corners, &mut laid, &flat)?;
                    flat.width = 0;
                }
                self.lay(&unit.corners, &mut laid, part)?;
            }
        }
        self.lay(&unit.corners, &mut laid, &flat)?;
        self.end();
        Ok(Some(before))
    }

    // Begins to lay a function that is worth `value` at a place.
    fn begin(&mut self, unit: &Unit, hour: &Hour, place: i64, value: i128) -> Laid {
        self.pieces.clear();
        self.low = place.max(0);
        self.value = value;
        let mut laid = Laid {
            place,
            most: hour.most,
            corner: 0,
            end: 0,
            rate: 0,
            output: hour.price.output,
        };
        for corner in 0..unit.corners.len() {
            laid.corner = corner;
            laid.set_segment(&unit.corners);
            if laid.end > self.low {
                break;
            }
        }
        if laid.corner < unit.corners.len() {
            let corner = &unit.corners[laid.corner];
            let cost = i128::from(corner.cost).saturating_mul(crate::amounts::PART);
            let above = self.low.saturating_sub(corner.power);
            let paid = times(corner.price.saturating_sub(1), above);
            self.value = self
                .value
                .saturating_add(cost)
                .saturating_add(paid)
                .saturating_sub(times(hour.price.output, self.low));
        }
        laid
    }

    // Lays a piece behind what was laid.
    fn lay(&mut self, corners: &[Corner], laid: &mut Laid, piece: &Piece) -> Result<(), NoMemory> {
        let end = laid.place.saturating_add(piece.width);
        if laid.place < 0 {
            let skipped = end.min(0).saturating_sub(laid.place);
            self.value = self.value.saturating_add(times(piece.rate, skipped));
            laid.place = end.min(0);
        }
        let end = end.min(laid.most);
        for _ in laid.corner..corners.len() {
            if laid.place >= end {
                break;
            }
            let to = end.min(laid.end);
            self.push(
                to.saturating_sub(laid.place),
                piece.rate.saturating_add(laid.rate),
            )?;
            laid.place = to;
            if to >= laid.end {
                laid.next(corners);
            }
        }
        Ok(())
    }

    // Adds a piece, to the last one where that has the same rate.
    fn push(&mut self, width: i64, rate: i64) -> Result<(), NoMemory> {
        if width <= 0 {
            return Ok(());
        }
        if let Some(last) = self.pieces.last_mut() {
            if last.rate == rate {
                last.width = last.width.saturating_add(width);
                return Ok(());
            }
        }
        self.pieces.push(Piece { width, rate })?;
        Ok(())
    }

    // Finds where the function ends and is least.
    fn end(&mut self) {
        self.high = self.low;
        self.bottom = self.low;
        self.least = self.value;
        for piece in &self.pieces {
            self.high = self.high.saturating_add(piece.width);
            if piece.rate < 0 {
                self.bottom = self.high;
                self.least = self.least.saturating_add(times(piece.rate, piece.width));
            }
        }
    }

    /// Whether it is no more than another one at all outputs of that.
    pub(crate) fn is_within(&self, other: &RunCost) -> bool {
        if self.least > other.least || self.low > other.low || self.high < other.high {
            return false;
        }
        let mut ahead = other.value.saturating_sub(self.value);
        let mut place = self.low;
        let mut others = other.pieces.iter();
        let mut left = Piece { width: 0, rate: 0 };
        for piece in &self.pieces {
            let mut own = *piece;
            if place < other.low {
                let skipped = own.width.min(other.low.saturating_sub(place));
                ahead = ahead.saturating_sub(times(own.rate, skipped));
                own.width = own.width.saturating_sub(skipped);
                place = place.saturating_add(skipped);
            }
            for _ in 0..other.pieces.len().saturating_add(1) {
                if own.width <= 0 {
                    break;
                }
                if ahead < 0 {
                    return false;
                }
                if left.width <= 0 {
                    match others.next() {
                        Some(next) => left = *next,
                        None => return true,
                    }
                }
                let width = own.width.min(left.width);
                ahead = ahead.saturating_add(times(left.rate.saturating_sub(own.rate), width));
                own.width = own.width.saturating_sub(width);
                left.width = left.width.saturating_sub(width);
            }
        }
        ahead >= 0
    }
}

impl Laid {
    // The segment of its corner, whose rate is the least price at which a watt more earns less 1.
    fn set_segment(&mut self, corners: &[Corner]) {
        let next = self.corner.saturating_add(1);
        self.end = if next < corners.len() {
            corners[next].power
        } else {
            i64::MAX
        };
        if self.corner < corners.len() {
            self.rate = corners[self.corner]
                .price
                .saturating_sub(1)
                .saturating_sub(self.output);
        }
    }

    // Goes on to the next corner.
    fn next(&mut self, corners: &[Corner]) {
        self.corner = self.corner.saturating_add(1);
        self.set_segment(corners);
    }
}

impl Kink {
    // That of an hour behind outputs from `low` on.
    fn of(unit: &Unit, hour: &Hour, low: i64) -> Kink {
        let place = hour.cap.saturating_sub(unit.rise);
        Kink {
            left: if hour.price.reserve > 0 {
                place.saturating_sub(low).max(0)
            } else {
                0
            },
            reserve: hour.price.reserve,
        }
    }

    // The parts of the next piece before and behind the kink.
    fn part(&mut self, piece: &Piece) -> (Piece, Piece) {
        let width = self.left.min(piece.width);
        self.left = self.left.saturating_sub(width);
        let cheaper = Piece {
            width,
            rate: piece.rate.saturating_sub(self.reserve),
        };
        let rest = Piece {
            width: piece.width.saturating_sub(width),
            rate: piece.rate,
        };
        (cheaper, rest)
    }
}
