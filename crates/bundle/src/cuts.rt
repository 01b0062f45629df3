//! A bundle of cuts of the Lagrangian bound, and the move to where they say that it is higher.
//!
//! A cut lies above the bound at all prices. The move is that of a proximal bundle: it maximises the least of the cuts less the
//! square of its length over twice the stride. It is the stride times a mean of the cuts' slopes, and the weights of this mean are
//! found by moving weight from the highest of the weighted cuts to the lowest cut.

use crate::field::Field;
use crate::numbers::{at, narrow, times, within, word};
use crate::products::{Products, add_multiple};
use std::alloc::Global;
use uc_model::{Instance, NoMemory, Thermal};

/// The sum of the weights.
pub const WHOLE: i64 = 1 << 24;

/// The greatest slope in size.
const STEEPEST: i64 = 1 << 20;

/// The stride is in parts of this.
const PART: i64 = 1 << 16;

/// The greatest stride.
const LONGEST: i64 = 1 << 40;

/// How often the prices that stay at 0 are found anew, and how often weight is moved then.
const PASSES: u32 = 6;

const SHIFTS: u32 = 40;

/// Ends that are apart by this part of the bound are near.
const NEAR: i128 = 10_000_000;

/// A cut of less weight may be given up.
const LIGHT: i64 = 1 << 14;

/// The most cuts that are kept, and those where there are more cells than so many.
const MOST_CUTS: usize = 24;

const FEW_CUTS: usize = 4;

/// The most where more are asked for.
const MORE_CUTS: usize = 64;

const MANY_CELLS: usize = 8000;

/// The most doublings of the unit of slopes.
const DOUBLINGS: u32 = 43;

/// A cut: its slope in each price, in units of watts that are the bundle's, by how much it lies above the bound at the centre, its
/// weight, and how often each unit was on in each period where it was found, in parts of `PART`.
#[derive(Drop)]
pub struct Cut {
    pub slopes: Vec<i64>,
    pub error: i128,
    pub weight: i64,
    pub shares: Vec<i64>,
}

/// The cuts, and the products of their slopes over the prices that move freely; how many prices may be below 0, which come first; how many
/// act on the whole system, which are these and as many after them, and then on each unit whose ramps can bind; by how much the slopes in
/// each price are enlarged, those of the system by 1; how often a watt is doubled to a unit of slopes; the stride, in parts of `PART`;
/// the most cuts that are kept; a price that is held; and how high the prices that may be below 0, and the others that act on the whole
/// system, may rise. Cuts that were given up are spare: new ones take their memory.
#[derive(Drop)]
pub struct Bundle {
    cuts: Vec<Cut>,
    spare: Vec<Cut>,
    products: Products,
    free: usize,
    system: usize,
    metrics: Vec<i64>,
    doublings: u32,
    stride: i64,
    most: usize,
    held: Option<usize>,
    caps: (i64, i64),
}

/// The moves of the prices that move, by their places in rising order, and by how much the bound rises at most with them.
#[derive(Drop)]
pub struct PriceStep {
    pub moved: Vec<(usize, i64)>,
    pub predicted: i128,
}

// The cut that lies lowest after the move, the highest that has weight, and their heights.
#[derive(Clone, Copy)]
struct Ends {
    low: usize,
    least: i128,
    high: usize,
    most: i128,
}

impl Ends {
    // The ends of no cuts.
    fn none() -> Ends {
        Ends {
            low: 0,
            least: i128::MAX,
            high: 0,
            most: i128::MIN,
        }
    }

    // The ends by these heights and weights.
    fn of(heights: &[i128], weights: &[i64]) -> Ends {
        let mut ends = Ends::none();
        for k in 0..heights.len().min(weights.len()) {
            ends.see(k, heights[k], weights[k]);
        }
        ends
    }

    // Takes cut k into account.
    fn see(&mut self, k: usize, height: i128, weight: i64) {
        if height < self.least {
            self.low = k;
            self.least = height;
        }
        if weight > 0 && height > self.most {
            self.high = k;
            self.most = height;
        }
    }

    // How far they are apart.
    fn apart(&self) -> i128 {
        self.most.saturating_sub(self.least)
    }

    // Whether they are one, or as near as makes no odds where the bound is of this size.
    fn are_near(&self, size: i128) -> bool {
        self.low == self.high || self.apart() <= size / NEAR
    }
}

// A shift of weight from the highest cut to the lowest one, over such a reach.
#[derive(Clone, Copy)]
struct Shift {
    low: usize,
    high: usize,
    amount: i64,
    reach: i64,
}

impl Shift {
    // Moves the weight.
    fn take(self, weights: &mut [i64]) {
        if let Some(weight) = weights.get_mut(self.high) {
            *weight = weight.saturating_sub(self.amount);
        }
        if let Some(weight) = weights.get_mut(self.low) {
            *weight = weight.saturating_add(self.amount);
        }
    }

    // By how much a cut rises whose products with the two are these. Nothing here comes near the ends of its type.
    fn rise(self, low: i64, high: i64) -> i128 {
        let change = times(low.wrapping_sub(high), self.amount) / i128::from(WHOLE);
        change.wrapping_mul(i128::from(self.reach)) / i128::from(PART)
    }
}

// The weighted mean of a cut's products with all cuts.
fn mean_product(row: &[i64], weights: &[i64]) -> i64 {
    let mut sum: i128 = 0;
    for k in 0..row.len().min(weights.len()) {
        if weights[k] != 0 {
            sum = sum.wrapping_add(times(row[k], weights[k]));
        }
    }
    word(sum / i128::from(WHOLE))
}

impl Bundle {
    /// A bundle without cuts for the ascents of an instance, in which the ramps of these units can bind. The only error is `NoMemory`.
    pub fn of(alloc: Global, instance: &Instance, ramped: &[u32]) -> Result<Bundle, NoMemory> {
        let periods = instance.periods as usize;
        let units = instance.thermal.as_slice().len();
        Ok(Bundle {
            cuts: Vec::new(alloc),
            spare: Vec::new(alloc),
            products: Products::none(alloc),
            free: periods,
            system: periods.saturating_mul(2),
            metrics: metrics(alloc, instance, ramped)?,
            doublings: doublings_of(instance),
            stride: 1,
            held: None,
            caps: (i64::MAX, i64::MAX),
            most: if units.saturating_mul(periods) <= MANY_CELLS {
                MOST_CUTS
            } else {
                FEW_CUTS
            },
        })
    }

    /// Keeps more cuts, unless there are many cells.
    pub fn keep_more(&mut self) {
        if !self.has_few_cuts() {
            self.most = MORE_CUTS;
        }
    }

    /// Holds a price where it is: slopes in it count as 0.
    pub fn hold(&mut self, place: usize) {
        self.held = Some(place);
    }

    /// Keeps the prices that may be below 0 and the others that act on the whole system at these caps or below them.
    pub fn cap(&mut self, first: i64, second: i64) {
        self.caps = (first, second);
    }

    // How high price i may rise. One that is held stays where it is.
    fn cap_of(&self, i: usize) -> i64 {
        if i >= self.system || self.held == Some(i) {
            i64::MAX
        } else if i < self.free {
            self.caps.0
        } else {
            self.caps.1
        }
    }

    // Whether price i may not go on from there: it is at its cap, or at 0 where it may not be below that.
    fn is_at_end(&self, i: usize, price: i64) -> bool {
        price == self.cap_of(i) || (i >= self.free && price == 0)
    }

    /// Whether few cuts are kept.
    pub fn has_few_cuts(&self) -> bool {
        self.most <= FEW_CUTS
    }

    /// The first cut, with all weight, by which the first step is to raise the bound by so much.
    pub fn begin(&mut self, alloc: Global, cut: Cut, rise: i128) -> Result<(), NoMemory> {
        let slopes = by_place(alloc, &cut.slopes)?;
        let length = self.change(&cut.slopes, &slopes).max(1);
        let rise = rise.saturating_mul(i128::from(PART));
        self.stride = within(rise / length, LONGEST).max(1);
        self.push(alloc, cut)
    }

    /// Another stride where a step promises hardly anything: a longer one, or a shorter one by the newest cut alone where it promises
    /// a loss.
    pub fn try_another_stride(&mut self, predicted: i128) {
        if predicted >= 0 {
            self.scale_stride(4, 1);
        } else {
            self.scale_stride(7, 10);
            self.trust_newest();
        }
    }

    /// Makes slopes of the watts that lack of what each price is of.
    pub fn make_slopes(&self, watts: &mut [i64]) {
        for (i, own) in watts.iter_mut().enumerate() {
            let enlarged = own.saturating_mul(self.metric_at(i));
            *own = slope_of(enlarged, self.doublings);
        }
        if let Some(place) = self.held {
            if let Some(own) = watts.get_mut(place) {
                *own = 0;
            }
        }
    }

    // The watts of a unit of slopes.
    fn unit(&self) -> i64 {
        1 << self.doublings.min(DOUBLINGS)
    }

    // By how much the slopes in price i are enlarged.
    fn metric_at(&self, i: usize) -> i64 {
        at(&self.metrics, i).max(1)
    }

    /// The move from the centre, at which the bound is some `size`.
    pub fn step(
        &mut self,
        alloc: Global,
        center: &[i64],
        size: i128,
    ) -> Result<PriceStep, NoMemory> {
        let field = Field::of(alloc, &self.cuts, center, self.free)?;
        let mut moves = self.moves(alloc, &field)?;
        for _ in 0..PASSES {
            self.balance(alloc, &field, &moves, size)?;
            let next = self.moves(alloc, &field)?;
            let same = self.are_same_bounds(&field, &moves, &next, center.len());
            moves = next;
            if same {
                break;
            }
        }
        let moved = moved(alloc, &field.places, &moves)?;
        let predicted = self.predicted(&moved);
        Ok(PriceStep { moved, predicted })
    }

    // The moves of a field's prices by the weights, that of a price which would end at or below 0, where it may not, being to 0, and that of
    // one which would end at or above its cap to that.
    fn moves(&self, alloc: Global, field: &Field) -> Result<Vec<i64>, NoMemory> {
        let mut moves = self.sums(alloc, field)?;
        let (places, prices) = (field.places.as_slice(), field.prices.as_slice());
        for k in 0..moves.len().min(places.len()).min(prices.len()) {
            moves[k] = self.move_of(places[k], prices[k], moves[k]);
        }
        Ok(moves)
    }

    // The move of price i, by the weighted sum of the cuts' slopes in it.
    fn move_of(&self, i: usize, price: i64, sum: i64) -> i64 {
        let mean = (sum / PART).saturating_mul(self.metric_at(i));
        let by = narrow(times(self.stride, mean) / i128::from(WHOLE));
        if i >= self.free && price.saturating_add(by) <= 0 {
            price.saturating_neg()
        } else if price.saturating_add(by) >= self.cap_of(i) {
            self.cap_of(i).saturating_sub(price)
        } else {
            by
        }
    }

    // The weighted sum of the cuts' slopes in each price of a field.
    fn sums(&self, alloc: Global, field: &Field) -> Result<Vec<i64>, NoMemory> {
        let mut sums = vec![in alloc; 0_i64; field.places.len()]?;
        let (cuts, slopes) = (self.cuts.as_slice(), field.slopes.as_slice());
        for k in 0..cuts.len().min(slopes.len()) {
            if cuts[k].weight > 0 {
                add_multiple(&mut sums, &slopes[k], cuts[k].weight);
            }
        }
        Ok(sums)
    }

    // Moves weight from the highest weighted cuts to the lowest one.
    fn balance(
        &mut self,
        alloc: Global,
        field: &Field,
        moves: &[i64],
        size: i128,
    ) -> Result<(), NoMemory> {
        let reach = self.stride.saturating_mul(self.unit());
        let mut active = Vec::new(alloc);
        let mut stopped = Vec::new(alloc);
        self.part(field, moves, &mut active, &mut stopped)?;
        self.products.count(alloc, &self.cuts, active)?;
        let mut weights = self.weights(alloc)?;
        let mut heights = self.heights(alloc, &weights, &stopped, reach)?;
        let mut ends = Ends::of(&heights, &weights);
        for _ in 0..SHIFTS {
            let shift = self.shift(&ends, &weights, reach);
            if ends.are_near(size) || shift.amount == 0 {
                break;
            }
            shift.take(&mut weights);
            ends = self.shifted(&mut heights, &weights, shift);
        }
        for k in 0..self.cuts.len().min(weights.len()) {
            self.cuts[k].weight = weights[k];
        }
        Ok(())
    }

    // The weights of the cuts.
    fn weights(&self, alloc: Global) -> Result<Vec<i64>, NoMemory> {
        let mut weights = Vec::with_capacity(alloc, self.cuts.len())?;
        for cut in &self.cuts {
            weights.push(cut.weight)?;
        }
        Ok(weights)
    }

    // Parts a field's prices by their moves: the places of those that end neither at 0, where they may not be below it, nor at their caps;
    // and of the others the moves that aren't 0.
    fn part(
        &self,
        field: &Field,
        moves: &[i64],
        active: &mut Vec<usize>,
        stopped: &mut Vec<(usize, i64)>,
    ) -> Result<(), NoMemory> {
        let (places, prices) = (field.places.as_slice(), field.prices.as_slice());
        for k in 0..moves.len().min(places.len()).min(prices.len()) {
            let (i, by) = (places[k], moves[k]);
            if !self.is_at_end(i, prices[k].saturating_add(by)) {
                active.push(i)?;
            } else if by != 0 {
                stopped.push((i, by))?;
            }
        }
        Ok(())
    }

    // The heights of the cuts after the moves, by the products over the prices that are active, and by the moves of the others.
    fn heights(
        &self,
        alloc: Global,
        weights: &[i64],
        stopped: &[(usize, i64)],
        reach: i64,
    ) -> Result<Vec<i128>, NoMemory> {
        let mut heights = Vec::with_capacity(alloc, self.cuts.len())?;
        let (cuts, rows) = (self.cuts.as_slice(), self.products.rows.as_slice());
        for k in 0..cuts.len().min(rows.len()) {
            let fixed = self.fixed(&cuts[k], stopped);
            let mean = mean_product(&rows[k], weights);
            heights.push(fixed.saturating_add(along(mean, reach)))?;
        }
        Ok(heights)
    }

    // Whether nearly the same of a field's prices end at 0 or at their caps, in proportion to so many prices in all.
    fn are_same_bounds(&self, field: &Field, first: &[i64], second: &[i64], all: usize) -> bool {
        let mut changed: usize = 0;
        let (places, prices) = (field.places.as_slice(), field.prices.as_slice());
        let count = places.len().min(prices.len());
        for k in 0..count.min(first.len()).min(second.len()) {
            let (one, other) = (
                prices[k].saturating_add(first[k]),
                prices[k].saturating_add(second[k]),
            );
            if self.is_one_at_end(places[k], one, other) {
                changed = changed.saturating_add(1);
            }
        }
        changed.saturating_mul(10_000) <= all
    }

    // Whether one of two values of price i is 0 or its cap and the other one isn't.
    fn is_one_at_end(&self, i: usize, first: i64, second: i64) -> bool {
        let cap = self.cap_of(i);
        (first == 0) != (second == 0) || (first == cap) != (second == cap)
    }

    // The shift of weight between the ends that brings them to one height.
    fn shift(&self, ends: &Ends, weights: &[i64], reach: i64) -> Shift {
        let (low, high) = (ends.low, ends.high);
        let between = self.products.of(low, high).saturating_mul(2);
        let bend = self
            .products
            .of(low, low)
            .saturating_add(self.products.of(high, high))
            .saturating_sub(between);
        let apart = ends.apart().saturating_mul(i128::from(WHOLE));
        let most = at(weights, high).max(0);
        let amount = within(divided(apart, along(bend, reach)), most).max(0);
        Shift {
            low,
            high,
            amount,
            reach,
        }
    }

    // Moves the heights by a shift, after which these are the weights, and finds the ends anew.
    fn shifted(&self, heights: &mut [i128], weights: &[i64], shift: Shift) -> Ends {
        let mut ends = Ends::none();
        let low = self.products.row(shift.low);
        let high = self.products.row(shift.high);
        let count = heights
            .len()
            .min(weights.len())
            .min(low.len())
            .min(high.len());
        for k in 0..count {
            let height = heights[k].wrapping_add(shift.rise(low[k], high[k]));
            heights[k] = height;
            ends.see(k, height, weights[k]);
        }
        ends
    }

    // The error of a cut after the moves of the prices that end at 0.
    fn fixed(&self, cut: &Cut, stopped: &[(usize, i64)]) -> i128 {
        cut.error.saturating_add(self.change(&cut.slopes, stopped))
    }

    /// The stride, in parts of `PART`.
    pub fn stride(&self) -> i64 {
        self.stride
    }

    /// Takes this stride, in parts of `PART`, within its limits.
    pub fn set_stride(&mut self, stride: i64) {
        self.stride = within(i128::from(stride), LONGEST).max(1);
    }

    /// How many more cuts are kept before one is given up.
    pub fn room(&self) -> usize {
        self.most.saturating_sub(self.cuts.len())
    }

    /// By how much a cut with these slopes changes with the moves of some prices.
    pub fn change(&self, slopes: &[i64], moved: &[(usize, i64)]) -> i128 {
        let mut change: i128 = 0;
        let mut enlarged: i128 = 0;
        let mut metric: i64 = 1;
        for (i, by) in moved {
            let own = self.metric_at(*i);
            if own != metric {
                change = change.wrapping_add(enlarged / i128::from(metric.max(1)));
                enlarged = 0;
                metric = own;
            }
            enlarged = enlarged.wrapping_add(times(at(slopes, *i), *by));
        }
        change
            .wrapping_add(enlarged / i128::from(metric.max(1)))
            .saturating_mul(i128::from(self.unit()))
    }

    // By how much the bound rises at most with the moves, by the cuts that have weight.
    fn predicted(&self, moved: &[(usize, i64)]) -> i128 {
        let mut least = i128::MAX;
        for cut in &self.cuts {
            if cut.weight > 0 {
                least = least.min(cut.error.saturating_add(self.change(&cut.slopes, moved)));
            }
        }
        least
    }

    /// Lengthens or shortens the stride.
    pub fn scale_stride(&mut self, times: i64, over: i64) {
        let stride = i128::from(self.stride).saturating_mul(i128::from(times))
            / i128::from(over.max(1));
        self.stride = within(stride, LONGEST).max(1);
    }

    // All weight to the newest cut.
    fn trust_newest(&mut self) {
        let count = self.cuts.len();
        for (k, cut) in self.cuts.iter_mut().enumerate() {
            cut.weight = if k.saturating_add(1) == count {
                WHOLE
            } else {
                0
            };
        }
    }

    /// The centre moved: each cut's error is anew what it lies above the bound there.
    pub fn recenter(&mut self, moved: &[(usize, i64)], gain: i128) {
        for k in 0..self.cuts.len() {
            let change = match self.cuts.get(k) {
                Some(cut) => self.change(&cut.slopes, moved),
                None => 0,
            };
            if let Some(cut) = self.cuts.get_mut(k) {
                cut.error = cut.error.saturating_add(change).saturating_sub(gain);
            }
        }
    }

    /// Takes a cut. Where there are too many, one that has hardly any weight is given up, or else all but the newest ones are made one.
    pub fn push(&mut self, alloc: Global, cut: Cut) -> Result<(), NoMemory> {
        self.cuts.push(cut)?;
        self.products.push(alloc, &self.cuts)?;
        if self.cuts.len() > self.most {
            let (lightest, least) = self.lightest();
            if least < LIGHT {
                self.give_up(lightest)?;
            } else {
                self.merge(alloc)?;
            }
        }
        Ok(())
    }

    // The cut of least weight but the newest one, and its weight.
    fn lightest(&self) -> (usize, i64) {
        let newest = self.cuts.len().saturating_sub(1);
        let mut lightest = 0;
        let mut least = i64::MAX;
        for (k, cut) in self.cuts.iter().enumerate() {
            if k < newest && cut.weight < least {
                lightest = k;
                least = cut.weight;
            }
        }
        (lightest, least)
    }

    // Gives up a cut, and its weight to the newest one.
    fn give_up(&mut self, k: usize) -> Result<(), NoMemory> {
        if k < self.cuts.len() {
            let lost = self.cuts.remove(k);
            self.products.give_up(k);
            if let Some(cut) = self.cuts.last_mut() {
                cut.weight = cut.weight.saturating_add(lost.weight);
            }
            self.spare.push(lost)?;
        }
        Ok(())
    }

    /// Memory for a cut: that of one that was given up, with numbers that mean nothing, if there is one.
    pub fn memory(&mut self, alloc: Global) -> Cut {
        match self.spare.pop() {
            Some(cut) => cut,
            None => Cut {
                slopes: Vec::new(alloc),
                error: 0,
                weight: 0,
                shares: Vec::new(alloc),
            },
        }
    }

    // Makes one cut, the weighted mean, of all but the newest ones.
    fn merge(&mut self, alloc: Global) -> Result<(), NoMemory> {
        let newest = self.most.saturating_sub(2);
        let old = self.cuts.len().saturating_sub(newest);
        let mut mean = self.mean_of(alloc, old)?;
        for _ in 0..old {
            if !self.cuts.is_empty() {
                let cut = self.cuts.remove(0);
                mean.weight = mean.weight.saturating_add(cut.weight);
                self.spare.push(cut)?;
            }
        }
        self.cuts.insert(0, mean)?;
        self.products = Products::none(alloc);
        Ok(())
    }

    /// The mean of the cuts' shares by their weights. The only error is `NoMemory`.
    pub fn mean_shares(&self, alloc: Global) -> Result<Vec<i64>, NoMemory> {
        let mut means = Vec::new(alloc);
        if let Some(first) = self.cuts.first() {
            for i in 0..first.shares.len() {
                let mut sum: i64 = 0;
                for cut in &self.cuts {
                    sum = sum.saturating_add(cut.weight.saturating_mul(at(&cut.shares, i)));
                }
                means.push(sum / WHOLE)?;
            }
        }
        Ok(means)
    }

    // The weighted mean of the first cuts, without weight.
    fn mean_of(&mut self, alloc: Global, count: usize) -> Result<Cut, NoMemory> {
        let mut mean = self.nothing(alloc)?;
        for cut in self.cuts.iter().take(count) {
            mean.add(cut);
        }
        mean.divide();
        Ok(mean)
    }

    // A cut of noughts, as long as the others.
    fn nothing(&mut self, alloc: Global) -> Result<Cut, NoMemory> {
        let (prices, cells) = match self.cuts.first() {
            Some(cut) => (cut.slopes.len(), cut.shares.len()),
            None => (0, 0),
        };
        let mut cut = self.memory(alloc);
        cut.slopes.clear();
        cut.slopes.resize(prices, 0)?;
        cut.shares.clear();
        cut.shares.resize(cells, 0)?;
        cut.error = 0;
        cut.weight = 0;
        Ok(cut)
    }
}

impl Cut {
    // Adds another one times its weight, and this weight.
    fn add(&mut self, cut: &Cut) {
        add_multiple(&mut self.slopes, &cut.slopes, cut.weight);
        add_multiple(&mut self.shares, &cut.shares, cut.weight);
        let error = cut.error.saturating_mul(i128::from(cut.weight));
        self.error = self.error.saturating_add(error);
        self.weight = self.weight.saturating_add(cut.weight);
    }

    // Makes a mean of what was added, without weight.
    fn divide(&mut self) {
        let total = self.weight.max(1);
        divide(&mut self.slopes, total);
        divide(&mut self.shares, total);
        self.error = self.error / i128::from(total);
        self.weight = 0;
    }
}

// Divides numbers by one that is at least 1.
fn divide(numbers: &mut [i64], by: i64) {
    let by = by.max(1);
    for number in numbers.iter_mut() {
        *number = *number / by;
    }
}

// By how much the slopes in each price are enlarged: in those of the system, and in those of each unit whose ramps can bind.
fn metrics(alloc: Global, instance: &Instance, ramped: &[u32]) -> Result<Vec<i64>, NoMemory> {
    let units = instance.thermal.as_slice();
    let mut all: i64 = 0;
    for unit in units {
        all = all.saturating_add(unit.range());
    }
    let count = (instance.periods as usize).saturating_mul(2);
    let mut metrics = vec![in alloc; 1_i64; count]?;
    for g in ramped {
        if let Some(unit) = units.get(*g as usize) {
            let end = metrics.len().saturating_add(count);
            metrics.resize(end, metric(all, unit.range()))?;
        }
    }
    Ok(metrics)
}

// Three tenths of the root of how many times all ranges are one unit's, since each price of a ramp acts on one unit alone.
fn metric(all: i64, own: i64) -> i64 {
    let times = all.saturating_mul(100) / own.max(1);
    let root = times.max(0).isqrt();
    (root.saturating_mul(3).saturating_add(50) / 100).max(1)
}

// How often a watt is doubled until a million of it are no less than any period's demand and all units' greatest output.
fn doublings_of(instance: &Instance) -> u32 {
    let mut most: i64 = 1;
    for unit in instance.thermal.as_slice() {
        most = most.saturating_add(unit.pmax);
    }
    for demand in instance.demand.as_slice() {
        most = most.max(demand.saturating_abs());
    }
    for doublings in 0..DOUBLINGS {
        if most >> doublings <= STEEPEST {
            return doublings;
        }
    }
    DOUBLINGS
}

// The slope of so many watts where a unit of it is a watt doubled so often, toward 0 and kept within the steepest. A shift takes a
// tenth of the time of a division.
fn slope_of(watts: i64, doublings: u32) -> i64 {
    let units = watts.unsigned_abs() >> doublings.min(DOUBLINGS);
    let slope = units.min(STEEPEST.unsigned_abs()) as i64;
    if watts < 0 {
        slope.saturating_neg()
    } else {
        slope
    }
}

// The numbers that aren't 0, by their places.
fn by_place(alloc: Global, numbers: &[i64]) -> Result<Vec<(usize, i64)>, NoMemory> {
    let mut found = Vec::new(alloc);
    for (i, number) in numbers.iter().enumerate() {
        if *number != 0 {
            found.push((i, *number))?;
        }
    }
    Ok(found)
}

// The moves that aren't 0, by the places of their prices.
fn moved(alloc: Global, places: &[usize], moves: &[i64]) -> Result<Vec<(usize, i64)>, NoMemory> {
    let mut moved = Vec::new(alloc);
    for k in 0..places.len().min(moves.len()) {
        if moves[k] != 0 {
            moved.push((places[k], moves[k]))?;
        }
    }
    Ok(moved)
}

// A number by another one, which counts as at least 1.
fn divided(number: i128, by: i128) -> i128 {
    number / by.max(1)
}

// What a product of slopes is worth over such a reach: the stride, in units of slopes.
fn along(product: i64, reach: i64) -> i128 {
    times(product, reach) / i128::from(PART)
}
