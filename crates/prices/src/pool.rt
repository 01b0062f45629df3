//! The cuts of earlier ascents, with which the ascent at another node begins.

use crate::steps::cells_of;
use bundle::{Bundle, Cut, times};
use dual_model::Node;
use quick_value::Evaluation;
use std::alloc::Global;
use uc_model::{Instance, NoMemory, WHOLE_SHARE};

/// The most cuts that a pool keeps, and the most prices and cells that they have together.
const MOST_CUTS: usize = 1500;

const MOST_NUMBERS: usize = 1 << 22;

/// With more cells it keeps none.
const MOST_CELLS: usize = 8000;

/// A cut: by how many watts each priced need falls short of what is given, the value that the cut has where all prices are 0, and which unit is
/// on in which period, unit by unit.
#[derive(Drop)]
struct Kept {
    lacks: Vec<i64>,
    base: i128,
    on: Vec<bool>,
}

/// A kept cut by its place, and how far it lies above the value where an ascent begins.
#[derive(Clone, Copy)]
struct Fit {
    place: usize,
    error: i128,
}

/// The latest cuts of the ascents of an instance, with the place of the next one that is given up; what the cut that was found last comes to at
/// no prices; the most cuts that are kept; the stride of the last step that moved a centre; and the cells that a node decides, by their
/// places, with whether they are on.
#[derive(Drop)]
pub struct CutPool {
    kept: Vec<Kept>,
    oldest: usize,
    newest: i128,
    most: usize,
    stride: Option<i64>,
    decided: Vec<(usize, bool)>,
}

impl CutPool {
    /// An empty pool.
    pub fn new(alloc: Global) -> CutPool {
        CutPool::of(alloc, MOST_CUTS)
    }

    /// A pool that keeps nothing, for ascents that share no cuts.
    pub fn closed(alloc: Global) -> CutPool {
        CutPool::of(alloc, 0)
    }

    fn of(alloc: Global, most: usize) -> CutPool {
        CutPool {
            kept: Vec::new(alloc),
            oldest: 0,
            newest: 0,
            most,
            stride: None,
            decided: Vec::new(alloc),
        }
    }

    /// Whether it keeps cuts of the instance.
    pub(crate) fn is_open(&self, instance: &Instance) -> bool {
        self.most > 0 && cells_of(instance) <= MOST_CELLS
    }

    /// Takes the decisions of a node of the instance: from now on only cuts that keep them are lent. The only error is `NoMemory`.
    pub(crate) fn turn_to(&mut self, instance: &Instance, node: &Node) -> Result<(), NoMemory> {
        self.decided.clear();
        for fixing in node.fixings.as_slice() {
            let place = (fixing.g as usize)
                .saturating_mul(instance.periods as usize)
                .saturating_add(fixing.t as usize);
            self.decided.push((place, fixing.on))?;
        }
        Ok(())
    }

    /// Keeps the cut of what was found at these prices. The only error is `NoMemory`.
    pub(crate) fn keep(
        &mut self,
        alloc: Global,
        found: &Evaluation,
        prices: &[i64],
    ) -> Result<(), NoMemory> {
        if self.most == 0 || found.shares.len() > MOST_CELLS {
            return Ok(());
        }
        let base = found.value.saturating_sub(worth(&found.lacks, prices));
        self.newest = base;
        if !self.has(base) {
            let kept = Kept {
                lacks: found.lacks.clone()?,
                base,
                on: on_of(alloc, &found.shares)?,
            };
            self.put(kept)?;
        }
        Ok(())
    }

    // Whether a cut is kept that comes to the same at no prices, which is hardly another one.
    fn has(&self, base: i128) -> bool {
        for kept in &self.kept {
            if kept.base == base {
                return true;
            }
        }
        false
    }

    // Keeps a cut, in place of the oldest one where there are many.
    fn put(&mut self, cut: Kept) -> Result<(), NoMemory> {
        let numbers = cut.lacks.len().saturating_add(cut.on.len()).max(1);
        let most = self.most.min(MOST_NUMBERS / numbers).max(1);
        if self.kept.len() < most {
            self.kept.push(cut)?;
        } else if let Some(oldest) = self.kept.get_mut(self.oldest) {
            *oldest = cut;
            self.oldest = self.oldest.saturating_add(1) % most;
        }
        Ok(())
    }

    /// Keeps the stride of a step that moves the bundle's centre.
    pub(crate) fn keep_stride(&mut self, bundle: &Bundle) {
        self.stride = Some(bundle.stride());
    }

    /// Lends a bundle, whose centre lies at these prices, where the value is so much, as many cuts as it has room for: those that lie lowest
    /// there of those that the node leaves; and the stride. The only error is `NoMemory`.
    pub(crate) fn lend(
        &self,
        alloc: Global,
        bundle: &mut Bundle,
        prices: &[i64],
        value: i128,
    ) -> Result<(), NoMemory> {
        if self.kept.is_empty() {
            return Ok(());
        }
        let fits = self.fits(alloc, prices, value)?;
        let unused = fits.len().saturating_sub(bundle.room());
        for fit in fits.iter().skip(unused) {
            if let Some(kept) = self.kept.get(fit.place) {
                let cut = kept.cut(alloc, bundle, fit.error)?;
                bundle.push(alloc, cut)?;
            }
        }
        if let Some(stride) = self.stride {
            bundle.set_stride(stride);
        }
        Ok(())
    }

    // The kept cuts that the node leaves, but the newest, which the bundle has; those that lie highest first.
    fn fits(&self, alloc: Global, prices: &[i64], value: i128) -> Result<Vec<Fit>, NoMemory> {
        let mut fits = Vec::new(alloc);
        for (place, kept) in self.kept.iter().enumerate() {
            if kept.base != self.newest && kept.keeps(&self.decided) {
                let height = kept.base.saturating_add(worth(&kept.lacks, prices));
                let error = height.saturating_sub(value).max(0);
                fits.push(Fit { place, error })?;
            }
        }
        fits.sort_by_key(|fit| fit.error.saturating_neg())?;
        Ok(fits)
    }
}

impl Kept {
    // Whether the cells are on, or off, as they are decided.
    fn keeps(&self, decided: &[(usize, bool)]) -> bool {
        for (place, decided) in decided {
            match self.on.get(*place) {
                Some(on) if *on == *decided => {}
                _ => return false,
            }
        }
        true
    }

    // The cut of a bundle, without weight, that lies so far above the value.
    fn cut(&self, alloc: Global, bundle: &Bundle, error: i128) -> Result<Cut, NoMemory> {
        let mut slopes = self.lacks.clone()?;
        bundle.make_slopes(&mut slopes);
        let mut shares = Vec::with_capacity(alloc, self.on.len())?;
        for on in &self.on {
            shares.push(if *on { WHOLE_SHARE } else { 0 })?;
        }
        Ok(Cut {
            slopes,
            error,
            weight: 0,
            shares,
        })
    }
}

// What so many watts are worth at prices.
fn worth(watts: &[i64], prices: &[i64]) -> i128 {
    let mut sum: i128 = 0;
    for (watts, price) in watts.iter().zip(prices) {
        if *price != 0 {
            sum = sum.saturating_add(times(*watts, *price));
        }
    }
    sum
}

// Which cells are on, by their shares.
fn on_of(alloc: Global, shares: &[i64]) -> Result<Vec<bool>, NoMemory> {
    let mut on = Vec::with_capacity(alloc, shares.len())?;
    for share in shares {
        on.push(*share > 0)?;
    }
    Ok(on)
}
